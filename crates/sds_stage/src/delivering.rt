//! A message that travels as text, delivered at a node.
ghost use Rattle.std.specs.Prelude.{◌≡◌, IfOk, IsTrue, List, ℕ};
ghost use Rattle.std.specs.List.{list_all};
ghost use Rattle.std.specs.Str.{chars};
ghost use Rattle.sds_outside.specs.MemKeeping.{IsKeptOpen, kept_told};
ghost use Rattle.sds_types.specs.declared.config.Config as configs;
ghost use Rattle.sds_types.specs.declared.message.MessagePart.{MessagePart};
ghost use Rattle.sds_history.specs.history.Acts.{State};
ghost use Rattle.sds_history.specs.world.Worlds.{Node as Stood};
ghost use Rattle.sds_node.specs.Meaning.{IsNode};
ghost use Rattle.sds_nodelaws.specs.Asked.{is_ack};
ghost use Rattle.sds_stage.specs.Delivering.{IsTextOf, LoadsAll, Takes};
ghost use Rattle.sds_stage.specs.Standing.{Stands};

use crate::calls::confirm_at;
use crate::loading::load_all;
use crate::showing::settle_at;
use crate::ways::may_take;
use sds_base::{List, NoMemory};
use sds_delivery::{acks_in_order, deliver_places};
use sds_node::Node;
use sds_outside::MemKeeper;
use sds_received::{channels_of, expressions_are_of_characters, read_batches};
use sds_types::{Ack, SyncRefusal};
use std::alloc::Global;

/// A message from a node is delivered at another: where a link leads there, the sender is confirmed,
/// and the batches are loaded, those of the channels that are mentioned first. The answer is an ack
/// of each batch that was answered, in the order of the message.
pub(crate) fn deliver_at(
    alloc: Global,
    node: &mut Node<MemKeeper>,
    from: &str,
    text: &[u8],
    mentions: &[u32],
) -> Result<Result<List<Ack>, SyncRefusal>, NoMemory>
    requires node { IsNode IsKeptOpen kept_told node.old }
    ensures node { IsNode IsKeptOpen kept_told node.new }
    ensures acks { IfOk result (λ answer. IfOk answer (λ acks. IsTrue (list_all is_ack acks))) }
    ensures takes { IfOk result (λ answer. (config : configs.Config) (stood : Stood) (sender : State)
        (to : List ℕ) (parts : List MessagePart) → Stands config node.old stood
        → IsTextOf config sender to parts (chars from.now) text.now
        → Takes config sender to parts (chars from.now) mentions.now stood
        (Stands config node.new) answer) }
{
    settle_at(node)?;
    if !may_take(node, from) {
        return Ok(Err(SyncRefusal::NoWay));
    }
    if let Err(fault) = confirm_at(node, from)? {
        return Ok(Err(SyncRefusal::Fault(fault)));
    }
    load_text(alloc, node, from, text, mentions)
}

/// The batches of a message's text are loaded, and answered.
fn load_text(
    alloc: Global,
    node: &mut Node<MemKeeper>,
    from: &str,
    text: &[u8],
    mentions: &[u32],
) -> Result<Result<List<Ack>, SyncRefusal>, NoMemory>
    requires node { IsNode IsKeptOpen kept_told node.old }
    ensures node { IsNode IsKeptOpen kept_told node.new }
    ensures acks { IfOk result (λ answer. IfOk answer (λ acks. IsTrue (list_all is_ack acks))) }
    ensures loads { IfOk result (λ answer. (config : configs.Config) (stood : Stood) (sender : State)
        (to : List ℕ) (parts : List MessagePart) → Stands config node.old stood
        → IsTextOf config sender to parts (chars from.now) text.now
        → LoadsAll config sender to parts mentions.now stood (Stands config node.new) answer) }
{
    expressions_are_of_characters(node.config());
    let docs = read_batches(alloc, text)?;
    let docs = docs.inner().as_slice();
    let channels = channels_of(alloc, node.config(), docs)?;
    let channels = channels.as_slice();
    let places = deliver_places(alloc, mentions, channels)?;
    let places = places.as_slice();
    let mut acks = Vec::new(alloc);
    let mut held = Vec::new(alloc);
    let refusal = load_all(
        alloc, node, from, docs, channels, places, &mut acks, &mut held,
    )?;
    match refusal {
        Some(refusal) => Ok(Err(refusal)),
        None => Ok(Ok(acks_in_order(alloc, channels.len(), acks.as_slice())?)),
    }
}
