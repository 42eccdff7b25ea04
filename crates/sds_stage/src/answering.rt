//! A reply that comes back to the node that sent its message.
ghost use Rattle.std.specs.Prelude.{◌≡◌, IfOk, IsTrue};
ghost use Rattle.std.specs.List.{All, list_all};
ghost use Rattle.std.specs.Str.{chars};
ghost use Rattle.sds_outside.specs.MemKeeping.{IsKeptOpen, kept_told};
ghost use Rattle.sds_types.specs.declared.config.Config as configs;
ghost use Rattle.sds_types.specs.declared.message.Reply.{Reply as TheirReply};
ghost use Rattle.sds_history.specs.world.Worlds.{Node as Stood};
ghost use Rattle.sds_imagelaws.specs.Widths.{IsHeldAck};
ghost use Rattle.sds_node.specs.Meaning.{IsNode};
ghost use Rattle.sds_nodelaws.specs.Asked.{is_ack};
ghost use Rattle.sds_stage.specs.Answering.{Answers};
ghost use Rattle.sds_stage.specs.Standing.{Stands};

use crate::calls::{confirm_at, take_at};
use crate::showing::settle_at;
use crate::ways::may_send;
use sds_base::NoMemory;
use sds_node::Node;
use sds_outside::MemKeeper;
use sds_types::{Ack, AckRefusal};

/// A reply is taken at the node that sent its message: where a link leads to the node that answers,
/// that one is confirmed, and its acks are taken.
pub(crate) fn answer_at(
    node: &mut Node<MemKeeper>,
    from: &str,
    acks: &[Ack],
) -> Result<Result<u64, AckRefusal>, NoMemory>
    requires node { IsNode IsKeptOpen kept_told node.old }
    requires asked { IsTrue (list_all is_ack acks.now) }
    ensures node { IsNode IsKeptOpen kept_told node.new }
    ensures answers { IfOk result (λ answer. (config : configs.Config) (stood : Stood)
        (reply : TheirReply) → Stands config node.old stood → reply.from ≡ chars from.now
        → reply.acks ≡ acks.now → Answers config stood reply (Stands config node.new) answer) }
{
    settle_at(node)?;
    if !may_send(node, from) {
        return Ok(Err(AckRefusal::UnknownNode));
    }
    if let Err(fault) = confirm_at(node, from)? {
        return Ok(Err(AckRefusal::Fault(fault)));
    }
    acks_are_held(acks);
    take_at(node, from, acks)
}

/// The rows of acks' errors are numbers of 32 bits, as they are of such a type.
fn acks_are_held(acks: &[Ack])
    ensures { All IsHeldAck acks.now }
{
    for ack in acks {
        ack_is_held(*ack);
    }
}

fn ack_is_held(ack: Ack)
    ensures { IsHeldAck ack }
{
    if let Some((row, _)) = ack.error {
        let _ = row;
    }
}
