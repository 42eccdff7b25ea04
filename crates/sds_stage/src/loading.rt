//! The batches of a message, loaded one after another at its receiver.
ghost use Rattle.std.specs.Prelude.{◌≡◌, ◌∷◌, ◌<◌, ◌^◌, ◌==◌, ℕ, true, Option, None, List, length, map, slice_get, option_copied, IfOk, IsTrue, OnOk};
ghost use Rattle.std.specs.List.{All, list_all, list_any};
ghost use Rattle.std.specs.Str.{chars};
ghost use Rattle.sds_outside.specs.MemKeeping.{IsKeptOpen, kept_told};
ghost use Rattle.sds_types.specs.declared.ack.Ack as acked;
ghost use Rattle.sds_types.specs.declared.batch.OutBatch.{OutBatch};
ghost use Rattle.sds_types.specs.declared.config.Config as configs;
ghost use Rattle.sds_trade.specs.rules.Outcomes.{prepared_batch};
ghost use Rattle.sds_history.specs.history.Acts.{State};
ghost use Rattle.sds_history.specs.history.Documents as docs;
ghost use Rattle.sds_history.specs.history.Documents.{doc_of_batch};
ghost use Rattle.sds_history.specs.world.Delivery as stated;
ghost use Rattle.sds_history.specs.world.Worlds.{Node as Stood};
ghost use Rattle.sds_delivery.specs.Placing.{at_places};
ghost use Rattle.sds_nodelaws.specs.Asked.{IsReadFrom, is_ack};
ghost use Rattle.sds_imagelaws.specs.Widths.{IsHeldBody};
ghost use Rattle.sds_load.specs.Bodies.{rows_in};
ghost use Rattle.sds_loadlaws.specs.ReadBatches.{IsLoadable};
ghost use Rattle.sds_node.specs.Meaning.{IsNode, has};
ghost use Rattle.sds_stage.specs.Loading.{AreOf, GoesOn, delivery_with, load_doc_at};
ghost use Rattle.sds_stage.specs.Standing.{Goes, Stands};

use crate::memory::unless_loading_lacks;
use crate::showing::settle_at;
use sds_base::{NoMemory, Twin, Txt};
use sds_load::prepare;
use sds_loadlaws::{configs_are_spelt, ways_are_spelt};
use sds_node::Node;
use sds_outside::MemKeeper;
use sds_types::{Ack, BatchDoc, Body, LoadAnswer, PeerRefusal, Prepared, SyncRefusal, Way};
use std::alloc::Global;

/// Loads the batches of a message at these places, in that order, until the receiver's keeper fails
/// or the sender isn't known. The acks so far, each with its batch's place, and the channels that
/// are held, are added to; a batch of a held channel isn't loaded.
pub(crate) fn load_all(
    alloc: Global,
    node: &mut Node<MemKeeper>,
    from: &str,
    docs: &[BatchDoc],
    channels: &[u32],
    places: &[usize],
    acks: &mut Vec<(usize, Ack)>,
    held: &mut Vec<u32>,
) -> Result<Option<SyncRefusal>, NoMemory>
    requires node { IsNode IsKeptOpen kept_told node.old }
    requires docs { All IsLoadable docs.now }
    ensures node { IsNode IsKeptOpen kept_told node.new }
    ensures goes { IfOk result (λ refusal. (config : configs.Config) (stood : Stood) (sender : State)
        (batches : List OutBatch) → Stands config node.old stood → chars from.now ≡ sender.me.id
        → docs.now ≡ map (doc_of_batch config sender) batches
        → channels.now ≡ map (λ (batch : OutBatch). batch.channel) batches
        → Stands config node.new (stated.delivered_batches config sender
        (delivery_with stood acks.old.items held.old.items None) (at_places batches places.now)).node
        × (delivery_with (stated.delivered_batches config sender
        (delivery_with stood acks.old.items held.old.items None) (at_places batches places.now)).node
        acks.new.items held.new.items refusal ≡ stated.delivered_batches config sender
        (delivery_with stood acks.old.items held.old.items None) (at_places batches places.now))) }
    ensures acks { OnOk result (IsTrue (list_all is_ack (map (λ (at : ℕ × acked.Ack). at.1) acks.old.items))
        → IsTrue (list_all is_ack (map (λ (at : ℕ × acked.Ack). at.1) acks.new.items))) }
{
    for place in places {
        let refusal = load_one(alloc, node, from, docs, channels, *place, acks, held)?;
        if let Some(refusal) = refusal {
            return Ok(Some(refusal));
        }
    }
    Ok(None)
}

/// Loads the batch of a message at a place, where there is one and its channel isn't held.
fn load_one(
    alloc: Global,
    node: &mut Node<MemKeeper>,
    from: &str,
    docs: &[BatchDoc],
    channels: &[u32],
    place: usize,
    acks: &mut Vec<(usize, Ack)>,
    held: &mut Vec<u32>,
) -> Result<Option<SyncRefusal>, NoMemory>
    requires node { IsNode IsKeptOpen kept_told node.old }
    requires docs { All IsLoadable docs.now }
    ensures node { IsNode IsKeptOpen kept_told node.new }
    ensures goes { IfOk result (λ refusal. (config : configs.Config) (stood : Stood) (sender : State)
        (batches : List OutBatch) → Stands config node.old stood
        → AreOf config sender batches (chars from.now) docs.now channels.now → (rest : List ℕ)
        → GoesOn config sender batches (delivery_with stood acks.old.items held.old.items None)
        (place ∷ rest) node.new acks.new.items held.new.items refusal rest) }
    ensures acks { OnOk result (IsTrue (list_all is_ack (map (λ (at : ℕ × acked.Ack). at.1) acks.old.items))
        → IsTrue (list_all is_ack (map (λ (at : ℕ × acked.Ack). at.1) acks.new.items))) }
{
    let Some(doc) = doc_at(docs, place) else {
        return Ok(None);
    };
    let Some(channel) = channel_at(channels, place) else {
        return Ok(None);
    };
    if is_held(held, channel) {
        return Ok(None);
    }
    let answer = load_at(alloc, node, from, doc)?;
    take_answer(answer, place, doc.batch, channel, acks, held)
}

/// The document of a message at a place.
fn doc_at(docs: &[BatchDoc], place: usize) -> Option<&BatchDoc>
    ensures { option_copied result ≡ slice_get docs.now place }
{
    docs.get(place)
}

/// The channel of the batch of a message at a place.
fn channel_at(channels: &[u32], place: usize) -> Option<u32>
    ensures { result ≡ slice_get channels.now place }
{
    channels.get(place).copied()
}

/// Whether a channel is among those that are held.
fn is_held(held: &[u32], channel: u32) -> bool
    ensures { result ≡ list_any (λ (one : ℕ). one == channel) held.now }
{
    held.contains(&channel)
}

/// What a delivery takes from the answer to the batch of this number and channel, which stands at
/// this place of the message: an ack, a channel that is held, or why it goes on no more.
fn take_answer(
    answer: Result<LoadAnswer, PeerRefusal>,
    place: usize,
    number: u64,
    channel: u32,
    acks: &mut Vec<(usize, Ack)>,
    held: &mut Vec<u32>,
) -> Result<Option<SyncRefusal>, NoMemory>
    ensures answered { IfOk result (λ refusal. (stood : Stood) (batch : OutBatch) → batch.id ≡ number
        → batch.channel ≡ channel → delivery_with stood acks.new.items held.new.items refusal
        ≡ stated.answered (delivery_with stood acks.old.items held.old.items None) (place, batch)
        answer) }
    ensures acks { OnOk result (IsTrue (list_all is_ack (map (λ (at : ℕ × acked.Ack). at.1) acks.old.items))
        → IsTrue (list_all is_ack (map (λ (at : ℕ × acked.Ack). at.1) acks.new.items))) }
{
    match answer {
        Ok(LoadAnswer::Loaded { .. } | LoadAnswer::Ignored { .. } | LoadAnswer::Again) => {
            acks.push((
                place,
                Ack {
                    batch: number,
                    error: None,
                },
            ))?;
            Ok(None)
        }
        Ok(LoadAnswer::Erred { row, rule }) => {
            let error = Some((row, rule.number()));
            acks.push((
                place,
                Ack {
                    batch: number,
                    error,
                },
            ))?;
            held.insert(0, channel)?;
            Ok(None)
        }
        Ok(LoadAnswer::Held { .. }) => {
            held.insert(0, channel)?;
            Ok(None)
        }
        Err(PeerRefusal::UnknownNode) => Ok(Some(SyncRefusal::NoWay)),
        Err(PeerRefusal::Fault(fault)) => Ok(Some(SyncRefusal::Fault(fault))),
    }
}

/// Loads a batch of a document that came from a node.
fn load_at(
    alloc: Global,
    node: &mut Node<MemKeeper>,
    from: &str,
    doc: &BatchDoc,
) -> Result<Result<LoadAnswer, PeerRefusal>, NoMemory>
    requires node { IsNode IsKeptOpen kept_told node.old }
    requires doc { IsLoadable doc.now }
    ensures node { IsNode IsKeptOpen kept_told node.new }
    ensures goes { IfOk result (λ answer. Goes node.old node.new answer
        (λ config stood. load_doc_at config stood (chars from.now) doc.now)) }
{
    settle_at(node)?;
    let batch = read_at(alloc, node, from, doc)?;
    unless_loading_lacks(node.load(from, &batch))
}

/// A document that came from a node, read for the tables of this one, which is sure. No memory holds
/// 2^32 rows.
fn read_at(
    alloc: Global,
    node: &Node<MemKeeper>,
    from: &str,
    doc: &BatchDoc,
) -> Result<Prepared, NoMemory>
    requires sure { node.now.sure ≡ true }
    requires doc { IsLoadable doc.now }
    ensures read { IfOk result (λ batch. batch ≡ prepared_batch node.now.config
        (docs.way_from (has node.now) (chars from.now)) doc.now) }
    ensures asked { IfOk result (λ batch. IsReadFrom node.now.config (chars from.now) batch) }
    ensures few { IfOk result (λ batch. length (rows_in batch.body) < 2 ^ 32) }
    ensures held { IfOk result (λ batch. IsHeldBody batch.body) }
{
    let way = way_at(alloc, node, from)?;
    configs_are_spelt(node.config());
    ways_are_spelt(&way);
    let batch = prepare(alloc, node.config(), &way, doc)?;
    if !are_few(&batch.body) {
        return Err(NoMemory);
    }
    Ok(batch)
}

/// Whether a body has fewer than 2^32 rows.
fn are_few(body: &Body) -> bool
    ensures { IsTrue result → length (rows_in body.now) < 2 ^ 32 }
{
    match body {
        Body::Rows(rows) => rows.inner().len() <= u32::MAX as usize,
        Body::Broken { .. } => true,
    }
}

/// The way from a node to this one, which is sure.
fn way_at(alloc: Global, node: &Node<MemKeeper>, from: &str) -> Result<Way, NoMemory>
    requires { node.now.sure ≡ true }
    ensures { IfOk result (λ way. way ≡ docs.way_from (has node.now) (chars from.now)) }
{
    let me = node.me();
    Ok(Way {
        source: Txt::copied(alloc, from)?,
        source_group: group_of(alloc, node, from)?,
        target: me.id.twin(alloc)?,
        target_group: me.group.twin(alloc)?,
    })
}

/// The group of a peer of a node, which is sure; it is empty where the node has no such peer.
fn group_of(alloc: Global, node: &Node<MemKeeper>, peer: &str) -> Result<Txt, NoMemory>
    requires { node.now.sure ≡ true }
    ensures { IfOk result (λ group. group ≡ docs.group_of_peer (has node.now) (chars peer.now)) }
{
    match node.peer(peer) {
        Some(peer) => peer.group.twin(alloc),
        None => Txt::copied(alloc, ""),
    }
}
