//! A batch as a document.
ghost use Rattle.std.specs.Prelude.{◌≡◌, Some, IfOk, IsSome, option_map};
ghost use Rattle.std.specs.List.{All};
ghost use Rattle.sds_history.specs.history.Documents as stated;
ghost use Rattle.sds_history.specs.history.Lanes.{channel_name};
ghost use Rattle.sds_image.specs.Meaning.{meaning_of};
ghost use Rattle.sds_outgoing.specs.Batches.{HasFitRows, batch_of_number};

use crate::finding::{batch_of_number, change_of_number, kept_peer};
use sds_base::{List, NoMemory, Twin, Txt};
use sds_image::State;
use sds_rowvalues::no_name;
use sds_transform::extract;
use sds_types::{BatchDoc, Config, OutBatch, Way};
use sds_value::{Binary, DocRow};
use std::alloc::Global;

/// The outgoing batch of a number as a document: each of its changes as the transforms of the way
/// to its peer make it (the SymmetricDS guide's chapter on transforms).
pub fn doc(alloc: Global, config: &Config, state: &State, batch: u64) -> Result<BatchDoc, NoMemory>
    requires known { IsSome (batch_of_number state.now.batches batch) }
    requires rows { All (HasFitRows config.now.tables) state.now.changes }
    ensures { IfOk result (λ doc. Some doc
        ≡ option_map (stated.doc_of_batch config.now (meaning_of state.now))
        (batch_of_number state.now.batches batch)) }
{
    match batch_of_number(state.batches.inner(), batch) {
        Some(found) => doc_of_batch(alloc, config, state, found),
        None => unreachable!(),
    }
}

/// A batch as a document.
fn doc_of_batch(
    alloc: Global,
    config: &Config,
    state: &State,
    batch: &OutBatch,
) -> Result<BatchDoc, NoMemory>
    requires { All (HasFitRows config.now.tables) state.now.changes }
    ensures { IfOk result (λ doc. doc
        ≡ stated.doc_of_batch config.now (meaning_of state.now) batch.now) }
{
    Ok(BatchDoc {
        channel: channel_name(alloc, config, batch.channel)?,
        batch: batch.id,
        binary: Binary::Base64,
        rows: batch_rows(alloc, config, state, batch)?,
    })
}

/// The rows of a batch.
fn batch_rows(
    alloc: Global,
    config: &Config,
    state: &State,
    batch: &OutBatch,
) -> Result<List<DocRow>, NoMemory>
    requires { All (HasFitRows config.now.tables) state.now.changes }
    ensures { IfOk result (λ rows. rows
        ≡ stated.batch_rows config.now (meaning_of state.now) batch.now) }
{
    let way = way_to(alloc, state, &batch.peer)?;
    let mut rows = Vec::new(alloc);
    for number in batch.changes.inner() {
        let Some(change) = change_of_number(state.changes.inner(), *number) else {
            continue;
        };
        let mut more = extract(alloc, config, &way, change)?.into_inner();
        rows.append(&mut more)?;
    }
    Ok(List::of(rows))
}

/// The way from this node to a peer.
fn way_to(alloc: Global, state: &State, peer: &Txt) -> Result<Way, NoMemory>
    ensures { IfOk result (λ way. way ≡ stated.way_to (meaning_of state.now) peer.now) }
{
    Ok(Way {
        source: state.me.id.twin(alloc)?,
        source_group: state.me.group.twin(alloc)?,
        target: peer.twin(alloc)?,
        target_group: group_of_peer(alloc, state, peer)?,
    })
}

/// The group of a peer, which is empty where no peer has the id.
fn group_of_peer(alloc: Global, state: &State, peer: &Txt) -> Result<Txt, NoMemory>
    ensures { IfOk result (λ group. group
        ≡ stated.group_of_peer (meaning_of state.now) peer.now) }
{
    match kept_peer(state.peers.inner(), peer) {
        Some(kept) => kept.peer.group.twin(alloc),
        None => Ok(no_name(alloc)),
    }
}

/// The name of the channel at a place, which is empty past the last one.
fn channel_name(alloc: Global, config: &Config, channel: u32) -> Result<Txt, NoMemory>
    ensures { IfOk result (λ name. name ≡ channel_name config.now channel) }
{
    match config.channels.inner().get(channel as usize) {
        Some(def) => def.id.twin(alloc),
        None => Ok(no_name(alloc)),
    }
}
