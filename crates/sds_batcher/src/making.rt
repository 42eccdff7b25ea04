//! The batches that a routing run makes.
ghost use Rattle.std.specs.Prelude.{◌≡◌, ◌<◌, ◌++◌, ℕ, [], IfOk, OnOk, length, option_map, slice_get};
ghost use Rattle.std.specs.List.{All, AllPairs, zip};
ghost use Rattle.sds_trade.specs.rules.Batches.{batches_of};
ghost use Rattle.sds_batcher.specs.declared.lanes.Waiting.{Waiting};
ghost use Rattle.sds_batcher.specs.Lanes.{batches_to_come, lanes_to_come, made_batch, numbered};

use crate::cutting::ends_piece;
use crate::lanes::{Waiting, count_peers, lanes_of};
use crate::order::channels_in_order;
use sds_base::{List, NoMemory};
use sds_types::{Change, ChannelDef, Config, NewBatch};
use std::alloc::Global;

/// The batches that a routing run makes of the changes that wait, each with the places of the peers
/// that it is for: channel by channel in their order (the SymmetricDS guide's chapter on channels),
/// in each peer by peer, and in each lane as the channel's algorithm cuts it. Their numbers are
/// consecutive, and each has the numbers of its changes.
pub fn run(
    alloc: Global,
    config: &Config,
    changes: &[Change],
    targets: &[List<u32>],
    first: u64,
) -> Result<List<NewBatch>, NoMemory>
    requires { All (AllPairs (λ (a b : ℕ). a < b)) targets.now }
    ensures { IfOk result (λ batches. batches
        ≡ batches_of config.now first (zip changes.now targets.now)) }
{
    let peers = count_peers(changes, targets);
    let mut batches = Vec::new(alloc);
    let channels = channels_in_order(alloc, config.channels.inner())?;
    for (place, def) in &channels {
        let lanes = lanes_of(alloc, changes, targets, *place, peers)?;
        make_channel(alloc, *def, *place, &lanes, &mut batches)?;
    }
    number_from(first, &mut batches)?;
    Ok(List::of(batches))
}

/// Makes the batches of a channel's lanes.
fn make_channel(
    alloc: Global,
    def: &ChannelDef,
    channel: u32,
    lanes: &[List<Waiting>],
    batches: &mut Vec<NewBatch>,
) -> Result<(), NoMemory>
    ensures { OnOk result (batches.new.items
        ≡ batches.old.items ++ lanes_to_come def.now channel 0 lanes.now) }
{
    for (peer, lane) in lanes.iter().enumerate() {
        let Ok(peer) = u32::try_from(peer) else {
            return Err(NoMemory);
        };
        make_lane(alloc, def, channel, peer, lane.inner(), batches)?;
    }
    Ok(())
}

/// Makes the batches of a lane.
fn make_lane(
    alloc: Global,
    def: &ChannelDef,
    channel: u32,
    peer: u32,
    lane: &[Waiting],
    batches: &mut Vec<NewBatch>,
) -> Result<(), NoMemory>
    ensures { OnOk result (batches.new.items
        ≡ batches.old.items ++ batches_to_come def.now channel peer [] lane.now) }
{
    let mut ids = List::new(alloc);
    for (place, waiting) in lane.iter().enumerate() {
        ids.push(waiting.id)?;
        let next = next_tx(lane, place + 1);
        let count = count_of(&ids);
        if !ends_piece(
            def.batch_algorithm,
            def.max_batch_size,
            count,
            waiting.tx,
            next,
        ) {
            continue;
        }
        batches.push(made_batch(channel, peer, ids))?;
        ids = List::new(alloc);
    }
    if ids.inner().is_empty() {
        return Ok(());
    }
    batches.push(made_batch(channel, peer, ids))?;
    Ok(())
}

fn count_of(ids: &List<u64>) -> u64
    ensures { result ≡ length ids.now }
{
    ids.inner().len() as u64
}

/// The transaction of the change at a place of a lane, if there is one.
fn next_tx(lane: &[Waiting], place: usize) -> Option<u64>
    ensures { result ≡ option_map (λ (waiting : Waiting). waiting.tx) (slice_get lane.now place) }
{
    match lane.get(place) {
        Some(next) => Some(next.tx),
        None => None,
    }
}

/// A batch before it has a number.
fn made_batch(channel: u32, peer: u32, ids: List<u64>) -> NewBatch
    ensures { result ≡ made_batch channel peer ids }
{
    NewBatch {
        id: 0,
        peer,
        channel,
        changes: ids,
    }
}

/// Gives batches consecutive numbers. More batches than numbers are left can't stand in memory.
fn number_from(first: u64, batches: &mut Vec<NewBatch>) -> Result<(), NoMemory>
    ensures { OnOk result (batches.new.items ≡ numbered first batches.old.items) }
{
    for place in 0..batches.len() {
        let Some(id) = first.checked_add(place as u64) else {
            return Err(NoMemory);
        };
        batches[place].id = id;
    }
    Ok(())
}
