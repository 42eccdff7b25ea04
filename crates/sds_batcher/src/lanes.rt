//! The lanes of a channel: the changes that wait for each peer.
ghost use Rattle.std.specs.Prelude.{◌≡◌, ◌+◌, IfOk, OnOk, ℕ, map, max};
ghost use Rattle.std.specs.List.{fold, zip};
ghost use Rattle.sds_trade.specs.rules.Batches.{peers_named};
ghost use Rattle.sds_batcher.specs.Lanes.{empty_lanes, waiting_of, with_all, with_each, with_waiting};

use sds_base::{List, NoMemory};
use sds_types::Change;
use std::alloc::Global;

/// A change that waits in a lane: its number and that of its transaction.
#[derive(Clone, Copy, Debug, PartialEq, Eq)]
pub(crate) struct Waiting {
    pub(crate) id: u64,
    pub(crate) tx: u64,
}

/// One more than the greatest place of a peer that a change is for.
pub(crate) fn count_peers(changes: &[Change], targets: &[List<u32>]) -> usize
    ensures { result ≡ peers_named (zip changes.now targets.now) }
{
    let mut count = 0;
    for (place, _change) in changes.iter().enumerate() {
        let Some(places) = targets.get(place) else {
            break;
        };
        count = count_from(count, places.inner());
    }
    count
}

/// This count, or one more than the greatest of these places where that is more.
fn count_from(count: usize, places: &[u32]) -> usize
    ensures { result ≡ fold max count (map (λ (place : ℕ). place + 1) places.now) }
{
    let mut most = count;
    for place in places {
        most = most.max(*place as usize + 1);
    }
    most
}

/// A lane for each of so many peers, with the changes of a channel that are for it, in order.
pub(crate) fn lanes_of(
    alloc: Global,
    changes: &[Change],
    targets: &[List<u32>],
    channel: u32,
    peers: usize,
) -> Result<Vec<List<Waiting>>, NoMemory>
    ensures { IfOk result (λ lanes. lanes.items
        ≡ with_all channel changes.now targets.now (empty_lanes peers)) }
{
    let mut lanes = empty_lanes(alloc, peers)?;
    for (place, change) in changes.iter().enumerate() {
        let Some(places) = targets.get(place) else {
            break;
        };
        if change.channel != channel {
            continue;
        }
        add_to_each(&mut lanes, places.inner(), waiting_of(change))?;
    }
    Ok(lanes)
}

/// So many lanes without changes.
fn empty_lanes(alloc: Global, count: usize) -> Result<Vec<List<Waiting>>, NoMemory>
    ensures { IfOk result (λ lanes. lanes.items ≡ empty_lanes count) }
{
    let mut lanes = Vec::new(alloc);
    for _peer in 0..count {
        lanes.push(List::new(alloc))?;
    }
    Ok(lanes)
}

fn waiting_of(change: &Change) -> Waiting
    ensures { result ≡ waiting_of change.now }
{
    Waiting {
        id: change.id,
        tx: change.tx,
    }
}

/// Puts a change at the end of the lanes of the peers at these places.
fn add_to_each(
    lanes: &mut Vec<List<Waiting>>,
    places: &[u32],
    waiting: Waiting,
) -> Result<(), NoMemory>
    ensures { OnOk result (lanes.new.items ≡ with_each places.now waiting lanes.old.items) }
{
    for place in places {
        add_to(lanes, *place as usize, waiting)?;
    }
    Ok(())
}

/// Puts a change at the end of the lane at a place, if there is one.
fn add_to(lanes: &mut Vec<List<Waiting>>, place: usize, waiting: Waiting) -> Result<(), NoMemory>
    ensures { OnOk result (lanes.new.items ≡ with_waiting lanes.old.items place waiting) }
{
    if place < lanes.len() {
        lanes[place].push(waiting)?;
    }
    Ok(())
}
