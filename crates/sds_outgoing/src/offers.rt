//! The batches that go next to a peer.
ghost use Rattle.std.specs.Prelude.{◌≡◌, ◌++◌, IfOk, OnOk};
ghost use Rattle.std.specs.Str.{chars};
ghost use Rattle.sds_history.specs.history.Messages as stated;
ghost use Rattle.sds_image.specs.Meaning.{meaning_of};
ghost use Rattle.sds_outgoing.specs.Offering.{ends_offer, ids_of, is_waiting};

use crate::standings::{is_acked, is_erred};
use sds_base::{List, NoMemory};
use sds_batcher::channels_in_order;
use sds_image::State;
use sds_types::{ChannelDef, Config, OutBatch};
use std::alloc::Global;

/// The numbers of the batches that go next to a peer, of these channels or of all where none is
/// named: channel by channel in their order, and in each the batches that are not acknowledged, by
/// number, up to the first that is in error and up to as many as a message takes (the SymmetricDS
/// guide's chapters on channels and outgoing batches).
pub fn offer(
    alloc: Global,
    config: &Config,
    state: &State,
    to: &str,
    channels: &[u32],
) -> Result<List<u64>, NoMemory>
    ensures { IfOk result (λ ids. ids
        ≡ stated.offer_of config.now (meaning_of state.now) (chars to.now) channels.now) }
{
    let mut ids = Vec::new(alloc);
    let sorted = channels_in_order(alloc, config.channels.inner())?;
    for (channel, def) in &sorted {
        if !is_wanted(channels, *channel) {
            continue;
        }
        offer_lane(state, to, *channel, *def, &mut ids)?;
    }
    Ok(List::of(ids))
}

/// Whether the channel at a place is among these, or none is named.
fn is_wanted(channels: &[u32], channel: u32) -> bool
    ensures { (def : ChannelDef) → result ≡ stated.is_wanted channels.now (channel, def) }
{
    channels.is_empty() || channels.contains(&channel)
}

/// Adds the numbers of the batches of a lane that go next.
fn offer_lane(
    state: &State,
    to: &str,
    channel: u32,
    def: &ChannelDef,
    ids: &mut Vec<u64>,
) -> Result<(), NoMemory>
    ensures { OnOk result (ids.new.items ≡ ids.old.items
        ++ ids_of (stated.offered_in (meaning_of state.now) (chars to.now) (channel, def.now))) }
{
    let mut count = 0;
    for batch in state.batches.inner() {
        if !is_waiting(batch, to, channel) {
            continue;
        }
        ids.push(batch.id)?;
        count += 1;
        if ends_offer(def.max_batch_to_send, count, batch) {
            return Ok(());
        }
    }
    Ok(())
}

/// Whether a batch is one of a lane that is not acknowledged.
fn is_waiting(batch: &OutBatch, to: &str, channel: u32) -> bool
    ensures { result ≡ is_waiting (chars to.now) channel batch.now }
{
    batch.channel == channel && batch.peer.is(to) && !is_acked(batch.standing)
}

/// Whether a batch of this number, from 1, is the last of its lane that goes.
fn ends_offer(most: u32, number: u64, batch: &OutBatch) -> bool
    ensures { result ≡ ends_offer most number batch.now }
{
    number == most as u64 || is_erred(batch.standing)
}
