//! The order in which the batches of a message are delivered.
ghost use Rattle.std.specs.Prelude.{◌≡◌, ◌++◌, ℕ, List, IfOk, OnOk, map, nat_le};
ghost use Rattle.std.specs.List.{enumerate_from};
ghost use Rattle.sds_types.specs.declared.batch.OutBatch.{OutBatch};
ghost use Rattle.sds_history.specs.world.DeliverOrder.{deliver_order, mentions};
ghost use Rattle.sds_delivery.specs.Placing.{at_places, mentioned_places, next_place, unmentioned_from};

use sds_base::NoMemory;
use std::alloc::Global;

/// The places, from 0, of a message's batches in the order in which they are delivered: each
/// mention of a channel stands for that channel's next batch, and the batches that aren't mentioned
/// follow in the order of the message. `channels` has the channel of each batch of the message.
///
/// The time is linear in the number of batches where there are no mentions, and else at most
/// quadratic in the number of batches and mentions.
pub fn deliver_places(
    alloc: Global,
    mentions: &[u32],
    channels: &[u32],
) -> Result<Vec<usize>, NoMemory>
    ensures order { IfOk result (λ places. (batches : List OutBatch)
        → map (λ (batch : OutBatch). batch.channel) batches ≡ channels.now
        → deliver_order mentions.now (enumerate_from 0 batches) ≡ at_places batches places.items) }
{
    let mut places = Vec::new(alloc);
    put_mentioned(mentions, channels, &mut places)?;
    put_unmentioned(mentions, channels, &mut places)?;
    Ok(places)
}

/// Adds the places of the batches that are mentioned, in the order of the mentions.
fn put_mentioned(
    mentions: &[u32],
    channels: &[u32],
    places: &mut Vec<usize>,
) -> Result<(), NoMemory>
    ensures { OnOk result (places.new.items
        ≡ places.old.items ++ mentioned_places mentions.now channels.now) }
{
    for (at, channel) in mentions.iter().enumerate() {
        let Some(place) = next_place(&mentions[..at], *channel, channels) else {
            continue;
        };
        places.push(place)?;
    }
    Ok(())
}

/// The place that a mention stands for, where it has these mentions before it.
fn next_place(earlier: &[u32], channel: u32, channels: &[u32]) -> Option<usize>
    ensures { result ≡ next_place earlier.now channel channels.now }
{
    let mut passed = times_in(channel, earlier);
    for (place, other) in channels.iter().enumerate() {
        if *other != channel {
            continue;
        }
        if passed == 0 {
            return Some(place);
        }
        passed -= 1;
    }
    None
}

/// How often a channel stands among these.
fn times_in(channel: u32, channels: &[u32]) -> usize
    ensures { result ≡ mentions channels.now channel }
{
    let mut times = 0;
    for other in channels {
        if *other == channel {
            times += 1;
        }
    }
    times
}

/// Adds the places of the batches that no mention stands for, in the order of the message.
fn put_unmentioned(
    mentions: &[u32],
    channels: &[u32],
    places: &mut Vec<usize>,
) -> Result<(), NoMemory>
    ensures { OnOk result (places.new.items
        ≡ places.old.items ++ unmentioned_from 0 mentions.now channels.now channels.now) }
{
    for (place, channel) in channels.iter().enumerate() {
        let times = times_in(*channel, mentions);
        if !stands_so_often(*channel, times, &channels[..place]) {
            continue;
        }
        places.push(place)?;
    }
    Ok(())
}

/// Whether a channel stands at least so many times among these. Zero times cost nothing.
fn stands_so_often(channel: u32, times: usize, channels: &[u32]) -> bool
    ensures { result ≡ nat_le times (mentions channels.now channel) }
{
    let mut left = times;
    if left == 0 {
        return true;
    }
    for other in channels {
        if *other != channel {
            continue;
        }
        left -= 1;
        if left == 0 {
            return true;
        }
    }
    false
}
