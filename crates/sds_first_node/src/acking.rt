// What acks say of a node's batches.
ghost use Rattle.std.specs.Prelude.{◌≡◌, ◌<◌, ◌≤◌, ◌+◌, ◌++◌, ◌&&◌, ◌==◌, not, ℕ, List, IfOk, MatchOption, Some, None, length, take, drop, count_by, map};
ghost use Rattle.std.specs.List.{list_any};
ghost use Rattle.std.specs.Str.{bytes_eq, chars};
ghost use Rattle.sds_types.specs.declared.batch.OutBatch.{OutBatch};
ghost use Rattle.sds_first_spec.specs.Acks.{is_up_to, is_acked_by, last_error, standing_after, same_standing};
ghost use Rattle.sds_first_spec.specs.Calls.{is_batch_to, unknown_batch};
ghost use Rattle.sds_first_node.specs.Standings.{standings_of, differing, with_standings};

use sds_base::NoMemory;
use sds_types::{Ack, OutBatch, Standing};
use std::alloc::Global;

/// Whether a batch of this number goes to this peer.
fn is_batch_to(batches: &[OutBatch], peer: &str, id: u64) -> bool
    ensures { result ≡ is_batch_to (chars peer.now) batches.now id }
{
    batches
        .iter()
        .any(|batch| batch.id == id && batch.peer.is(peer))
}

/// The first number among these acks that is no batch to this peer.
pub(crate) fn unknown_batch(batches: &[OutBatch], peer: &str, acks: &[Ack]) -> Option<u64>
    ensures { result ≡ unknown_batch (chars peer.now) batches.now acks.now }
{
    for ack in acks {
        if !is_batch_to(batches, peer, ack.batch) {
            return Some(ack.batch);
        }
    }
    None
}

/// Whether a batch is of the lane of the batch with this number.
fn is_lane_of(batches: &[OutBatch], id: u64, batch: &OutBatch) -> bool
    ensures { result ≡ list_any (λ (b : OutBatch). b.id == id && (bytes_eq b.peer batch.now.peer && b.channel == batch.now.channel)) batches.now }
{
    batches.iter().any(|b| b.id == id && b.peer == batch.peer && b.channel == batch.channel)
}

/// Whether a batch is of the lane of the batch with this number, and goes no later.
fn is_up_to(batches: &[OutBatch], id: u64, batch: &OutBatch) -> bool
    ensures { result ≡ is_up_to batches.now id batch.now }
{
    batch.id <= id && is_lane_of(batches, id, batch)
}

/// Whether one of these acks says that the batch, or a later one of its lane, is loaded.
fn is_acked_by(batches: &[OutBatch], acks: &[Ack], batch: &OutBatch) -> bool
    ensures { result ≡ is_acked_by batches.now acks.now batch.now }
{
    for ack in acks {
        if ack.error.is_none() && is_up_to(batches, ack.batch, batch) {
            return true;
        }
    }
    false
}

/// The last error that these acks name for a batch, or what it was before.
fn last_error(acks: &[Ack], id: u64, before: Standing) -> Standing
    ensures { result ≡ last_error acks.now id before }
{
    let mut standing = before;
    for ack in acks {
        if ack.batch != id {
            continue;
        }
        if let Some((row, rule)) = ack.error {
            standing = Standing::Erred { row, rule };
        }
    }
    standing
}

/// What is known of a batch after these acks.
pub(crate) fn standing_after(batches: &[OutBatch], acks: &[Ack], batch: &OutBatch) -> Standing
    ensures { result ≡ standing_after batches.now acks.now batch.now batch.now.standing }
{
    match batch.standing {
        Standing::Acked => Standing::Acked,
        before => {
            if is_acked_by(batches, acks, batch) {
                Standing::Acked
            } else {
                last_error(acks, batch.id, before)
            }
        }
    }
}

/// What is known of each batch after these acks.
pub(crate) fn standings_after(
    alloc: Global,
    batches: &[OutBatch],
    acks: &[Ack],
) -> Result<Vec<Standing>, NoMemory>
    ensures items { IfOk result (λ standings. standings.items ≡ standings_of acks.now batches.now batches.now) }
    ensures len { IfOk result (λ standings. length standings.items ≡ length batches.now) }
{
    let mut standings = Vec::new(alloc);
    for batch in batches {
        standings.push(standing_after(batches, acks, batch))?;
    }
    Ok(standings)
}

/// Whether two standings are the same.
fn same_standing(a: Standing, b: Standing) -> bool
    ensures { result ≡ same_standing a b }
{
    match (a, b) {
        (Standing::New, Standing::New) => true,
        (Standing::Erred { row, rule }, Standing::Erred { row: r, rule: n }) => row == r
            && rule == n,
        (Standing::Acked, Standing::Acked) => true,
        _ => false,
    }
}

/// How many batches would have another standing.
pub(crate) fn count_changed(batches: &[OutBatch], standings: &[Standing]) -> u64
    requires { length standings.now ≡ length batches.now }
    ensures { result ≡ differing batches.now standings.now }
{
    let mut count = 0;
    for (place, batch) in batches.iter().enumerate() {
        if !same_standing(batch.standing, standings[place]) {
            count += 1;
        }
    }
    count
}

/// Gives each batch its standing.
pub(crate) fn set_standings(batches: &mut Vec<OutBatch>, standings: &[Standing])
    requires { length standings.now ≡ length batches.old.items }
    ensures { batches.new.items ≡ with_standings batches.old.items standings.now }
{
    set_each(batches, standings);
}

/// Gives each batch of a slice its standing.
fn set_each(batches: &mut [OutBatch], standings: &[Standing])
    requires { length standings.now ≡ length batches.old }
    ensures { batches.new ≡ with_standings batches.old standings.now }
{
    for place in 0..batches.len() {
        let batch = &mut batches[place];
        batch.standing = standings[place];
    }
}
