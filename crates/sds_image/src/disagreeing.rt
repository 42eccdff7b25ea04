//! Which parts that records tell disagree with the configuration, or with others.
ghost use Rattle.std.specs.Prelude.{◌≡◌, ◌≤◌, ◌<◌, not, List, length, None, IfOk, IfSome};
ghost use Rattle.std.specs.Prelude.{option_and_then, slice_get};
ghost use Rattle.std.specs.List.{filter_map, list_any};
ghost use Rattle.sds_types.specs.Limits.{most_rows};
ghost use Rattle.sds_trade.specs.rules.Tables.{Ascend};
ghost use Rattle.sds_records.specs.declared.told.Told.{Told};
ghost use Rattle.sds_history.specs.history.Acts.{State};
ghost use Rattle.sds_history.specs.history.Counters as counters;
ghost use Rattle.sds_history.specs.history.Openings as openings;
ghost use Rattle.sds_history.specs.history.SoundParts as parts;
ghost use Rattle.sds_history.specs.history.SoundStates as sound;
ghost use Rattle.sds_history.specs.history.Standings as standings;
ghost use Rattle.sds_image.specs.PartsSeen.{AreEarlier, IsSeen};
ghost use Rattle.sds_image.specs.Reading as told;

use crate::Told;
use crate::earlier::Earlier;
use crate::seen::Seen;
use sds_base::{NoMemory, Txt};
use sds_rows::{has_null, has_parents};
use sds_rowvalues::columns_at;
use sds_types::limits::{MOST_COUNT, MOST_PEERS, MOST_ROWS};
use sds_types::{
    Change, Config, Counts, LaneIn, Opening, OutBatch, Row, Stage, Standing, TableRow, WriterLast,
};
use sds_value::is_name;
use std::alloc::Global;

/// Whether a counter is past its end.
fn is_past(counts: &Counts) -> bool
    ensures { result ≡ counters.is_past counts.now }
{
    counts.acts > MOST_COUNT
        || counts.last_change > MOST_COUNT
        || counts.last_batch > MOST_COUNT
        || counts.last_tx > MOST_COUNT
}

/// Whether a number is at least 1 and at most its counter.
fn is_counted(last: u64, number: u64) -> bool
    ensures { result ≡ sound.is_counted last number }
{
    1 <= number && number <= last
}

fn counts_disagree(seen: &Seen<'_>, counts: &Counts) -> bool
    ensures { (state : State) → IsSeen state seen.now
        → result ≡ told.counts_disagree state counts.now }
{
    counts.acts == 0
        || is_past(counts)
        || counts.last_change < counts.routed
        || !seen.has_unrouted(counts)
}

/// Whether an opening went to a node.
fn went_to(node: &Txt, stage: &Stage) -> bool
    ensures { result ≡ openings.went_to node.now stage.now }
{
    match stage {
        Stage::Waiting => false,
        Stage::Given(other) => other.is(node.as_str()),
        Stage::Closed(other) => other.is(node.as_str()),
    }
}

/// Whether two openings went to two nodes.
fn are_apart(a: &Opening, b: &Opening) -> bool
    ensures { result ≡ sound.are_apart a.now b.now }
{
    match &a.stage {
        Stage::Waiting => true,
        Stage::Given(node) => !went_to(node, &b.stage),
        Stage::Closed(node) => !went_to(node, &b.stage),
    }
}

/// Whether one of some openings went to the node that an opening went to.
fn some_went(earlier: &[&Opening], opening: &Opening) -> bool
    ensures { result ≡ list_any (λ kept. not (sound.are_apart kept.now opening.now)) earlier.now }
{
    earlier.iter().any(|kept| !are_apart(*kept, opening))
}

fn opening_disagrees(seen: &Seen<'_>, earlier: &Earlier<'_>, opening: &Opening) -> bool
    ensures { (state : State) (before : List Told)
        → IsSeen state seen.now → AreEarlier earlier.now before
        → result ≡ told.opening_disagrees state before opening.now }
{
    !seen.has_stage(&opening.stage) || some_went(earlier.openings.inner(), opening)
}

fn writer_disagrees(counts: &Counts, last: &WriterLast) -> bool
    ensures { result ≡ not (sound.is_counted_writer counts.now last.now) }
{
    !is_name(last.writer.as_str())
        || last.number > counts.acts
        || u128::from(last.first) + u128::from(last.count) > u128::from(counts.last_change) + 1
}

fn row_disagrees(config: &Config, seen: &Seen<'_>, earlier: &Earlier<'_>, row: &TableRow) -> bool
    requires { Ascend config.now.tables seen.now.rows.items }
    ensures { (state : State) (before : List Told) → IsSeen state seen.now
        → AreEarlier earlier.now before
        → result ≡ told.row_disagrees config.now state before row.now }
{
    let defs = config.tables.inner().as_slice();
    has_null(columns_at(defs, row.table as usize), &row.row)
        || !has_parents(defs, &seen.rows, row.table, &row.row)
        || earlier.rows >= u64::from(MOST_ROWS)
}

fn side_has_null(config: &Config, table: u32, side: &Option<Row>) -> bool
    ensures { result ≡ told.side_has_null config.now table side.now }
{
    match side {
        Some(row) => has_null(columns_at(config.tables.inner(), table as usize), row),
        None => false,
    }
}

fn change_disagrees(config: &Config, counts: &Counts, change: &Change) -> bool
    ensures { (state : State) → counts.now ≡ state.counts
        → result ≡ told.change_disagrees config.now state change.now }
{
    !is_counted(counts.last_change, change.id)
        || !is_counted(counts.last_tx, change.tx)
        || side_has_null(config, change.table, &change.new)
        || side_has_null(config, change.table, &change.old)
}

fn is_acked(standing: Standing) -> bool
    ensures { result ≡ standings.is_acked standing }
{
    matches!(standing, Standing::Acked)
}

fn same_lane(a: &OutBatch, b: &OutBatch) -> bool
    ensures { result ≡ standings.same_lane a.now b.now }
{
    a.channel == b.channel && a.peer.is(b.peer.as_str())
}

/// Whether a batch is no later one of a lane that is acknowledged where the earlier one isn't.
fn acks_ascend(a: &OutBatch, b: &OutBatch) -> bool
    ensures { result ≡ sound.acks_ascend a.now b.now }
{
    is_acked(a.standing) || !is_acked(b.standing) || !same_lane(a, b)
}

/// Whether one of some batches isn't acknowledged and a later one of its lane is.
fn some_wait(earlier: &[&OutBatch], batch: &OutBatch) -> bool
    ensures { result ≡ list_any (λ kept. not (sound.acks_ascend kept.now batch.now)) earlier.now }
{
    earlier.iter().any(|kept| !acks_ascend(*kept, batch))
}

/// Whether a batch is counted, its node is a peer, and its changes are kept.
fn is_counted_batch(seen: &Seen<'_>, batch: &OutBatch) -> bool
    ensures { (state : State) → IsSeen state seen.now
        → result ≡ sound.is_counted_batch state batch.now }
{
    is_counted(seen.counts.last_batch, batch.id)
        && seen.has_peer(&batch.peer)
        && seen.are_kept(batch.changes.inner())
}

fn batch_disagrees(seen: &Seen<'_>, earlier: &Earlier<'_>, batch: &OutBatch) -> bool
    ensures { (state : State) (before : List Told) → IsSeen state seen.now
        → AreEarlier earlier.now before
        → result ≡ told.batch_disagrees state before batch.now }
{
    !is_counted_batch(seen, batch) || some_wait(earlier.batches.inner(), batch)
}

/// Whether a lane's channel is in the configuration and its numbers are within the counters' end.
fn is_lane_of(config: &Config, lane: &LaneIn) -> bool
    ensures { result ≡ parts.is_lane_of config.now lane.now }
{
    (lane.channel as usize) < config.channels.inner().len()
        && lane.highest <= MOST_COUNT
        && match &lane.error {
            Some(error) => error.batch <= MOST_COUNT,
            None => true,
        }
}

/// Whether the batch that a lane has in error is after its highest.
fn error_is_later(lane: &LaneIn) -> bool
    ensures { result ≡ sound.error_is_later lane.now }
{
    match &lane.error {
        Some(error) => lane.highest < error.batch,
        None => true,
    }
}

fn lane_disagrees(config: &Config, seen: &Seen<'_>, lane: &LaneIn) -> bool
    ensures { (state : State) → IsSeen state seen.now
        → result ≡ not (sound.is_sound_lane config.now state lane.now) }
{
    !is_lane_of(config, lane) || !seen.has_peer(&lane.peer) || !error_is_later(lane)
}

/// Whether a part disagrees with the configuration, with the state, or with the parts before it.
fn disagrees(config: &Config, seen: &Seen<'_>, earlier: &Earlier<'_>, part: &Told) -> bool
    requires { Ascend config.now.tables seen.now.rows.items }
    ensures { (state : State) (before : List Told) → IsSeen state seen.now
        → AreEarlier earlier.now before
        → result ≡ told.disagrees config.now state before part.now }
{
    match part {
        Told::Me(_) => false,
        Told::Counts(counts) => counts_disagree(seen, counts),
        Told::Peer(_) => earlier.peers >= MOST_PEERS as u64,
        Told::Opening(opening) => opening_disagrees(seen, earlier, opening),
        Told::Writer(last) => writer_disagrees(&seen.counts, last),
        Told::Row(row) => row_disagrees(config, seen, earlier, row),
        Told::Change(change) => change_disagrees(config, &seen.counts, change),
        Told::Batch(batch) => batch_disagrees(seen, earlier, batch),
        Told::Lane(lane) => lane_disagrees(config, seen, lane),
    }
}

/// The place of the first part that disagrees.
pub(crate) fn first_disagreement(
    alloc: Global,
    config: &Config,
    seen: &Seen<'_>,
    parts: &[Told],
) -> Result<Option<usize>, NoMemory>
    requires order { Ascend config.now.tables seen.now.rows.items }
    requires seen { (state : State) × IsSeen state seen.now }
    ensures first { IfOk result (λ found. (state : State) → IsSeen state seen.now
        → told.first_disagreement config.now state parts.now
        ≡ option_and_then (slice_get parts.now) found) }
    ensures within { IfOk result (λ found. IfSome found (λ place. place < length parts.now)) }
    ensures few { IfOk result (λ found. found ≡ None
        → length (filter_map told.row_of_part parts.now) ≤ most_rows) }
{
    let mut earlier = Earlier::new(alloc);
    for (place, part) in parts.iter().enumerate() {
        if disagrees(config, seen, &earlier, part) {
            return Ok(Some(place));
        }
        earlier.add(part)?;
    }
    Ok(None)
}
