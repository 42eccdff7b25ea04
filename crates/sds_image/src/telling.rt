//! Records read one after another as the parts that they tell.
ghost use Rattle.std.specs.Prelude.{◌≡◌, ◌<◌, true, codes, None, IfOk, IfErr, OnOk};
ghost use Rattle.std.specs.List.{All, last_or, list_any};
ghost use Rattle.std.specs.Option.{option_map_or};
ghost use Rattle.std.specs.Str.{bytes_eq};
ghost use Rattle.sds_history.specs.history.Orders.{is_before};
ghost use Rattle.sds_outside.specs.Records as outside;
ghost use Rattle.sds_trade.specs.rules.Sound.{IsSound};
ghost use Rattle.sds_records.specs.Told as stated;
ghost use Rattle.sds_image.specs.PartsSeen.{IsBadAmong, IsBadNext, records_of_pairs};
ghost use Rattle.sds_image.specs.Reading.{AreTold, is_after_last};

use crate::{StateRefusal, Told, read_record};
use sds_base::{Bytes, List, Twin};
use sds_types::{Change, Config, Counts, LaneIn, OutBatch, Standing, WriterLast};
use std::alloc::Global;

/// Whether a record has the key of the node itself.
pub(crate) fn has_me(records: &[(Bytes, Bytes)]) -> bool
    ensures { result ≡ list_any (λ (kept : outside.Record). bytes_eq kept.0 (codes "me"))
        records.now }
{
    records.iter().any(|kept| is_me(&kept.0))
}

/// Whether a key is that of the node itself.
fn is_me(key: &Bytes) -> bool
    ensures { result ≡ bytes_eq key.now (codes "me") }
{
    key.inner().as_slice() == "me".as_bytes()
}

/// Whether a key is before another.
fn is_before(key: &Bytes, other: &Bytes) -> bool
    ensures { result ≡ is_before key.now other.now }
{
    let order = key.inner().as_slice().cmp(other.inner().as_slice());
    order.is_lt()
}

/// Whether a key is after that of the last of these records.
fn is_after(before: &[(Bytes, Bytes)], key: &Bytes) -> bool
    ensures { result ≡ option_map_or (λ (earlier : outside.Record). is_before earlier.0 key.now)
        (last_or None before.now) true }
{
    match before.last() {
        Some(earlier) => is_before(&earlier.0, key),
        None => true,
    }
}

/// A number of 64 bits is one.
fn is_wide(number: u64)
    ensures { stated.IsWide number }
{}

/// A number of 32 bits is one.
fn is_narrow(number: u32)
    ensures { stated.IsNarrow number }
{}

/// The numbers of counters have 64 bits.
fn counts_are_wide(counts: &Counts)
    ensures { stated.AreWide counts.now }
{
    is_wide(counts.acts);
    is_wide(counts.last_change);
    is_wide(counts.last_batch);
    is_wide(counts.last_tx);
    is_wide(counts.routed);
}

/// The numbers of a writer have their widths.
fn writer_is_held(last: &WriterLast)
    ensures { stated.IsHeldWriter last.now }
{
    is_wide(last.number);
    is_wide(last.first);
    is_narrow(last.count);
}

/// The numbers of a change have their widths.
fn change_is_held(change: &Change)
    ensures { stated.IsHeldChange change.now }
{
    is_wide(change.id);
    is_wide(change.tx);
    is_narrow(change.table);
    is_narrow(change.channel);
}

/// The numbers of changes have 64 bits.
fn numbers_are_wide(numbers: &[u64])
    ensures { All stated.IsWide numbers.now }
{
    for number in numbers {
        is_wide(*number);
    }
}

/// The number of a rule has 8 bits.
fn is_byte(number: u8)
    ensures { number < 256 }
{}

/// The numbers of a batch's error have their widths.
fn standing_is_held(standing: Standing)
    ensures { stated.IsHeldStanding standing }
{
    match standing {
        Standing::Erred { row, rule } => {
            is_narrow(row);
            is_byte(rule);
        }
        Standing::New | Standing::Acked => {}
    }
}

/// The numbers of a batch have their widths.
fn batch_is_held(batch: &OutBatch)
    ensures { stated.IsHeldBatch batch.now }
{
    is_wide(batch.id);
    is_narrow(batch.channel);
    standing_is_held(batch.standing);
    numbers_are_wide(batch.changes.inner());
}

/// The numbers of a lane have their widths.
fn lane_is_held(lane: &LaneIn)
    ensures { stated.IsHeldLane lane.now }
{
    is_narrow(lane.channel);
    is_wide(lane.highest);
    match &lane.error {
        Some(error) => {
            is_wide(error.batch);
            is_narrow(error.row);
        }
        None => {}
    }
}

/// The numbers of a part have their widths.
fn part_is_held(part: &Told)
    ensures { stated.IsHeld part.now }
{
    match part {
        Told::Counts(counts) => counts_are_wide(counts),
        Told::Writer(last) => writer_is_held(last),
        Told::Row(row) => is_narrow(row.table),
        Told::Change(change) => change_is_held(change),
        Told::Batch(batch) => batch_is_held(batch),
        Told::Lane(lane) => lane_is_held(lane),
        Told::Me(_) | Told::Peer(_) | Told::Opening(_) => {}
    }
}

/// The part that a record tells after others, or that the record is bad.
fn read_next(
    alloc: Global,
    config: &Config,
    before: &[(Bytes, Bytes)],
    key: &Bytes,
    body: &Bytes,
) -> Result<Told, StateRefusal>
    ensures ok { IfOk result (λ part. stated.Tells config.now (stated.kept_record key.now body.now)
        part) }
    ensures held { IfOk result stated.IsHeld }
    ensures after { OnOk result (is_after_last (records_of_pairs before.now)
        (stated.kept_record key.now body.now) ≡ true) }
    ensures bad { IfErr result (λ refusal. IsSound config.now
        → IsBadNext config.now (records_of_pairs before.now)
        (stated.kept_record key.now body.now) refusal) }
{
    if !is_after(before, key) {
        return Err(StateRefusal::BadRecord(key.twin(alloc)?));
    }
    let Some(part) = read_record(alloc, config, key, body)? else {
        return Err(StateRefusal::BadRecord(key.twin(alloc)?));
    };
    part_is_held(&part);
    Ok(part)
}

/// The parts that records tell, or the first bad record.
pub(crate) fn read_parts(
    alloc: Global,
    config: &Config,
    records: &[(Bytes, Bytes)],
) -> Result<List<Told>, StateRefusal>
    ensures ok { IfOk result (λ parts.
        AreTold config.now (records_of_pairs records.now) parts) }
    ensures bad { IfErr result (λ refusal. IsSound config.now
        → IsBadAmong config.now (records_of_pairs records.now) refusal) }
{
    let mut parts = List::new(alloc);
    for (place, kept) in records.iter().enumerate() {
        match read_next(alloc, config, &records[..place], &kept.0, &kept.1) {
            Ok(part) => parts.push(part)?,
            Err(refusal) => return Err(refusal),
        }
    }
    Ok(parts)
}
