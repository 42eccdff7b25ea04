//! The keys of records: a letter for the kind of part, and what tells parts of one kind apart.
ghost use Rattle.std.specs.Prelude.{◌≡◌, ◌++◌, IfOk};
ghost use Rattle.sds_history.specs.history.Records as records;
ghost use Rattle.sds_history.specs.history.Records.{id_text};
ghost use Rattle.sds_history.specs.history.RowRecords.{change_record};
ghost use Rattle.sds_records.specs.Parts.{FitsPart, record_of_part};

use crate::Part;
use crate::names::channel_name;
use crate::rows::row_key;
use sds_base::{Bytes, NoMemory};
use sds_types::{Change, Config, KeptPeer, LaneIn, Opening, OutBatch, WriterLast};
use std::alloc::Global;

/// How many digits a number has in a key, so that keys ascend as the numbers do.
const ID_DIGITS: usize = 20;

/// These bytes as a key.
fn word_key(alloc: Global, word: &str) -> Result<Bytes, NoMemory>
    ensures { IfOk result (λ key. key ≡ word.now) }
{
    Ok(Bytes::of(String::from_str(alloc, word)?.into_bytes()))
}

/// The key of a peer.
fn peer_key(alloc: Global, kept: &KeptPeer) -> Result<Bytes, NoMemory>
    ensures { IfOk result (λ key. key ≡ (records.peer_record kept.now).key) }
{
    let id = kept.peer.id.as_str();
    Ok(Bytes::of(format!(in alloc; "n/{id}")?.into_bytes()))
}

/// The key of an opening.
fn opening_key(alloc: Global, opening: &Opening) -> Result<Bytes, NoMemory>
    ensures { IfOk result (λ key. key ≡ (records.opening_record opening.now).key) }
{
    let group = opening.group.as_str();
    let external = opening.external.as_str();
    let key = format!(in alloc; "o/{group}/{external}")?;
    Ok(Bytes::of(key.into_bytes()))
}

/// The key of a writer.
fn writer_key(alloc: Global, last: &WriterLast) -> Result<Bytes, NoMemory>
    ensures { IfOk result (λ key. key ≡ (records.writer_record last.now).key) }
{
    let writer = last.writer.as_str();
    Ok(Bytes::of(format!(in alloc; "w/{writer}")?.into_bytes()))
}

/// A key that ends with a number.
fn numbered_key(alloc: Global, start: &str, number: u64) -> Result<Bytes, NoMemory>
    ensures { IfOk result (λ key. key ≡ start.now ++ id_text number) }
{
    let digits = number.to_string(alloc)?;
    let zeros = vec![in alloc; b'0'; ID_DIGITS.saturating_sub(digits.len())]?;
    let mut key = Vec::new(alloc);
    key.extend_from_slice(start.as_bytes())?;
    key.extend_from_slice(&zeros)?;
    key.extend_from_slice(digits.as_bytes())?;
    Ok(Bytes::of(key))
}

/// The key of a change.
fn change_key(alloc: Global, config: &Config, change: &Change) -> Result<Bytes, NoMemory>
    ensures { IfOk result (λ key. key ≡ (change_record config.now change.now).key) }
{
    numbered_key(alloc, "d/", change.id)
}

/// The key of a batch.
fn batch_key(alloc: Global, config: &Config, batch: &OutBatch) -> Result<Bytes, NoMemory>
    ensures { IfOk result (λ key. key ≡ (records.batch_record config.now batch.now).key) }
{
    numbered_key(alloc, "b/", batch.id)
}

/// The key of a lane.
fn lane_key(alloc: Global, config: &Config, lane: &LaneIn) -> Result<Bytes, NoMemory>
    ensures { IfOk result (λ key. key ≡ (records.lane_record config.now lane.now).key) }
{
    let peer = lane.peer.as_str();
    let channel = channel_name(config, lane.channel);
    let key = format!(in alloc; "i/{peer}/{channel}")?;
    Ok(Bytes::of(key.into_bytes()))
}

/// The key of a part's record.
pub(crate) fn key_of(alloc: Global, config: &Config, part: &Part) -> Result<Bytes, NoMemory>
    requires { FitsPart config.now part.now }
    ensures { IfOk result (λ key. key ≡ (record_of_part config.now part.now).key) }
{
    match part {
        Part::Me(_) => word_key(alloc, "me"),
        Part::Counts(_) => word_key(alloc, "count"),
        Part::Peer(kept) => peer_key(alloc, kept),
        Part::Opening(opening) => opening_key(alloc, opening),
        Part::Writer(last) => writer_key(alloc, last),
        Part::Row(table, row) => row_key(alloc, config, *table, row),
        Part::Change(change) => change_key(alloc, config, change),
        Part::Batch(batch) => batch_key(alloc, config, batch),
        Part::Lane(lane) => lane_key(alloc, config, lane),
    }
}
