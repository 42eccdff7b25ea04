//! The records of all that a node has.
ghost use Rattle.std.specs.Prelude.{◌≡◌, ◌++◌, ◌∷◌, [], IfOk, OnOk, List, map};
ghost use Rattle.std.specs.List.{All};
ghost use Rattle.sds_types.specs.declared.row.Change as change;
ghost use Rattle.sds_types.specs.declared.row.Row as row;
ghost use Rattle.sds_trade.specs.rules.Fitting.{FitsRow};
ghost use Rattle.sds_trade.specs.rules.Sound.{IsSound};
ghost use Rattle.sds_trade.specs.rules.Tables.{AreTables};
ghost use Rattle.sds_history.specs.history.Image.{count_records, image_of, records_of};
ghost use Rattle.sds_history.specs.history.Records as stated;
ghost use Rattle.sds_history.specs.history.RowRecords.{change_record, row_record};
ghost use Rattle.sds_history.specs.history.SoundStates.{IsSoundState};
ghost use Rattle.sds_records.specs.Parts.{FitsPart, HasKey, record_of_part, table_row};
ghost use Rattle.sds_image.specs.Meaning.{meaning_of};
ghost use Rattle.sds_image.specs.Pairs.{FitsSides, kept_pair, pairs};

use crate::sorted::sorted;
use crate::{Part, State, put_part};
use sds_base::{Bytes, List, NoMemory};
use sds_outside::Edit;
use sds_rows::Tables;
use sds_types::{Change, Config, Counts, KeptPeer, LaneIn, Opening, OutBatch, Row, WriterLast};
use std::alloc::Global;

/// Adds the record of a part.
fn push_part(
    alloc: Global,
    config: &Config,
    part: &Part<'_>,
    all: &mut Vec<(Bytes, Bytes)>,
) -> Result<(), NoMemory>
    requires { FitsPart config.now part.now }
    ensures { OnOk result (all.new.items
        ≡ all.old.items ++ kept_pair (record_of_part config.now part.now) ∷ []) }
{
    let Edit { key, body } = put_part(alloc, config, part)?;
    match body {
        Some(body) => all.push((key, body))?,
        None => {}
    }
    Ok(())
}

/// Adds the record of the counters, where an act was made.
pub(crate) fn push_counts(
    alloc: Global,
    config: &Config,
    counts: &Counts,
    all: &mut Vec<(Bytes, Bytes)>,
) -> Result<(), NoMemory>
    ensures { OnOk result (all.new.items
        ≡ all.old.items ++ pairs (count_records counts.now)) }
{
    if counts.acts != 0 {
        push_part(alloc, config, &Part::Counts(counts), all)?;
    }
    Ok(())
}

/// Adds the records of peers.
pub(crate) fn push_peers(
    alloc: Global,
    config: &Config,
    peers: &[KeptPeer],
    all: &mut Vec<(Bytes, Bytes)>,
) -> Result<(), NoMemory>
    ensures { OnOk result (all.new.items
        ≡ all.old.items ++ pairs (map stated.peer_record peers.now)) }
{
    for kept in peers {
        push_part(alloc, config, &Part::Peer(kept), all)?;
    }
    Ok(())
}

/// Adds the records of openings.
fn push_openings(
    alloc: Global,
    config: &Config,
    openings: &[Opening],
    all: &mut Vec<(Bytes, Bytes)>,
) -> Result<(), NoMemory>
    ensures { OnOk result (all.new.items
        ≡ all.old.items ++ pairs (map stated.opening_record openings.now)) }
{
    for opening in openings {
        push_part(alloc, config, &Part::Opening(opening), all)?;
    }
    Ok(())
}

/// Adds the records of writers.
pub(crate) fn push_writers(
    alloc: Global,
    config: &Config,
    writers: &[WriterLast],
    all: &mut Vec<(Bytes, Bytes)>,
) -> Result<(), NoMemory>
    ensures { OnOk result (all.new.items
        ≡ all.old.items ++ pairs (map stated.writer_record writers.now)) }
{
    for last in writers {
        push_part(alloc, config, &Part::Writer(last), all)?;
    }
    Ok(())
}

/// Adds the records of rows of the table at a place.
fn push_rows(
    alloc: Global,
    config: &Config,
    table: u32,
    rows: &[&Row],
    all: &mut Vec<(Bytes, Bytes)>,
) -> Result<(), NoMemory>
    requires key { HasKey config.now.tables table }
    requires rows { All (λ row. FitsRow config.now.tables table row.now) rows.now }
    ensures { OnOk result (all.new.items ≡ all.old.items
        ++ pairs (map (λ (row : row.Row). row_record config.now (table_row table row))
        (map (λ row. row.now) rows.now))) }
{
    for row in rows {
        push_part(alloc, config, &Part::Row(table, *row), all)?;
    }
    Ok(())
}

/// Adds the records of the rows of all tables.
fn push_tables(
    alloc: Global,
    config: &Config,
    tables: &Tables,
    all: &mut Vec<(Bytes, Bytes)>,
) -> Result<(), NoMemory>
    requires config { IsSound config.now }
    requires tables { AreTables config.now.tables tables.now.rows }
    ensures { OnOk result (all.new.items
        ≡ all.old.items ++ pairs (map (row_record config.now) tables.now.rows)) }
{
    let count = config.tables.inner().len() as u32;
    for table in 0..count {
        let rows = tables.rows(alloc, table)?;
        push_rows(alloc, config, table, &rows, all)?;
    }
    Ok(())
}

/// Adds the records of changes.
fn push_changes(
    alloc: Global,
    config: &Config,
    changes: &[Change],
    all: &mut Vec<(Bytes, Bytes)>,
) -> Result<(), NoMemory>
    requires { All (FitsSides config.now) changes.now }
    ensures { OnOk result (all.new.items
        ≡ all.old.items ++ pairs (map (change_record config.now) changes.now)) }
{
    for change in changes {
        push_part(alloc, config, &Part::Change(change), all)?;
    }
    Ok(())
}

/// Adds the records of batches.
fn push_batches(
    alloc: Global,
    config: &Config,
    batches: &[OutBatch],
    all: &mut Vec<(Bytes, Bytes)>,
) -> Result<(), NoMemory>
    ensures { OnOk result (all.new.items
        ≡ all.old.items ++ pairs (map (stated.batch_record config.now) batches.now)) }
{
    for batch in batches {
        push_part(alloc, config, &Part::Batch(batch), all)?;
    }
    Ok(())
}

/// Adds the records of lanes.
fn push_lanes(
    alloc: Global,
    config: &Config,
    lanes: &[LaneIn],
    all: &mut Vec<(Bytes, Bytes)>,
) -> Result<(), NoMemory>
    ensures { OnOk result (all.new.items
        ≡ all.old.items ++ pairs (map (stated.lane_record config.now) lanes.now)) }
{
    for lane in lanes {
        push_part(alloc, config, &Part::Lane(lane), all)?;
    }
    Ok(())
}

/// The records of all parts of a state, kind by kind.
fn gathered(alloc: Global, config: &Config, state: &State) -> Result<Vec<(Bytes, Bytes)>, NoMemory>
    requires config { IsSound config.now }
    requires tables { AreTables config.now.tables state.now.tables.rows }
    requires changes { All (FitsSides config.now) state.now.changes }
    ensures { IfOk result (λ all.
        all.items ≡ pairs (records_of config.now (meaning_of state.now))) }
{
    let mut all = Vec::new(alloc);
    push_part(alloc, config, &Part::Me(&state.me), &mut all)?;
    push_counts(alloc, config, &state.counts, &mut all)?;
    push_peers(alloc, config, state.peers.inner(), &mut all)?;
    push_openings(alloc, config, state.openings.inner(), &mut all)?;
    push_writers(alloc, config, state.writers.inner(), &mut all)?;
    push_tables(alloc, config, &state.tables, &mut all)?;
    push_changes(alloc, config, state.changes.inner(), &mut all)?;
    push_batches(alloc, config, state.batches.inner(), &mut all)?;
    push_lanes(alloc, config, state.lanes.inner(), &mut all)?;
    Ok(all)
}

impl State {
    /// The records of all that the node has, ascending by their keys in bytes.
    pub fn records(&self, alloc: Global, config: &Config) -> Result<List<(Bytes, Bytes)>, NoMemory>
        requires config { IsSound config.now }
        requires state { IsSoundState config.now (meaning_of self.now) }
        ensures { IfOk result (λ records.
            records ≡ pairs (image_of config.now (meaning_of self.now))) }
    {
        let all = gathered(alloc, config, self)?;
        Ok(List::of(sorted(alloc, all)?))
    }
}
