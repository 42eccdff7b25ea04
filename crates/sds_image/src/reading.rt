//! A state read from the records that a keeper has of it.
ghost use Rattle.std.specs.Prelude.{◌≡◌, List, Some, IfOk, IsSome, unwrap_or};
ghost use Rattle.std.specs.List.{filter_map};
ghost use Rattle.sds_trade.specs.rules.Sound.{IsSound};
ghost use Rattle.sds_rows.specs.Stored.{AreInOrder};
ghost use Rattle.sds_history.specs.history.Records.{Record};
ghost use Rattle.sds_history.specs.history.States.{zero_counts};
ghost use Rattle.sds_image.specs.Meaning.{meaning_of};
ghost use Rattle.sds_image.specs.Pairs.{pairs};
ghost use Rattle.sds_image.specs.ReadStates.{IsReading};
ghost use Rattle.sds_image.specs.Reading as told;

use crate::disagreeing::first_disagreement;
use crate::lists::{Lists, lists_of};
use crate::seen::Seen;
use crate::telling::{has_me, read_parts};
use crate::{State, StateRefusal, Told};
use sds_base::{Bytes, NoMemory, Twin};
use sds_rows::Tables;
use sds_types::{Config, Counts, TableRow};
use std::alloc::Global;

impl State {
    /// The state that records tell, or why they tell none.
    ///
    /// First of all a record has to be that of the node itself. Then each record in turn has to
    /// tell a part of a state, and its key has to be after that of the record before it. Then each
    /// part in turn has to agree with the configuration, with the state of all parts, and with the
    /// parts before it (the forms of records and these rules are symds' own).
    pub fn read(
        alloc: Global,
        config: &Config,
        records: &[(Bytes, Bytes)],
    ) -> Result<State, StateRefusal>
        ensures reading { IsSound config.now → (kept : List Record) → pairs kept ≡ records.now
            → IsReading config.now kept result }
        ensures defs { IfOk result (λ state. state.tables.defs ≡ config.now.tables) }
    {
        if !has_me(records) {
            return Err(StateRefusal::BadRecord(Bytes::of(Vec::new(alloc))));
        }
        let parts = match read_parts(alloc, config, records) {
            Ok(parts) => parts,
            Err(refusal) => return Err(refusal),
        };
        let seen = Seen::of(alloc, config, parts.inner())?;
        if let Some(place) = first_disagreement(alloc, config, &seen, parts.inner())? {
            return Err(StateRefusal::Contradicts(records[place].0.twin(alloc)?));
        }
        let counts = seen.counts;
        let rows = seen.into_rows();
        Ok(state_of(alloc, config, counts, rows, parts.into_inner())?)
    }
}

/// The state of parts, with its counters and its rows.
fn state_of(
    alloc: Global,
    config: &Config,
    counts: Counts,
    rows: Vec<TableRow>,
    parts: Vec<Told>,
) -> Result<State, NoMemory>
    requires me { IsSome (told.first_told told.me_of_part parts.items) }
    requires counts { counts
        ≡ unwrap_or (told.first_told told.counts_of_part parts.items) zero_counts }
    requires rows { rows.items
        ≡ told.sorted_rows config.now.tables (filter_map told.row_of_part parts.items) }
    requires order { AreInOrder config.now.tables rows.items }
    ensures told { IfOk result (λ state.
        told.state_told config.now parts.items ≡ Some (meaning_of state)) }
    ensures defs { IfOk result (λ state. state.tables.defs ≡ config.now.tables) }
{
    let tables = Tables::with_rows(alloc, &config.tables, rows)?;
    let Lists {
        me,
        peers,
        openings,
        writers,
        changes,
        batches,
        lanes,
    } = lists_of(alloc, parts)?;
    match me {
        Some(me) => Ok(State {
            me,
            counts,
            peers,
            openings,
            writers,
            tables,
            changes,
            batches,
            lanes,
        }),
        None => unreachable!(),
    }
}
