//! The changes that steps become.
ghost use Rattle.std.specs.Prelude.{◌≡◌, ◌+◌, ◌<◌, ◌≤◌, ◌∷◌, ◌^◌, IfOk, List, OnOk, length, option_copied};
ghost use Rattle.std.specs.List.{All};
ghost use Rattle.sds_trade.specs.rules.Captured as rules;
ghost use Rattle.sds_trade.specs.rules.Steps as stepped;
ghost use Rattle.sds_history.specs.history.SoundParts.{AreCounts};
ghost use Rattle.sds_image.specs.Meaning.{meaning_of};
ghost use Rattle.sds_image.specs.Pairs.{FitsSides};
ghost use Rattle.sds_rows.specs.Undoing.{without_undo, without_undos};
ghost use Rattle.sds_runs.specs.Fitting.{FitSteps, FitsStep};
ghost use Rattle.sds_runs.specs.Made.{changes_from, next_changes};

use crate::steps::{new_row, table_of};
use sds_base::{List, NoMemory, Twin, Txt};
use sds_capture::captured;
use sds_image::State;
use sds_rows::Done;
use sds_types::{Change, Config, Row, RowStep};
use sds_value::Event;
use std::alloc::Global;

/// What really happened by a step.
fn event_of(step: &RowStep) -> Event
    ensures { result ≡ stepped.event_of step.now }
{
    match step {
        RowStep::Insert { .. } => Event::Insert,
        RowStep::Update { .. } => Event::Update,
        RowStep::Delete { .. } => Event::Delete,
    }
}

/// A copy of a row, where there is one.
fn copy_of_row(alloc: Global, row: Option<&Row>) -> Result<Option<Row>, NoMemory>
    ensures { IfOk result (λ copy. copy ≡ option_copied row.entry) }
{
    match row {
        Some(row) => Ok(Some(row.twin(alloc)?)),
        None => Ok(None),
    }
}

/// A copy of the name of a node, where there is one.
fn copy_of_source(alloc: Global, source: Option<&Txt>) -> Result<Option<Txt>, NoMemory>
    ensures { IfOk result (λ copy. copy ≡ option_copied source.entry) }
{
    match source {
        Some(source) => Ok(Some(source.twin(alloc)?)),
        None => Ok(None),
    }
}

/// The change of these numbers that a step becomes in a channel.
fn change_of(
    alloc: Global,
    id: u64,
    tx: u64,
    source: Option<&Txt>,
    done: &Done,
    channel: u32,
) -> Result<Change, NoMemory>
    ensures { IfOk result (λ change. change ≡ rules.numbered_change (
      id,
      rules.change_in tx
          (option_copied source.entry) (without_undo done.now) channel,
    )) }
{
    Ok(Change {
        id,
        tx,
        table: table_of(&done.step),
        event: event_of(&done.step),
        new: copy_of_row(alloc, new_row(&done.step))?,
        old: done.old.twin(alloc)?,
        channel,
        source: copy_of_source(alloc, source)?,
    })
}

/// Adds the change that a step becomes, if it is captured, after those of the steps before it.
fn push_change(
    alloc: Global,
    config: &Config,
    state: &State,
    source: Option<&Txt>,
    done: &Done,
    changes: &mut Vec<Change>,
) -> Result<(), NoMemory>
    requires counts { AreCounts state.now.counts }
    requires count { length changes.old.items < 2 ^ 32 }
    ensures count { OnOk result (length changes.new.items ≤ length changes.old.items + 1) }
    ensures sides { OnOk result (FitsStep config.now (without_undo done.now)
        → All (FitsSides config.now) changes.old.items
        → All (FitsSides config.now) changes.new.items) }
    ensures changes { OnOk result ((later : List rules.Done) → changes_from config.now
        (meaning_of state.now) (option_copied source.entry) changes.old.items
        (without_undo done.now ∷ later)
        ≡ changes_from config.now (meaning_of state.now) (option_copied source.entry)
        changes.new.items later) }
{
    let group = state.me.group.as_str();
    if let Some(channel) = captured(config, group, done, source.is_some()) {
        let id = state.counts.last_change + 1 + changes.len() as u64;
        let tx = state.counts.last_tx + 1;
        changes.push(change_of(alloc, id, tx, source, done, channel)?)?;
    }
    Ok(())
}

/// The changes that the steps of the next act become at a node: those that are captured, with
/// numbers that follow that of its last change, in one transaction. `source` is the node whose
/// batch brought the rows.
pub(crate) fn next_changes(
    alloc: Global,
    config: &Config,
    state: &State,
    source: Option<&Txt>,
    dones: &[Done],
) -> Result<List<Change>, NoMemory>
    requires counts { AreCounts state.now.counts }
    requires steps { FitSteps config.now dones.now }
    requires count { length dones.now < 2 ^ 32 }
    ensures count { IfOk result (λ changes. length changes ≤ length dones.now) }
    ensures changes { IfOk result (λ changes. changes ≡ next_changes config.now
        (meaning_of state.now) (option_copied source.entry) (without_undos dones.now)) }
    ensures sides { IfOk result (λ changes. All (FitsSides config.now) changes) }
{
    let mut changes = Vec::new(alloc);
    for done in dones {
        push_change(alloc, config, state, source, done, &mut changes)?;
    }
    Ok(List::of(changes))
}
