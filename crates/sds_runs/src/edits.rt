//! The edits of an act that ran rows.
ghost use Rattle.std.specs.Prelude.{◌≡◌, ◌++◌, IfOk, OnOk, map};
ghost use Rattle.std.specs.List.{All};
ghost use Rattle.sds_history.specs.history.RowRecords.{change_record};
ghost use Rattle.sds_image.specs.Pairs.{FitsSides};
ghost use Rattle.sds_imagelaws.specs.Edits.{puts_of};
ghost use Rattle.sds_records.specs.Parts.{FitsPart, record_of_part};
ghost use Rattle.sds_rows.specs.Undoing.{without_undos};
ghost use Rattle.sds_runs.specs.Fitting.{FitSteps};
ghost use Rattle.sds_runs.specs.Made as made;

use crate::steps::push_steps;
use sds_base::{List, NoMemory};
use sds_commit::push_put;
use sds_image::Part;
use sds_outside::Edit;
use sds_rows::Done;
use sds_types::{Change, Config, Counts};
use std::alloc::Global;

/// Adds the edits that put the records of changes.
fn push_changes(
    alloc: Global,
    config: &Config,
    changes: &[Change],
    edits: &mut Vec<Edit>,
) -> Result<(), NoMemory>
    requires { All (FitsSides config.now) changes.now }
    ensures { OnOk result (edits.new.items
        ≡ edits.old.items ++ puts_of (map (change_record config.now) changes.now)) }
{
    for change in changes {
        push_put(alloc, config, &Part::Change(change), edits)?;
    }
    Ok(())
}

/// The edits of an act that made these steps: those of the rows and of the changes that were
/// captured, that of what is kept of the writer or the lane, and that of the counters after it.
pub(crate) fn ran_edits(
    alloc: Global,
    config: &Config,
    dones: &[Done],
    changes: &[Change],
    kept: &Part<'_>,
    counts: &Counts,
) -> Result<List<Edit>, NoMemory>
    requires steps { FitSteps config.now dones.now }
    requires changes { All (FitsSides config.now) changes.now }
    requires kept { FitsPart config.now kept.now }
    ensures { IfOk result (λ edits. edits ≡ made.ran_edits config.now (without_undos dones.now)
        changes.now (record_of_part config.now kept.now) counts.now) }
{
    let mut edits = Vec::new(alloc);
    push_steps(alloc, config, dones, &mut edits)?;
    push_changes(alloc, config, changes, &mut edits)?;
    push_put(alloc, config, kept, &mut edits)?;
    push_put(alloc, config, &Part::Counts(counts), &mut edits)?;
    Ok(List::of(edits))
}
