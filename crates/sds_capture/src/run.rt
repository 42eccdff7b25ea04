//! The rows of a transaction, one after another.
ghost use Rattle.std.specs.Prelude.{◌≡◌, ◌+◌, ◌<◌, ◌≤◌, ◌^◌, ℕ, List, [], ◌∷◌, IfOk, OnErr, length};
ghost use Rattle.std.specs.Str.{chars};
ghost use Rattle.sds_types.specs.declared.row.TableRow.{TableRow};
ghost use Rattle.sds_trade.specs.rules.Captured.{overflows};
ghost use Rattle.sds_trade.specs.rules.Runs as runs;
ghost use Rattle.sds_rows.specs.Undoing.{Undone, without_undos};
ghost use Rattle.sds_capture.specs.Ends.{dones_of, end_of, end_with, numbered, run_at, with_dones};

use crate::capture::channel_of;
use crate::{Judge, Outcome};
use sds_base::{List, NoMemory};
use sds_rows::{Done, Tables};
use sds_types::limits::MOST_UNROUTED_CHANGES;
use sds_types::{Config, Resolution, RowStep, Rule};
use std::alloc::Global;

/// Where steps are made: what decides which of them are captured.
#[derive(Drop)]
pub struct Capturing<'a> {
    pub config: &'a Config,
    /// The group of the node.
    pub group: &'a str,
    /// Whether a batch brings the rows.
    pub incoming: bool,
    /// How many changes waited to be routed before the transaction.
    pub waiting: u32,
}

/// What a row comes to.
pub(crate) enum Taken {
    /// Its step is made, or it is skipped.
    Further,
    /// The whole batch is skipped.
    SkipsBatch,
    /// It breaks this rule.
    Breaks(Rule),
}

/// Whether a step would be captured where too many changes wait.
fn overflows(at: &Capturing, step: &RowStep) -> bool
    ensures { result ≡ overflows at.now.config.now (chars at.now.group.now) at.now.incoming
        at.now.waiting step.now }
{
    at.waiting >= MOST_UNROUTED_CHANGES
        && channel_of(at.config, at.group, at.incoming, step).is_some()
}

/// What is to be done with a row, where a step that it asks for is judged by the rules on steps.
fn by_step_rules(at: &Capturing, tables: &Tables, asks: Resolution) -> Resolution
    ensures { result ≡ runs.by_step_rules tables.now.defs (overflows at.now.config.now
        (chars at.now.group.now) at.now.incoming at.now.waiting) tables.now.rows asks }
{
    match asks {
        Resolution::Apply(step) => {
            if let Some(rule) = tables.test(&step) {
                return Resolution::Broken(rule);
            }
            if overflows(at, &step) {
                return Resolution::Broken(Rule::CaptureFull);
            }
            Resolution::Apply(step)
        }
        other => other,
    }
}

/// Judges a row on the tables that the rows before it left, and makes the step that it asks for.
fn take_row<J: Judge>(
    alloc: Global,
    at: &Capturing,
    judge: &J,
    tables: &mut Tables,
    dones: &mut Vec<Done>,
    row: &J::Row,
) -> Result<Taken, NoMemory>
    requires defs { tables.old.defs ≡ at.now.config.now.tables }
    requires judge { J.defs judge.now ≡ at.now.config.now.tables }
    ensures ends { IfOk result (λ taken. (number : ℕ) (later : List (ℕ × J.Row)) →
        with_dones (without_undos dones.old.items) (run_at at.now (J.asked judge.now)
        tables.old.rows ((number, row.now) ∷ later))
        ≡ end_with taken number (with_dones (without_undos dones.new.items)
        (run_at at.now (J.asked judge.now) tables.new.rows later))) }
    ensures undone { (before : List TableRow) → Undone dones.old.items tables.old before
        → Undone dones.new.items tables.new before }
    ensures defs { tables.new.defs ≡ tables.old.defs }
{
    let asks = judge.ask(alloc, tables, row)?;
    match by_step_rules(at, tables, asks) {
        Resolution::Apply(step) => {
            tables.make(alloc, step, dones)?;
            Ok(Taken::Further)
        }
        Resolution::SkipRow => Ok(Taken::Further),
        Resolution::SkipBatch => Ok(Taken::SkipsBatch),
        Resolution::Broken(rule) => Ok(Taken::Breaks(rule)),
    }
}

/// Takes rows one after another, each judged on the tables that those before it left: by what it
/// asks for, then by the rules on steps, then by whether its step would be captured while 100,000
/// changes wait to be routed. All steps stand, or else none does: the first row that breaks a rule
/// or asks to skip the batch ends the run, and leaves the tables' rows as before, as does want of
/// memory. The order of the rules is symds' own.
pub fn run_rows<J: Judge>(
    alloc: Global,
    at: &Capturing,
    judge: &J,
    tables: &mut Tables,
    rows: &[J::Row],
) -> Result<Outcome, NoMemory>
    requires defs { tables.old.defs ≡ at.now.config.now.tables }
    requires judge { J.defs judge.now ≡ at.now.config.now.tables }
    requires count { length rows.now < 2 ^ 32 }
    ensures outcome { IfOk result (λ outcome. end_of outcome tables.new.rows
        ≡ run_at at.now (J.asked judge.now) tables.old.rows
        (numbered (J.number judge.now) 0 rows.now)) }
    ensures undone { IfOk result (λ outcome. Undone (dones_of outcome) tables.new tables.old.rows) }
    ensures err { OnErr result (tables.new.rows ≡ tables.old.rows) }
    ensures defs { tables.new.defs ≡ tables.old.defs }
{
    let mut dones = Vec::new(alloc);
    for (place, row) in rows.iter().enumerate() {
        match take_row(alloc, at, judge, tables, &mut dones, row) {
            Ok(Taken::Further) => {}
            Ok(Taken::SkipsBatch) => {
                tables.revert_all(dones);
                return Ok(Outcome::Ignored);
            }
            Ok(Taken::Breaks(rule)) => {
                tables.revert_all(dones);
                let row = judge.number(place, row);
                return Ok(Outcome::Broken { row, rule });
            }
            Err(NoMemory) => {
                tables.revert_all(dones);
                return Err(NoMemory);
            }
        }
    }
    Ok(Outcome::Done(List::of(dones)))
}
