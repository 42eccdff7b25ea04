//! Whether a row of a batch conflicts with the row that stands.
ghost use Rattle.std.specs.Prelude.{◌≡◌, option_and_then, option_copied, slice_get};
ghost use Rattle.sds_value.specs.declared.row.Event.TheVariants.{Update};
ghost use Rattle.sds_trade.specs.rules.Conflicts as seen;

use sds_base::List;
use sds_rowvalues::{gives, new_value, old_value, same_value, value_at};
use sds_types::{Config, ConflictDef, DetectType, LoadRow, Row, Verdict};
use sds_value::{Event, Value};

/// Whether a row of a batch conflicts with its target row: of an insert the row of its new key,
/// else that of its old key. An insert conflicts where that stands, an update or a delete where it
/// doesn't, and otherwise as the setting at this place says; without a setting the key decides. The
/// old value that a detection compares has to be given (the SymmetricDS guide's chapter on
/// conflicts; what is said of missing old values and of deletes is symds' own).
pub fn conflicts(
    config: &Config,
    setting: Option<u32>,
    row: &LoadRow,
    target: Option<&Row>,
) -> Verdict
    ensures { result ≡ seen.verdict (option_and_then (slice_get config.now.conflicts) setting)
        row.now (option_copied target.entry) }
{
    match row.event {
        Event::Insert => yes_if(target.is_some()),
        Event::Update | Event::Delete => verdict_at(setting_at(config, setting), row, target),
    }
}

/// The setting at a place.
pub(crate) fn setting_at(config: &Config, setting: Option<u32>) -> Option<&ConflictDef>
    ensures { option_copied result ≡ option_and_then (slice_get config.now.conflicts) setting }
{
    match setting {
        None => None,
        Some(place) => config.conflicts.inner().get(place as usize),
    }
}

fn yes_if(conflict: bool) -> Verdict
    ensures { result ≡ seen.yes_if conflict }
{
    if conflict { Verdict::Yes } else { Verdict::No }
}

/// The verdict on an update or a delete.
fn verdict_at(setting: Option<&ConflictDef>, row: &LoadRow, target: Option<&Row>) -> Verdict
    ensures { result ≡ seen.verdict_at (option_copied setting.entry) row.now
        (option_copied target.entry) }
{
    match (setting, target) {
        (_, None) => Verdict::Yes,
        (None, Some(_)) => Verdict::No,
        (Some(setting), Some(kept)) => verdict_by(setting, row, kept),
    }
}

/// The verdict by the detection, where the target row stands.
fn verdict_by(setting: &ConflictDef, row: &LoadRow, kept: &Row) -> Verdict
    ensures { result ≡ seen.verdict_by setting.now.detect_type setting.now.detect_expression
        row.now row.now.old kept.now }
{
    if setting.detect_type == DetectType::UsePkData {
        return Verdict::No;
    }
    match &row.old {
        None => Verdict::OldMissing,
        Some(old) => verdict_on(setting, row, old, kept),
    }
}

/// The verdict by a detection that compares old values.
fn verdict_on(setting: &ConflictDef, row: &LoadRow, old: &List<Value>, kept: &Row) -> Verdict
    ensures { result ≡ seen.verdict_by setting.now.detect_type setting.now.detect_expression
        row.now (Some old.now) kept.now }
{
    match setting.detect_type {
        DetectType::UsePkData => Verdict::No,
        DetectType::UseOldData => yes_if(old_differs(row, old, kept)),
        DetectType::UseChangedData => yes_if(changed_differs(row, old, kept)),
        DetectType::UseTimestamp | DetectType::UseVersion => {
            named_verdict(row, old, kept, setting.detect_expression)
        }
    }
}

/// Whether the old value of a column isn't the one that stands.
fn differs_at(row: &LoadRow, old: &List<Value>, kept: &Row, column: usize) -> bool
    ensures { result ≡ seen.differs_at row.now old.now kept.now column }
{
    !same_value(
        old_value(row, old, column),
        value_at(kept.0.inner().as_slice(), column),
    )
}

/// Whether the new value of a column isn't its old one.
fn changes_at(row: &LoadRow, old: &List<Value>, column: usize) -> bool
    ensures { result ≡ seen.changes_at row.now old.now column }
{
    !same_value(old_value(row, old, column), new_value(row, column))
}

/// Whether an old value that is given isn't the one that stands.
fn old_differs(row: &LoadRow, old: &List<Value>, kept: &Row) -> bool
    ensures { result ≡ seen.old_differs row.now old.now kept.now }
{
    for place in row.columns.inner() {
        let column = *place as usize;
        if gives(row, column) && differs_at(row, old, kept, column) {
            return true;
        }
    }
    false
}

/// Whether such an old value of a column that the row changes isn't the one that stands; a delete
/// changes all.
fn changed_differs(row: &LoadRow, old: &List<Value>, kept: &Row) -> bool
    ensures { result ≡ seen.changed_differs row.now old.now kept.now row.now.event }
{
    match row.event {
        Event::Delete => old_differs(row, old, kept),
        Event::Insert | Event::Update => some_changed_differs(row, old, kept),
    }
}

/// Whether an old value that is given, of a column with another new one, isn't the one that stands.
fn some_changed_differs(row: &LoadRow, old: &List<Value>, kept: &Row) -> bool
    ensures { result ≡ seen.changed_differs row.now old.now kept.now Update }
{
    for place in row.columns.inner() {
        let column = *place as usize;
        if gives(row, column)
            && changes_at(row, old, column)
            && differs_at(row, old, kept, column)
        {
            return true;
        }
    }
    false
}

/// The verdict by the old value of the named column, which may not be given.
fn named_verdict(row: &LoadRow, old: &List<Value>, kept: &Row, column: Option<u32>) -> Verdict
    ensures { result ≡ seen.named_verdict row.now old.now kept.now column }
{
    let Some(column) = column else {
        return Verdict::OldMissing;
    };
    if !gives(row, column as usize) {
        return Verdict::OldMissing;
    }
    yes_if(differs_at(row, old, kept, column as usize))
}
