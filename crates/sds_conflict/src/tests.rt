//! Conflicts seen and resolved, each case in a table with what is due.
ghost use Rattle.std.specs.Prelude.{◌≡◌, IfOk};

use crate::resolve;
use crate::tests_rows::ListRows;
use sds_base::{List, NoMemory, Twin, Txt};
use sds_types::{
    Addend, Config, ConflictDef, DetectType, Key, LoadRow, Resolution, ResolveType, Row, RowStep,
    TableRow,
};
use sds_value::{ColumnDef, Event, Kind, TableDef, Value};
use std::alloc::Global;
use std::test::Fail;

const MOST: i64 = 9_223_372_036_854_775_807;

/// What a row of a batch says of a column: nothing, null, a number, or a time of so many
/// nanoseconds.
#[derive(Clone, Copy, Debug)]
enum Says {
    Nothing,
    Null,
    Number(i64),
    Time(u64),
}

/// A row of a batch: its key, what it says of the four columns, its old values where they are
/// given, and what it adds to the count.
#[derive(Clone, Copy, Debug)]
struct Given {
    event: Event,
    key: i64,
    new: [Says; 4],
    old: Option<[Says; 4]>,
    add: Option<Option<i128>>,
}

fn value_of(says: Says) -> Value {
    match says {
        Says::Nothing | Says::Null => Value::Null,
        Says::Number(number) => Value::Integer(number),
        Says::Time(nano) => Value::Stamp { day: 19_782, nano },
    }
}

/// The values of the columns of which the row says something.
fn values_of(alloc: Global, listed: [Says; 4], says: [Says; 4]) -> Result<List<Value>, NoMemory> {
    let mut values = List::new(alloc);
    for (place, one) in says.iter().enumerate() {
        if !matches!(listed[place], Says::Nothing) {
            values.push(value_of(*one))?;
        }
    }
    Ok(values)
}

fn places_of(alloc: Global, listed: [Says; 4]) -> Result<List<u32>, NoMemory> {
    let mut places = List::new(alloc);
    let mut place = 0u32;
    for one in listed {
        if !matches!(one, Says::Nothing) {
            places.push(place)?;
        }
        place = place.saturating_add(1);
    }
    Ok(places)
}

fn key_of(alloc: Global, id: i64) -> Result<Key, NoMemory> {
    let mut values = List::new(alloc);
    values.push(Value::Integer(id))?;
    Ok(Key(values))
}

fn load_row(alloc: Global, given: Given) -> Result<LoadRow, NoMemory> {
    let mut adds = List::new(alloc);
    if let Some(add) = given.add {
        adds.push(Addend { column: 1, add })?;
    }
    let old = match given.old {
        None => None,
        Some(old) => Some(values_of(alloc, given.new, old)?),
    };
    let new = match given.event {
        Event::Delete => List::new(alloc),
        _ => values_of(alloc, given.new, given.new)?,
    };
    Ok(LoadRow {
        row: 1,
        table: 0,
        event: given.event,
        key: key_of(alloc, given.key)?,
        columns: places_of(alloc, given.new)?,
        new,
        old,
        adds,
    })
}

fn column(alloc: Global, name: &str, kind: Kind, not_null: bool) -> Result<ColumnDef, NoMemory> {
    Ok(ColumnDef {
        name: Txt::copied(alloc, name)?,
        kind,
        not_null,
        parent: None,
    })
}

/// One table: an id, a count, a version and a time.
fn tables(alloc: Global) -> Result<List<TableDef>, NoMemory> {
    let mut columns = List::new(alloc);
    columns.push(column(alloc, "id", Kind::Integer, true)?)?;
    columns.push(column(alloc, "count", Kind::Integer, false)?)?;
    columns.push(column(alloc, "version", Kind::Integer, false)?)?;
    columns.push(column(alloc, "set", Kind::Timestamp, false)?)?;
    let mut key = List::new(alloc);
    key.push(0)?;
    let mut defs = List::new(alloc);
    defs.push(TableDef {
        name: Txt::copied(alloc, "count")?,
        columns,
        key,
    })?;
    Ok(defs)
}

fn setting(detect: DetectType, resolve: ResolveType, row_only: bool) -> ConflictDef {
    ConflictDef {
        source_group: 1,
        target_group: 0,
        target_table: 0,
        detect_type: detect,
        detect_expression: match detect {
            DetectType::UseVersion => Some(2),
            DetectType::UseTimestamp => Some(3),
            _ => None,
        },
        resolve_type: resolve,
        resolve_row_only: row_only,
    }
}

fn config(alloc: Global, conflict: Option<ConflictDef>) -> Result<Config, NoMemory>
    ensures { IfOk result (λ config. config.tables ≡ config.tables) }
{
    let mut conflicts = List::new(alloc);
    if let Some(conflict) = conflict {
        conflicts.push(conflict)?;
    }
    Ok(Config {
        groups: List::new(alloc),
        links: List::new(alloc),
        channels: List::new(alloc),
        tables: tables(alloc)?,
        triggers: List::new(alloc),
        routers: List::new(alloc),
        trigger_routers: List::new(alloc),
        transforms: List::new(alloc),
        conflicts,
    })
}

/// The rows of these tables where one stands, of the id 1, with these values in its other columns.
fn standing(alloc: Global, defs: &List<TableDef>, says: [Says; 3]) -> Result<ListRows, NoMemory>
    ensures { IfOk result (λ rows. rows.defs ≡ defs.now) }
{
    let mut values = List::new(alloc);
    values.push(Value::Integer(1))?;
    for one in says {
        values.push(value_of(one))?;
    }
    let mut rows = List::new(alloc);
    rows.push(TableRow {
        table: 0,
        row: Row(values),
    })?;
    Ok(ListRows {
        defs: defs.twin(alloc)?,
        rows,
    })
}

fn put_values(values: &[Value], out: &mut String) -> Result<(), NoMemory> {
    for value in values {
        match value {
            Value::Integer(number) => {
                let text = number.to_string(*out.allocator())?;
                out.push(' ')?;
                out.push_str(text.as_str())?;
            }
            Value::Stamp { nano, .. } => {
                let text = nano.to_string(*out.allocator())?;
                out.push_str(" t")?;
                out.push_str(text.as_str())?;
            }
            _ => out.push_str(" -")?,
        }
    }
    Ok(())
}

/// What is to be done, in words.
fn told(alloc: Global, done: &Resolution) -> Result<String, NoMemory> {
    let mut out = String::new(alloc);
    match done {
        Resolution::Apply(RowStep::Insert { row, .. }) => {
            out.push_str("insert")?;
            put_values(row.0.inner().as_slice(), &mut out)?;
        }
        Resolution::Apply(RowStep::Update { key, row, .. }) => {
            out.push_str("update")?;
            put_values(key.0.inner().as_slice(), &mut out)?;
            out.push_str(":")?;
            put_values(row.0.inner().as_slice(), &mut out)?;
        }
        Resolution::Apply(RowStep::Delete { key, .. }) => {
            out.push_str("delete")?;
            put_values(key.0.inner().as_slice(), &mut out)?;
        }
        Resolution::SkipRow => out.push_str("skip")?,
        Resolution::SkipBatch => out.push_str("skip batch")?,
        Resolution::Broken(rule) => out.push_str(rule.name())?,
    }
    Ok(out)
}

/// What is done with a row under a setting, where the row of the id 1 stands with these values.
fn answer(
    alloc: Global,
    conflict: Option<ConflictDef>,
    says: [Says; 3],
    given: Given,
) -> Result<String, NoMemory> {
    let place = conflict.map(|_| 0);
    let config = config(alloc, conflict)?;
    let rows = standing(alloc, &config.tables, says)?;
    let row = load_row(alloc, given)?;
    let done = resolve(alloc, &config, place, &row, &rows)?;
    told(alloc, &done)
}

/// The row that stands: the count 10, the version 5 and the time 5.
const STANDING: [Says; 3] = [Says::Number(10), Says::Number(5), Says::Time(5)];

fn full(id: i64, count: i64, version: i64, time: u64) -> [Says; 4] {
    [
        Says::Number(id),
        Says::Number(count),
        Says::Number(version),
        Says::Time(time),
    ]
}

/// A row of the key with newer values, and old ones that stood before the others were put.
fn newer(event: Event, key: i64, with_old: bool) -> Given {
    Given {
        event,
        key,
        new: full(key, 8, 6, 6),
        old: if with_old {
            Some(full(key, 10, 4, 4))
        } else {
            None
        },
        add: None,
    }
}

/// Each detection with each event, with and without old values, on a row that stands and whose old
/// version and time differ, by the resolutions FALLBACK, IGNORE, MANUAL and NEWER_WINS: `a` is
/// applied, `s` skipped, `m` ManualConflict, `o` OldMissing, and `-` no configuration has.
const EVERY: [(DetectType, Event, bool, &str); 25] = [
    (DetectType::UsePkData, Event::Insert, false, "asm-"),
    (DetectType::UsePkData, Event::Update, false, "aaa-"),
    (DetectType::UsePkData, Event::Update, true, "aaa-"),
    (DetectType::UsePkData, Event::Delete, false, "aaa-"),
    (DetectType::UsePkData, Event::Delete, true, "aaa-"),
    (DetectType::UseOldData, Event::Insert, false, "asm-"),
    (DetectType::UseOldData, Event::Update, false, "ooo-"),
    (DetectType::UseOldData, Event::Update, true, "asm-"),
    (DetectType::UseOldData, Event::Delete, false, "ooo-"),
    (DetectType::UseOldData, Event::Delete, true, "asm-"),
    (DetectType::UseChangedData, Event::Insert, false, "asm-"),
    (DetectType::UseChangedData, Event::Update, false, "ooo-"),
    (DetectType::UseChangedData, Event::Update, true, "asm-"),
    (DetectType::UseChangedData, Event::Delete, false, "ooo-"),
    (DetectType::UseChangedData, Event::Delete, true, "asm-"),
    (DetectType::UseTimestamp, Event::Insert, false, "asma"),
    (DetectType::UseTimestamp, Event::Update, false, "oooo"),
    (DetectType::UseTimestamp, Event::Update, true, "asma"),
    (DetectType::UseTimestamp, Event::Delete, false, "oooo"),
    (DetectType::UseTimestamp, Event::Delete, true, "asms"),
    (DetectType::UseVersion, Event::Insert, false, "asma"),
    (DetectType::UseVersion, Event::Update, false, "oooo"),
    (DetectType::UseVersion, Event::Update, true, "asma"),
    (DetectType::UseVersion, Event::Delete, false, "oooo"),
    (DetectType::UseVersion, Event::Delete, true, "asms"),
];

/// What is due of an event, by its letter in the table.
fn due(event: Event, letter: u8) -> &'static str {
    match (letter, event) {
        (b's', _) => "skip",
        (b'm', _) => "ManualConflict",
        (b'o', _) => "OldMissing",
        (_, Event::Delete) => "delete 1",
        (_, _) => "update 1: 1 8 6 t6",
    }
}

#[test]
fn every_detection_and_resolution(rt: HostRuntime) -> Result<(), Fail> {
    let alloc = rt.alloc();
    for (detect, event, with_old, letters) in EVERY {
        for (place, letter) in letters.as_bytes().iter().enumerate() {
            let resolve_type = match place {
                0 => ResolveType::Fallback,
                1 => ResolveType::Ignore,
                2 => ResolveType::Manual,
                _ => ResolveType::NewerWins,
            };
            if *letter == b'-' {
                continue;
            }
            let one = setting(detect, resolve_type, true);
            let got = answer(alloc, Some(one), STANDING, newer(event, 1, with_old))?;
            assert_eq!(rt;
                got.as_str(),
                due(event, *letter),
                "{detect:?} {event:?} {resolve_type:?}"
            );
        }
    }
    Ok(())
}

const NOTHING: [Says; 4] = [Says::Nothing; 4];

fn said(event: Event, key: i64, new: [Says; 4], old: Option<[Says; 4]>) -> Given {
    Given {
        event,
        key,
        new,
        old,
        add: None,
    }
}

fn added(given: Given, add: Option<i128>) -> Given {
    Given {
        add: Some(add),
        ..given
    }
}

fn by_version(resolve_type: ResolveType) -> Option<ConflictDef> {
    Some(setting(DetectType::UseVersion, resolve_type, true))
}

fn by_time() -> Option<ConflictDef> {
    Some(setting(DetectType::UseTimestamp, ResolveType::NewerWins, true))
}

fn batch_wide(resolve_type: ResolveType) -> Option<ConflictDef> {
    Some(setting(DetectType::UseOldData, resolve_type, false))
}

fn changed(resolve_type: ResolveType) -> Option<ConflictDef> {
    Some(setting(DetectType::UseChangedData, resolve_type, true))
}

fn id_alone(id: i64) -> [Says; 4] {
    [
        Says::Number(id),
        Says::Nothing,
        Says::Nothing,
        Says::Nothing,
    ]
}

fn count_alone(count: Says) -> [Says; 4] {
    [Says::Nothing, count, Says::Nothing, Says::Nothing]
}

fn timed(id: i64, time: Says) -> [Says; 4] {
    [Says::Number(id), Says::Nothing, Says::Nothing, time]
}

#[test]
fn rows_are_made_to_stand(rt: HostRuntime) -> Result<(), Fail> {
    let alloc = rt.alloc();
    let newest = ResolveType::NewerWins;
    let noon = [Says::Number(10), Says::Number(5), Says::Time(0)];
    let untimed = [Says::Number(10), Says::Number(5), Says::Null];
    for (conflict, stands, given, wanted) in [
        // Without a conflict, and without a setting, each event by what stands.
        (
            None,
            STANDING,
            said(Event::Insert, 2, id_alone(2), None),
            "insert 2 - - -",
        ),
        (
            None,
            STANDING,
            said(Event::Insert, 1, timed(1, Says::Time(9)), None),
            "update 1: 1 10 5 t9",
        ),
        (
            None,
            STANDING,
            said(Event::Update, 1, full(3, 8, 6, 6), None),
            "update 1: 3 8 6 t6",
        ),
        (
            None,
            STANDING,
            said(Event::Update, 2, timed(1, Says::Null), None),
            "update 1: 1 10 5 -",
        ),
        (
            None,
            STANDING,
            said(Event::Update, 2, count_alone(Says::Number(8)), None),
            "insert 2 8 - -",
        ),
        (
            None,
            STANDING,
            said(Event::Update, 2, full(3, 8, 6, 6), None),
            "insert 3 8 6 t6",
        ),
        (
            None,
            STANDING,
            said(Event::Delete, 1, NOTHING, None),
            "delete 1",
        ),
        (
            None,
            STANDING,
            said(Event::Delete, 2, NOTHING, None),
            "skip",
        ),
        // No row of the key stands: a conflict of an update and of a delete, and none of an insert.
        (
            by_version(ResolveType::Manual),
            STANDING,
            said(Event::Insert, 2, id_alone(2), None),
            "insert 2 - - -",
        ),
        (
            by_version(ResolveType::Manual),
            STANDING,
            newer(Event::Update, 2, false),
            "ManualConflict",
        ),
        (
            by_version(ResolveType::Ignore),
            STANDING,
            newer(Event::Delete, 2, false),
            "skip",
        ),
        (
            by_version(newest),
            STANDING,
            newer(Event::Update, 2, false),
            "insert 2 8 6 t6",
        ),
        (
            by_version(newest),
            STANDING,
            newer(Event::Delete, 2, false),
            "skip",
        ),
        // A whole batch is skipped.
        (
            batch_wide(ResolveType::Ignore),
            STANDING,
            newer(Event::Update, 1, true),
            "skip batch",
        ),
        (
            batch_wide(ResolveType::Ignore),
            STANDING,
            newer(Event::Insert, 1, false),
            "skip batch",
        ),
        // Ties are skipped, two nulls too; a nanosecond more wins, and null is below all.
        (
            by_time(),
            noon,
            said(Event::Insert, 1, timed(1, Says::Time(0)), None),
            "skip",
        ),
        (
            by_time(),
            noon,
            said(Event::Insert, 1, timed(1, Says::Time(1)), None),
            "update 1: 1 10 5 t1",
        ),
        (
            by_time(),
            noon,
            said(Event::Insert, 1, timed(1, Says::Null), None),
            "skip",
        ),
        (
            by_time(),
            untimed,
            said(Event::Insert, 1, timed(1, Says::Null), None),
            "skip",
        ),
        (
            by_time(),
            untimed,
            said(Event::Insert, 1, timed(1, Says::Time(0)), None),
            "update 1: 1 10 5 t0",
        ),
        // The named column isn't given.
        (
            by_time(),
            noon,
            said(Event::Insert, 1, id_alone(1), None),
            "OldMissing",
        ),
        (
            by_time(),
            noon,
            said(Event::Update, 1, id_alone(1), Some(id_alone(1))),
            "OldMissing",
        ),
        // Only a column that changes is compared, or each that is given.
        (
            changed(ResolveType::Manual),
            STANDING,
            said(Event::Update, 1, full(1, 8, 4, 5), Some(full(1, 10, 4, 5))),
            "update 1: 1 8 4 t5",
        ),
        (
            changed(ResolveType::Manual),
            STANDING,
            said(Event::Update, 1, full(1, 8, 5, 5), Some(full(1, 9, 5, 5))),
            "ManualConflict",
        ),
        (
            changed(ResolveType::Manual),
            STANDING,
            said(Event::Delete, 1, full(1, 8, 4, 5), Some(full(1, 10, 4, 5))),
            "ManualConflict",
        ),
        (
            batch_wide(ResolveType::Manual),
            STANDING,
            said(Event::Update, 1, full(1, 8, 6, 5), Some(full(1, 10, 5, 5))),
            "update 1: 1 8 6 t5",
        ),
        // Sums: to the value that stands, to 0 where none does or the row is inserted.
        (
            None,
            STANDING,
            added(newer(Event::Update, 1, false), Some(4)),
            "update 1: 1 14 6 t6",
        ),
        (
            None,
            STANDING,
            added(said(Event::Insert, 2, full(2, 7, 6, 6), None), Some(3)),
            "insert 2 3 6 t6",
        ),
        (
            None,
            [Says::Null; 3],
            added(newer(Event::Update, 1, false), Some(-4)),
            "update 1: 1 -4 6 t6",
        ),
        (
            None,
            [Says::Number(MOST), Says::Null, Says::Null],
            added(newer(Event::Insert, 1, false), Some(1)),
            "SumOutOfRange",
        ),
        (
            None,
            [Says::Number(MOST), Says::Null, Says::Null],
            added(newer(Event::Insert, 1, false), Some(0)),
            "update 1: 1 9223372036854775807 6 t6",
        ),
        (
            None,
            [Says::Number(-1), Says::Null, Says::Null],
            added(
                newer(Event::Update, 1, false),
                Some(-9_223_372_036_854_775_807),
            ),
            "update 1: 1 -9223372036854775808 6 t6",
        ),
        (
            None,
            [Says::Number(-2), Says::Null, Says::Null],
            added(
                newer(Event::Update, 1, false),
                Some(-9_223_372_036_854_775_807),
            ),
            "SumOutOfRange",
        ),
        (
            None,
            STANDING,
            added(newer(Event::Update, 1, false), Some(i128::MAX)),
            "SumOutOfRange",
        ),
        (
            None,
            [Says::Number(-2), Says::Null, Says::Null],
            added(newer(Event::Update, 1, false), Some(i128::MIN)),
            "SumOutOfRange",
        ),
        // A column that is added to isn't compared.
        (
            batch_wide(ResolveType::Manual),
            STANDING,
            added(
                said(Event::Update, 1, full(1, 8, 6, 5), Some(full(1, 9, 5, 5))),
                Some(-1),
            ),
            "update 1: 1 9 6 t5",
        ),
        // An addend without a value comes before every resolution, and a resolution before the sum.
        (
            None,
            STANDING,
            added(newer(Event::Update, 1, false), None),
            "OldMissing",
        ),
        (
            batch_wide(ResolveType::Manual),
            STANDING,
            added(newer(Event::Insert, 1, false), None),
            "OldMissing",
        ),
        (
            batch_wide(ResolveType::Ignore),
            STANDING,
            added(newer(Event::Insert, 1, false), None),
            "OldMissing",
        ),
        (
            batch_wide(ResolveType::Manual),
            STANDING,
            added(newer(Event::Insert, 1, false), Some(i128::MAX)),
            "ManualConflict",
        ),
        (
            batch_wide(ResolveType::Ignore),
            STANDING,
            added(newer(Event::Insert, 1, false), Some(i128::MAX)),
            "skip batch",
        ),
        (
            batch_wide(ResolveType::Manual),
            STANDING,
            newer(Event::Update, 1, false),
            "OldMissing",
        ),
    ] {
        let got = answer(alloc, conflict, stands, given)?;
        assert_eq!(rt; got.as_str(), wanted, "{given:?}");
    }
    Ok(())
}
