//! The edits of rows and of changes, in words.
ghost use Rattle.std.specs.Prelude.{◌||◌, IfOk, IfSome, IsTrue};
ghost use Rattle.sds_value.specs.Values.{fits};
ghost use Rattle.sds_trade.specs.rules.Fitting.{FitColumns};
ghost use Rattle.sds_trade.specs.rules.Tables.{is_null};
ghost use Rattle.sds_records.specs.Parts.{FitsSide, HasKey};

use crate::Part;
use crate::tests_parts::{config, tell};
use sds_base::{List, NoMemory, Txt};
use sds_rowvalues::{columns_at, key_places};
use sds_types::{Change, Config, Row};
use sds_value::{Binary, ColumnDef, Event, Kind, TableDef, Value, read_value_fits};
use std::alloc::Global;
use std::test::Fail;

/// The texts of a row, column by column; none is null.
type Texts = [Option<&'static str>; 3];

/// The value that a text is read as. Where it isn't one of the kind there is none, and the test
/// fails.
fn read_text(alloc: Global, kind: Kind, text: &Txt) -> Result<Value, NoMemory>
    ensures { IfOk result (λ value. IsTrue (fits kind value)) }
{
    read_value_fits();
    let text = text.as_str();
    match Value::read(alloc, kind, text, Binary::Base64) {
        Ok(value) => Ok(value),
        Err(_refused) => Err(NoMemory),
    }
}

/// The value of a text, or null.
#[tactic(auto, using(crate::proofs::Filled::suits))]
fn value_of(alloc: Global, kind: Kind, text: Option<&str>) -> Result<Value, NoMemory>
    ensures { IfOk result (λ value. IsTrue (is_null value || fits kind value)) }
{
    match text {
        Some(text) => read_text(alloc, kind, &Txt::copied(alloc, text)?),
        None => Ok(Value::Null),
    }
}

/// The row of these texts.
#[tactic(auto, using(crate::proofs::Filled::row_end))]
fn row_of(alloc: Global, columns: &[ColumnDef], texts: &Texts) -> Result<Row, NoMemory>
    ensures { IfOk result (λ row. FitColumns columns.now row.0) }
{
    let mut values = List::new(alloc);
    for (place, column) in columns.iter().enumerate() {
        let text = match texts.get(place) {
            Some(text) => *text,
            None => None,
        };
        values.push(value_of(alloc, column.kind, text)?)?;
    }
    Ok(Row(values))
}

/// Whether the key columns of a table are columns of it.
#[tactic(auto, using(crate::proofs::Filled::key_within))]
fn has_key(defs: &[TableDef], table: u32) -> bool
    ensures { IsTrue result → HasKey defs.now table }
{
    let width = columns_at(defs, table as usize).len();
    let places = key_places(defs, table as usize);
    places.iter().all(|place| (*place as usize) < width)
}

/// Adds the edits of a row of the table at a place.
fn tell_row(
    alloc: Global,
    config: &Config,
    table: u32,
    texts: &Texts,
    out: &mut Vec<u8>,
) -> Result<(), NoMemory> {
    let defs = config.tables.inner().as_slice();
    if !has_key(defs, table) {
        return Err(NoMemory);
    }
    let row = row_of(alloc, columns_at(defs, table as usize), texts)?;
    tell(alloc, config, &Part::Row(table, &row), out)
}

#[test]
fn rows_with_their_keys(rt: HostRuntime) -> Result<(), Fail> {
    let alloc = rt.alloc();
    let config = config(alloc)?;
    let mut out = Vec::new(alloc);
    tell_row(
        alloc,
        &config,
        0,
        &[Some("1"), Some("a\"b"), Some("2.5")],
        &mut out,
    )?;
    tell_row(alloc, &config, 0, &[Some("-7"), None, None], &mut out)?;
    tell_row(
        alloc,
        &config,
        1,
        &[Some("x,y"), None, Some("12")],
        &mut out,
    )?;
    let due = "put t/item/\"1\" = \"1\",\"a\\\"b\",\"2.50\"\n\
               drop t/item/\"1\"\n\
               put t/item/\"-7\" = \"-7\",,\n\
               drop t/item/\"-7\"\n\
               put t/stock/\"x,y\",\"12\" = \"x,y\",,\"12\"\n\
               drop t/stock/\"x,y\",\"12\"\n";
    assert_eq!(rt; out.as_slice(), due.as_bytes());
    Ok(())
}

/// A side of a change of the first table, where the change has it.
fn side(
    alloc: Global,
    config: &Config,
    is_there: bool,
    texts: &Texts,
) -> Result<Option<Row>, NoMemory>
    ensures { IfOk result (λ side. FitsSide config.now.tables 0 side) }
{
    if !is_there {
        return Ok(None);
    }
    let columns = columns_at(config.tables.inner(), 0);
    Ok(Some(row_of(alloc, columns, texts)?))
}

/// Adds the edits of a change of the first table: an own one, or one that a node brought.
fn tell_change(
    alloc: Global,
    id: u64,
    event: Event,
    new: &Texts,
    old: &Texts,
    source: Option<&str>,
    out: &mut Vec<u8>,
) -> Result<(), NoMemory> {
    let config = config(alloc)?;
    let change = Change {
        id,
        tx: 3,
        table: 0,
        event,
        new: side(alloc, &config, event != Event::Delete, new)?,
        old: side(alloc, &config, event != Event::Insert, old)?,
        channel: if source.is_some() { 1 } else { 0 },
        source: match source {
            Some(node) => Some(Txt::copied(alloc, node)?),
            None => None,
        },
    };
    tell(alloc, &config, &Part::Change(&change), out)
}

const ONE: Texts = [Some("1"), Some("a"), Some("2.5")];

const OTHER: Texts = [Some("1"), Some("b"), None];

#[test]
fn changes_with_both_sides(rt: HostRuntime) -> Result<(), Fail> {
    let alloc = rt.alloc();
    let mut out = Vec::new(alloc);
    tell_change(alloc, 11, Event::Insert, &ONE, &ONE, None, &mut out)?;
    tell_change(alloc, 12, Event::Update, &OTHER, &ONE, Some("s1"), &mut out)?;
    tell_change(alloc, 13, Event::Delete, &OTHER, &OTHER, None, &mut out)?;
    let due = "put d/00000000000000000011 = \"3\",\"item\",\"I\",\"orders\",,\"1\",\"a\",\"2.50\"\n\
               drop d/00000000000000000011\n\
               put d/00000000000000000012 = \"3\",\"item\",\"U\",\"news\",\"s1\",\
               \"1\",\"b\",,\"1\",\"a\",\"2.50\"\n\
               drop d/00000000000000000012\n\
               put d/00000000000000000013 = \"3\",\"item\",\"D\",\"orders\",,\"1\",\"b\",\n\
               drop d/00000000000000000013\n";
    assert_eq!(rt; out.as_slice(), due.as_bytes());
    Ok(())
}
