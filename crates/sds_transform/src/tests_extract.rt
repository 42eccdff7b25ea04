//! Rows that changes become as their batch is written, each case in a table with what is due.
ghost use Rattle.std.specs.Prelude.{◌||◌, IfOk, IfSome, IsTrue};
ghost use Rattle.sds_value.specs.Values.{fits};
ghost use Rattle.sds_trade.specs.rules.Fitting.{FitColumns, FitsRow};
ghost use Rattle.sds_trade.specs.rules.Tables.{is_null};

use crate::extract;
use crate::tests::{BOTH_KEYS, MARK, OTHER_KEY, OTHERS, THREE};
use crate::tests_parts::{Column, config, put_row, transform, way};
use sds_base::{List, NoMemory, Txt};
use sds_rowvalues::columns_at;
use sds_types::{Change, ColumnPolicy, Config, DeleteAction, Point, Row, TransformDef};
use sds_value::{Binary, ColumnDef, DocRow, Event, Kind, TableDef, Value, read_value_fits};
use std::alloc::Global;
use std::test::Fail;

/// The texts of a row of the table `t`, column by column; none is null.
type Texts = [Option<&'static str>; 3];

/// A change of the table at a place: its new row, which a delete lacks, and its old one, which an
/// insert lacks.
#[derive(Clone, Copy, Debug)]
struct Given {
    event: Event,
    table: u32,
    new: Texts,
    old: Texts,
    has_old: bool,
}

const INSERT: Given = Given {
    event: Event::Insert,
    table: 0,
    new: [Some("1"), Some("abcdef"), None],
    old: [None, None, None],
    has_old: false,
};

const UPDATE: Given = Given {
    event: Event::Update,
    table: 0,
    new: [Some("2"), Some("abcdef"), Some("2.5")],
    old: [Some("1"), Some("zyx"), None],
    has_old: true,
};

const DELETE: Given = Given {
    event: Event::Delete,
    table: 0,
    new: [None, None, None],
    old: [Some("1"), Some("zyx"), None],
    has_old: true,
};

fn without_old(given: Given) -> Given {
    Given {
        has_old: false,
        ..given
    }
}

/// The value that a text is read as. Where it isn't one of the kind there is none, and the test
/// fails.
fn read_text(alloc: Global, kind: Kind, text: &Txt) -> Result<Value, NoMemory>
    ensures { IfOk result (λ value. IsTrue (fits kind value)) }
{
    read_value_fits();
    let text = text.as_str();
    match Value::read(alloc, kind, text, Binary::Base64) {
        Ok(value) => Ok(value),
        Err(_refused) => Err(NoMemory),
    }
}

/// The value of a text, or null.
#[tactic(auto, using(crate::proofs::Filled::suits))]
fn value_of(alloc: Global, kind: Kind, text: Option<&str>) -> Result<Value, NoMemory>
    ensures { IfOk result (λ value. IsTrue (is_null value || fits kind value)) }
{
    match text {
        Some(text) => read_text(alloc, kind, &Txt::copied(alloc, text)?),
        None => Ok(Value::Null),
    }
}

/// The row of these texts.
#[tactic(auto, using(crate::proofs::Filled::row_end))]
fn row_of(alloc: Global, columns: &[ColumnDef], texts: &Texts) -> Result<Row, NoMemory>
    ensures { IfOk result (λ row. FitColumns columns.now row.0) }
{
    let mut values = List::new(alloc);
    for (place, column) in columns.iter().enumerate() {
        let text = match texts.get(place) {
            Some(text) => *text,
            None => None,
        };
        values.push(value_of(alloc, column.kind, text)?)?;
    }
    Ok(Row(values))
}

/// The row of a table, where a change has one.
fn row_if(
    alloc: Global,
    defs: &[TableDef],
    table: u32,
    is_there: bool,
    texts: &Texts,
) -> Result<Option<Row>, NoMemory>
    ensures { IfOk result (λ row. IfSome row (FitsRow defs.now table)) }
{
    if !is_there {
        return Ok(None);
    }
    Ok(Some(row_of(alloc, columns_at(defs, table as usize), texts)?))
}

/// The change that is given.
fn change_of(alloc: Global, defs: &[TableDef], given: Given) -> Result<Change, NoMemory>
    ensures new { IfOk result (λ change. IfSome change.new (FitsRow defs.now change.table)) }
    ensures old { IfOk result (λ change. IfSome change.old (FitsRow defs.now change.table)) }
{
    let has_new = given.event != Event::Delete;
    Ok(Change {
        id: 1,
        tx: 1,
        table: given.table,
        event: given.event,
        new: row_if(alloc, defs, given.table, has_new, &given.new)?,
        old: row_if(alloc, defs, given.table, given.has_old, &given.old)?,
        channel: 0,
        source: None,
    })
}

/// Rows in words.
fn told(alloc: Global, rows: &[DocRow]) -> Result<String, NoMemory> {
    let mut out = String::new(alloc);
    for (place, row) in rows.iter().enumerate() {
        if place > 0 {
            out.push_str(" | ")?;
        }
        put_row(row, &mut out)?;
    }
    Ok(out)
}

/// Adds a line: what a change becomes on the way up.
fn tell(alloc: Global, out: &mut String, config: &Config, given: Given) -> Result<(), NoMemory> {
    let change = change_of(alloc, config.tables.inner(), given)?;
    let rows = extract(alloc, config, &way(alloc)?, &change)?;
    let made = told(alloc, rows.inner().as_slice())?;
    out.push_str(made.as_str())?;
    out.push('\n')?;
    Ok(())
}

/// The same by one transform at EXTRACT.
fn tell_by(
    alloc: Global,
    out: &mut String,
    policy: ColumnPolicy,
    action: DeleteAction,
    columns: &[Column],
    given: Given,
) -> Result<(), NoMemory> {
    let mut transforms = List::new(alloc);
    transforms.push(transform(alloc, Point::Extract, policy, action, columns)?)?;
    tell(alloc, out, &config(alloc, transforms)?, given)
}

/// One transform that isn't for rows as they are written.
fn unmeant(alloc: Global) -> Result<Config, NoMemory> {
    let listed = ColumnPolicy::Specified;
    let at_load = transform(alloc, Point::Load, listed, DeleteAction::Nothing, &THREE)?;
    let mut transforms = List::new(alloc);
    transforms.push(at_load)?;
    config(alloc, transforms)
}

/// The change itself: all columns, the values as they are printed.
const CHANGES_WITHOUT_TRANSFORMS: &str = "\
insert t keys id; columns id a b '1' 'abcdef' null
update t keys id '1'; columns id a b '2' 'abcdef' '2.50'; old '1' 'zyx' null
delete t keys id '1'; columns id a b; old '1' 'zyx' null
insert u keys id; columns id a b '1' 'abcdef' null
";

#[test]
fn changes_without_transforms(rt: HostRuntime) -> Result<(), Fail> {
    let alloc = rt.alloc();
    let config = unmeant(alloc)?;
    let mut out = String::new(alloc);
    tell(alloc, &mut out, &config, INSERT)?;
    tell(alloc, &mut out, &config, UPDATE)?;
    tell(alloc, &mut out, &config, DELETE)?;
    tell(alloc, &mut out, &config, Given { table: 1, ..INSERT })?;
    assert_eq!(rt; out.as_str(), CHANGES_WITHOUT_TRANSFORMS);
    Ok(())
}

/// The listed columns alone. A change without its old row, which no node captures, tells no key.
const LISTED_COLUMNS_ARE_WRITTEN: &str = "\
insert u keys id; columns id o k '1' 'ab' 'new'
update u keys id '1'; columns id o '2' 'ab'; old '1' 'zy'
update u keys id null; columns id o '2' 'ab'
delete u keys id '1'; columns id o; old '1' 'zy'
delete u keys id null; columns id o

update u keys id '1'; columns id o '2' 'ab'; old '1' 'zy'
update u keys id '1'; columns id o '1' 'zy'; old '1' 'zy'
insert u keys id; columns id o k '1' 'ab' 'new'
";

#[test]
fn listed_columns_are_written(rt: HostRuntime) -> Result<(), Fail> {
    let alloc = rt.alloc();
    let listed = ColumnPolicy::Specified;
    let row = DeleteAction::DelRow;
    let nothing = DeleteAction::Nothing;
    let mark = DeleteAction::UpdateCol;
    let mut out = String::new(alloc);
    tell_by(alloc, &mut out, listed, row, &THREE, INSERT)?;
    tell_by(alloc, &mut out, listed, row, &THREE, UPDATE)?;
    tell_by(alloc, &mut out, listed, row, &THREE, without_old(UPDATE))?;
    tell_by(alloc, &mut out, listed, row, &THREE, DELETE)?;
    tell_by(alloc, &mut out, listed, row, &THREE, without_old(DELETE))?;
    tell_by(alloc, &mut out, listed, nothing, &THREE, DELETE)?;
    tell_by(alloc, &mut out, listed, nothing, &THREE, UPDATE)?;
    tell_by(alloc, &mut out, listed, mark, &THREE, DELETE)?;
    tell_by(alloc, &mut out, listed, mark, &THREE, INSERT)?;
    assert_eq!(rt; out.as_str(), LISTED_COLUMNS_ARE_WRITTEN);
    Ok(())
}

/// The source's columns in their places and then the further ones; the listed keys and then those
/// of the source that remain.
const COLUMNS_OF_THE_SOURCE_ARE_WRITTEN: &str = "\
insert u keys id; columns id a z '1' null 'new'
update u keys id '1'; columns id a b z '2' '2.50' '2.50' 'new'; old '1' null null 'new'
delete u keys id '1'; columns id a b; old '1' null null
insert u keys n; columns a b n 'abcdef' null '1'
update u keys n '1'; columns a b n 'abcdef' '2.50' '2'; old 'zyx' null '1'
delete u keys n '1'; columns a b n gone; old 'zyx' null '1' 'yes'
update u keys n id 'zyx' '1'; columns id a b n '2' 'abcdef' '2.50' 'abcdef'; old '1' 'zyx' null 'zyx'
update u keys n id 'zyx' '1'; columns n gone id 'zyx' 'yes' '1'; old 'zyx' 'yes' '1'
";

#[test]
fn columns_of_the_source_are_written(rt: HostRuntime) -> Result<(), Fail> {
    let alloc = rt.alloc();
    let all = ColumnPolicy::Implied;
    let row = DeleteAction::DelRow;
    let mark = DeleteAction::UpdateCol;
    let mut out = String::new(alloc);
    tell_by(alloc, &mut out, all, row, &OTHERS, INSERT)?;
    tell_by(alloc, &mut out, all, row, &OTHERS, UPDATE)?;
    tell_by(alloc, &mut out, all, row, &OTHERS, DELETE)?;
    tell_by(alloc, &mut out, all, row, &OTHER_KEY, INSERT)?;
    tell_by(alloc, &mut out, all, row, &OTHER_KEY, UPDATE)?;
    tell_by(alloc, &mut out, all, row, &OTHER_KEY, DELETE)?;
    tell_by(alloc, &mut out, all, mark, &BOTH_KEYS, UPDATE)?;
    tell_by(alloc, &mut out, all, mark, &BOTH_KEYS, DELETE)?;
    assert_eq!(rt; out.as_str(), COLUMNS_OF_THE_SOURCE_ARE_WRITTEN);
    Ok(())
}

/// A transform of the other way.
fn back(alloc: Global) -> Result<TransformDef, NoMemory> {
    let row = DeleteAction::DelRow;
    let mut back = transform(alloc, Point::Extract, ColumnPolicy::Specified, row, &THREE)?;
    back.source_group = 0;
    Ok(back)
}

/// One transform that drops deletes, one that keeps them and one that marks them, and two that
/// aren't for this way and this point.
fn several(alloc: Global) -> Result<Config, NoMemory> {
    let listed = ColumnPolicy::Specified;
    let all = ColumnPolicy::Implied;
    let row = DeleteAction::DelRow;
    let nothing = DeleteAction::Nothing;
    let mark = DeleteAction::UpdateCol;
    let mut transforms = List::new(alloc);
    transforms.push(transform(alloc, Point::Extract, listed, nothing, &THREE)?)?;
    transforms.push(transform(alloc, Point::Load, listed, row, &THREE)?)?;
    transforms.push(transform(alloc, Point::Extract, listed, row, &THREE)?)?;
    transforms.push(back(alloc)?)?;
    transforms.push(transform(alloc, Point::Extract, all, mark, &MARK)?)?;
    config(alloc, transforms)
}

/// A row for each transform, in their order.
const SEVERAL_ROWS_ARE_WRITTEN: &str = "\
insert u keys id; columns id o k '1' 'ab' 'new' | insert u keys id; columns id o k '1' 'ab' 'new' | \
insert u keys id; columns id a b '1' 'abcdef' null
delete u keys id '1'; columns id o; old '1' 'zy' | \
update u keys id '1'; columns gone id 'yes' '1'; old 'yes' '1'
insert u keys id; columns id a b '1' 'abcdef' null
";

#[test]
fn several_rows_are_written(rt: HostRuntime) -> Result<(), Fail> {
    let alloc = rt.alloc();
    let config = several(alloc)?;
    let mut out = String::new(alloc);
    tell(alloc, &mut out, &config, INSERT)?;
    tell(alloc, &mut out, &config, DELETE)?;
    tell(alloc, &mut out, &config, Given { table: 1, ..INSERT })?;
    assert_eq!(rt; out.as_str(), SEVERAL_ROWS_ARE_WRITTEN);
    Ok(())
}
