//! What the tests of routers share: tables of purchases and of stocked shops, rows that stand, and
//! changes.
ghost use Rattle.std.specs.Prelude.{IfOk, IfSome, IsTrue, OnOk};
ghost use Rattle.sds_value.specs.Values.{fits};
ghost use Rattle.sds_trade.specs.rules.Fitting.{FitsRow};
ghost use Rattle.sds_trade.specs.rules.Tables.{IsRowOf, may_hold};
ghost use Rattle.sds_router.specs.Standing.{AreRowsOf};

use sds_base::{List, NoMemory, Txt};
use sds_rowvalues::columns_at;
use sds_types::{Change, Row, TableRow};
use sds_value::{Binary, ColumnDef, Event, Kind, Peer, TableDef, Value, read_value_fits};
use std::alloc::Global;

/// The texts of a row of either table, column by column; none is null.
pub(crate) type Texts = [Option<&'static str>; 4];

/// A change of a purchase: its new row, which a delete lacks, and its old one, which an insert
/// lacks.
#[derive(Clone, Copy, Debug)]
pub(crate) struct Given {
    pub(crate) event: Event,
    pub(crate) new: Texts,
    pub(crate) old: Texts,
}

fn column(alloc: Global, name: &str, kind: Kind) -> Result<ColumnDef, NoMemory> {
    Ok(ColumnDef {
        name: Txt::copied(alloc, name)?,
        kind,
        not_null: false,
        parent: None,
    })
}

fn table(alloc: Global, name: &str, columns: List<ColumnDef>) -> Result<TableDef, NoMemory> {
    let mut key = List::new(alloc);
    key.push(0)?;
    Ok(TableDef {
        name: Txt::copied(alloc, name)?,
        columns,
        key,
    })
}

/// The tables `purchase` with `id`, `STORE_ID`, `note` and `price`, and `stocked` with `id`,
/// `place`, `store` and `code`.
pub(crate) fn tables(alloc: Global) -> Result<List<TableDef>, NoMemory> {
    let mut purchase = List::new(alloc);
    purchase.push(column(alloc, "id", Kind::Integer)?)?;
    purchase.push(column(alloc, "STORE_ID", Kind::Varchar(10))?)?;
    purchase.push(column(alloc, "note", Kind::Varchar(10))?)?;
    purchase.push(column(alloc, "price", Kind::Decimal(2))?)?;
    let mut stocked = List::new(alloc);
    stocked.push(column(alloc, "id", Kind::Integer)?)?;
    stocked.push(column(alloc, "place", Kind::Varchar(10))?)?;
    stocked.push(column(alloc, "store", Kind::Varchar(10))?)?;
    stocked.push(column(alloc, "code", Kind::Varchar(10))?)?;
    let mut tables = List::new(alloc);
    tables.push(table(alloc, "purchase", purchase)?)?;
    tables.push(table(alloc, "stocked", stocked)?)?;
    Ok(tables)
}

/// The value that a text is read as. Where it isn't one of the kind there is none, and the test
/// fails.
fn read_text(alloc: Global, kind: Kind, text: &Txt) -> Result<Value, NoMemory>
    ensures { IfOk result (λ value. IsTrue (fits kind value)) }
{
    read_value_fits();
    let text = text.as_str();
    match Value::read(alloc, kind, text, Binary::Base64) {
        Ok(value) => Ok(value),
        Err(_refused) => Err(NoMemory),
    }
}

/// The value of a text, or null. Where the column may not hold it there is none, and the test
/// fails.
#[tactic(auto, using(crate::proofs::Filled::held))]
fn value_of(alloc: Global, column: &ColumnDef, text: Option<&str>) -> Result<Value, NoMemory>
    ensures { IfOk result (λ value. IsTrue (may_hold column.now value)) }
{
    match text {
        Some(text) => read_text(alloc, column.kind, &Txt::copied(alloc, text)?),
        None if column.not_null => Err(NoMemory),
        None => Ok(Value::Null),
    }
}

/// The row of these texts.
#[tactic(auto, using(crate::proofs::Filled::row_end))]
fn row_of(alloc: Global, columns: &[ColumnDef], texts: &Texts) -> Result<Row, NoMemory>
    ensures { IfOk result (λ row. IsRowOf columns.now row) }
{
    let mut values = List::new(alloc);
    for (place, column) in columns.iter().enumerate() {
        let text = match texts.get(place) {
            Some(text) => *text,
            None => None,
        };
        values.push(value_of(alloc, column, text)?)?;
    }
    Ok(Row(values))
}

/// The row of a purchase, where a change has one.
#[tactic(auto, using(crate::proofs::Rows::fits_columns))]
fn row_if(
    alloc: Global,
    defs: &[TableDef],
    is_there: bool,
    texts: &Texts,
) -> Result<Option<Row>, NoMemory>
    ensures { IfOk result (λ row. IfSome row (FitsRow defs.now 0)) }
{
    if !is_there {
        return Ok(None);
    }
    Ok(Some(row_of(alloc, columns_at(defs, 0), texts)?))
}

/// The change that is given.
pub(crate) fn change_of(alloc: Global, defs: &[TableDef], given: Given) -> Result<Change, NoMemory>
    ensures new { IfOk result (λ change. IfSome change.new (FitsRow defs.now change.table)) }
    ensures old { IfOk result (λ change. IfSome change.old (FitsRow defs.now change.table)) }
{
    Ok(Change {
        id: 1,
        tx: 1,
        table: 0,
        event: given.event,
        new: row_if(alloc, defs, given.event != Event::Delete, &given.new)?,
        old: row_if(alloc, defs, given.event != Event::Insert, &given.old)?,
        channel: 0,
        source: None,
    })
}

/// Adds a row that stands in the table at a place.
#[tactic(auto, using(crate::proofs::Filled::rows_more))]
fn stand(
    alloc: Global,
    defs: &[TableDef],
    rows: &mut List<TableRow>,
    table: u32,
    texts: Texts,
) -> Result<(), NoMemory>
    requires { AreRowsOf defs.now rows.old }
    ensures { OnOk result (AreRowsOf defs.now rows.new) }
{
    let row = row_of(alloc, columns_at(defs, table as usize), &texts)?;
    rows.push(TableRow { table, row })?;
    Ok(())
}

/// No rows.
pub(crate) fn nothing(alloc: Global, defs: &[TableDef]) -> List<TableRow>
    ensures { AreRowsOf defs.now result }
{
    let _defs = defs;
    List::new(alloc)
}

/// A purchase, and five stocked shops: two of the place 001, the second of no store, one of 002,
/// one of no place, and one whose place is the empty text.
pub(crate) fn standing(alloc: Global, defs: &[TableDef]) -> Result<List<TableRow>, NoMemory>
    ensures { IfOk result (λ rows. AreRowsOf defs.now rows) }
{
    let mut rows = nothing(alloc, defs);
    let purchase = [Some("9"), Some("001"), Some("001"), None];
    stand(alloc, defs, &mut rows, 0, purchase)?;
    let first = [Some("1"), Some("001"), Some("002"), Some("2.50")];
    stand(alloc, defs, &mut rows, 1, first)?;
    let storeless = [Some("2"), Some("001"), None, Some("2.50")];
    stand(alloc, defs, &mut rows, 1, storeless)?;
    let other = [Some("3"), Some("002"), Some("001"), None];
    stand(alloc, defs, &mut rows, 1, other)?;
    let placeless = [Some("4"), None, Some("002"), Some("")];
    stand(alloc, defs, &mut rows, 1, placeless)?;
    let empty = [Some("5"), Some(""), Some("s2"), Some("0.00")];
    stand(alloc, defs, &mut rows, 1, empty)?;
    Ok(rows)
}

/// A node by its id, its group and its external id.
pub(crate) fn peer(alloc: Global, id: &str, group: &str, external: &str) -> Result<Peer, NoMemory> {
    Ok(Peer {
        id: Txt::copied(alloc, id)?,
        group: Txt::copied(alloc, group)?,
        external: Txt::copied(alloc, external)?,
    })
}
