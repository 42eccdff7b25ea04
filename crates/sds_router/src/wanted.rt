//! Whom the rows of another table name: lookups and choices.
ghost use Rattle.std.specs.Prelude.{◌≡◌, ◌&&◌, ◌==◌, IfOk, IfSome, false};
ghost use Rattle.std.specs.Borrow.{Bor};
ghost use Rattle.std.specs.List.{All, list_all, list_any};
ghost use Rattle.std.specs.Option.{option_map_or};
ghost use Rattle.sds_value.specs.declared.row.Peer.{Peer};
ghost use Rattle.sds_types.specs.declared.row.Row.{Row};
ghost use Rattle.sds_types.specs.declared.row.TableRow.{TableRow};
ghost use Rattle.sds_trade.specs.rules.Fitting.{FitColumns, FitsRow};
ghost use Rattle.sds_trade.specs.rules.Places.{columns_at};
ghost use Rattle.sds_trade.specs.rules.RoutedValues.{are_one_text, is_text, text_at, text_in};
ghost use Rattle.sds_trade.specs.rules.Routers.{chooses, compared_text, finds, meets, node_text};
ghost use Rattle.sds_router.specs.Standing.{AreRowsOf};
ghost use Rattle.sds_router.specs.Asks.{has_wanted, is_met, is_named_by, row_names, text_of_peer};

use crate::StandingRows;
use crate::ask::{Ask, PeerText};
use crate::naming::Naming;
use crate::texts::{current_text, text_at};
use sds_base::{NoMemory, Twin, Txt};
use sds_rowvalues::{column_place, columns_at, table_place};
use sds_types::{Change, Compared, Condition, Lookup, NodeColumn, Row, Subselect};
use sds_value::{ColumnDef, TableDef};
use std::alloc::Global;

/// A text that a row has to have at the place of a column.
#[derive(Debug, Drop)]
pub(crate) struct Wanted {
    pub(crate) column: usize,
    pub(crate) text: Txt,
}

/// Whom a `lookuptable` router names for a change.
pub(crate) fn look_up<T: StandingRows>(
    alloc: Global,
    defs: &[TableDef],
    tables: &T,
    change: &Change,
    lookup: &Lookup,
) -> Result<Naming, NoMemory>
    requires tables { AreRowsOf defs.now (T.rows tables.now) }
    requires new { IfSome change.now.new (FitsRow defs.now change.now.table) }
    requires old { IfSome change.now.old (FitsRow defs.now change.now.table) }
    ensures { IfOk result (λ naming. (peer : Peer) →
        is_named_by peer naming ≡ finds defs.now (T.rows tables.now) change.now peer lookup.now) }
{
    let Some(table) = table_place(defs, &lookup.table) else {
        return Ok(Naming::nobody(alloc));
    };
    let text = current_text(alloc, defs, change, &lookup.column)?;
    let Some(key) = wanted_in(columns_at(defs, table), &lookup.lookup_column, text) else {
        return Ok(Naming::nobody(alloc));
    };
    let wanted = vec![in alloc; key]?;
    name_by_rows(
        alloc,
        defs,
        tables,
        table,
        &wanted,
        &lookup.external_id,
        PeerText::External,
    )
}

/// Whom a `subselect` router names for a change.
pub(crate) fn choose<T: StandingRows>(
    alloc: Global,
    defs: &[TableDef],
    tables: &T,
    change: &Change,
    choice: &Subselect,
) -> Result<Naming, NoMemory>
    requires tables { AreRowsOf defs.now (T.rows tables.now) }
    requires new { IfSome change.now.new (FitsRow defs.now change.now.table) }
    requires old { IfSome change.now.old (FitsRow defs.now change.now.table) }
    ensures { IfOk result (λ naming. (peer : Peer) →
        is_named_by peer naming ≡ chooses defs.now (T.rows tables.now) change.now peer choice.now) }
{
    let Some(table) = table_place(defs, &choice.table) else {
        return Ok(Naming::nobody(alloc));
    };
    let columns = columns_at(defs, table);
    let Some(wanted) = wanted_by(alloc, defs, columns, change, choice.conditions.inner())? else {
        return Ok(Naming::nobody(alloc));
    };
    name_by_rows(
        alloc,
        defs,
        tables,
        table,
        &wanted,
        &choice.column,
        text_for(choice.by),
    )
}

/// The text of a node that a choice goes by.
fn text_for(by: NodeColumn) -> PeerText
    ensures { (peer : Peer) → text_of_peer peer result ≡ node_text peer by }
{
    match by {
        NodeColumn::ExternalId => PeerText::External,
        NodeColumn::NodeId => PeerText::Id,
    }
}

/// What a row has to have to meet every condition, or none where no row of these columns can.
fn wanted_by(
    alloc: Global,
    defs: &[TableDef],
    columns: &[ColumnDef],
    change: &Change,
    conditions: &[Condition],
) -> Result<Option<Vec<Wanted>>, NoMemory>
    requires new { IfSome change.now.new (FitsRow defs.now change.now.table) }
    requires old { IfSome change.now.old (FitsRow defs.now change.now.table) }
    ensures { IfOk result (λ wanted. (row : TableRow)
        → columns_at defs.now row.table ≡ columns.now
        → option_map_or (λ all. list_all (has_wanted columns.now row.row) all.items) wanted false
        ≡ list_all (meets defs.now change.now row) conditions.now) }
{
    let mut wanted = Vec::new(alloc);
    for condition in conditions {
        let text = compared_text(alloc, defs, change, &condition.value)?;
        let Some(one) = wanted_in(columns, &condition.column, text) else {
            return Ok(None);
        };
        wanted.push(one)?;
    }
    Ok(Some(wanted))
}

/// The text that a condition compares with, or none of null.
fn compared_text(
    alloc: Global,
    defs: &[TableDef],
    change: &Change,
    value: &Compared,
) -> Result<Option<Txt>, NoMemory>
    requires new { IfSome change.now.new (FitsRow defs.now change.now.table) }
    requires old { IfSome change.now.old (FitsRow defs.now change.now.table) }
    ensures { IfOk result (λ text. text ≡ compared_text defs.now change.now value.now) }
{
    match value {
        Compared::Routed(name) => current_text(alloc, defs, change, name),
        Compared::Text(text) => Ok(Some(text.twin(alloc)?)),
    }
}

/// What a row has to have so that it has this text in the column of a name, or none where no row
/// can: there is no such column, or null is asked for.
fn wanted_in(columns: &[ColumnDef], name: &Txt, text: Option<Txt>) -> Option<Wanted>
    ensures { (row : Row) → option_map_or (has_wanted columns.now row) result false
        ≡ are_one_text (text_in columns.now name.now row) text }
{
    let column = column_place(columns, name)?;
    let text = text?;
    Some(Wanted { column, text })
}

/// The nodes that a column of a table's rows names, of the rows that have all wanted texts.
fn name_by_rows<T: StandingRows>(
    alloc: Global,
    defs: &[TableDef],
    tables: &T,
    table: usize,
    wanted: &[Wanted],
    name: &Txt,
    by: PeerText,
) -> Result<Naming, NoMemory>
    requires { AreRowsOf defs.now (T.rows tables.now) }
    ensures { IfOk result (λ naming. (peer : Peer) → is_named_by peer naming
        ≡ list_any (λ (row : TableRow). row.table == table
        && row_names (columns_at defs.now table) wanted.now name.now (text_of_peer peer by) row.row)
        (T.rows tables.now)) }
{
    let columns = columns_at(defs, table);
    let Some(column) = column_place(columns, name) else {
        return Ok(Naming::nobody(alloc));
    };
    let rows = tables.of_table(alloc, table)?;
    Ok(Naming::by(ask_rows(alloc, columns, &rows, wanted, column, by)?))
}

/// Asks for the nodes that a column of these rows names, of those that have all wanted texts. Each
/// value is printed once for all nodes.
fn ask_rows(
    alloc: Global,
    columns: &[ColumnDef],
    rows: &[&Row],
    wanted: &[Wanted],
    column: usize,
    by: PeerText,
) -> Result<Vec<Ask>, NoMemory>
    requires { All (λ (row : Bor Row). FitColumns columns.now row.now.0) rows.now }
    ensures { IfOk result (λ asks. (peer : Peer) → list_any (is_met peer) asks.items
        ≡ list_any (λ (row : Bor Row). list_all (has_wanted columns.now row.now) wanted.now
        && is_text (text_at columns.now row.now column) (text_of_peer peer by)) rows.now) }
{
    let mut asks = Vec::new(alloc);
    for row in rows {
        let Some(ask) = ask_row(alloc, columns, *row, wanted, column, by)? else {
            continue;
        };
        asks.push(ask)?;
    }
    Ok(asks)
}

/// Asks for the nodes that a column of a row names, where the row has all wanted texts.
fn ask_row(
    alloc: Global,
    columns: &[ColumnDef],
    row: &Row,
    wanted: &[Wanted],
    column: usize,
    by: PeerText,
) -> Result<Option<Ask>, NoMemory>
    requires { FitColumns columns.now row.now.0 }
    ensures { IfOk result (λ ask. (peer : Peer) → option_map_or (is_met peer) ask false
        ≡ (list_all (has_wanted columns.now row.now) wanted.now
        && is_text (text_at columns.now row.now column) (text_of_peer peer by))) }
{
    if !has_all(alloc, columns, row, wanted)? {
        return Ok(None);
    }
    let Some(text) = text_at(alloc, columns, row, column)? else {
        return Ok(None);
    };
    Ok(Some(Ask {
        about: by,
        text,
        differs: false,
    }))
}

/// Whether a row has all wanted texts.
fn has_all(
    alloc: Global,
    columns: &[ColumnDef],
    row: &Row,
    wanted: &[Wanted],
) -> Result<bool, NoMemory>
    requires { FitColumns columns.now row.now.0 }
    ensures { IfOk result (λ all. all ≡ list_all (has_wanted columns.now row.now) wanted.now) }
{
    for one in wanted {
        if !has_wanted(alloc, columns, row, one)? {
            return Ok(false);
        }
    }
    Ok(true)
}

fn has_wanted(
    alloc: Global,
    columns: &[ColumnDef],
    row: &Row,
    wanted: &Wanted,
) -> Result<bool, NoMemory>
    requires { FitColumns columns.now row.now.0 }
    ensures { IfOk result (λ has. has ≡ has_wanted columns.now row.now wanted.now) }
{
    match text_at(alloc, columns, row, wanted.column)? {
        Some(text) => Ok(text == wanted.text),
        None => Ok(false),
    }
}
