//! What stands at a place in a list of the configuration, and at which place a name stands.
ghost use Rattle.std.specs.Prelude.{◌≡◌};
ghost use Rattle.std.specs.Str.{bytes_eq};
ghost use Rattle.sds_trade.specs.rules.Places as place;

use sds_base::Txt;
use sds_value::{ColumnDef, TableDef};

/// The columns of the table at a place; past the last table there are none.
pub fn columns_at(defs: &[TableDef], table: usize) -> &[ColumnDef]
    ensures { result.now ≡ place.columns_at defs.now table }
{
    match defs.get(table) {
        Some(def) => def.columns.inner().as_slice(),
        None => &[],
    }
}

/// The places of the key columns of the table at a place, in the key's order; past the last table
/// there are none.
pub fn key_places(defs: &[TableDef], table: usize) -> &[u32]
    ensures { result.now ≡ place.key_places defs.now table }
{
    match defs.get(table) {
        Some(def) => def.key.inner().as_slice(),
        None => &[],
    }
}

/// The place of the table of a name.
pub fn table_place(defs: &[TableDef], name: &Txt) -> Option<usize>
    ensures { result ≡ place.table_place defs.now name.now }
{
    defs.iter().position(|def| def.name == *name)
}

/// The place of the column of a name.
pub fn column_place(columns: &[ColumnDef], name: &Txt) -> Option<usize>
    ensures { result ≡ place.column_place columns.now name.now }
{
    columns.iter().position(|column| column.name == *name)
}

/// Whether one of these texts is this one.
pub fn is_among(names: &[Txt], name: &Txt) -> bool
    ensures { result ≡ place.is_among names.now name.now }
{
    names.iter().any(|other| *other == *name)
}

/// Whether the group at a place has this name; past the last group the name is empty.
pub fn is_group(groups: &[Txt], group: usize, name: &Txt) -> bool
    ensures { result ≡ bytes_eq (place.group_name groups.now group) name.now }
{
    match groups.get(group) {
        Some(group) => *group == *name,
        None => name.is_empty(),
    }
}
