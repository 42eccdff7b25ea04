//! Rows that stand in a plain list, for the tests.
ghost use Rattle.std.specs.Prelude.{◌≡◌, map};
ghost use Rattle.std.specs.Cmp.Lexicographic.{slice_cmp};
ghost use Rattle.std.specs.Ordering.{is_eq};
ghost use Rattle.sds_value.specs.Values.{value_order};
ghost use Rattle.sds_trade.specs.rules.Tables as tables;

use crate::KeyedRows;
use sds_base::List;
use sds_rowvalues::{key_places, same_value, value_at};
use sds_types::{Key, Row, TableRow};
use sds_value::{TableDef, Value};

/// The rows of these tables, in any order.
#[derive(Debug, Drop)]
pub(crate) struct ListRows {
    pub(crate) defs: List<TableDef>,
    pub(crate) rows: List<TableRow>,
}

impl KeyedRows for ListRows {
    ghost defs = { λ it. it.defs };

    ghost rows = { λ it. it.rows };

    fn row(&self, table: u32, key: &Key) -> Option<&Row> {
        for row in self.rows.inner() {
            if is_at(self.defs.inner().as_slice(), table, key, row) {
                return Some(&row.row);
            }
        }
        None
    }
}

/// Whether a row is the one of a table with a key.
fn is_at(defs: &[TableDef], table: u32, key: &Key, row: &TableRow) -> bool
    ensures { result ≡ tables.is_at defs.now table key.now row.now }
{
    let places = key_places(defs, row.table as usize);
    row.table == table
        && has_key(
            places,
            row.row.0.inner().as_slice(),
            key.0.inner().as_slice(),
        )
}

/// Whether the values at these places are those of a key.
#[tactic(auto, using(crate::proofs::Keys::same_then))]
fn has_key(places: &[u32], values: &[Value], key: &[Value]) -> bool
    ensures { result ≡ is_eq (slice_cmp value_order (map (tables.value_at values.now) places.now)
        key.now) }
{
    match (places, key) {
        ([], []) => true,
        ([place, places @ ..], [value, key @ ..]) => {
            same_value(value_at(values, *place as usize), Some(value))
                && has_key(places, values, key)
        }
        ([], [_value, _key @ ..]) => false,
        ([_place, _places @ ..], []) => false,
    }
}
