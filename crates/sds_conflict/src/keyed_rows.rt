//! The rows that stand, each found by its table and its key.
use sds_types::{Key, Row};

/// The rows of a node's tables, each of which can be looked up.
pub trait KeyedRows {
    ghost use Rattle.std.specs.Prelude.{◌≡◌, List, option_copied};
    ghost use Rattle.sds_value.specs.declared.table.TableDef.{TableDef};
    ghost use Rattle.sds_types.specs.declared.row.TableRow.{TableRow};
    ghost use Rattle.sds_trade.specs.rules.Tables.{row_at};

    /// The tables that the rows are of.
    ghost defs: { Self → List TableDef };

    /// The rows that stand, of all tables.
    ghost rows: { Self → List TableRow };

    /// The row of the table at a place that has this key.
    fn row(&self, table: u32, key: &Key) -> Option<&Row>
        ensures { option_copied result ≡ row_at (defs self.now) (rows self.now) table key.now };
}
