//! What stands at a place of a row, and the routed row.
ghost use Rattle.std.specs.Prelude.{◌≡◌, option_copied, slice_get};
ghost use Rattle.sds_trade.specs.rules.RoutedValues.{routed_row};

use sds_types::{Change, Row};
use sds_value::{ColumnDef, Event, Value};

/// The column at a place.
pub(crate) fn column_at(columns: &[ColumnDef], place: usize) -> Option<&ColumnDef>
    ensures { option_copied result ≡ slice_get columns.now place }
{
    columns.get(place)
}

/// The value at a place of a row.
pub(crate) fn value_at(row: &Row, place: usize) -> Option<&Value>
    ensures { option_copied result ≡ slice_get row.now.0 place }
{
    row.0.inner().get(place)
}

/// The row that a change leaves, or of a delete the row that it took away.
pub(crate) fn routed_row(change: &Change) -> Option<&Row>
    ensures { option_copied result ≡ routed_row change.now }
{
    match change.event {
        Event::Insert | Event::Update => change.new.as_ref(),
        Event::Delete => change.old.as_ref(),
    }
}
