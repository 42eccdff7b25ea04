//! Kinds of values, fields of lines, tables' columns, rows of documents and peers.
#![tactic(auto)]

mod coded;
mod kind;
mod laws;
mod names;
mod points;
mod refusal;
mod row;
mod stamps;
mod sums;
mod table;
#[cfg(test)]
mod tests;
mod texts;

pub use kind::{Binary, Kind, Value};
pub use laws::{
    base64_reads_what_it_prints, order_is_total, printed_reads_back, read_value_fits,
    text_reads_as_one_value, too_long_reads_under_more,
};
pub use names::is_name;
pub use refusal::ValueRefusal;
pub use row::{DocRow, Event, Field, Peer};
pub use sds_base::{List, Txt};
pub use table::{ColumnDef, TableDef};
