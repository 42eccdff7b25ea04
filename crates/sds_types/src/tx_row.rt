//! Own writes: their rows, and why one is refused.
use crate::Rule;
use sds_base::{List, Txt};
use sds_value::{Event, Field};

/// A row of an own write. Its fields are texts: of an insert a value for each column; of an update the old key's values and
/// then pairs of a column's name and a value; of a delete the old key's values.
#[derive(Debug, Drop)]
pub struct TxRow {
    pub event: Event,
    pub table: Txt,
    pub fields: List<Field>,
}

/// Why an own write isn't done. The tables are as they were.
#[derive(Clone, Copy, Debug, PartialEq, Eq)]
pub enum Broken {
    /// This row, from 1, is the first that breaks a rule, and this is the first rule that it breaks.
    Rule { row: u32, rule: Rule },
    NoMemory,
}
