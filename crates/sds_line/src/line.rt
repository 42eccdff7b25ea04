use sds_base::List;
use sds_value::Field;

/// A line of a text that has fields.
#[derive(Debug, Drop)]
pub struct Line {
    /// Its number: 1 more than the line feeds before it, those inside quotes counted.
    pub number: u64,
    /// Its fields, at least one.
    pub fields: List<Field>,
}
