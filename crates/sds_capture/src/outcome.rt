//! How a transaction or a batch ends.
use sds_base::List;
use sds_rows::Done;
use sds_types::Rule;

/// How the rows of a transaction or a batch end. But for `Done` the tables are as they were.
#[derive(Debug, Drop)]
pub enum Outcome {
    /// All steps are made, in this order.
    Done(List<Done>),
    /// A row asks to skip the whole batch, which counts as loaded.
    Ignored,
    /// The row of this number is the first that breaks a rule, and this is the first rule that it
    /// breaks.
    Broken { row: u32, rule: Rule },
}
