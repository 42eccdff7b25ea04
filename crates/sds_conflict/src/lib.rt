//! Conflicts of a batch's rows with the rows that stand: whether there is one, and what is done
//! with the row.
#![tactic(auto)]

mod detection;
mod keyed_rows;
mod resolution;
#[cfg(test)]
mod tests;
#[cfg(test)]
mod tests_rows;

pub use detection::conflicts;
pub use keyed_rows::KeyedRows;
pub use resolution::resolve;
