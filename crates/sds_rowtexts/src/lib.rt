//! Rows as texts, read for the tables that they name.
#![tactic(auto)]

mod addends;
mod keys;
mod names;
mod rows;
#[cfg(test)]
mod tests;
#[cfg(test)]
mod tests_parts;
mod texts;
mod values;

pub use rows::read_row;
