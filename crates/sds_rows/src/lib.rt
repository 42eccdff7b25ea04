//! A node's tables: their rows in one order, the rules on steps, and steps with their undo.
#![tactic(auto)]

mod copies;
mod keys;
mod laws;
mod printing;
mod references;
mod search;
mod sorting;
mod step_rules;
mod tables;
#[cfg(test)]
mod tests;
#[cfg(test)]
mod tests_lines;
#[cfg(test)]
mod tests_shop;
mod undo;

pub use laws::steps_keep_tables;
pub use sorting::{has_parents, put_row};
pub use step_rules::has_null;
pub use tables::Tables;
pub use undo::{Done, Undo};
