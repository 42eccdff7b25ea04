//! The records of the parts of a node's state: the edits that put and drop them, and the part that a
//! record tells.
#![tactic(auto)]

mod edits;
mod fields;
mod forms;
mod keys;
mod names;
mod part;
mod pieces;
mod reading;
mod rows;
mod tellings;
#[cfg(test)]
mod tests;
#[cfg(test)]
mod tests_parts;
#[cfg(test)]
mod tests_reading;
#[cfg(test)]
mod tests_rows;
mod told;
mod told_rows;

pub use edits::{drop_part, put_part};
pub use part::Part;
pub use reading::read_record;
pub use told::Told;
