//! What transforms make of rows, as their batch is written and as it is loaded.
#![tactic(auto)]

mod change_rows;
mod column_functions;
mod fields;
mod made_keys;
mod made_rows;
mod made_sides;
mod side;
#[cfg(test)]
mod tests;
#[cfg(test)]
mod tests_extract;
#[cfg(test)]
mod tests_parts;
mod transforms;

pub use transforms::{at_load, extract};
