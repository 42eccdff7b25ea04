//! The lines of a scenario, by their fields: what a line says by itself, wherever it stands.
#![tactic(auto)]

mod fields;
mod forms;
mod reading;
#[cfg(test)]
mod tests;

pub use reading::read_line_fields;
