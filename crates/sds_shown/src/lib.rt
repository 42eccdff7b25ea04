//! What a person sees of a node: its tables with their rows, and the list of its batches.
#![tactic(auto)]

mod batches;
mod lines;
mod tables;
#[cfg(test)]
mod tests;
#[cfg(test)]
mod tests_parts;

pub use batches::put_batches;
pub use tables::put_tables;
