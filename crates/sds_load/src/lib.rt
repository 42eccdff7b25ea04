//! Batches as a node loads them.
#![tactic(auto)]

mod batches;
mod bodies;
mod outcomes;
mod settings;
#[cfg(test)]
mod tests;
#[cfg(test)]
mod tests_loads;
#[cfg(test)]
mod tests_outcomes;
#[cfg(test)]
mod tests_parts;
#[cfg(test)]
mod tests_shop;
#[cfg(test)]
mod tests_told;

pub use batches::prepare;
pub use outcomes::outcome;
pub use sds_capture::Outcome;
