//! Own writes and capture: which steps of a node become changes, and in which channel they go.
#![tactic(auto)]

mod capture;
mod judge;
mod outcome;
mod own_rows;
mod own_steps;
mod own_write;
mod run;
#[cfg(test)]
mod tests;
#[cfg(test)]
mod tests_shop;
#[cfg(test)]
mod tests_writes;

pub use capture::captured;
pub use judge::Judge;
pub use outcome::Outcome;
pub use own_write::run_write;
pub use run::{Capturing, run_rows};
pub use sds_rows::Done;
pub use sds_types::{Broken, TxRow};
