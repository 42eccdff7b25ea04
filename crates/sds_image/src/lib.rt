//! A node's state as its keeper has it.
#![tactic(auto)]

mod disagreeing;
mod earlier;
mod lists;
mod reading;
mod records;
mod refusal;
mod seen;
mod sorted;
mod state;
mod telling;
#[cfg(test)]
mod tests;
#[cfg(test)]
mod tests_reading;

pub use refusal::StateRefusal;
pub use sds_records::{Part, Told, drop_part, put_part, read_record};
pub use state::State;
