//! Batches: where a lane's changes are cut, and which batches a routing run makes.
#![tactic(auto)]

mod cutting;
mod lanes;
mod making;
mod order;
#[cfg(test)]
mod tests;
#[cfg(test)]
mod tests_batches;

pub use cutting::cut;
pub use making::run;
pub use order::channels_in_order;
pub use sds_types::{Algorithm, Cut, NewBatch};
