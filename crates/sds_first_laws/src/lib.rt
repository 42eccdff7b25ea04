//! Laws of nodes: what holds of every history and of every world, whatever is called and whatever a link loses.
#![tactic(auto)]

mod counters;
mod lanes;
mod pairs;
mod routed;
#[cfg(test)]
mod tests;
mod writers;

pub use counters::{counters_never_fall, numbers_stay_within};
pub use lanes::{lanes_stay_in_step, messages_stay_in_step};
pub use pairs::pairs_stay_in_step;
pub use routed::routed_once;
pub use writers::writers_stay_in_order;
