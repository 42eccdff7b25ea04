//! The calls of a node that make an act without running rows: each judges, and makes at most one
//! commit.
#![tactic(auto)]

mod acks;
mod batches;
mod confirming;
mod counters;
mod openings;
mod registering;
mod room;
mod routing;
mod standing;

pub use acks::take_acks;
pub use confirming::confirm;
pub use openings::open;
pub use registering::{join, register};
pub use routing::route;
