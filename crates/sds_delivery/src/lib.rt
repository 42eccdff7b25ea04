//! The order in which a receiver loads the batches of a message, and that of the acks in its reply.
#![tactic(auto)]

mod acks;
mod laws;
mod order;
#[cfg(test)]
mod tests;

pub use acks::acks_in_order;
pub use laws::delivered_batches_are_of_the_message;
pub use order::deliver_places;
