//! Messages as text, at the node that gets them: the batches of a text, the places of their
//! channels, and the laws that what was sent comes back.
#![tactic(auto)]

mod batches;
mod channels;
mod laws;
#[cfg(test)]
mod tests;
mod texts;

pub use batches::read_batches;
pub use channels::channels_of;
pub use laws::{messages_are_read_back, messages_have_channels};
pub use texts::expressions_are_of_characters;
