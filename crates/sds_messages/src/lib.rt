//! The message of a node that goes next to a peer, as a document.
#![tactic(auto)]

mod message;
mod part;
#[cfg(test)]
mod tests;
#[cfg(test)]
mod tests_parts;

pub use message::put_message;
