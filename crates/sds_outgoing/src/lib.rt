//! A node's outgoing batches: which go next to a peer, a batch as a document, and what acks say of
//! batches.
#![tactic(auto)]

mod documents;
mod finding;
mod heard;
mod offers;
mod restating;
mod standings;
#[cfg(test)]
mod tests;
#[cfg(test)]
mod tests_documents;
#[cfg(test)]
mod tests_parts;

pub use documents::doc;
pub use heard::unknown_ack;
pub use offers::offer;
pub use restating::{Restated, changed, restate};
pub use standings::{is_changed, standing_after};
