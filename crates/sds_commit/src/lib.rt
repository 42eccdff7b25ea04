//! What all calls of a node have in common that make an act in one commit.
#![tactic(auto)]

mod committing;
mod counting;
mod edits;

pub use committing::{Uncommitted, commit};
pub use counting::counted;
pub use edits::push_put;
