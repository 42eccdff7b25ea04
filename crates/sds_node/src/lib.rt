//! A node over a keeper: each call one act, and each act one commit.
#![tactic(auto)]

mod calls;
mod failing;
mod keeping;
mod node;
mod outgoing;
mod settling;
mod showing;
mod starting;

pub use node::Node;
