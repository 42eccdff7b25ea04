//! The calls of a node that run rows over its tables: own writes, and batches that are loaded. Each
//! is one act in one commit.
#![tactic(auto)]

mod changes;
mod edits;
mod keeping;
mod lanes;
mod loading;
mod numbers;
mod steps;
mod writing;

pub use loading::load;
pub use writing::write;
