//! That what a node sends can be written, and read back. Each law is the contract of a function
//! without a body.
#![tactic(auto)]

mod laws;

pub use laws::documents_are_writable;
