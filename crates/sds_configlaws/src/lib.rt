//! What holds of every configuration file: it is read or refused, and what it writes is sound and
//! lets every batch be written. Each law is the contract of a function without a body. Nothing
//! stands on this crate.
#![tactic(auto)]

mod laws;

pub use laws::{files_are_read, files_are_sound, files_have_few_keys};
