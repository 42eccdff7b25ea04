//! What holds of every batch that is read from a document, so that its load is asked rightly. Laws
//! are contracts of functions without a body; of what a program has, of functions that go through
//! its texts.
#![tactic(auto)]

mod laws;
mod spelling;

pub use laws::{
    named_ways_are_spelt, read_batches_are_asked, read_batches_are_held, read_batches_are_spelt,
};
pub use spelling::{configs_are_spelt, ways_are_spelt};
