//! What a rehearsal prints of each answer, and the text of a reply, written and read.
#![tactic(auto)]

mod laws;
mod lines;
mod pairs;
mod replies;
#[cfg(test)]
mod tests;
mod words;

pub use laws::{pairs_say_what_they_write, written_acks_read_back};
pub use lines::{
    put_answering, put_crashed, put_delivering, put_no_pull, put_no_push, put_opening,
    put_registering, put_routing, put_sending, put_writing,
};
pub use replies::{put_acks, put_ended_acks, read_acks};
