//! What a node's lists of peers, openings, writers and lanes hold: how items are found and put in,
//! and what they alone decide of a call.
#![tactic(auto)]

mod finding;
mod links;
mod loads;
mod openings;
mod orders;
mod putting;
mod registrations;
mod stages;
#[cfg(test)]
mod tests;
#[cfg(test)]
mod tests_judging;
#[cfg(test)]
mod tests_parts;
mod writes;

pub use finding::{kept_lane, kept_peer, opening_of, writer_of};
pub use links::are_linked;
pub use loads::{judge_lane, keeps_error, knows_sender};
pub use openings::{close_openings, give_opening, is_open_for};
pub use putting::{put_lane, put_opening, put_peer, put_writer};
pub use registrations::{judge_join, judge_opening, judge_registration};
pub use writes::judge_number;
