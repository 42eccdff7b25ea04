//! Worked scenarios and a worked document as laws: what the definitions give for each, computed by
//! the prover. Nothing stands on this crate.
#![tactic(auto)]

mod documents;
mod scenarios;

pub use documents::a_document_is_written;
pub use scenarios::{
    a_day_prints, a_repeat_is_loaded_once, changes_do_not_come_back, conflicts_are_resolved,
    errors_hold_lanes, faults_lose_nothing,
};
