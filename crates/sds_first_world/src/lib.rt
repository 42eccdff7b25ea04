//! Rehearsals: what a scenario's line says by itself, where it may stand, what it makes happen, and what that prints.
#![tactic(auto)]

mod fixed;
mod forms;
mod game;
mod headline;
mod line;
mod message;
mod nodes;
mod place;
mod rehearsal;
mod stage;
mod text;
mod words;

pub use fixed::one;
pub use forms::read_fields;
pub use headline::{routed_changes_go_once, tables_are_folds};
pub use line::{Line, Opening};
pub use place::{Draft, Place, fits, take_line};
pub use rehearsal::{BadLine, WorldRefusal, rehearse, scenarios_stay_in_step};

#[cfg(test)]
mod tests;
