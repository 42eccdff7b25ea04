//! Rehearsals: a scenario's lines played by nodes over keepers in memory, and what they print.
#![tactic(auto)]

mod judging;
mod laws;
mod lines;
mod messages;
mod play;
mod rehearsal;
mod rehearsing;
mod stepping;
mod text;

pub use laws::scenarios_stay_in_step;
pub use rehearsal::Rehearsal;
pub use rehearsing::rehearse;
