//! The nodes of a rehearsal: what each event does to them, and what it prints.
#![tactic(auto)]

mod adding;
mod answering;
mod asking;
mod calls;
mod closing;
mod crashing;
mod delivering;
mod finding;
mod loading;
mod memory;
mod registering;
mod sending;
mod showing;
mod stage;
mod ways;

pub use stage::Stage;
