//! Routers: whom a change is for, by what the configuration's expressions say and by the tables as
//! they stand.
#![tactic(auto)]

mod ask;
mod asks;
mod naming;
mod places;
mod routes;
mod standing;
#[cfg(test)]
mod tests;
#[cfg(test)]
mod tests_rows;
#[cfg(test)]
mod tests_targets;
mod texts;
mod wanted;

pub use routes::{names, targets};
pub use standing::StandingRows;
