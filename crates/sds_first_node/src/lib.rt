//! A node: what it keeps, and its calls, each of which makes at most one act.
#![tactic(auto)]

mod acking;
mod find;
mod kept;
mod loading;
mod node;
mod offering;
mod routing;
mod rows;
mod shown;
#[cfg(test)]
mod tests;
mod writing;

pub use node::Node;
