//! Nodes over keepers that stand for nodes of a world: each call goes as the world's.
#![tactic(auto)]

mod laws;

pub use laws::{begins_go, calls_go, opens_go, settles_go};
