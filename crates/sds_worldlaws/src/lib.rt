//! What holds of every world: any number of nodes under one configuration, after any list of
//! events, whatever is lost, repeated, reordered or meets a fault. Each law is the contract of a
//! function without a body.
#![tactic(auto)]

mod laws;

pub use laws::{
    changes_are_routed_once_everywhere, messages_begin_waiting, messages_stay_written,
    pushes_acknowledge, replies_count, worlds_stay_in_step, writes_count_everywhere,
};
