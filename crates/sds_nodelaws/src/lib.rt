//! What holds of every history of a node, under every configuration and whatever acts it made. Each
//! law is the contract of a function without a body.
#![tactic(auto)]

mod laws;

pub use laws::{
    acknowledged_come_first, batches_count_on, calls_keep_states_sound, changes_are_routed_once,
    changes_count_on, counters_never_fall, documents_stay, histories_splice, mark_stays_within,
    ok_is_final, tables_follow_steps, writers_count,
};
