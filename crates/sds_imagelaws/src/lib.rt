//! What holds of the records of a node's whole state, under every configuration. Each law is the
//! contract of a function without a body.
#![tactic(auto)]

mod laws;

pub use laws::{
    acts_keep_widths, agreeing_records_are_images, asked_calls_make_images, edits_go_by_act,
    edits_make_images, images_are_read, images_are_told, images_tell_states_apart,
    new_nodes_have_one_record, told_records_are_good,
};
