//! What the trade and its histories mean, for the first rehearsal: the definitions over the plain types.
//!
//! A reader who wants to know what symds promises begins here: Tables, Capture, Routing, Cuts and Outcome are the
//! rules of the trade, History and Calls what a node is and answers, Lanes, World and InStep what nodes do to each
//! other, and Screen what a rehearsal prints. The code is the types that are the first rehearsal's own.
#![tactic(auto)]

mod batch;
mod event;
mod laws;
mod row;
mod worked;

pub use batch::Sent;
pub use event::WorldEvent;
pub use laws::{changes_have_one_cut, cut_is_the_cut};
pub use row::{Done, LoadRow};
pub use worked::{
    acks_are_judged, loads_go_by_number, repeats_change_nothing, screens_of_little,
    two_nodes_print, writes_are_judged_by_row, writes_go_by_number,
};
