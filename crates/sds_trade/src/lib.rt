//! The rules of the trade, as definitions: what every configuration promises, what a step does to
//! the tables and which rule it breaks, own writes, which changes are captured, whom they are for,
//! where batches end, what transforms make of a row, how conflicts are seen and resolved, and what
//! a batch does. They stand in `specs/rules`. The code is empty but for their laws.
#![tactic(auto)]

mod laws;
mod worked;

pub use laws::{
    captured_changes_are_numbered, changes_are_cut_once, first_rules_answer, keys_stay_apart,
    peers_are_named_once, plain_rows_pass, references_hold, refusals_leave_tables,
    rules_come_in_order, tables_go_by_step,
};
pub use worked::{
    batches_are_prepared, batches_are_refused, batches_end_by_algorithm, batches_go_to_peers,
    changes_are_written, channels_go_in_order, columns_are_made, conflicts_are_resolved,
    conflicts_are_seen, counts_are_added, first_rule_answers, keys_are_made, limits_refuse,
    operands_are_compared, peers_are_told, rows_are_taken_away, rows_are_transformed,
    rows_fall_back, rows_name_stores, steps_are_captured, tests_name_stores, texts_are_judged,
    writes_break_keys_and_references, writes_break_rules_on_texts,
};
