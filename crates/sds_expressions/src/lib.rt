//! The texts inside a configuration: numbers, pieces, expressions of routers and transforms.
#![tactic(auto)]

mod automaton;
mod column_router;
mod computed;
mod laws;
mod letters;
mod lookup_router;
mod numbers;
mod pieces;
mod subselect_router;
#[cfg(test)]
mod tests;

pub use column_router::column_tests;
pub use computed::{left_of, multiplier_of, substr_of, value_map_of, variable_of};
pub use laws::{
    column_expressions_read_by_their_form, expressions_have_names, expressions_read_by_their_form,
    printed_expressions_read_back,
};
pub use lookup_router::lookup_text;
pub use numbers::plain_number;
pub use pieces::{behind, split_at};
pub use subselect_router::subselect_text;
