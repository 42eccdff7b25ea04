//! Values of rows: what stands at a place, what a row gives, sums, and values printed as fields.
#![tactic(auto)]

mod names;
mod places;
mod printing;
mod row_values;
mod sums;

pub use names::{column_names, key_names, no_name, table_name};
pub use places::{column_place, columns_at, is_among, is_group, key_places, table_place};
pub use printing::{field_of, fields_of, text_of};
pub use row_values::{
    copy_of, gives, key_alone, new_key, new_value, old_value, order_of, put_values, same_value,
    sums_fit, value_at, value_for,
};
pub use sums::units_of;
