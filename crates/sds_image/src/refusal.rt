//! Why records tell no state.
use sds_base::{Bytes, NoMemory};

/// Why records tell no state.
#[derive(Debug, Drop)]
pub enum StateRefusal {
    /// The record of this key tells no part of a state, or its key isn't after that of the record
    /// before it. The key is empty where no record is that of the node itself.
    BadRecord(Bytes),
    /// The part that the record of this key tells disagrees with the configuration, or with the
    /// parts of other records.
    Contradicts(Bytes),
    /// Memory was wanting.
    NoMemory,
}

impl From<NoMemory> for StateRefusal {
    ghost use Rattle.std.specs.Prelude.{◌≡◌};
    ghost use Rattle.sds_image.specs.declared.refusal.StateRefusal.TheVariants as refusal;

    ghost from_gives = { λ _ e. e ≡ refusal.NoMemory };

    fn from(_: NoMemory) -> StateRefusal {
        StateRefusal::NoMemory
    }
}
