ghost use Rattle.std.specs.Prelude.{◌≡◌};

use std::alloc::AllocError;
use thiserror::Error;

/// Why a text was not read as a value.
#[derive(Clone, Copy, Debug, PartialEq, Eq, Error)]
pub enum ValueRefusal {
    /// The text has not the form of a value of the kind, or names a day or a time that there is not.
    #[error("the text is none of the kind")]
    BadText,
    /// The text has more characters or bytes than the kind allows, and would read under a wider one.
    #[error("the text is longer than the kind allows")]
    TooLong,
    /// The text has the form of a number that lies outside the range of the kind, or of a day outside its years.
    #[error("the value is out of the range of the kind")]
    OutOfRange,
    /// Memory was wanting.
    #[error("memory was wanting")]
    NoMemory,
}

impl From<sds_base::NoMemory> for ValueRefusal {
    ghost use Rattle.sds_value.specs.declared.refusal.ValueRefusal.TheVariants.{NoMemory};

    ghost from_gives = { λ _ refusal. refusal ≡ NoMemory };

    fn from(_: sds_base::NoMemory) -> ValueRefusal {
        ValueRefusal::NoMemory
    }
}

impl From<AllocError> for ValueRefusal {
    ghost use Rattle.sds_value.specs.declared.refusal.ValueRefusal.TheVariants.{NoMemory};

    ghost from_gives = { λ _ refusal. refusal ≡ NoMemory };

    fn from(_: AllocError) -> ValueRefusal {
        ValueRefusal::NoMemory
    }
}
