// How a call of the outside fails.
ghost use Rattle.std.specs.Prelude.{◌≡◌};

use sds_base::NoMemory;

/// A call of the outside failed. It is answered only where the object's count of faults rose in that call.
#[derive(Clone, Copy, Debug, PartialEq, Eq)]
pub struct Failed;

/// How a call fails that takes memory too.
#[derive(Clone, Copy, Debug, PartialEq, Eq)]
pub enum Fail {
    /// The outside failed, and the count of faults rose.
    Failed,
    /// Memory was wanting.
    NoMemory,
}

impl From<NoMemory> for Fail {
    ghost use Rattle.sds_outside.specs.declared.failing.Fail.{Fail};
    ghost use Rattle.sds_outside.specs.declared.failing.Fail.TheVariants as fail;

    ghost from_gives = { λ _ e. e ≡ fail.NoMemory };

    fn from(_: NoMemory) -> Fail {
        Fail::NoMemory
    }
}
