//! What a node answers to an own write.
use crate::{NodeFault, Rule};
use sds_base::NoMemory;

/// An accepted write: its first change, or the next one where it has none, and how many it has.
#[derive(Clone, Copy, Debug, PartialEq, Eq)]
pub enum Written {
    Done { first: u64, count: u32 },
    /// The writer's last write, which had this number, was done before with this answer.
    Again { first: u64, count: u32 },
}

/// Why a write was refused. A refused write doesn't use its number.
#[derive(Debug, Drop)]
pub enum WriteRefusal {
    /// This row, from 1, breaks this rule, and none before it breaks one.
    Broken { row: u32, rule: Rule },
    /// The number is 0 or below the writer's last, which is this.
    OldNumber(u64),
    /// The number is above the next one; the writer's last is this.
    GapNumber(u64),
    /// More than 10,000 rows.
    TooManyRows,
    Fault(NodeFault),
}

impl From<NoMemory> for WriteRefusal {
    ghost use Rattle.std.specs.Prelude.{◌≡◌};
    ghost use Rattle.sds_types.specs.declared.node_fault.NodeFault.TheVariants.{NoMemory};
    ghost use Rattle.sds_types.specs.declared.write_answer.WriteRefusal.TheVariants.{Fault};

    ghost from_gives = { λ _ refusal. refusal ≡ Fault NoMemory };

    fn from(_: NoMemory) -> WriteRefusal {
        WriteRefusal::Fault(NodeFault::NoMemory)
    }
}
