//! Faults that any call of a node may meet.
ghost use Rattle.std.specs.Prelude.{◌≡◌};

use sds_base::{Bytes, NoMemory};

/// Why a call of a node was not made. Nothing has changed, but that after `Keeper` the kept records may be those before the
/// call or those after its act.
#[derive(Debug, Drop)]
pub enum NodeFault {
    /// The keeper failed.
    Keeper,
    /// The record of this key isn't one of a node's, or disagrees with others.
    BadKept(Bytes),
    /// The kept bytes are damaged at this offset.
    Damaged(u64),
    /// A number would pass 2^62.
    Counters,
    NoMemory,
}

impl NodeFault {
    ghost use Rattle.sds_types.specs.NodeFaults.{name_of};

    /// The fault's name, as messages print it.
    pub fn name(&self) -> &'static str
        ensures { result.now ≡ name_of self.now }
    {
        match self {
            NodeFault::Keeper => "KeeperFault",
            NodeFault::BadKept(_) => "BadKept",
            NodeFault::Damaged(_) => "Damaged",
            NodeFault::Counters => "Counters",
            NodeFault::NoMemory => "NoMemory",
        }
    }
}

impl From<NoMemory> for NodeFault {
    ghost use Rattle.std.specs.Prelude.{◌≡◌};
    ghost use Rattle.sds_types.specs.declared.node_fault.NodeFault.TheVariants.{NoMemory};

    ghost from_gives = { λ _ fault. fault ≡ NoMemory };

    fn from(_: NoMemory) -> NodeFault {
        NodeFault::NoMemory
    }
}
