//! Acks: what a receiver says of batches.
use crate::NodeFault;
use sds_base::NoMemory;

/// What a receiver says of a batch: that it is loaded, or the row, from 1, and the number, 1 to 16, of the rule that it
/// broke.
#[derive(Clone, Copy, Debug, PartialEq, Eq)]
pub struct Ack {
    pub batch: u64,
    pub error: Option<(u32, u8)>,
}

/// Why acks were refused. None of them was taken.
#[derive(Debug, Drop)]
pub enum AckRefusal {
    /// No peer has that id.
    UnknownNode,
    /// The first of the numbers that is no batch of this node to that peer.
    UnknownBatch(u64),
    Fault(NodeFault),
}

/// Why a text isn't read as acks.
#[derive(Clone, Copy, Debug, PartialEq, Eq)]
pub enum AcksRefusal {
    /// The pair of this place, from 1, is the first that is of another form.
    BadAcks(u32),
    NoMemory,
}

impl From<NoMemory> for AckRefusal {
    ghost use Rattle.std.specs.Prelude.{◌≡◌};
    ghost use Rattle.sds_types.specs.declared.ack.AckRefusal.TheVariants.{Fault};
    ghost use Rattle.sds_types.specs.declared.node_fault.NodeFault.TheVariants.{NoMemory};

    ghost from_gives = { λ _ refusal. refusal ≡ Fault NoMemory };

    fn from(_: NoMemory) -> AckRefusal {
        AckRefusal::Fault(NodeFault::NoMemory)
    }
}
