//! What a node answers to a batch.
use crate::{NodeFault, Rule};
use sds_base::NoMemory;

/// What became of a batch that was handed in to be loaded.
#[derive(Clone, Copy, Debug, PartialEq, Eq)]
pub enum LoadAnswer {
    /// It is loaded, by the act of this number.
    Loaded { place: u64 },
    /// It is ignored, which counts as loaded, by the act of this number.
    Ignored { place: u64 },
    /// It was loaded before.
    Again,
    /// Its row of this number, from 1, breaks this rule, and nothing of it stands.
    Erred { row: u32, rule: Rule },
    /// An earlier batch of its lane, of this number, is in error.
    Held { batch: u64, row: u32, rule: Rule },
}

/// Why a call about another node was refused.
#[derive(Debug, Drop)]
pub enum PeerRefusal {
    /// No peer has that id, or it is of another group.
    UnknownNode,
    Fault(NodeFault),
}

impl From<NoMemory> for PeerRefusal {
    ghost use Rattle.std.specs.Prelude.{◌≡◌};
    ghost use Rattle.sds_types.specs.declared.load_answer.PeerRefusal.TheVariants.{Fault};
    ghost use Rattle.sds_types.specs.declared.node_fault.NodeFault.TheVariants.{NoMemory};

    ghost from_gives = { λ _ refusal. refusal ≡ Fault NoMemory };

    fn from(_: NoMemory) -> PeerRefusal {
        PeerRefusal::Fault(NodeFault::NoMemory)
    }
}
