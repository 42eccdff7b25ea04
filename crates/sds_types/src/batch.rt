//! Outgoing batches.
ghost use Rattle.std.specs.Prelude.{◌≡◌};

use sds_base::{List, Txt};

/// What is known of an outgoing batch's fate.
#[derive(Clone, Copy, Debug, PartialEq, Eq)]
pub enum Standing {
    /// Nothing.
    New,
    /// Its row of this number, from 1, broke the rule of this number.
    Erred { row: u32, rule: u8 },
    /// It is loaded. That is final.
    Acked,
}

impl Standing {
    ghost use Rattle.sds_types.specs.Standings.{name_of};

    /// The status's word on screens and in kept records: `NE`, `ER` or `OK` (the SymmetricDS guide's outgoing batches).
    pub fn name(self) -> &'static str
        ensures { result.now ≡ name_of self }
    {
        match self {
            Standing::New => "NE",
            Standing::Erred { .. } => "ER",
            Standing::Acked => "OK",
        }
    }
}

/// An outgoing batch.
#[derive(Debug, Drop)]
pub struct OutBatch {
    /// Its number at its node, from 1.
    pub id: u64,
    /// The node that it goes to.
    pub peer: Txt,
    /// The place of its channel.
    pub channel: u32,
    pub standing: Standing,
    /// The numbers of its changes.
    pub changes: List<u64>,
}

/// A batch that a routing run makes.
#[derive(Debug, Drop)]
pub struct NewBatch {
    pub id: u64,
    /// The place of the node that it goes to among the peers of the run.
    pub peer: u32,
    /// The place of its channel.
    pub channel: u32,
    /// The numbers of its changes.
    pub changes: List<u64>,
}
