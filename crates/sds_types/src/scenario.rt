//! The lines of a scenario, by their fields alone.
ghost use Rattle.std.specs.Prelude.{◌≡◌};

use crate::TxRow;
use sds_base::{List, Txt};
use sds_value::Peer;

/// What a line of a scenario says. Nodes and channels go by their names, messages and replies by their numbers.
#[derive(Debug, Drop)]
pub enum ScenarioLine {
    /// A node is made.
    Node {
        peer: Peer,
    },
    /// A node opens registration for a group and an external id.
    Open {
        at: Txt,
        group: Txt,
        external: Txt,
    },
    /// A node registers at another.
    Register {
        asks: Txt,
        at: Txt,
    },
    /// A writer's numbered write at a node begins; its rows follow, up to `End`.
    Write {
        node: Txt,
        writer: Txt,
        number: u64,
    },
    /// A row of the write.
    Row(TxRow),
    /// The write ends.
    End,
    /// A routing run at a node.
    Route {
        node: Txt,
    },
    /// A node makes a message to another, of these channels, or of all where none is named.
    Send {
        from: Txt,
        to: Txt,
        channels: List<Txt>,
    },
    /// The message of this number is delivered, its batches in the order of these channels.
    Deliver {
        message: u64,
        channels: List<Txt>,
    },
    /// The reply of this number is taken.
    Answer {
        reply: u64,
    },
    /// A message is sent, delivered and answered, by a link that pushes.
    Push {
        from: Txt,
        to: Txt,
    },
    /// The same, by a link that waits for a pull.
    Pull {
        to: Txt,
        from: Txt,
    },
    /// The bytes of the message of this number are shown.
    Wire {
        message: u64,
    },
    /// A node's tables are shown.
    Show {
        node: Txt,
    },
    /// A node's batches are shown.
    Batches {
        node: Txt,
    },
    /// A node is dropped and opened again from what it kept.
    Crash {
        node: Txt,
    },
    /// A commit of a node will fail; its records are then those after it, or those before it.
    Fault {
        node: Txt,
        stands: bool,
    },
}

/// Why a scenario isn't played on.
#[derive(Clone, Copy, Debug, PartialEq, Eq)]
pub enum ScenarioCause {
    /// The line is none that a scenario may have, or not at this place.
    BadForm,
    /// It names a node, a group, a channel, a message or a reply that there is not.
    UnknownName,
    /// It makes a node whose id another has, or one node too many.
    Twice,
    /// The scenario ends inside a write. The line is the one that would come next.
    Unfinished,
    /// The scenario has more than 1 GiB. The line is the one that holds the first byte past it.
    TooLong,
    /// The line is one of a scenario's, but isn't supported yet.
    NotSupported,
}

/// Why a rehearsal ended early.
#[derive(Clone, Copy, Debug, PartialEq, Eq)]
pub enum WorldRefusal {
    /// A reading of the scenario failed.
    ReadFault,
    /// A writing of the screen failed.
    WriteFault,
    /// The line of this number, from 1, is the first that may not stand, for this cause. What stood before it was played.
    BadLine { line: u64, cause: ScenarioCause },
    NoMemory,
}

impl ScenarioCause {
    ghost use Rattle.sds_types.specs.ScenarioCauses.{name_of, number_of};

    /// The cause's number, 1 to 6 in the order above, as messages print it.
    pub fn number(self) -> u8
        ensures { result ≡ number_of self }
    {
        match self {
            ScenarioCause::BadForm => 1,
            ScenarioCause::UnknownName => 2,
            ScenarioCause::Twice => 3,
            ScenarioCause::Unfinished => 4,
            ScenarioCause::TooLong => 5,
            ScenarioCause::NotSupported => 6,
        }
    }

    /// The cause's name, as messages print it.
    pub fn name(self) -> &'static str
        ensures { result.now ≡ name_of self }
    {
        match self {
            ScenarioCause::BadForm => "BadForm",
            ScenarioCause::UnknownName => "UnknownName",
            ScenarioCause::Twice => "Twice",
            ScenarioCause::Unfinished => "Unfinished",
            ScenarioCause::TooLong => "TooLong",
            ScenarioCause::NotSupported => "NotSupported",
        }
    }
}
