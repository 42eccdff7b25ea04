//! What happens in a world of nodes.
use crate::TxRow;
use sds_base::{List, Txt};
use sds_value::Peer;

/// What a scenario makes happen. Nodes go by their ids, channels by their places, messages and replies by their numbers.
#[derive(Debug, Drop)]
pub enum WorldEvent {
    /// A node is made, with empty tables.
    Node {
        peer: Peer,
    },
    /// A node opens registration for a group and an external id.
    Open {
        at: Txt,
        group: Txt,
        external: Txt,
    },
    /// A node registers at another, and each becomes the other's peer.
    Register {
        asks: Txt,
        at: Txt,
    },
    /// A writer's numbered write at a node.
    Write {
        node: Txt,
        writer: Txt,
        number: u64,
        rows: List<TxRow>,
    },
    /// A routing run at a node.
    Route {
        node: Txt,
    },
    /// A node makes a message to another, of these channels, or of all where none is named.
    Send {
        from: Txt,
        to: Txt,
        channels: List<u32>,
    },
    /// The message of this number is loaded at its receiver, its batches in the order of these channels; the rest follow.
    Deliver {
        message: u64,
        channels: List<u32>,
    },
    /// The reply of this number is taken by the node that sent its message.
    Answer {
        reply: u64,
    },
    /// A message is sent, delivered and answered, by a link that pushes.
    Push {
        from: Txt,
        to: Txt,
    },
    /// The same, by a link that waits for a pull.
    Pull {
        to: Txt,
        from: Txt,
    },
    /// The bytes of the message of this number are shown.
    Wire {
        message: u64,
    },
    /// A node's tables are shown.
    Show {
        node: Txt,
    },
    /// A node's batches are shown.
    Batches {
        node: Txt,
    },
    /// A node is dropped and opened again from what it kept.
    Crash {
        node: Txt,
    },
    /// The next commit of a node that isn't to fail yet will fail; its records are then those after it, or those before it.
    Fault {
        node: Txt,
        stands: bool,
    },
}
