use sds_base::{List, Txt};
use sds_types::TxRow;
use sds_value::Peer;

/// What a line of a scenario makes happen. Nodes go by their ids.
#[derive(Debug, Drop)]
pub enum WorldEvent {
    /// A node is made.
    Node {
        peer: Peer,
    },
    /// A node opens registration for a group and an external id.
    Open {
        at: Txt,
        group: Txt,
        external: Txt,
    },
    /// A node registers at another, and each becomes the other's peer.
    Register {
        asks: Txt,
        at: Txt,
    },
    /// A writer's numbered write at a node.
    Write {
        node: Txt,
        writer: Txt,
        number: u64,
        rows: List<TxRow>,
    },
    /// A routing run at a node.
    Route {
        node: Txt,
    },
    /// A message is sent, delivered and answered.
    Push {
        from: Txt,
        to: Txt,
    },
    /// A node's tables are shown.
    Show {
        node: Txt,
    },
}
