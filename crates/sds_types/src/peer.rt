//! The nodes that a node exchanges batches with.
use sds_base::Txt;
use sds_value::Peer;

/// A node that this one exchanges batches with.
#[derive(Debug, Drop)]
pub struct KeptPeer {
    pub peer: Peer,
    /// What both prove themselves with: 32 hexadecimal digits in lower case.
    pub token: Txt,
    /// True where it registered here, false where this node registered there.
    pub child: bool,
}
