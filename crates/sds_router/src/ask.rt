//! What is asked of a peer: whether one of its texts is a certain text.
ghost use Rattle.std.specs.Prelude.{◌≡◌};
ghost use Rattle.std.specs.Str.{bytes_eq};
ghost use Rattle.sds_router.specs.Asks.{is_met, text_of_peer};

use sds_base::Txt;
use sds_value::Peer;

/// A text of a node.
#[derive(Clone, Copy, Debug, PartialEq, Eq)]
pub(crate) enum PeerText {
    Id,
    External,
    Group,
}

/// A question about a node: whether one of its texts is this text, or whether it is another.
#[derive(Debug, Drop)]
pub(crate) struct Ask {
    pub(crate) about: PeerText,
    pub(crate) text: Txt,
    /// Whether the two are to differ.
    pub(crate) differs: bool,
}

impl Ask {
    /// Whether the node meets it.
    pub(crate) fn is_met(&self, peer: &Peer) -> bool
        ensures { result ≡ is_met peer.now self.now }
    {
        let is_one = has_text(peer, self.about, &self.text);
        if self.differs { !is_one } else { is_one }
    }
}

fn has_text(peer: &Peer, about: PeerText, text: &Txt) -> bool
    ensures { result ≡ bytes_eq (text_of_peer peer.now about) text.now }
{
    match about {
        PeerText::Id => peer.id == *text,
        PeerText::External => peer.external == *text,
        PeerText::Group => peer.group == *text,
    }
}
