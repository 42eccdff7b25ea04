//! A node, and what it tells of itself.
ghost use Rattle.std.specs.Prelude.{◌≡◌, true, false, option_copied, option_map};
ghost use Rattle.std.specs.Str.{bytes_eq, chars};
ghost use Rattle.std.specs.Option.{option_map_or};
ghost use Rattle.sds_types.specs.declared.peer.KeptPeer.{KeptPeer};
ghost use Rattle.sds_history.specs.history.Peers.{kept_peer};

use sds_base::Txt;
use sds_image::State;
use sds_outside::Keeper;
use sds_registry::kept_peer;
use sds_types::Config;
use sds_value::Peer;
use std::alloc::Global;

/// A node of a configuration, which keeps all that it has in the records of a keeper.
///
/// Each call makes at most one act, and that in one commit of the records. After a fault of the
/// keeper the node isn't sure whether its last act stands: the next call that may change it reads
/// the records again, and goes on from what they tell.
#[derive(Drop)]
pub struct Node<K: Keeper> {
    pub(crate) alloc: Global,
    pub(crate) config: Config,
    pub(crate) state: State,
    pub(crate) keeper: K,
    pub(crate) sure: bool,
}

impl<K: Keeper> Node<K> {
    ghost use Rattle.sds_node.specs.Meaning.{has};

    /// Gives the keeper back.
    pub fn close(self) -> K
        ensures { result ≡ self.keeper }
    {
        let Node { keeper, .. } = self;
        keeper
    }

    /// Whether the node has what its records tell. It isn't sure after a fault of the keeper, until
    /// they were read again.
    pub fn is_sure(&self) -> bool
        ensures { result ≡ self.now.sure }
    {
        self.sure
    }

    /// The configuration.
    pub fn config(&self) -> &Config
        ensures { result.now ≡ self.now.config }
    {
        &self.config
    }

    /// The node's id, group and external id.
    pub fn me(&self) -> &Peer
        ensures { result.now ≡ (has self.now).me }
    {
        &self.state.me
    }

    /// The peer of an id, where the node has it. The node is sure.
    pub fn peer(&self, id: &str) -> Option<&Peer>
        requires { self.now.sure ≡ true }
        ensures { option_copied result ≡ option_map (λ (kept : KeptPeer). kept.peer)
            (kept_peer (has self.now).peers (chars id.now)) }
    {
        match kept_peer(self.state.peers.inner(), id) {
            Some(kept) => Some(&kept.peer),
            None => None,
        }
    }

    /// The token of a peer, where the node has it. The node is sure.
    pub fn token(&self, peer: &str) -> Option<&Txt>
        requires { self.now.sure ≡ true }
        ensures { option_copied result ≡ option_map (λ (kept : KeptPeer). kept.token)
            (kept_peer (has self.now).peers (chars peer.now)) }
    {
        match kept_peer(self.state.peers.inner(), peer) {
            Some(kept) => Some(&kept.token),
            None => None,
        }
    }

    /// Whether a peer has this token. The node is sure.
    pub fn check_token(&self, peer: &str, token: &str) -> bool
        requires { self.now.sure ≡ true }
        ensures { result ≡ option_map_or (λ (kept : KeptPeer). bytes_eq kept.token (chars token.now))
            (kept_peer (has self.now).peers (chars peer.now)) false }
    {
        match kept_peer(self.state.peers.inner(), peer) {
            Some(kept) => kept.token.is(token),
            None => false,
        }
    }
}
