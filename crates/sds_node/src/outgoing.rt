//! What a node sends next: the numbers of batches, a batch as a document, and a message as text.
ghost use Rattle.std.specs.Prelude.{◌≡◌, ◌++◌, true, Err, IfOk, IsSome, OnOk, Some, is_some, option_map};
ghost use Rattle.std.specs.List.{All};
ghost use Rattle.std.specs.Str.{chars};
ghost use Rattle.sds_doclaws.specs.Writable.{HasFewKeys, IsOfCharacters};
ghost use Rattle.sds_history.specs.history.Documents.{doc_of_batch};
ghost use Rattle.sds_history.specs.history.Messages.{offer_of, parts_of};
ghost use Rattle.sds_history.specs.history.Peers.{kept_peer};
ghost use Rattle.sds_history.specs.world.Sending.{batch_count};
ghost use Rattle.sds_messages.specs.Texts.{written_message};
ghost use Rattle.sds_outgoing.specs.Batches.{batch_of_number};

use crate::Node;
use sds_base::{List, NoMemory};
use sds_messages::put_message;
use sds_outgoing::{doc, offer};
use sds_outside::Keeper;
use sds_registry::kept_peer;
use sds_types::{BatchDoc, PeerRefusal};

impl<K: Keeper> Node<K> {
    ghost use Rattle.sds_node.specs.Meaning.{IsNode, has};
    ghost use Rattle.sds_node.specs.Sending.{offer_answer};
    ghost use Rattle.sds_commit.specs.Ends.{LacksMemory};

    /// The numbers of the batches that go next to a peer, of these channels or of all where none is
    /// named, however long their text is. The node is sure.
    ///
    /// Refused where the node has no such peer.
    pub fn offer(&self, to: &str, channels: &[u32]) -> Result<List<u64>, PeerRefusal>
        requires { self.now.sure ≡ true }
        ensures { (LacksMemory PeerRefusal.Fault result → ⊥)
            → result ≡ offer_answer self.now.config (has self.now) (chars to.now) channels.now }
    {
        if kept_peer(self.state.peers.inner(), to).is_none() {
            return Err(PeerRefusal::UnknownNode);
        }
        Ok(offer(self.alloc, &self.config, &self.state, to, channels)?)
    }

    /// A batch of the node as a document: its rows by the transforms of its way. The node is sure.
    pub fn doc(&self, batch: u64) -> Result<BatchDoc, NoMemory>
        requires node { IsNode K.is_open K.keeping self.now }
        requires sure { self.now.sure ≡ true }
        requires known { IsSome (batch_of_number (has self.now).batches batch) }
        ensures { IfOk result (λ doc. Some doc
            ≡ option_map (doc_of_batch self.now.config (has self.now))
            (batch_of_number (has self.now).batches batch)) }
    {
        doc(self.alloc, &self.config, &self.state, batch)
    }

    /// Writes the message that goes next to a peer, of these channels or of all where none is named,
    /// as one document of the node, and tells how many batches it has. The node is sure.
    ///
    /// The configuration's transforms are of characters, and have few enough columns for keys that
    /// each batch has a written form.
    pub fn put_message(
        &self,
        to: &str,
        channels: &[u32],
        out: &mut Vec<u8>,
    ) -> Result<u64, NoMemory>
        requires node { IsNode K.is_open K.keeping self.now }
        requires sure { self.now.sure ≡ true }
        requires characters { All IsOfCharacters self.now.config.transforms }
        requires few { All (HasFewKeys self.now.config) self.now.config.transforms }
        ensures count { IfOk result (λ count. count ≡ batch_count
            (parts_of self.now.config (has self.now) (chars to.now) channels.now)) }
        ensures text { OnOk result (out.new.items ≡ out.old.items
            ++ written_message self.now.config (has self.now) (chars to.now) channels.now) }
    {
        put_message(self.alloc, &self.config, &self.state, to, channels, out)
    }
}
