ghost use Rattle.std.specs.Prelude.{◌≡◌, ◌≢◌, ◌==◌, ◌≤◌, ◌^◌, ◌++◌, ℕ, All, IfOk, OnOk, OnErr, Ok, Err, Some, [], true, false};
ghost use Rattle.std.specs.Str.{chars};
ghost use Rattle.sds_value.specs.Names.{is_name_text};
ghost use Rattle.sds_first_spec.specs.Acts.{History};
ghost use Rattle.sds_first_spec.specs.Calls.{write_answer, write_acts, is_peer, route_answer, route_acts, load_answer_of, load_acts, offer_answer, acks_answer, acks_acts};
ghost use Rattle.sds_first_spec.specs.Kept.{writer_in};
ghost use Rattle.sds_first_spec.specs.Lanes.{rows_at};
ghost use Rattle.sds_first_spec.specs.Outcome.{is_whole_insert};
ghost use Rattle.sds_first_spec.specs.Shown.{tables_text};
ghost use Rattle.sds_first_spec.specs.Settled.{kept_number, all_ok};
ghost use Rattle.sds_value.specs.declared.row.DocRow.{DocRow};
ghost use Rattle.sds_first_spec.specs.One.{one, paired};
ghost use Rattle.sds_first_node.specs.NewRows.{ArePairRows};

use crate::acking::unknown_batch;
use crate::find::writer_place;
use crate::kept::Kept;
use crate::loading::read_doc_rows;
use crate::offering::{batch_at, make_docs, offered};
use crate::shown::put_table;
use crate::writing::read_own_rows;
use sds_base::{List, NoMemory};
use sds_types::{
    Ack, AckRefusal, LoadAnswer, NodeFault, PeerRefusal, Standing, TxRow, WriteRefusal, Written,
};
use sds_value::{DocRow, Peer};
use std::alloc::Global;

/// A node of one configuration with one peer. Contracts speak of what it keeps, by what a history leaves.
#[derive(Drop)]
pub struct Node {
    pub(crate) alloc: Global,
    pub(crate) kept: Kept,
}

impl Node {
    ghost use Rattle.sds_first_node.specs.Meaning.{kept_of, StandsFor, followed_by};

    /// A node before its first act, with another as its one peer.
    pub fn new(alloc: Global, me: Peer, other: Peer) -> Result<Node, NoMemory>
        ensures { IfOk result (λ node. StandsFor node (record { opening = paired me other; acts = [] })) }
    {
        Ok(Node {
            alloc,
            kept: Kept::new(alloc, me, other),
        })
    }

    /// Accepts a writer's numbered write. The number is to be one above the writer's last, the first being 1; the last
    /// number again is answered as before, and nothing is done. A refused write doesn't use its number.
    ///
    /// Refusals, in this order: more than 10,000 rows; a number that is 0 or below the last; one above the next; the
    /// first row whose key stands already, in the table or before it; a number that would pass 2^62.
    pub fn write(
        &mut self,
        writer: &str,
        number: u64,
        tx: &[TxRow],
    ) -> Result<Written, WriteRefusal>
        requires name { is_name_text (chars writer.now) ≡ true }
        requires rows { ArePairRows tx.now }
        ensures answer { result ≢ Err (WriteRefusal.Fault NodeFault.NoMemory) → result ≡ write_answer one (kept_of self.old) (chars writer.now) number tx.now }
        // The node then stands for what it stood for, and the act of the call.
        ensures stands { (h : History) → StandsFor self.old h → StandsFor self.new (followed_by h (write_acts result (chars writer.now) number tx.now)) }
        ensures refused { OnErr result (kept_of self.new ≡ kept_of self.old) }
    {
        if tx.len() > 10000 {
            return Err(WriteRefusal::TooManyRows);
        }
        if let Some(answer) = self.kept.judge_number(writer, number) {
            return answer;
        }
        let rows = read_own_rows(self.alloc, tx)?;
        let written = match self.kept.judge_rows(&rows) {
            Ok(written) => written,
            Err(refusal) => return Err(refusal),
        };
        self.kept.accept(self.alloc, writer, number, rows)?;
        Ok(written)
    }

    /// Cuts the changes since the last routing run into batches to the peer, and tells how many it made. Without such
    /// changes it answers 0, and nothing is done. Refused where a number would pass 2^62.
    pub fn route(&mut self) -> Result<u64, NodeFault>
        ensures answer { result ≢ Err NodeFault.NoMemory → result ≡ route_answer one (kept_of self.old) }
        // The node then stands for what it stood for, and the act of the call.
        ensures stands { (h : History) → StandsFor self.old h → StandsFor self.new (followed_by h (route_acts result (kept_of self.old))) }
        ensures refused { OnErr result (kept_of self.new ≡ kept_of self.old) }
    {
        if !self.kept.is_waiting() {
            return Ok(0);
        }
        let pieces = self.kept.cut(self.alloc)?;
        let made = match self.kept.add_batches(self.alloc, pieces) {
            Ok(made) => made,
            Err(fault) => return Err(fault),
        };
        Ok(made)
    }

    /// The numbers of the batches that the next message to a peer takes, from the channels named, or from all where
    /// none is: the first that aren't known to be loaded, up to one that is in error. Refused where there is no such peer.
    pub fn offer(&self, to: &str, channels: &[u32]) -> Result<List<u64>, PeerRefusal>
        requires { All (λ (channel : ℕ). channel ≡ 0) channels.now }
        ensures peer { is_peer (chars to.now) (kept_of self.now) ≡ false → result ≡ Err PeerRefusal.UnknownNode }
        ensures answer { result ≢ Err (PeerRefusal.Fault NodeFault.NoMemory) → result ≡ offer_answer one (kept_of self.now) (chars to.now) channels.now }
    {
        if !self.kept.is_peer(to) {
            return Err(PeerRefusal::UnknownNode);
        }
        Ok(offered(self.alloc, &self.kept.batches, to)?)
    }

    /// The rows of one of the node's batches, as a document carries them; none for a number that is no batch's.
    pub fn rows(&self, batch: u64) -> Result<List<DocRow>, NoMemory>
        ensures { IfOk result (λ docs. docs ≡ rows_at one (kept_of self.now) batch) }
    {
        match batch_at(&self.kept.batches, batch) {
            Some(kept) => make_docs(self.alloc, &self.kept.changes, kept.changes.inner()),
            None => Ok(List::new(self.alloc)),
        }
    }

    /// Loads a batch from a peer: inserts its rows, or where a row of the key stands updates it. A batch whose number
    /// isn't above the highest loaded from that peer was loaded before, and nothing is done.
    ///
    /// Refusals, in this order: no such peer; a number that would pass 2^62.
    pub fn load(
        &mut self,
        from: &str,
        channel: u32,
        batch: u64,
        rows: &[DocRow],
    ) -> Result<LoadAnswer, PeerRefusal>
        requires { channel ≡ 0 }
        ensures answer { result ≢ Err (PeerRefusal.Fault NodeFault.NoMemory) → result ≡ load_answer_of one (kept_of self.old) (chars from.now) channel batch rows.now }
        // The node then stands for what it stood for, and the act of the call, where each row is a whole insert.
        ensures stands { (h : History) → All (λ (doc : DocRow). is_whole_insert one doc ≡ true) rows.now → StandsFor self.old h
            → StandsFor self.new (followed_by h (load_acts result one (chars from.now) channel batch rows.now)) }
        ensures refused { OnErr result (kept_of self.new ≡ kept_of self.old) }
        ensures again { result ≡ Ok LoadAnswer.Again → kept_of self.new ≡ kept_of self.old }
    {
        if !self.kept.is_peer(from) {
            return Err(PeerRefusal::UnknownNode);
        }
        if self.kept.has_loaded(from, channel, batch) {
            return Ok(LoadAnswer::Again);
        }
        if !self.kept.may_count(0) {
            return Err(PeerRefusal::Fault(NodeFault::Counters));
        }
        let rows = read_doc_rows(self.alloc, rows)?;
        let place = self.kept.counts.acts + 1;
        self.kept.load_rows(self.alloc, from, batch, rows)?;
        Ok(LoadAnswer::Loaded { place })
    }

    /// Takes what a peer says of batches, and tells for how many it changed what is known. A batch that is loaded makes
    /// the lane's earlier ones loaded too, and stays so.
    ///
    /// Refusals, in this order: no such peer; the first number that is no batch to it; a number that would pass 2^62.
    pub fn take_acks(&mut self, from: &str, acks: &[Ack]) -> Result<u64, AckRefusal>
        ensures answer { result ≢ Err (AckRefusal.Fault NodeFault.NoMemory) → result ≡ acks_answer (kept_of self.old) (chars from.now) acks.now }
        // The node then stands for what it stood for, and the act of the call.
        ensures stands { (h : History) → StandsFor self.old h → StandsFor self.new (followed_by h (acks_acts result (chars from.now) acks.now)) }
        ensures refused { OnErr result (kept_of self.new ≡ kept_of self.old) }
    {
        if !self.kept.is_peer(from) {
            return Err(AckRefusal::UnknownNode);
        }
        if let Some(batch) = unknown_batch(&self.kept.batches, from, acks) {
            return Err(AckRefusal::UnknownBatch(batch));
        }
        self.kept.acknowledge(self.alloc, acks)
    }

    /// Writes the text of the tables behind `out`: for each table its name, and a line for each row in the order of the
    /// keys. Where memory is wanting, `out` stays as it was.
    pub fn put_tables(&self, out: &mut Vec<u8>) -> Result<(), NoMemory>
        ensures ok { OnOk result (out.new.items ≡ out.old.items ++ tables_text one (kept_of self.now).tables) }
        ensures err { OnErr result (out.new.items ≡ out.old.items) }
    {
        let mut text = Vec::new(self.alloc);
        put_table(self.alloc, &self.kept.tables, &mut text)?;
        out.extend_from_slice(&text)?;
        Ok(())
    }

    /// The number of a writer's last accepted write, or 0 without one. It takes no memory.
    pub fn last_number(&self, writer: &str) -> u64
        ensures { result ≡ kept_number (writer_in (chars writer.now) (kept_of self.now).writers) }
    {
        match writer_place(&self.kept.writers, writer) {
            Some(place) => self.kept.writers[place].number,
            None => 0,
        }
    }

    /// Whether every batch made is known to be loaded. It takes no memory.
    pub fn is_settled(&self) -> bool
        ensures { result ≡ all_ok (kept_of self.now).batches }
    {
        self.kept
            .batches
            .iter()
            .all(|batch| batch.standing == Standing::Acked)
    }
}
