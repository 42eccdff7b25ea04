ghost use Rattle.std.specs.Prelude.{◌≡◌, ◌≢◌, ◌==◌, if◌then◌else◌, Ok, Err, None, ◌≤◌, ℕ, List, ◌+◌, true, IfOk, OnOk, OnErr, length, [], ◌∷◌, vec_len, vec_capacity, MatchOption, nat_le};
ghost use Rattle.std.specs.Str.{chars};
ghost use Rattle.sds_first_spec.specs.Acts.Act.{Wrote};
ghost use Rattle.sds_first_spec.specs.Calls.{may_add, may_count, written_by, write_acts, is_peer, acks_by};
ghost use Rattle.sds_first_spec.specs.Kept.{highest_in};
ghost use Rattle.sds_first_spec.specs.One.{paired};
ghost use Rattle.sds_types.specs.declared.tx_row.TxRow.{TxRow};
ghost use Rattle.sds_first_node.specs.NewRows.{first_taken, captured_at, count_at};
ghost use Rattle.sds_first_node.specs.Loaded.{taken_in};
ghost use Rattle.sds_first_node.specs.Numbers.{IsNextNumber, IsNumberAnswer};
ghost use Rattle.sds_types.specs.declared.ack.Ack.{Ack};
ghost use Rattle.sds_first_node.specs.Standings.{standings_of};
ghost use Rattle.sds_first_node.specs.Routed.{is_waiting, next_ids, batches_by};
ghost use Rattle.sds_first_node.specs.Steps.{accepted, routed, with_batches, acked};
ghost use Rattle.std.specs.List.{list_any};
ghost use Rattle.sds_first_spec.specs.Acks.{changed_by};

use crate::acking::{count_changed, set_standings, standings_after};
use crate::find::{highest_in, is_corp, may_add, put_lane, put_writer};
use crate::loading::put_rows;
use crate::routing::{CHANNEL, cut_changes, is_waiting, number_batches};
use crate::writing::{first_taken, judge_number, number_rows};
use sds_base::{List, NoMemory, Txt};
use sds_types::{
    Ack, AckRefusal, Change, Counts, KeptPeer, LaneIn, NodeFault, OutBatch, Standing, TableRow,
    WriteRefusal, WriterLast, Written,
};
use sds_value::Peer;
use std::alloc::Global;
use std::collections::VecDeque;
use std::marker::Model;

/// What a node keeps: the lists of its state, which is what contracts see.
#[derive(Drop)]
pub struct Kept {
    pub(crate) me: Peer,
    pub(crate) counts: Counts,
    /// The one peer.
    pub(crate) other: KeptPeer,
    pub(crate) writers: Vec<WriterLast>,
    pub(crate) tables: Vec<TableRow>,
    pub(crate) changes: Vec<Change>,
    pub(crate) batches: Vec<OutBatch>,
    pub(crate) lanes: Vec<LaneIn>,
}

impl Model for Kept {
    ghost use Rattle.std.specs.Prelude.{[], ◌∷◌};
    ghost use Rattle.sds_first_spec.specs.Acts.{State};

    ghost Value = { State };

    ghost view = { λ k. record {
      me = k.me;
      counts = k.counts;
      peers = k.other ∷ [];
      writers = k.writers.items;
      tables = k.tables.items;
      changes = k.changes.items;
      batches = k.batches.items;
      lanes = k.lanes.items;
    } };
}

impl Kept {
    /// Of a node before its first act, with one peer.
    pub(crate) fn new(alloc: Global, me: Peer, other: Peer) -> Kept
        ensures { result ≡ paired me other }
    {
        Kept {
            me,
            counts: Counts {
                acts: 0,
                last_change: 0,
                last_batch: 0,
                last_tx: 0,
                routed: 0,
            },
            other: KeptPeer {
                peer: other,
                token: Txt::of(String::new(alloc)),
                child: false,
            },
            writers: Vec::new(alloc),
            tables: Vec::new(alloc),
            changes: Vec::new(alloc),
            batches: Vec::new(alloc),
            lanes: Vec::new(alloc),
        }
    }

    /// What a write is answered by its number alone, or none where the number is the writer's next.
    pub(crate) fn judge_number(
        &self,
        writer: &str,
        number: u64,
    ) -> Option<Result<Written, WriteRefusal>>
        ensures { MatchOption result (IsNextNumber self.now (chars writer.now) number) (IsNumberAnswer self.now (chars writer.now) number) }
    {
        judge_number(&self.writers, writer, number)
    }

    /// What a write is answered whose number is the next one, by the rows that it would add.
    pub(crate) fn judge_rows(&self, rows: &[TableRow]) -> Result<Written, WriteRefusal>
        requires { length rows.now ≤ 10000 }
        ensures answer { result ≡ written_by (first_taken 1 self.now.tables rows.now) self.now (count_at self.now rows.now) }
        ensures ok { OnOk result (may_count self.now (count_at self.now rows.now) ≡ true) }
        ensures done { OnOk result ((writer : List ℕ) (number : ℕ) (tx : List TxRow) → write_acts result writer number tx ≡ Wrote writer number tx ∷ []) }
    {
        if let Some((row, rule)) = first_taken(&self.tables, rows) {
            return Err(WriteRefusal::Broken { row, rule });
        }
        let count = if is_corp(&self.me.group) {
            rows.len()
        } else {
            0
        };
        if !self.may_count(count as u64) {
            return Err(WriteRefusal::Fault(NodeFault::Counters));
        }
        Ok(Written::Done {
            first: self.counts.last_change + 1,
            count: count as u32,
        })
    }

    /// Whether an act may be made that takes so many change numbers in a transaction of its own.
    pub(crate) fn may_count(&self, changes: u64) -> bool
        ensures { result ≡ may_count self.now changes }
    {
        may_add(self.counts.acts, 1)
            && may_add(self.counts.last_tx, 1)
            && may_add(self.counts.last_change, changes)
    }

    /// The changes that these rows become.
    fn capture(&self, alloc: Global, rows: &[TableRow]) -> Result<Vec<Change>, NoMemory>
        requires few { length rows.now ≤ 10000 }
        requires counters { may_count self.now (count_at self.now rows.now) ≡ true }
        ensures items { IfOk result (λ changes. changes.items ≡ captured_at self.now rows.now) }
        ensures few { IfOk result (λ changes. vec_len changes ≤ 10000) }
    {
        if is_corp(&self.me.group) {
            number_rows(
                alloc,
                self.counts.last_change + 1,
                self.counts.last_tx + 1,
                rows,
            )
        } else {
            Ok(Vec::new(alloc))
        }
    }

    /// Adds the rows of a write, and its changes. Where memory is wanting, nothing changes.
    pub(crate) fn accept(
        &mut self,
        alloc: Global,
        writer: &str,
        number: u64,
        mut rows: Vec<TableRow>,
    ) -> Result<(), NoMemory>
        requires few { length rows.items ≤ 10000 }
        requires counters { may_count self.old (count_at self.old rows.items) ≡ true }
        ensures ok { OnOk result (self.new ≡ accepted self.old (chars writer.now) number rows.items (captured_at self.old rows.items)) }
        ensures err { OnErr result (self.new ≡ self.old) }
    {
        let mut changes = self.capture(alloc, &rows)?;
        let last = WriterLast {
            writer: Txt::copied(alloc, writer)?,
            number,
            first: self.counts.last_change + 1,
            count: changes.len() as u32,
        };
        self.tables.reserve(rows.len())?;
        self.changes.reserve(changes.len())?;
        self.writers.reserve(1)?;
        self.counts.acts += 1;
        self.counts.last_tx += 1;
        self.counts.last_change += changes.len() as u64;
        self.tables.append(&mut rows).unwrap();
        self.changes.append(&mut changes).unwrap();
        put_writer(&mut self.writers, last);
        Ok(())
    }

    /// Whether a peer has this name.
    pub(crate) fn is_peer(&self, name: &str) -> bool
        ensures { result ≡ is_peer (chars name.now) self.now }
    {
        self.other.peer.id.is(name)
    }

    /// Whether a change waits for a routing run.
    pub(crate) fn is_waiting(&self) -> bool
        ensures { result ≡ list_any (is_waiting self.now.counts.routed) self.now.changes }
    {
        is_waiting(&self.changes, self.counts.routed)
    }

    /// The pieces that a routing run makes.
    pub(crate) fn cut(&self, alloc: Global) -> Result<VecDeque<List<u64>>, NoMemory>
        ensures { IfOk result (λ pieces. pieces.items ≡ next_ids self.now) }
    {
        let pieces = cut_changes(
            alloc,
            &self.me,
            &self.other.peer,
            &self.changes,
            self.counts.routed,
        )?;
        Ok(pieces)
    }

    /// Makes the batches of these pieces. Where memory is wanting or a number would pass its end, nothing changes.
    pub(crate) fn add_batches(
        &mut self,
        alloc: Global,
        pieces: VecDeque<List<u64>>,
    ) -> Result<u64, NodeFault>
        ensures answer { result ≢ Err NodeFault.NoMemory → result ≡ batches_by self.old (length pieces.items) }
        ensures ok { OnOk result (pieces.items ≡ next_ids self.old → self.new ≡ routed self.old) }
        ensures err { OnErr result (self.new ≡ self.old) }
    {
        let count = pieces.len() as u64;
        if !may_add(self.counts.acts, 1) || !may_add(self.counts.last_batch, count) {
            return Err(NodeFault::Counters);
        }
        let first = self.counts.last_batch + 1;
        let batches = number_batches(alloc, &self.other.peer.id, first, pieces)?;
        self.put_batches(batches, count)?;
        Ok(count)
    }

    /// Puts so many new batches behind the others. Where memory is wanting, nothing changes.
    fn put_batches(&mut self, mut batches: Vec<OutBatch>, count: u64) -> Result<(), NoMemory>
        requires acts { may_add self.old.counts.acts 1 ≡ true }
        requires batches { may_add self.old.counts.last_batch count ≡ true }
        ensures ok { OnOk result (self.new ≡ with_batches self.old count batches.items) }
        ensures err { OnErr result (self.new ≡ self.old) }
    {
        self.batches.reserve(batches.len())?;
        self.batches.append(&mut batches).unwrap();
        self.counts.acts += 1;
        self.counts.last_batch += count;
        self.counts.routed = self.counts.last_change;
        Ok(())
    }

    /// Whether a batch from a peer was loaded before: its number isn't above the lane's highest.
    pub(crate) fn has_loaded(&self, from: &str, channel: u32, batch: u64) -> bool
        ensures { result ≡ nat_le batch (highest_in (chars from.now) channel self.now.lanes) }
    {
        batch <= highest_in(&self.lanes, from, channel)
    }

    /// Takes the rows of a batch, where an act may be made. Where memory is wanting, nothing changes.
    pub(crate) fn load_rows(
        &mut self,
        alloc: Global,
        from: &str,
        batch: u64,
        rows: VecDeque<TableRow>,
    ) -> Result<(), NoMemory>
        requires { may_count self.old 0 ≡ true }
        ensures ok { OnOk result (self.new ≡ taken_in self.old (chars from.now) batch rows.items) }
        ensures err { OnErr result (self.new ≡ self.old) }
    {
        let lane = LaneIn {
            peer: Txt::copied(alloc, from)?,
            channel: CHANNEL,
            highest: batch,
            ignored: Some(false),
            error: None,
        };
        self.tables.reserve(rows.len())?;
        self.lanes.reserve(1)?;
        self.counts.acts += 1;
        self.counts.last_tx += 1;
        put_rows(alloc, &mut self.tables, rows);
        put_lane(&mut self.lanes, lane);
        Ok(())
    }

    /// What is known of each batch after acks, and for how many batches that is something else.
    fn judge_acks(&self, alloc: Global, acks: &[Ack]) -> Result<(Vec<Standing>, u64), NoMemory>
        ensures items { IfOk result (λ judged. judged.0.items ≡ standings_of acks.now self.now.batches self.now.batches) }
        ensures len { IfOk result (λ judged. length judged.0.items ≡ length self.now.batches) }
        ensures changed { IfOk result (λ judged. judged.1 ≡ changed_by acks.now self.now.batches) }
    {
        let standings = standings_after(alloc, &self.batches, acks)?;
        let changed = count_changed(&self.batches, &standings);
        Ok((standings, changed))
    }

    /// Gives each batch what is known of it after acks.
    fn set_known(&mut self, standings: &[Standing])
        requires len { length standings.now ≡ length self.old.batches }
        requires acts { may_add self.old.counts.acts 1 ≡ true }
        ensures { (acks : List Ack) → standings.now ≡ standings_of acks self.old.batches self.old.batches → self.new ≡ acked self.old acks }
    {
        self.counts.acts += 1;
        set_standings(&mut self.batches, standings);
    }

    /// Takes acks of batches to a peer, and tells how many batches they changed.
    pub(crate) fn acknowledge(&mut self, alloc: Global, acks: &[Ack]) -> Result<u64, AckRefusal>
        ensures answer { result ≢ Err (AckRefusal.Fault NodeFault.NoMemory) → result ≡ acks_by None self.old (changed_by acks.now self.old.batches) }
        ensures ok { IfOk result (λ changed. self.new ≡ (if changed == 0 then self.old else acked self.old acks.now)) }
        ensures err { OnErr result (self.new ≡ self.old) }
    {
        let (standings, changed) = self.judge_acks(alloc, acks)?;
        if changed == 0 {
            return Ok(0);
        }
        if !may_add(self.counts.acts, 1) {
            return Err(AckRefusal::Fault(NodeFault::Counters));
        }
        self.set_known(&standings);
        Ok(changed)
    }
}
