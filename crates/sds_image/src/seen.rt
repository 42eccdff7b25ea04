//! What the parts that records tell are judged by.
ghost use Rattle.std.specs.Prelude.{◌≡◌, ◌≤◌, ◌==◌, ℕ, length, map, unwrap_or, IfOk};
ghost use Rattle.std.specs.BTreeSet.{contains};
ghost use Rattle.std.specs.List.{filter_map, list_any, list_all};
ghost use Rattle.std.specs.Ordering.{nat_cmp};
ghost use Rattle.std.specs.Str.{bytes_eq, encode_utf8_all};
ghost use Rattle.sds_types.specs.declared.row.Change as kept;
ghost use Rattle.sds_value.specs.declared.row.Peer as node;
ghost use Rattle.sds_trade.specs.rules.Tables.{Ascend};
ghost use Rattle.sds_history.specs.history.Acts.{State};
ghost use Rattle.sds_history.specs.history.SoundStates as sound;
ghost use Rattle.sds_history.specs.history.States.{zero_counts};
ghost use Rattle.sds_image.specs.PartsSeen.{IsSeen};
ghost use Rattle.sds_image.specs.Reading as told;

use crate::Told;
use sds_base::{NoMemory, Twin, Txt};
use sds_rows::put_row;
use sds_types::{Config, Counts, KeptPeer, Stage, TableRow};
use sds_value::TableDef;
use std::alloc::Global;
use std::collections::BTreeSet;

/// What parts are judged by: the node's counters, its peers, the numbers of the changes that are
/// kept, and all rows in their order.
#[derive(Drop)]
pub(crate) struct Seen<'a> {
    pub(crate) counts: Counts,
    pub(crate) peers: Vec<&'a KeptPeer>,
    pub(crate) changes: BTreeSet<u64>,
    pub(crate) rows: Vec<TableRow>,
}

/// The counters that parts tell, those of no act where none does.
fn counts_in(parts: &[Told]) -> Counts
    ensures { result ≡ unwrap_or (told.first_told told.counts_of_part parts.now) zero_counts }
{
    for part in parts {
        if let Told::Counts(counts) = part {
            return *counts;
        }
    }
    Counts {
        acts: 0,
        last_change: 0,
        last_batch: 0,
        last_tx: 0,
        routed: 0,
    }
}

/// The peers among parts.
fn peers_in(alloc: Global, parts: &[Told]) -> Result<Vec<&KeptPeer>, NoMemory>
    ensures { IfOk result (λ found. map (λ kept. kept.now) found.items
        ≡ filter_map told.peer_of_part parts.now) }
{
    let mut found = Vec::new(alloc);
    for part in parts {
        if let Told::Peer(kept) = part {
            found.push(kept)?;
        }
    }
    Ok(found)
}

/// The numbers of the changes among parts.
fn numbers_in(alloc: Global, parts: &[Told]) -> Result<BTreeSet<u64>, NoMemory>
    ensures { IfOk result (λ found. (number : ℕ) → contains nat_cmp found number
        ≡ list_any (λ (change : kept.Change). change.id == number)
        (filter_map told.change_of_part parts.now)) }
{
    let mut found = BTreeSet::new(alloc);
    for part in parts {
        if let Told::Change(change) = part {
            found.insert(change.id)?;
        }
    }
    Ok(found)
}

/// Copies of the rows among parts, in their order.
fn rows_in(alloc: Global, defs: &[TableDef], parts: &[Told]) -> Result<Vec<TableRow>, NoMemory>
    ensures rows { IfOk result (λ found. found.items
        ≡ told.sorted_rows defs.now (filter_map told.row_of_part parts.now)) }
    ensures order { IfOk result (λ found. Ascend defs.now found.items) }
    ensures few { IfOk result (λ found. length found.items
        ≤ length (filter_map told.row_of_part parts.now)) }
{
    let mut found = Vec::new(alloc);
    let mut place = parts.len();
    while place > 0 {
        place -= 1;
        if let Told::Row(row) = &parts[place] {
            put_row(defs, &mut found, copy_of(alloc, row)?)?;
        }
    }
    Ok(found)
}

/// A copy of a row of a table.
fn copy_of(alloc: Global, row: &TableRow) -> Result<TableRow, NoMemory>
    ensures { IfOk result (λ copy. copy ≡ row.now) }
{
    Ok(TableRow {
        table: row.table,
        row: row.row.twin(alloc)?,
    })
}

impl<'a> Seen<'a> {
    /// What these parts are judged by.
    pub(crate) fn of(
        alloc: Global,
        config: &Config,
        parts: &'a [Told],
    ) -> Result<Seen<'a>, NoMemory>
        ensures seen { IfOk result (λ seen. (me : node.Peer)
            → IsSeen (told.state_with config.now parts.now me) seen) }
        ensures order { IfOk result (λ seen. Ascend config.now.tables seen.rows.items) }
        ensures few { IfOk result (λ seen. length seen.rows.items
            ≤ length (filter_map told.row_of_part parts.now)) }
    {
        Ok(Seen {
            counts: counts_in(parts),
            peers: peers_in(alloc, parts)?,
            changes: numbers_in(alloc, parts)?,
            rows: rows_in(alloc, config.tables.inner(), parts)?,
        })
    }

    /// The rows.
    pub(crate) fn into_rows(self) -> Vec<TableRow>
        ensures { result ≡ self.entry.rows }
    {
        self.rows
    }

    /// Whether a change of a number is kept.
    fn is_kept(&self, number: u64) -> bool
        ensures { result ≡ contains nat_cmp self.now.changes number }
    {
        self.changes.contains(&number)
    }

    /// Whether the numbers of kept changes have all these.
    fn has_all(&self, numbers: &[u64]) -> bool
        ensures { result ≡ list_all (contains nat_cmp self.now.changes) numbers.now }
    {
        numbers.iter().all(|number| self.is_kept(*number))
    }

    /// Whether changes of all these numbers are kept.
    pub(crate) fn are_kept(&self, numbers: &[u64]) -> bool
        ensures { (state : State) → IsSeen state self.now
            → result ≡ list_all (sound.is_kept state) numbers.now }
    {
        self.has_all(numbers)
    }

    /// Whether the changes after the routed mark, up to the last one, are kept.
    pub(crate) fn has_unrouted(&self, counts: &Counts) -> bool
        ensures { (state : State) → IsSeen state self.now
            → result ≡ list_all (sound.is_kept state) (sound.unrouted_numbers counts.now) }
    {
        for number in counts.routed..counts.last_change {
            if !self.is_kept(number + 1) {
                return false;
            }
        }
        true
    }

    /// Whether a node of an id is a peer.
    pub(crate) fn has_peer(&self, id: &Txt) -> bool
        ensures { (state : State) → IsSeen state self.now
            → result ≡ sound.is_peer_of state id.now }
    {
        has_id(&self.peers, id)
    }

    /// Whether the node that an opening went to is a peer.
    pub(crate) fn has_stage(&self, stage: &Stage) -> bool
        ensures { (state : State) → IsSeen state self.now
            → result ≡ sound.stage_stands state stage.now }
    {
        match stage {
            Stage::Waiting => true,
            Stage::Given(node) => self.has_peer(node),
            Stage::Closed(node) => self.has_peer(node),
        }
    }
}

/// Whether one of some peers has an id.
fn has_id(peers: &[&KeptPeer], id: &Txt) -> bool
    ensures { result ≡ list_any (λ kept. bytes_eq (encode_utf8_all kept.now.peer.id)
        (encode_utf8_all id.now)) peers.now }
{
    peers.iter().any(|kept| has_bytes(&kept.peer.id, id))
}

/// Whether two names have the same bytes.
fn has_bytes(name: &Txt, other: &Txt) -> bool
    ensures { result ≡ bytes_eq (encode_utf8_all name.now) (encode_utf8_all other.now) }
{
    name.as_str() == other.as_str()
}
