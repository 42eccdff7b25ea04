// A routing run: the changes of the lane to the peer, and the batches that they become.
ghost use Rattle.std.specs.Prelude.{◌≡◌, ◌<◌, ◌≤◌, ◌+◌, ◌^◌, ◌++◌, ◌∷◌, ◌&&◌, [], List, IfOk, OnOk, OnErr, length};
ghost use Rattle.std.specs.List.{list_any};
ghost use Rattle.std.specs.VecDeque.{deque_len};
ghost use Rattle.sds_types.specs.declared.row.TableRow.{TableRow};
ghost use Rattle.sds_first_spec.specs.Routing.{came_from, is_named};
ghost use Rattle.sds_first_spec.specs.One.{one};
ghost use Rattle.sds_first_node.specs.Routed.{is_waiting, is_in_lane, lane_of, last_ids, ends_before, cut_on, out_batches};

use crate::find::{is_corp, is_store};
use crate::rows::TABLE;
use sds_base::{List, NoMemory, Twin, Txt};
use sds_types::{Change, OutBatch, Standing};
use sds_value::Peer;
use std::alloc::Global;
use std::collections::VecDeque;

/// The place of the one channel.
pub(crate) const CHANNEL: u32 = 0;

/// How many changes make a batch full.
const FULL: usize = 10000;

/// Whether a change came from a peer.
fn came_from(change: &Change, peer: &Peer) -> bool
    ensures { result ≡ came_from change.now.source peer.now }
{
    match &change.source {
        None => false,
        Some(source) => *source == peer.id,
    }
}

/// Whether a change at a node goes to a peer.
fn is_named(me: &Peer, change: &Change, peer: &Peer) -> bool
    ensures { result ≡ is_named one me.now [] change.now peer.now }
{
    if peer.id == me.id || change.table != TABLE {
        return false;
    }
    is_corp(&me.group) && is_store(&peer.group) && !came_from(change, peer)
}

/// Whether a change waits for a routing run and is of the lane to a peer.
fn is_cut(me: &Peer, peer: &Peer, routed: u64, change: &Change) -> bool
    ensures { result ≡ (is_waiting routed change.now && is_in_lane me.now peer.now change.now) }
{
    change.id > routed && change.channel == CHANNEL && is_named(me, change, peer)
}

/// Whether a piece ends before a change: it is full, and the change is of another transaction than its last.
fn ends_before(len: usize, tx: u64, last: u64) -> bool
    ensures { result ≡ ends_before 10000 len tx last }
{
    len >= FULL && tx != last
}

/// A piece of one change.
fn begun(alloc: Global, id: u64) -> Result<Vec<u64>, NoMemory>
    ensures { IfOk result (λ piece. piece.items ≡ id ∷ []) }
{
    let mut piece = Vec::new(alloc);
    piece.push(id)?;
    Ok(piece)
}

/// The pieces with a last one, unless it is empty.
fn ended(mut pieces: VecDeque<List<u64>>, piece: Vec<u64>) -> Result<VecDeque<List<u64>>, NoMemory>
    ensures { IfOk result (λ all. all.items ≡ pieces.items ++ last_ids piece.items) }
{
    if piece.is_empty() {
        return Ok(pieces);
    }
    pieces.push_back(List::of(piece))?;
    Ok(pieces)
}

/// The numbers of the lane's changes above the routed mark, cut where a transaction ends and the piece is full.
pub(crate) fn cut_changes(
    alloc: Global,
    me: &Peer,
    peer: &Peer,
    changes: &[Change],
    routed: u64,
) -> Result<VecDeque<List<u64>>, NoMemory>
    ensures { IfOk result (λ pieces. pieces.items ≡ cut_on 10000 [] 0 (lane_of me.now peer.now routed changes.now)) }
{
    let mut pieces = VecDeque::new(alloc);
    let mut piece = Vec::new(alloc);
    let mut last_tx = 0;
    for change in changes {
        if !is_cut(me, peer, routed, change) {
            continue;
        }
        if ends_before(piece.len(), change.tx, last_tx) {
            pieces.push_back(List::of(piece))?;
            piece = begun(alloc, change.id)?;
            last_tx = change.tx;
            continue;
        }
        piece.push(change.id)?;
        last_tx = change.tx;
    }
    ended(pieces, piece)
}

/// The batches of these pieces, with consecutive numbers from the first on.
pub(crate) fn number_batches(
    alloc: Global,
    peer: &Txt,
    first: u64,
    mut pieces: VecDeque<List<u64>>,
) -> Result<Vec<OutBatch>, NoMemory>
    requires { first + deque_len pieces < 2 ^ 63 }
    ensures { IfOk result (λ batches. batches.items ≡ out_batches first peer.now pieces.items) }
{
    let mut batches = Vec::new(alloc);
    let mut id = first;
    while let Some(changes) = pieces.pop_front() {
        batches.push(OutBatch {
            id,
            peer: peer.twin(alloc)?,
            channel: CHANNEL,
            standing: Standing::New,
            changes,
        })?;
        id += 1;
    }
    Ok(batches)
}

/// Whether a change waits for a routing run.
pub(crate) fn is_waiting(changes: &[Change], routed: u64) -> bool
    ensures { result ≡ list_any (is_waiting routed) changes.now }
{
    changes.iter().any(|change| change.id > routed)
}
