//! The batches that a routing run makes of the changes that wait.
ghost use Rattle.std.specs.Prelude.{◌≡◌, ◌+◌, ◌<◌, ℕ, [], IfOk, map, nat_lt};
ghost use Rattle.std.specs.List.{All, filter, position};
ghost use Rattle.sds_types.specs.declared.peer.KeptPeer as keeping;
ghost use Rattle.sds_types.specs.declared.row.Change as captured;
ghost use Rattle.sds_trade.specs.rules.Named.{targets_of};
ghost use Rattle.sds_history.specs.history.Made.{next_batches, out_batch};
ghost use Rattle.sds_history.specs.history.SoundParts.{AscendByNumber, IsChange};
ghost use Rattle.sds_image.specs.Meaning.{meaning_of};
ghost use Rattle.sds_router.specs.Standing.{AreRowsOf};
ghost use Rattle.sds_commit.specs.Ends.{Fits};

use crate::standing::NodeRows;
use sds_base::{List, NoMemory, Twin};
use sds_batcher::run;
use sds_image::State;
use sds_router::targets;
use sds_rowvalues::no_name;
use sds_types::{Change, Config, KeptPeer, NewBatch, OutBatch, Standing};
use sds_value::Peer;
use std::alloc::Global;

/// The batches that a routing run makes of the changes that wait, with consecutive numbers after
/// the last batch.
pub(crate) fn new_batches(
    alloc: Global,
    config: &Config,
    state: &State,
) -> Result<Vec<OutBatch>, NoMemory>
    requires { Fits config.now state.now }
    ensures { IfOk result (λ batches. batches.items ≡ next_batches config.now
        (meaning_of state.now) (state.now.counts.last_batch + 1) []) }
{
    let peers = peers_of(alloc, state.peers.inner())?;
    let changes = unrouted(state);
    let targets = all_targets(alloc, config, state, changes, &peers)?;
    let made = run(
        alloc,
        config,
        changes,
        &targets,
        state.counts.last_batch + 1,
    )?;
    out_batches(alloc, &peers, made.inner())
}

/// The changes above the routed mark.
fn unrouted(state: &State) -> &[Change]
    requires { AscendByNumber (λ (change : captured.Change). change.id) state.now.changes }
    ensures { result.now ≡ filter (λ (change : captured.Change).
        nat_lt state.now.counts.routed change.id) state.now.changes }
{
    let changes = state.changes.inner().as_slice();
    match first_above(changes, state.counts.routed) {
        Some(first) => &changes[first..],
        None => &[],
    }
}

/// The place of the first change above a mark.
fn first_above(changes: &[Change], mark: u64) -> Option<usize>
    ensures { result ≡ position (λ (change : captured.Change). nat_lt mark change.id) changes.now }
{
    changes.iter().position(|change| mark < change.id)
}

/// The peers of a node, in their order.
fn peers_of(alloc: Global, kept: &[KeptPeer]) -> Result<Vec<Peer>, NoMemory>
    ensures { IfOk result (λ peers. peers.items
        ≡ map (λ (kept : keeping.KeptPeer). kept.peer) kept.now) }
{
    let mut peers = Vec::new(alloc);
    for one in kept {
        peers.push(one.peer.twin(alloc)?)?;
    }
    Ok(peers)
}

/// The places of the peers that each of some changes is for, as the tables stand now.
fn all_targets(
    alloc: Global,
    config: &Config,
    state: &State,
    changes: &[Change],
    peers: &[Peer],
) -> Result<Vec<List<u32>>, NoMemory>
    requires tables { AreRowsOf config.now.tables state.now.tables.rows }
    requires changes { All (IsChange config.now) changes.now }
    ensures { IfOk result (λ targets. targets.items
        ≡ map (targets_of config.now state.now.me state.now.tables.rows peers.now) changes.now) }
{
    let rows = NodeRows {
        tables: &state.tables,
    };
    let mut all = Vec::new(alloc);
    for change in changes {
        all.push(targets(alloc, config, &state.me, &rows, change, peers)?)?;
    }
    Ok(all)
}

/// Batches to the peers at their places.
fn out_batches(alloc: Global, peers: &[Peer], made: &[NewBatch]) -> Result<Vec<OutBatch>, NoMemory>
    ensures { IfOk result (λ batches. batches.items ≡ map (out_batch peers.now) made.now) }
{
    let mut batches = Vec::new(alloc);
    for batch in made {
        batches.push(out_batch(alloc, peers, batch)?)?;
    }
    Ok(batches)
}

/// A batch to the peer at its place.
fn out_batch(alloc: Global, peers: &[Peer], batch: &NewBatch) -> Result<OutBatch, NoMemory>
    ensures { IfOk result (λ made. made ≡ out_batch peers.now batch.now) }
{
    let peer = match peers.get(batch.peer as usize) {
        Some(peer) => peer.id.twin(alloc)?,
        None => no_name(alloc),
    };
    Ok(OutBatch {
        id: batch.id,
        peer,
        channel: batch.channel,
        standing: Standing::New,
        changes: batch.changes.twin(alloc)?,
    })
}
