//! Peers that a node keeps: nodes that register here, and nodes that it joins.
ghost use Rattle.std.specs.Prelude.{◌≡◌, ◌++◌, ◌∷◌, IfOk, OnErr, OnOk, Err, is_some, map};
ghost use Rattle.std.specs.Str.{chars};
ghost use Rattle.sds_history.specs.history.Acts.Act.{Joined};
ghost use Rattle.sds_history.specs.history.Joins.{join_act, join_answer};
ghost use Rattle.sds_history.specs.history.Openings.{given_if, opening_key};
ghost use Rattle.sds_history.specs.history.Orders.{with_item};
ghost use Rattle.sds_history.specs.history.Records.{opening_record, peer_record};
ghost use Rattle.sds_history.specs.history.Peers.{kept_peer, peer_key};
ghost use Rattle.sds_history.specs.history.Registrations.{own_register_answer};
ghost use Rattle.sds_history.specs.history.Registrations.{register_act, register_answer};
ghost use Rattle.sds_history.specs.history.SoundParts.{AscendBy};
ghost use Rattle.sds_image.specs.Meaning.{meaning_of};
ghost use Rattle.sds_imagelaws.specs.Edits.{new_openings, puts_of};
ghost use Rattle.sds_records.specs.Parts.{put_edit};
ghost use Rattle.sds_acts.specs.Counting.{after_act};
ghost use Rattle.sds_acts.specs.Ending.{EndsWith};
ghost use Rattle.sds_acts.specs.Parts.{counts_put, given_openings, kept_with_token};
ghost use Rattle.sds_commit.specs.Commits.{Commits};
ghost use Rattle.sds_commit.specs.Ends.{Ends, Fits, HasFailed, LacksMemory, Lasts, kept_with};

use crate::counters::next_counts;
use crate::room::make_room;
use sds_base::{List, NoMemory, Twin, Txt};
use sds_commit::{Uncommitted, commit, push_put};
use sds_image::{Part, State};
use sds_outside::{Edit, Keeper};
use sds_registry::{give_opening, judge_join, judge_registration, kept_peer, opening_of, put_peer};
use sds_types::{Config, Counts, KeptPeer, NodeFault, Opening, RegRefusal, Stage};
use sds_value::Peer;
use std::alloc::Global;
use std::mem;

/// Registers a node that asks to be (the SymmetricDS guide's chapter on registration): keeps it as
/// a peer, gives the opening of its group and external id to it, and returns the opening's token.
/// A node that is registered already gets the same token again, until it has shown it.
pub fn register<K: Keeper>(
    alloc: Global,
    config: &Config,
    state: &mut State,
    keeper: &mut K,
    asks: &Peer,
) -> Result<Txt, RegRefusal>
    requires state { Fits config.now state.old }
    requires open { K.is_open keeper.old }
    ensures ends { Ends config.now (kept_with state.old (K.keeping keeper.old))
        (kept_with state.new (K.keeping keeper.new))
        (register_act config.now (meaning_of state.old) asks.now) RegRefusal.Fault
        (register_answer config.now (meaning_of state.old) asks.now) result }
    ensures tables { state.new.tables ≡ state.old.tables }
    ensures open { (HasFailed RegRefusal.Fault result → ⊥) → K.is_open keeper.new }
    ensures lasts { Lasts (K.damage keeper.old) (K.damage keeper.new)
        (K.faults keeper.old) (K.faults keeper.new) (HasFailed RegRefusal.Fault result) }
{
    let token = given_token(alloc, state, asks)?;
    if is_peer(state, asks) {
        return Ok(token);
    }
    let Some(counts) = next_counts(state.counts) else {
        return Err(RegRefusal::Fault(NodeFault::Counters));
    };
    keep(
        alloc,
        config,
        state,
        keeper,
        asks,
        token.as_str(),
        true,
        counts,
    )?;
    Ok(token)
}

/// Keeps a node that this one registered at, or is to, as a peer with this token. Where it is kept
/// already, nothing changes.
///
/// Refused where no link joins its group and the node's, where its id is the node's, or a peer's
/// with another group, external id or token, and where it isn't a peer yet and no further one may
/// be kept.
pub fn join<K: Keeper>(
    alloc: Global,
    config: &Config,
    state: &mut State,
    keeper: &mut K,
    other: &Peer,
    token: &str,
) -> Result<(), RegRefusal>
    requires state { Fits config.now state.old }
    requires open { K.is_open keeper.old }
    ensures ends { Ends config.now (kept_with state.old (K.keeping keeper.old))
        (kept_with state.new (K.keeping keeper.new))
        (join_act config.now (meaning_of state.old) other.now (chars token.now)) RegRefusal.Fault
        (join_answer config.now (meaning_of state.old) other.now (chars token.now)) result }
    ensures tables { state.new.tables ≡ state.old.tables }
    ensures open { (HasFailed RegRefusal.Fault result → ⊥) → K.is_open keeper.new }
    ensures lasts { Lasts (K.damage keeper.old) (K.damage keeper.new)
        (K.faults keeper.old) (K.faults keeper.new) (HasFailed RegRefusal.Fault result) }
{
    judge_join(config, state, other, token)?;
    if is_peer(state, other) {
        return Ok(());
    }
    let Some(counts) = next_counts(state.counts) else {
        return Err(RegRefusal::Fault(NodeFault::Counters));
    };
    keep(alloc, config, state, keeper, other, token, false, counts)?;
    Ok(())
}

/// The token of the opening that a node asks for, copied.
fn given_token(alloc: Global, state: &State, asks: &Peer) -> Result<Txt, RegRefusal>
    ensures { (LacksMemory RegRefusal.Fault result → ⊥)
        → result ≡ own_register_answer (meaning_of state.now) asks.now }
{
    let token = judge_registration(state, asks)?;
    match token.twin(alloc) {
        Ok(token) => Ok(token),
        Err(NoMemory) => Err(RegRefusal::Fault(NodeFault::NoMemory)),
    }
}

/// Whether a node is kept as a peer.
fn is_peer(state: &State, node: &Peer) -> bool
    ensures { result ≡ is_some (kept_peer state.now.peers node.now.id) }
{
    kept_peer(state.peers.inner(), node.id.as_str()).is_some()
}

/// Keeps a node as a peer, and gives the opening of a child to it, after which the counters are
/// these.
fn keep<K: Keeper>(
    alloc: Global,
    config: &Config,
    state: &mut State,
    keeper: &mut K,
    peer: &Peer,
    token: &str,
    child: bool,
    counts: Counts,
) -> Result<(), Uncommitted>
    requires order { (AscendBy peer_key state.old.peers)
        × (AscendBy opening_key state.old.openings) }
    requires counts { counts ≡ after_act state.old.counts }
    requires open { K.is_open keeper.old }
    ensures ends { EndsWith config.now (kept_with state.old (K.keeping keeper.old))
        (kept_with state.new (K.keeping keeper.new))
        (Joined (kept_with_token peer.now (chars token.now) child)) result }
    ensures tables { state.new.tables ≡ state.old.tables }
    ensures open { (result ≡ Err Uncommitted.Failed → ⊥) → K.is_open keeper.new }
    ensures lasts { Lasts (K.damage keeper.old) (K.damage keeper.new)
        (K.faults keeper.old) (K.faults keeper.new) (result ≡ Err Uncommitted.Failed) }
{
    let node = peer.id.twin(alloc)?;
    let kept = new_peer(alloc, peer, token, child)?;
    let edits = joining_edits(alloc, config, &kept, state.openings.inner(), &counts)?;
    keep_peer(alloc, state, keeper, &edits, kept)?;
    give(alloc, state, peer, node, child);
    state.counts = counts;
    Ok(())
}

/// Commits the edits of an act, and then puts its peer in.
fn keep_peer<K: Keeper>(
    alloc: Global,
    state: &mut State,
    keeper: &mut K,
    edits: &[Edit],
    kept: KeptPeer,
) -> Result<(), Uncommitted>
    requires order { AscendBy peer_key state.old.peers }
    requires open { K.is_open keeper.old }
    ensures told { Commits edits.now (K.keeping keeper.old) (K.keeping keeper.new) result }
    ensures ok { OnOk result
        (state.new ≡ record state.old { peers = with_item peer_key kept state.old.peers }) }
    ensures err { OnErr result (state.new ≡ state.old) }
    ensures open { (result ≡ Err Uncommitted.Failed → ⊥) → K.is_open keeper.new }
    ensures lasts { Lasts (K.damage keeper.old) (K.damage keeper.new)
        (K.faults keeper.old) (K.faults keeper.new) (result ≡ Err Uncommitted.Failed) }
{
    let mut peers = mem::replace(&mut state.peers, List::new(alloc)).into_inner();
    let end = put_kept(keeper, edits, &mut peers, kept);
    state.peers = List::of(peers);
    end
}

/// Commits the edits of an act, and then puts its peer among these.
fn put_kept<K: Keeper>(
    keeper: &mut K,
    edits: &[Edit],
    peers: &mut Vec<KeptPeer>,
    kept: KeptPeer,
) -> Result<(), Uncommitted>
    requires order { AscendBy peer_key peers.old.items }
    requires open { K.is_open keeper.old }
    ensures told { Commits edits.now (K.keeping keeper.old) (K.keeping keeper.new) result }
    ensures ok { OnOk result (peers.new.items ≡ with_item peer_key kept peers.old.items) }
    ensures err { OnErr result (peers.new.items ≡ peers.old.items) }
    ensures open { (result ≡ Err Uncommitted.Failed → ⊥) → K.is_open keeper.new }
    ensures lasts { Lasts (K.damage keeper.old) (K.damage keeper.new)
        (K.faults keeper.old) (K.faults keeper.new) (result ≡ Err Uncommitted.Failed) }
{
    make_room(peers, 1)?;
    commit(keeper, edits)?;
    put_peer(peers, kept);
    Ok(())
}

/// Gives the opening of a child's group and external id to it. `node` is a copy of its id, so that
/// no memory is taken.
fn give(alloc: Global, state: &mut State, peer: &Peer, node: Txt, child: bool)
    requires order { AscendBy opening_key state.old.openings }
    requires node { node ≡ peer.now.id }
    ensures { state.new
        ≡ record state.old { openings = given_if child peer.now state.old.openings } }
{
    if !child {
        return;
    }
    let mut openings = mem::replace(&mut state.openings, List::new(alloc)).into_inner();
    give_opening(&mut openings, peer, node);
    state.openings = List::of(openings);
}

/// A node as a peer with a token.
fn new_peer(alloc: Global, peer: &Peer, token: &str, child: bool) -> Result<KeptPeer, NoMemory>
    ensures { IfOk result (λ kept. kept ≡ kept_with_token peer.now (chars token.now) child) }
{
    Ok(KeptPeer {
        peer: peer.twin(alloc)?,
        token: Txt::copied(alloc, token)?,
        child,
    })
}

/// The edits of a peer that is kept, of the opening that is given to a child, and of the counters.
fn joining_edits(
    alloc: Global,
    config: &Config,
    kept: &KeptPeer,
    openings: &[Opening],
    counts: &Counts,
) -> Result<Vec<Edit>, NoMemory>
    requires { AscendBy opening_key openings.now }
    ensures { IfOk result (λ edits. edits.items ≡ put_edit (peer_record kept.now)
        ∷ (puts_of (map opening_record (new_openings (Joined kept.now) openings.now))
        ++ counts_put counts.now)) }
{
    let mut edits = Vec::new(alloc);
    push_put(alloc, config, &Part::Peer(kept), &mut edits)?;
    if kept.child {
        push_given(alloc, config, openings, &kept.peer, &mut edits)?;
    }
    push_put(alloc, config, &Part::Counts(counts), &mut edits)?;
    Ok(edits)
}

/// Adds the edit of the opening that is given to a peer, where one stands.
fn push_given(
    alloc: Global,
    config: &Config,
    openings: &[Opening],
    peer: &Peer,
    edits: &mut Vec<Edit>,
) -> Result<(), NoMemory>
    requires { AscendBy opening_key openings.now }
    ensures { OnOk result (edits.new.items ≡ edits.old.items
        ++ puts_of (map opening_record (given_openings peer.now openings.now))) }
{
    let Some(opening) = opening_of(openings, peer.group.as_str(), peer.external.as_str()) else {
        return Ok(());
    };
    let given = given(alloc, opening, peer)?;
    push_put(alloc, config, &Part::Opening(&given), edits)
}

/// A copy of an opening, given to a peer.
fn given(alloc: Global, opening: &Opening, peer: &Peer) -> Result<Opening, NoMemory>
    ensures { IfOk result (λ given. given
        ≡ record opening.now { stage = Stage.Given peer.now.id }) }
{
    Ok(Opening {
        group: opening.group.twin(alloc)?,
        external: opening.external.twin(alloc)?,
        token: opening.token.twin(alloc)?,
        stage: Stage::Given(peer.id.twin(alloc)?),
    })
}
