//! Peers that have shown their token.
ghost use Rattle.std.specs.Prelude.{◌≡◌, ◌++◌, IfOk, OnOk, Err, map};
ghost use Rattle.std.specs.Str.{chars};
ghost use Rattle.sds_history.specs.history.Acts.Act.{Confirmed};
ghost use Rattle.sds_history.specs.history.Records.{opening_record};
ghost use Rattle.sds_history.specs.history.Registrations.{confirm_act, confirm_answer};
ghost use Rattle.sds_image.specs.Meaning.{meaning_of};
ghost use Rattle.sds_imagelaws.specs.Edits.{puts_of};
ghost use Rattle.sds_acts.specs.Counting.{after_act};
ghost use Rattle.sds_acts.specs.Ending.{EndsWith};
ghost use Rattle.sds_acts.specs.Parts.{closed_if, closed_openings, counts_put};
ghost use Rattle.sds_commit.specs.Ends.{Ends, Fits, HasFailed, Lasts, kept_with};

use crate::counters::next_counts;
use sds_base::{List, NoMemory, Twin};
use sds_commit::{Uncommitted, commit, push_put};
use sds_image::{Part, State};
use sds_outside::{Edit, Keeper};
use sds_registry::{close_openings, is_open_for};
use sds_types::{Config, Counts, NodeFault, Opening, Stage};
use std::alloc::Global;
use std::mem;

/// Closes the registration of a peer that has shown its token, where one is open (the SymmetricDS
/// guide's chapter on registration). Where none is, nothing changes.
pub fn confirm<K: Keeper>(
    alloc: Global,
    config: &Config,
    state: &mut State,
    keeper: &mut K,
    peer: &str,
) -> Result<(), NodeFault>
    requires state { Fits config.now state.old }
    requires open { K.is_open keeper.old }
    ensures ends { Ends config.now (kept_with state.old (K.keeping keeper.old))
        (kept_with state.new (K.keeping keeper.new))
        (confirm_act config.now (meaning_of state.old) (chars peer.now)) (λ fault. fault)
        (confirm_answer config.now (meaning_of state.old) (chars peer.now)) result }
    ensures tables { state.new.tables ≡ state.old.tables }
    ensures open { (HasFailed (λ fault. fault) result → ⊥) → K.is_open keeper.new }
    ensures lasts { Lasts (K.damage keeper.old) (K.damage keeper.new)
        (K.faults keeper.old) (K.faults keeper.new) (HasFailed (λ fault. fault) result) }
{
    if !is_open_for(state, peer) {
        return Ok(());
    }
    let Some(counts) = next_counts(state.counts) else {
        return Err(NodeFault::Counters);
    };
    close_for(alloc, config, state, keeper, peer, counts)?;
    Ok(())
}

/// Closes the openings that were given to a peer, after which the counters are these.
fn close_for<K: Keeper>(
    alloc: Global,
    config: &Config,
    state: &mut State,
    keeper: &mut K,
    peer: &str,
    counts: Counts,
) -> Result<(), Uncommitted>
    requires counts { counts ≡ after_act state.old.counts }
    requires open { K.is_open keeper.old }
    ensures ends { EndsWith config.now (kept_with state.old (K.keeping keeper.old))
        (kept_with state.new (K.keeping keeper.new)) (Confirmed (chars peer.now)) result }
    ensures tables { state.new.tables ≡ state.old.tables }
    ensures open { (result ≡ Err Uncommitted.Failed → ⊥) → K.is_open keeper.new }
    ensures lasts { Lasts (K.damage keeper.old) (K.damage keeper.new)
        (K.faults keeper.old) (K.faults keeper.new) (result ≡ Err Uncommitted.Failed) }
{
    let edits = closing_edits(alloc, config, state.openings.inner(), peer, &counts)?;
    commit(keeper, &edits)?;
    let mut openings = mem::replace(&mut state.openings, List::new(alloc)).into_inner();
    close_openings(&mut openings, peer);
    state.openings = List::of(openings);
    state.counts = counts;
    Ok(())
}

/// The edits of the openings that are closed, and of the counters.
fn closing_edits(
    alloc: Global,
    config: &Config,
    openings: &[Opening],
    peer: &str,
    counts: &Counts,
) -> Result<Vec<Edit>, NoMemory>
    ensures { IfOk result (λ edits. edits.items
        ≡ puts_of (map opening_record (closed_openings (chars peer.now) openings.now))
        ++ counts_put counts.now) }
{
    let mut edits = Vec::new(alloc);
    push_closed(alloc, config, openings, peer, &mut edits)?;
    push_put(alloc, config, &Part::Counts(counts), &mut edits)?;
    Ok(edits)
}

/// Adds the edits of the openings that are closed.
fn push_closed(
    alloc: Global,
    config: &Config,
    openings: &[Opening],
    peer: &str,
    edits: &mut Vec<Edit>,
) -> Result<(), NoMemory>
    ensures { OnOk result (edits.new.items ≡ edits.old.items
        ++ puts_of (map opening_record (closed_openings (chars peer.now) openings.now))) }
{
    for opening in openings {
        let Some(closed) = closed(alloc, opening, peer)? else {
            continue;
        };
        push_put(alloc, config, &Part::Opening(&closed), edits)?;
    }
    Ok(())
}

/// A copy of an opening, closed, where it was given to a peer and isn't closed yet.
fn closed(alloc: Global, opening: &Opening, peer: &str) -> Result<Option<Opening>, NoMemory>
    ensures { IfOk result (λ closed. closed ≡ closed_if (chars peer.now) opening.now) }
{
    let Stage::Given(node) = &opening.stage else {
        return Ok(None);
    };
    if !node.is(peer) {
        return Ok(None);
    }
    Ok(Some(Opening {
        group: opening.group.twin(alloc)?,
        external: opening.external.twin(alloc)?,
        token: opening.token.twin(alloc)?,
        stage: Stage::Closed(node.twin(alloc)?),
    }))
}
