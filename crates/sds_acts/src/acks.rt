//! Acks of a peer, which say what became of batches.
ghost use Rattle.std.specs.Prelude.{◌≡◌, ◌++◌, IfOk, OnOk, Err, ℕ, List, length, map};
ghost use Rattle.std.specs.Result.{result_map_both};
ghost use Rattle.std.specs.Str.{chars};
ghost use Rattle.sds_types.specs.declared.ack.Ack as told;
ghost use Rattle.sds_types.specs.declared.config.Config as configs;
ghost use Rattle.sds_history.specs.history.Acks.{acks_act, acks_answer};
ghost use Rattle.sds_history.specs.history.Acks.{changed_by, own_acks_answer};
ghost use Rattle.sds_history.specs.history.Acts.Act.{Acked};
ghost use Rattle.sds_history.specs.history.Records.{batch_record};
ghost use Rattle.sds_image.specs.Meaning.{meaning_of};
ghost use Rattle.sds_imagelaws.specs.Edits.{puts_of};
ghost use Rattle.sds_outgoing.specs.Restating.{restated_by};
ghost use Rattle.sds_acts.specs.Counting.{after_act};
ghost use Rattle.sds_acts.specs.Ending.{EndsWith};
ghost use Rattle.sds_acts.specs.Parts.{counts_put, restated_batch, restated_batches};
ghost use Rattle.sds_commit.specs.Ends.{Ends, Fits, HasFailed, Lasts, kept_with};

use crate::counters::next_counts;
use sds_base::{List, NoMemory, Twin};
use sds_commit::{Uncommitted, commit, push_put};
use sds_image::{Part, State};
use sds_outgoing::{Restated, changed, restate, unknown_ack};
use sds_outside::{Edit, Keeper};
use sds_registry::kept_peer;
use sds_types::{Ack, AckRefusal, Config, Counts, NodeFault, OutBatch};
use std::alloc::Global;
use std::mem;

/// Takes what a peer says of batches, and returns how many have another status, row or rule then
/// (the SymmetricDS guide's chapter on outgoing batches). Where none has, nothing changes.
///
/// Refused where no peer has the id, and where an ack names no batch of this node to that peer.
pub fn take_acks<K: Keeper>(
    alloc: Global,
    config: &Config,
    state: &mut State,
    keeper: &mut K,
    from: &str,
    acks: &[Ack],
) -> Result<u64, AckRefusal>
    requires state { Fits config.now state.old }
    requires open { K.is_open keeper.old }
    ensures ends { Ends config.now (kept_with state.old (K.keeping keeper.old))
        (kept_with state.new (K.keeping keeper.new))
        (acks_act config.now (meaning_of state.old) (chars from.now) acks.now) AckRefusal.Fault
        (acks_answer config.now (meaning_of state.old) (chars from.now) acks.now) result }
    ensures tables { state.new.tables ≡ state.old.tables }
    ensures open { (HasFailed AckRefusal.Fault result → ⊥) → K.is_open keeper.new }
    ensures lasts { Lasts (K.damage keeper.old) (K.damage keeper.new)
        (K.faults keeper.old) (K.faults keeper.new) (HasFailed AckRefusal.Fault result) }
{
    judge_acks(state, from, acks)?;
    let changed = changed(alloc, state.batches.inner(), from, acks)?;
    let count = count_of(&changed);
    if count == 0 {
        return Ok(0);
    }
    let Some(counts) = next_counts(state.counts) else {
        return Err(AckRefusal::Fault(NodeFault::Counters));
    };
    restate_all(alloc, config, state, keeper, changed.inner(), counts)?;
    Ok(count)
}

fn count_of(changed: &List<Restated>) -> u64
    ensures { result ≡ length changed.now }
{
    changed.inner().len() as u64
}

/// Whether acks of a peer may be taken.
fn judge_acks(state: &State, from: &str, acks: &[Ack]) -> Result<(), AckRefusal>
    ensures { (config : configs.Config)
        → own_acks_answer config (meaning_of state.now) (chars from.now) acks.now
        ≡ result_map_both (λ done. changed_by config (meaning_of state.now)
        (Acked (chars from.now) acks.now)) (λ refusal. refusal) result }
{
    if kept_peer(state.peers.inner(), from).is_none() {
        return Err(AckRefusal::UnknownNode);
    }
    match unknown_ack(state, from, acks) {
        Some(batch) => Err(AckRefusal::UnknownBatch(batch)),
        None => Ok(()),
    }
}

/// Gives the batches that acks change what is known of them, after which the counters are these.
fn restate_all<K: Keeper>(
    alloc: Global,
    config: &Config,
    state: &mut State,
    keeper: &mut K,
    changed: &[Restated],
    counts: Counts,
) -> Result<(), Uncommitted>
    requires counts { counts ≡ after_act state.old.counts }
    requires open { K.is_open keeper.old }
    ensures ends { (from : List ℕ) → (acks : List told.Ack)
        → changed.now ≡ restated_by state.old.batches from acks
        → EndsWith config.now (kept_with state.old (K.keeping keeper.old))
        (kept_with state.new (K.keeping keeper.new)) (Acked from acks) result }
    ensures tables { state.new.tables ≡ state.old.tables }
    ensures open { (result ≡ Err Uncommitted.Failed → ⊥) → K.is_open keeper.new }
    ensures lasts { Lasts (K.damage keeper.old) (K.damage keeper.new)
        (K.faults keeper.old) (K.faults keeper.new) (result ≡ Err Uncommitted.Failed) }
{
    let edits = restating_edits(alloc, config, state.batches.inner(), changed, &counts)?;
    commit(keeper, &edits)?;
    let mut batches = mem::replace(&mut state.batches, List::new(alloc)).into_inner();
    restate(&mut batches, changed);
    state.batches = List::of(batches);
    state.counts = counts;
    Ok(())
}

/// The edits of the batches that acks change, and of the counters.
fn restating_edits(
    alloc: Global,
    config: &Config,
    batches: &[OutBatch],
    changed: &[Restated],
    counts: &Counts,
) -> Result<Vec<Edit>, NoMemory>
    ensures { IfOk result (λ edits. edits.items
        ≡ puts_of (map (batch_record config.now) (restated_batches batches.now changed.now))
        ++ counts_put counts.now) }
{
    let mut edits = Vec::new(alloc);
    push_restated(alloc, config, batches, changed, &mut edits)?;
    push_put(alloc, config, &Part::Counts(counts), &mut edits)?;
    Ok(edits)
}

/// Adds the edits of the batches that acks change.
fn push_restated(
    alloc: Global,
    config: &Config,
    batches: &[OutBatch],
    changed: &[Restated],
    edits: &mut Vec<Edit>,
) -> Result<(), NoMemory>
    ensures { OnOk result (edits.new.items ≡ edits.old.items
        ++ puts_of (map (batch_record config.now) (restated_batches batches.now changed.now))) }
{
    for one in changed {
        let Some(batch) = restated(alloc, batches, *one)? else {
            continue;
        };
        push_put(alloc, config, &Part::Batch(&batch), edits)?;
    }
    Ok(())
}

/// A copy of the batch at a place, if there is one, with what is known of it now.
fn restated(
    alloc: Global,
    batches: &[OutBatch],
    one: Restated,
) -> Result<Option<OutBatch>, NoMemory>
    ensures { IfOk result (λ batch. batch ≡ restated_batch batches.now one) }
{
    let Some(batch) = batches.get(one.place) else {
        return Ok(None);
    };
    Ok(Some(OutBatch {
        id: batch.id,
        peer: batch.peer.twin(alloc)?,
        channel: batch.channel,
        standing: one.standing,
        changes: batch.changes.twin(alloc)?,
    }))
}
