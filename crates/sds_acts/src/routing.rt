//! Routing runs.
ghost use Rattle.std.specs.Prelude.{◌≡◌, ◌+◌, ◌++◌, [], IfOk, OnErr, OnOk, Err, length, map};
ghost use Rattle.sds_trade.specs.rules.Sound.{IsSound};
ghost use Rattle.sds_history.specs.history.Acts.Act.{Routed};
ghost use Rattle.sds_history.specs.history.Made.{next_batches};
ghost use Rattle.sds_history.specs.history.Records.{batch_record};
ghost use Rattle.sds_history.specs.history.Routes.{route_act, route_answer};
ghost use Rattle.sds_image.specs.Meaning.{meaning_of};
ghost use Rattle.sds_imagelaws.specs.Edits.{puts_of};
ghost use Rattle.sds_acts.specs.Counting.{after_route};
ghost use Rattle.sds_acts.specs.Ending.{EndsWith};
ghost use Rattle.sds_acts.specs.Parts.{counts_put};
ghost use Rattle.sds_commit.specs.Commits.{Commits};
ghost use Rattle.sds_commit.specs.Ends.{Ends, Fits, HasFailed, Lasts, kept_with};

use crate::batches::new_batches;
use crate::counters::routed_counts;
use crate::room::make_room;
use sds_base::{List, NoMemory};
use sds_commit::{Uncommitted, commit, push_put};
use sds_image::{Part, State};
use sds_outside::{Edit, Keeper};
use sds_types::{Config, Counts, NodeFault, OutBatch};
use std::alloc::Global;
use std::mem;

/// Routes the changes that wait, as the tables and the peers stand now, makes batches of them, and
/// returns how many (the SymmetricDS guide's chapter on routing). Where no change waits, nothing
/// changes.
pub fn route<K: Keeper>(
    alloc: Global,
    config: &Config,
    state: &mut State,
    keeper: &mut K,
) -> Result<u64, NodeFault>
    requires config { IsSound config.now }
    requires state { Fits config.now state.old }
    requires open { K.is_open keeper.old }
    ensures ends { Ends config.now (kept_with state.old (K.keeping keeper.old))
        (kept_with state.new (K.keeping keeper.new))
        (route_act config.now (meaning_of state.old)) (λ fault. fault)
        (route_answer config.now (meaning_of state.old)) result }
    ensures tables { state.new.tables ≡ state.old.tables }
    ensures open { (HasFailed (λ fault. fault) result → ⊥) → K.is_open keeper.new }
    ensures lasts { Lasts (K.damage keeper.old) (K.damage keeper.new)
        (K.faults keeper.old) (K.faults keeper.new) (HasFailed (λ fault. fault) result) }
{
    if state.counts.last_change <= state.counts.routed {
        return Ok(0);
    }
    let batches = new_batches(alloc, config, state)?;
    let made = batches.len() as u64;
    let Some(counts) = routed_counts(state.counts, made) else {
        return Err(NodeFault::Counters);
    };
    keep_batches(alloc, config, state, keeper, batches, counts)?;
    Ok(made)
}

/// Keeps the batches of a routing run, after which the counters are these.
fn keep_batches<K: Keeper>(
    alloc: Global,
    config: &Config,
    state: &mut State,
    keeper: &mut K,
    made: Vec<OutBatch>,
    counts: Counts,
) -> Result<(), Uncommitted>
    requires batches { made.items ≡ next_batches config.now (meaning_of state.old)
        (state.old.counts.last_batch + 1) [] }
    requires counts { counts ≡ after_route state.old.counts (length made.items) }
    requires open { K.is_open keeper.old }
    ensures ends { EndsWith config.now (kept_with state.old (K.keeping keeper.old))
        (kept_with state.new (K.keeping keeper.new)) Routed result }
    ensures tables { state.new.tables ≡ state.old.tables }
    ensures open { (result ≡ Err Uncommitted.Failed → ⊥) → K.is_open keeper.new }
    ensures lasts { Lasts (K.damage keeper.old) (K.damage keeper.new)
        (K.faults keeper.old) (K.faults keeper.new) (result ≡ Err Uncommitted.Failed) }
{
    let edits = routing_edits(alloc, config, &made, &counts)?;
    let mut batches = mem::replace(&mut state.batches, List::new(alloc)).into_inner();
    let end = append_batches(keeper, &edits, &mut batches, made);
    state.batches = List::of(batches);
    end?;
    state.counts = counts;
    Ok(())
}

/// Commits the edits of an act, and then puts its batches after the others.
fn append_batches<K: Keeper>(
    keeper: &mut K,
    edits: &[Edit],
    batches: &mut Vec<OutBatch>,
    mut made: Vec<OutBatch>,
) -> Result<(), Uncommitted>
    requires open { K.is_open keeper.old }
    ensures told { Commits edits.now (K.keeping keeper.old) (K.keeping keeper.new) result }
    ensures ok { OnOk result (batches.new.items ≡ batches.old.items ++ made.items) }
    ensures err { OnErr result (batches.new.items ≡ batches.old.items) }
    ensures open { (result ≡ Err Uncommitted.Failed → ⊥) → K.is_open keeper.new }
    ensures lasts { Lasts (K.damage keeper.old) (K.damage keeper.new)
        (K.faults keeper.old) (K.faults keeper.new) (result ≡ Err Uncommitted.Failed) }
{
    make_room(batches, made.len())?;
    commit(keeper, edits)?;
    batches.append(&mut made).unwrap();
    Ok(())
}

/// The edits of batches and of the counters.
fn routing_edits(
    alloc: Global,
    config: &Config,
    made: &[OutBatch],
    counts: &Counts,
) -> Result<Vec<Edit>, NoMemory>
    ensures { IfOk result (λ edits. edits.items
        ≡ puts_of (map (batch_record config.now) made.now) ++ counts_put counts.now) }
{
    let mut edits = Vec::new(alloc);
    push_batches(alloc, config, made, &mut edits)?;
    push_put(alloc, config, &Part::Counts(counts), &mut edits)?;
    Ok(edits)
}

/// Adds the edits of batches.
fn push_batches(
    alloc: Global,
    config: &Config,
    made: &[OutBatch],
    edits: &mut Vec<Edit>,
) -> Result<(), NoMemory>
    ensures { OnOk result (edits.new.items
        ≡ edits.old.items ++ puts_of (map (batch_record config.now) made.now)) }
{
    for batch in made {
        push_put(alloc, config, &Part::Batch(batch), edits)?;
    }
    Ok(())
}
