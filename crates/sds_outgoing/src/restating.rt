//! The batches whose standing acks change.
ghost use Rattle.std.specs.Prelude.{◌≡◌, ◌∷◌, [], ℕ, List, IfOk, length};
ghost use Rattle.std.specs.Str.{chars};
ghost use Rattle.sds_types.specs.declared.ack.Ack.{Ack};
ghost use Rattle.sds_types.specs.declared.config.Config.{Config};
ghost use Rattle.sds_history.specs.history.Acks.{changed_by};
ghost use Rattle.sds_history.specs.history.Acts.{State};
ghost use Rattle.sds_history.specs.history.Acts.Act.{Acked};
ghost use Rattle.sds_history.specs.history.Standings.{acknowledged};
ghost use Rattle.sds_outgoing.specs.Restating.{restated_by, with_standing_at};

use crate::standings::{is_changed, standing_after};
use sds_base::{List, NoMemory};
use sds_types::{Ack, OutBatch, Standing};
use std::alloc::Global;

/// The place of a batch among others, and what is known of it now.
#[derive(Clone, Copy, Debug, PartialEq, Eq)]
pub struct Restated {
    pub place: usize,
    pub standing: Standing,
}

/// The batches that have another status, row or rule after acks of a peer, ascending by place.
pub fn changed(
    alloc: Global,
    batches: &[OutBatch],
    from: &str,
    acks: &[Ack],
) -> Result<List<Restated>, NoMemory>
    ensures places { IfOk result (λ changed. changed
        ≡ restated_by batches.now (chars from.now) acks.now) }
    // They are as many as the answer to the acks says.
    ensures count { IfOk result (λ changed. (config : Config) → (state : State)
        → state.batches ≡ batches.now
        → length changed ≡ changed_by config state (Acked (chars from.now) acks.now)) }
{
    let mut changed = List::new(alloc);
    for (place, batch) in batches.iter().enumerate() {
        let standing = standing_after(batches, from, acks, batch);
        if !is_changed(batch.standing, standing) {
            continue;
        }
        changed.push(Restated { place, standing })?;
    }
    Ok(changed)
}

/// Gives batches what is known of them after acks of a peer, where `changed` are those that the
/// acks change. It takes no memory.
pub fn restate(batches: &mut Vec<OutBatch>, changed: &[Restated])
    ensures { (from : List ℕ) → (acks : List Ack)
        → changed.now ≡ restated_by batches.old.items from acks
        → batches.new.items ≡ acknowledged batches.old.items (Acked from acks ∷ []) }
{
    for restated in changed {
        restate_one(batches, *restated);
    }
}

/// Gives the batch at a place, if there is one, what is known of it.
fn restate_one(batches: &mut Vec<OutBatch>, restated: Restated)
    ensures { batches.new.items
        ≡ with_standing_at restated.place restated.standing batches.old.items }
{
    if restated.place < batches.len() {
        batches[restated.place].standing = restated.standing;
    }
}
