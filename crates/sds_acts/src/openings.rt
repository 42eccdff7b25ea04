//! Registrations that a node opens.
ghost use Rattle.std.specs.Prelude.{◌≡◌, ◌∷◌, IfOk, OnErr, OnOk, Err};
ghost use Rattle.std.specs.Str.{chars};
ghost use Rattle.sds_history.specs.history.Acts.Act.{Opened};
ghost use Rattle.sds_history.specs.history.Openings.{opening_key};
ghost use Rattle.sds_history.specs.history.Orders.{with_item};
ghost use Rattle.sds_history.specs.history.Records.{opening_record};
ghost use Rattle.sds_history.specs.history.Registrations.{open_act, open_answer, token_of};
ghost use Rattle.sds_history.specs.history.SoundParts.{AscendBy};
ghost use Rattle.sds_image.specs.Meaning.{meaning_of};
ghost use Rattle.sds_records.specs.Parts.{put_edit};
ghost use Rattle.sds_acts.specs.Counting.{after_act};
ghost use Rattle.sds_acts.specs.Ending.{EndsWith};
ghost use Rattle.sds_acts.specs.Parts.{counts_put, new_opening};
ghost use Rattle.sds_commit.specs.Commits.{Commits};
ghost use Rattle.sds_commit.specs.Ends.{Ends, Fits, HasFailed, Lasts, kept_with};

use crate::counters::next_counts;
use crate::room::make_room;
use sds_base::{List, NoMemory, Txt};
use sds_commit::{Uncommitted, commit, push_put};
use sds_image::{Part, State};
use sds_outside::{Edit, Keeper};
use sds_registry::{judge_opening, put_opening};
use sds_types::{Config, Counts, NodeFault, Opening, RegRefusal, Stage};
use std::alloc::Global;
use std::mem;

/// Opens registration for a group and an external id (the SymmetricDS guide's chapter on
/// registration). The token is the noise in hexadecimal digits.
///
/// Refused where no link joins the group and the node's, and where the pair was opened before,
/// closed or not.
pub fn open<K: Keeper>(
    alloc: Global,
    config: &Config,
    state: &mut State,
    keeper: &mut K,
    group: &str,
    external: &str,
    noise: [u8; 16],
) -> Result<(), RegRefusal>
    requires state { Fits config.now state.old }
    requires open { K.is_open keeper.old }
    ensures ends { Ends config.now (kept_with state.old (K.keeping keeper.old))
        (kept_with state.new (K.keeping keeper.new))
        (open_act config.now (meaning_of state.old) (chars group.now) (chars external.now) noise)
        RegRefusal.Fault
        (open_answer config.now (meaning_of state.old) (chars group.now) (chars external.now) noise)
        result }
    ensures tables { state.new.tables ≡ state.old.tables }
    ensures open { (HasFailed RegRefusal.Fault result → ⊥) → K.is_open keeper.new }
    ensures lasts { Lasts (K.damage keeper.old) (K.damage keeper.new)
        (K.faults keeper.old) (K.faults keeper.new) (HasFailed RegRefusal.Fault result) }
{
    judge_opening(config, state, group, external)?;
    let Some(counts) = next_counts(state.counts) else {
        return Err(RegRefusal::Fault(NodeFault::Counters));
    };
    open_one(
        alloc, config, state, keeper, group, external, &noise, counts,
    )?;
    Ok(())
}

/// Opens a registration, after which the counters are these.
fn open_one<K: Keeper>(
    alloc: Global,
    config: &Config,
    state: &mut State,
    keeper: &mut K,
    group: &str,
    external: &str,
    noise: &[u8; 16],
    counts: Counts,
) -> Result<(), Uncommitted>
    requires order { AscendBy opening_key state.old.openings }
    requires counts { counts ≡ after_act state.old.counts }
    requires open { K.is_open keeper.old }
    ensures ends { EndsWith config.now (kept_with state.old (K.keeping keeper.old))
        (kept_with state.new (K.keeping keeper.new))
        (Opened (chars group.now) (chars external.now) (token_of noise.now)) result }
    ensures tables { state.new.tables ≡ state.old.tables }
    ensures open { (result ≡ Err Uncommitted.Failed → ⊥) → K.is_open keeper.new }
    ensures lasts { Lasts (K.damage keeper.old) (K.damage keeper.new)
        (K.faults keeper.old) (K.faults keeper.new) (result ≡ Err Uncommitted.Failed) }
{
    let opening = new_opening(alloc, group, external, noise)?;
    let edits = opening_edits(alloc, config, &opening, &counts)?;
    let mut openings = mem::replace(&mut state.openings, List::new(alloc)).into_inner();
    let end = keep_opening(keeper, &edits, &mut openings, opening);
    state.openings = List::of(openings);
    end?;
    state.counts = counts;
    Ok(())
}

/// Commits the edits of an act, and then puts its opening in.
fn keep_opening<K: Keeper>(
    keeper: &mut K,
    edits: &[Edit],
    openings: &mut Vec<Opening>,
    opening: Opening,
) -> Result<(), Uncommitted>
    requires order { AscendBy opening_key openings.old.items }
    requires open { K.is_open keeper.old }
    ensures told { Commits edits.now (K.keeping keeper.old) (K.keeping keeper.new) result }
    ensures ok { OnOk result
        (openings.new.items ≡ with_item opening_key opening openings.old.items) }
    ensures err { OnErr result (openings.new.items ≡ openings.old.items) }
    ensures open { (result ≡ Err Uncommitted.Failed → ⊥) → K.is_open keeper.new }
    ensures lasts { Lasts (K.damage keeper.old) (K.damage keeper.new)
        (K.faults keeper.old) (K.faults keeper.new) (result ≡ Err Uncommitted.Failed) }
{
    make_room(openings, 1)?;
    commit(keeper, edits)?;
    put_opening(openings, opening);
    Ok(())
}

/// An opening that waits, with the token that its noise makes.
fn new_opening(
    alloc: Global,
    group: &str,
    external: &str,
    noise: &[u8; 16],
) -> Result<Opening, NoMemory>
    ensures { IfOk result (λ opening. opening
        ≡ new_opening (chars group.now) (chars external.now) noise.now) }
{
    Ok(Opening {
        group: Txt::copied(alloc, group)?,
        external: Txt::copied(alloc, external)?,
        token: token_of(alloc, noise)?,
        stage: Stage::Waiting,
    })
}

/// The token that noise makes: its hexadecimal digits in lower case.
fn token_of(alloc: Global, noise: &[u8; 16]) -> Result<Txt, NoMemory>
    ensures { IfOk result (λ token. token ≡ token_of noise.now) }
{
    Ok(Txt::of(hex::encode(alloc, noise.as_slice())?))
}

/// The edits of an opening and of the counters.
fn opening_edits(
    alloc: Global,
    config: &Config,
    opening: &Opening,
    counts: &Counts,
) -> Result<Vec<Edit>, NoMemory>
    ensures { IfOk result (λ edits. edits.items
        ≡ put_edit (opening_record opening.now) ∷ counts_put counts.now) }
{
    let mut edits = Vec::new(alloc);
    push_put(alloc, config, &Part::Opening(opening), &mut edits)?;
    push_put(alloc, config, &Part::Counts(counts), &mut edits)?;
    Ok(edits)
}
