//! The load of a batch at a node.
ghost use Rattle.std.specs.Prelude.{◌≡◌, ◌≢◌, ◌++◌, ◌<◌, ◌≤◌, ◌^◌, Err, List, Ok, OnErr, OnOk, Some, length};
ghost use Rattle.std.specs.Str.{chars};
ghost use Rattle.sds_types.specs.declared.row.TableRow.{TableRow};
ghost use Rattle.sds_trade.specs.rules.Sound.{IsSound};
ghost use Rattle.sds_history.specs.history.Counters.{answer_within, within};
ghost use Rattle.sds_history.specs.history.Lanes.{lane_key};
ghost use Rattle.sds_history.specs.history.Loads as loads;
ghost use Rattle.sds_history.specs.history.Orders.{with_item};
ghost use Rattle.sds_history.specs.history.SoundParts.{AreCounts, AscendBy};
ghost use Rattle.sds_image.specs.Meaning.{meaning_of};
ghost use Rattle.sds_load.specs.Bodies.{rows_in};
ghost use Rattle.sds_nodelaws.specs.Asked.{IsAsked};
ghost use Rattle.sds_nodelaws.specs.Calls.Call.{Load};
ghost use Rattle.sds_rows.specs.Undoing.{Undone, without_undos};
ghost use Rattle.sds_commit.specs.Commits.{Commits};
ghost use Rattle.sds_commit.specs.Ends.{Ends, Fits, HasFailed, Lasts, kept_with};
ghost use Rattle.sds_runs.specs.Fitting.{FitSteps};
ghost use Rattle.sds_runs.specs.Keeping.{Keeps};
ghost use Rattle.sds_runs.specs.Made.{error_kept, load_kept, with_rows};
ghost use Rattle.sds_runs.specs.Ready.{readied_error, readied_load};

use crate::changes::next_changes;
use crate::edits::ran_edits;
use crate::keeping::{append, take_room};
use crate::lanes::{answer_of_lane, erred_lane, loaded_lane};
use crate::numbers::{erred_counts, ran_counts, waiting_in};
use sds_base::List;
use sds_commit::{Uncommitted, commit, counted, push_put};
use sds_image::{Part, State};
use sds_load::{Outcome, outcome};
use sds_outside::{Edit, Keeper};
use sds_registry::{keeps_error, knows_sender, put_lane};
use sds_rows::Done;
use sds_types::{
    Change, Config, Counts, LaneError, LaneIn, LoadAnswer, NodeFault, PeerRefusal, Prepared, Rule,
};
use std::alloc::Global;
use std::mem;

/// What a batch makes of a node, ready to be committed.
#[derive(Drop)]
pub(crate) struct ReadyLoad {
    /// Its edits.
    pub(crate) edits: List<Edit>,
    /// The changes that were captured.
    pub(crate) changes: List<Change>,
    /// What is kept of its lane.
    pub(crate) lane: LaneIn,
    /// The counters after it.
    pub(crate) counts: Counts,
}

/// Makes a load ready that made these steps, where no counter would pass its end.
fn ready_load(
    alloc: Global,
    config: &Config,
    state: &State,
    lane: LaneIn,
    dones: &[Done],
) -> Result<ReadyLoad, PeerRefusal>
    requires counts { AreCounts state.now.counts }
    requires steps { FitSteps config.now dones.now }
    requires count { length dones.now < 2 ^ 32 }
    ensures { result ≢ Err (PeerRefusal.Fault NodeFault.NoMemory) → result
        ≡ readied_load config.now (meaning_of state.now) lane (without_undos dones.now) }
{
    let changes = next_changes(alloc, config, state, Some(&lane.peer), dones)?;
    let Some(counts) = counted(ran_counts(state.counts, changes.inner().len())) else {
        return Err(PeerRefusal::Fault(NodeFault::Counters));
    };
    let kept = Part::Lane(&lane);
    let edits = ran_edits(alloc, config, dones, changes.inner(), &kept, &counts)?;
    Ok(ReadyLoad {
        edits,
        changes,
        lane,
        counts,
    })
}

/// Makes the error of a lane ready, where no counter would pass its end.
fn ready_error(
    alloc: Global,
    config: &Config,
    state: &State,
    lane: LaneIn,
) -> Result<ReadyLoad, PeerRefusal>
    requires { AreCounts state.now.counts }
    ensures { result ≢ Err (PeerRefusal.Fault NodeFault.NoMemory) → result
        ≡ readied_error config.now (meaning_of state.now) lane }
{
    let Some(counts) = counted(erred_counts(state.counts)) else {
        return Err(PeerRefusal::Fault(NodeFault::Counters));
    };
    let mut edits = Vec::new(alloc);
    push_put(alloc, config, &Part::Lane(&lane), &mut edits)?;
    push_put(alloc, config, &Part::Counts(&counts), &mut edits)?;
    Ok(ReadyLoad {
        edits: List::of(edits),
        changes: List::new(alloc),
        lane,
        counts,
    })
}

/// Commits edits, after which the changes and the lanes have those of the batch.
fn commit_lists<K: Keeper>(
    config: &Config,
    keeper: &mut K,
    edits: &[Edit],
    changes: &mut Vec<Change>,
    new: List<Change>,
    lanes: &mut Vec<LaneIn>,
    lane: LaneIn,
) -> Result<(), Uncommitted>
    requires open { K.is_open keeper.old }
    requires order { AscendBy (lane_key config.now) lanes.old.items }
    ensures told { Commits edits.now (K.keeping keeper.old) (K.keeping keeper.new) result }
    ensures lists { OnOk result ((changes.new.items ≡ changes.old.items ++ new)
        × (lanes.new.items ≡ with_item (lane_key config.now) lane lanes.old.items)) }
    ensures err { OnErr result ((changes.new.items ≡ changes.old.items)
        × (lanes.new.items ≡ lanes.old.items)) }
    ensures open { (result ≡ Err Uncommitted.Failed → ⊥) → K.is_open keeper.new }
    ensures lasts { Lasts (K.damage keeper.old) (K.damage keeper.new)
        (K.faults keeper.old) (K.faults keeper.new) (result ≡ Err Uncommitted.Failed) }
{
    take_room(changes, new.inner().len(), lanes)?;
    commit(keeper, edits)?;
    append(changes, new);
    put_lane(config, lanes, lane);
    Ok(())
}

/// Commits what a batch makes of a node, after which the node has it.
fn commit_load<K: Keeper>(
    alloc: Global,
    config: &Config,
    state: &mut State,
    keeper: &mut K,
    ready: ReadyLoad,
) -> Result<(), Uncommitted>
    requires open { K.is_open keeper.old }
    requires order { AscendBy (lane_key config.now) state.old.lanes }
    ensures told { Commits ready.edits (K.keeping keeper.old) (K.keeping keeper.new) result }
    ensures state { OnOk result (state.new ≡ record state.old {
      counts = ready.counts;
      changes = state.old.changes ++ ready.changes;
      lanes = with_item (lane_key config.now) ready.lane state.old.lanes;
    }) }
    ensures err { OnErr result (state.new ≡ state.old) }
    ensures open { (result ≡ Err Uncommitted.Failed → ⊥) → K.is_open keeper.new }
    ensures lasts { Lasts (K.damage keeper.old) (K.damage keeper.new)
        (K.faults keeper.old) (K.faults keeper.new) (result ≡ Err Uncommitted.Failed) }
{
    let ReadyLoad {
        edits,
        changes: new,
        lane,
        counts,
    } = ready;
    let mut changes = mem::replace(&mut state.changes, List::new(alloc)).into_inner();
    let mut lanes = mem::replace(&mut state.lanes, List::new(alloc)).into_inner();
    let edits = edits.inner();
    let end = commit_lists(config, keeper, edits, &mut changes, new, &mut lanes, lane);
    state.changes = List::of(changes);
    state.lanes = List::of(lanes);
    end?;
    state.counts = counts;
    Ok(())
}

/// Keeps a load that made these steps, and returns its answer. Where it isn't kept, nothing
/// changes.
fn keep_load<K: Keeper>(
    alloc: Global,
    config: &Config,
    state: &mut State,
    keeper: &mut K,
    lane: LaneIn,
    dones: &[Done],
    answer: LoadAnswer,
) -> Result<LoadAnswer, PeerRefusal>
    requires state { AreCounts state.old.counts × AscendBy (lane_key config.now) state.old.lanes }
    requires steps { FitSteps config.now dones.now × (length dones.now < 2 ^ 32) }
    requires open { K.is_open keeper.old }
    ensures keeps { Keeps PeerRefusal.Fault (load_kept config.now (meaning_of state.old) lane
        (without_undos dones.now)) answer
        (kept_with state.old (K.keeping keeper.old)) (kept_with state.new (K.keeping keeper.new))
        result }
    ensures tables { state.new.tables ≡ state.old.tables }
    ensures open { (HasFailed PeerRefusal.Fault result → ⊥) → K.is_open keeper.new }
    ensures lasts { Lasts (K.damage keeper.old) (K.damage keeper.new) (K.faults keeper.old)
        (K.faults keeper.new) (HasFailed PeerRefusal.Fault result) }
{
    let ready = ready_load(alloc, config, state, lane, dones)?;
    commit_load(alloc, config, state, keeper, ready)?;
    Ok(answer)
}

/// Keeps a load that made these steps, and returns its answer, or else undoes them.
fn keep_or_undo<K: Keeper>(
    alloc: Global,
    config: &Config,
    state: &mut State,
    keeper: &mut K,
    lane: LaneIn,
    dones: List<Done>,
    answer: LoadAnswer,
) -> Result<LoadAnswer, PeerRefusal>
    requires state { AreCounts state.old.counts × AscendBy (lane_key config.now) state.old.lanes }
    requires steps { FitSteps config.now dones × (length dones < 2 ^ 32) }
    requires undone { (before : List TableRow) × Undone dones state.old.tables before }
    requires open { K.is_open keeper.old }
    ensures keeps { (before : List TableRow) → Undone dones state.old.tables before
        → Keeps PeerRefusal.Fault (load_kept config.now (meaning_of state.old) lane
        (without_undos dones)) answer
        (record { state = with_rows (meaning_of state.old) before; told = K.keeping keeper.old })
        (kept_with state.new (K.keeping keeper.new)) result }
    ensures tables { state.new.tables.defs ≡ state.old.tables.defs }
    ensures open { (HasFailed PeerRefusal.Fault result → ⊥) → K.is_open keeper.new }
    ensures lasts { Lasts (K.damage keeper.old) (K.damage keeper.new) (K.faults keeper.old)
        (K.faults keeper.new) (HasFailed PeerRefusal.Fault result) }
{
    let kept = keep_load(alloc, config, state, keeper, lane, dones.inner(), answer);
    if kept.is_err() {
        state.tables.revert_all(dones.into_inner());
    }
    kept
}

/// Keeps the error of a lane. Where it isn't kept, nothing changes.
fn keep_lane<K: Keeper>(
    alloc: Global,
    config: &Config,
    state: &mut State,
    keeper: &mut K,
    lane: LaneIn,
    answer: LoadAnswer,
) -> Result<LoadAnswer, PeerRefusal>
    requires state { AreCounts state.old.counts × AscendBy (lane_key config.now) state.old.lanes }
    requires open { K.is_open keeper.old }
    ensures keeps { Keeps PeerRefusal.Fault (error_kept config.now (meaning_of state.old) lane)
        answer (kept_with state.old (K.keeping keeper.old))
        (kept_with state.new (K.keeping keeper.new)) result }
    ensures tables { state.new.tables ≡ state.old.tables }
    ensures open { (HasFailed PeerRefusal.Fault result → ⊥) → K.is_open keeper.new }
    ensures lasts { Lasts (K.damage keeper.old) (K.damage keeper.new) (K.faults keeper.old)
        (K.faults keeper.new) (HasFailed PeerRefusal.Fault result) }
{
    let ready = ready_error(alloc, config, state, lane)?;
    commit_load(alloc, config, state, keeper, ready)?;
    Ok(answer)
}

/// Answers that a batch broke a rule, and keeps that as its lane's error, where the lane doesn't
/// have it yet.
fn keep_error<K: Keeper>(
    alloc: Global,
    config: &Config,
    state: &mut State,
    keeper: &mut K,
    from: &str,
    channel: u32,
    error: LaneError,
) -> Result<LoadAnswer, PeerRefusal>
    requires state { AreCounts state.old.counts × AscendBy (lane_key config.now) state.old.lanes }
    requires open { K.is_open keeper.old }
    ensures ends { Ends config.now (kept_with state.old (K.keeping keeper.old))
        (kept_with state.new (K.keeping keeper.new))
        (within config.now (meaning_of state.old)
        (loads.error_act (meaning_of state.old) (chars from.now) channel error))
        PeerRefusal.Fault (answer_within PeerRefusal.Fault config.now (meaning_of state.old)
        (loads.error_act (meaning_of state.old) (chars from.now) channel error)
        (Ok (LoadAnswer.Erred error.row error.rule))) result }
    ensures tables { state.new.tables ≡ state.old.tables }
    ensures open { (HasFailed PeerRefusal.Fault result → ⊥) → K.is_open keeper.new }
    ensures lasts { Lasts (K.damage keeper.old) (K.damage keeper.new) (K.faults keeper.old)
        (K.faults keeper.new) (HasFailed PeerRefusal.Fault result) }
{
    let answer = LoadAnswer::Erred {
        row: error.row,
        rule: error.rule,
    };
    if keeps_error(state, from, channel, error) {
        return Ok(answer);
    }
    let lane = erred_lane(alloc, state, from, channel, error)?;
    keep_lane(alloc, config, state, keeper, lane, answer)
}

/// Loads a batch of a known channel that its lane doesn't hold.
fn load_rows<K: Keeper>(
    alloc: Global,
    config: &Config,
    state: &mut State,
    keeper: &mut K,
    from: &str,
    channel: u32,
    batch: &Prepared,
) -> Result<LoadAnswer, PeerRefusal>
    requires config { IsSound config.now }
    requires state { Fits config.now state.old }
    requires open { K.is_open keeper.old }
    requires asked { IsAsked config.now (meaning_of state.old) (Load (chars from.now) batch.now)
        × (length (rows_in batch.now.body) < 2 ^ 32) × (batch.now.channel ≡ Some channel) }
    ensures ends { Ends config.now (kept_with state.old (K.keeping keeper.old))
        (kept_with state.new (K.keeping keeper.new))
        (within config.now (meaning_of state.old) (loads.load_by (meaning_of state.old)
        (chars from.now) batch.now channel
        (loads.outcome_answer config.now (meaning_of state.old) batch.now)))
        PeerRefusal.Fault (answer_within PeerRefusal.Fault config.now (meaning_of state.old)
        (loads.load_by (meaning_of state.old) (chars from.now) batch.now channel
        (loads.outcome_answer config.now (meaning_of state.old) batch.now))
        (Ok (loads.outcome_answer config.now (meaning_of state.old) batch.now))) result }
    ensures tables { state.new.tables.defs ≡ state.old.tables.defs }
    ensures open { (HasFailed PeerRefusal.Fault result → ⊥) → K.is_open keeper.new }
    ensures lasts { Lasts (K.damage keeper.old) (K.damage keeper.new) (K.faults keeper.old)
        (K.faults keeper.new) (HasFailed PeerRefusal.Fault result) }
{
    let mut lane = loaded_lane(alloc, channel, batch)?;
    let place = state.counts.acts + 1;
    let waiting = waiting_in(state.counts);
    let group = state.me.group.as_str();
    match outcome(alloc, config, group, &mut state.tables, batch, waiting)? {
        Outcome::Done(dones) => {
            let answer = LoadAnswer::Loaded { place };
            keep_or_undo(alloc, config, state, keeper, lane, dones, answer)
        }
        Outcome::Ignored => {
            lane.ignored = Some(true);
            let answer = LoadAnswer::Ignored { place };
            keep_load(alloc, config, state, keeper, lane, &[], answer)
        }
        Outcome::Broken { row, rule } => {
            let batch = batch.batch;
            let error = LaneError { batch, row, rule };
            keep_error(alloc, config, state, keeper, from, channel, error)
        }
    }
}

/// Loads a batch that a peer sent: as one act in one commit its rows are loaded, or the batch is
/// ignored, or its lane is kept as in error. A batch that was loaded before changes nothing, nor
/// does one that an earlier one in error holds, or one of an unknown channel. Where the keeper
/// fails, or memory is wanting, the node has what it had (the SymmetricDS guide's chapters on
/// incoming batches and on their errors; the order of the answers is symds' own).
///
/// A batch has fewer than 2^32 rows.
pub fn load<K: Keeper>(
    alloc: Global,
    config: &Config,
    state: &mut State,
    keeper: &mut K,
    from: &str,
    batch: &Prepared,
) -> Result<LoadAnswer, PeerRefusal>
    requires config { IsSound config.now }
    requires state { Fits config.now state.old }
    requires open { K.is_open keeper.old }
    requires asked { IsAsked config.now (meaning_of state.old) (Load (chars from.now) batch.now) }
    requires few { length (rows_in batch.now.body) < 2 ^ 32 }
    ensures ends { Ends config.now (kept_with state.old (K.keeping keeper.old))
        (kept_with state.new (K.keeping keeper.new))
        (loads.load_act config.now (meaning_of state.old) (chars from.now) batch.now)
        PeerRefusal.Fault (loads.load_answer config.now (meaning_of state.old) (chars from.now)
        batch.now) result }
    ensures tables { state.new.tables.defs ≡ state.old.tables.defs }
    ensures open { (HasFailed PeerRefusal.Fault result → ⊥) → K.is_open keeper.new }
    ensures lasts { Lasts (K.damage keeper.old) (K.damage keeper.new) (K.faults keeper.old)
        (K.faults keeper.new) (HasFailed PeerRefusal.Fault result) }
{
    if !knows_sender(state, from, batch) {
        return Err(PeerRefusal::UnknownNode);
    }
    let Some(channel) = batch.channel else {
        return Ok(LoadAnswer::Erred {
            row: 0,
            rule: Rule::UnknownChannel,
        });
    };
    if let Some(answer) = answer_of_lane(state, from, channel, batch) {
        return Ok(answer);
    }
    load_rows(alloc, config, state, keeper, from, channel, batch)
}
