//! An own write of a node.
ghost use Rattle.std.specs.Prelude.{◌≡◌, ◌≢◌, ◌++◌, ◌<◌, ◌≤◌, ◌^◌, Err, List, OnErr, OnOk, length};
ghost use Rattle.std.specs.Str.{chars};
ghost use Rattle.sds_types.specs.Limits.{most_write_rows};
ghost use Rattle.sds_types.specs.declared.row.TableRow.{TableRow};
ghost use Rattle.sds_trade.specs.rules.Sound.{IsSound};
ghost use Rattle.sds_history.specs.history.Acts.Act.{Wrote};
ghost use Rattle.sds_history.specs.history.Counters.{answer_within, within};
ghost use Rattle.sds_history.specs.history.Orders.{with_item};
ghost use Rattle.sds_history.specs.history.SoundParts.{AreCounts, AscendBy};
ghost use Rattle.sds_history.specs.history.Writers.{writer_key};
ghost use Rattle.sds_history.specs.history.Writes as writes;
ghost use Rattle.sds_image.specs.Meaning.{meaning_of};
ghost use Rattle.sds_nodelaws.specs.Asked.{IsAsked};
ghost use Rattle.sds_nodelaws.specs.Calls.Call.{Write};
ghost use Rattle.sds_rows.specs.Undoing.{Undone, without_undos};
ghost use Rattle.sds_commit.specs.Commits.{Commits};
ghost use Rattle.sds_commit.specs.Ends.{Ends, Fits, HasFailed, Lasts, kept_with};
ghost use Rattle.sds_runs.specs.Fitting.{FitSteps};
ghost use Rattle.sds_runs.specs.Keeping.{Keeps};
ghost use Rattle.sds_runs.specs.Made.{with_rows, write_kept, written};
ghost use Rattle.sds_runs.specs.Ready.{readied_write, refusal_of};

use crate::changes::next_changes;
use crate::edits::ran_edits;
use crate::keeping::{append, take_room};
use crate::numbers::{ran_counts, waiting_in};
use sds_base::{List, Txt};
use sds_capture::run_write;
use sds_commit::{Uncommitted, commit, counted};
use sds_image::{Part, State};
use sds_outside::{Edit, Keeper};
use sds_registry::{judge_number, put_writer};
use sds_rows::Done;
use sds_types::limits::MOST_WRITE_ROWS;
use sds_types::{
    Broken, Change, Config, Counts, NodeFault, TxRow, WriteRefusal, WriterLast, Written,
};
use std::alloc::Global;
use std::mem;

/// A write whose steps are made and which is ready to be committed.
#[derive(Drop)]
pub(crate) struct ReadyWrite {
    /// Its edits.
    pub(crate) edits: List<Edit>,
    /// The changes that were captured.
    pub(crate) changes: List<Change>,
    /// What is kept of its writer.
    pub(crate) last: WriterLast,
    /// The counters after it.
    pub(crate) counts: Counts,
}

/// Makes a write ready that made these steps, where no counter would pass its end.
fn ready_write(
    alloc: Global,
    config: &Config,
    state: &State,
    writer: &str,
    number: u64,
    dones: &[Done],
) -> Result<ReadyWrite, WriteRefusal>
    requires counts { AreCounts state.now.counts }
    requires steps { FitSteps config.now dones.now }
    requires count { length dones.now < 2 ^ 32 }
    ensures { result ≢ Err (WriteRefusal.Fault NodeFault.NoMemory) → result
        ≡ readied_write config.now (meaning_of state.now) (chars writer.now) number
        (without_undos dones.now) }
{
    let changes = next_changes(alloc, config, state, None, dones)?;
    let count = changes.inner().len();
    let Some(counts) = counted(ran_counts(state.counts, count)) else {
        return Err(WriteRefusal::Fault(NodeFault::Counters));
    };
    let last = WriterLast {
        writer: Txt::copied(alloc, writer)?,
        number,
        first: state.counts.last_change + 1,
        count: count as u32,
    };
    let kept = Part::Writer(&last);
    let edits = ran_edits(alloc, config, dones, changes.inner(), &kept, &counts)?;
    Ok(ReadyWrite {
        edits,
        changes,
        last,
        counts,
    })
}

/// Commits edits, after which the changes and the writers' last writes have those of the write.
fn commit_lists<K: Keeper>(
    keeper: &mut K,
    edits: &[Edit],
    changes: &mut Vec<Change>,
    new: List<Change>,
    writers: &mut Vec<WriterLast>,
    last: WriterLast,
) -> Result<(), Uncommitted>
    requires open { K.is_open keeper.old }
    requires order { AscendBy writer_key writers.old.items }
    ensures told { Commits edits.now (K.keeping keeper.old) (K.keeping keeper.new) result }
    ensures lists { OnOk result ((changes.new.items ≡ changes.old.items ++ new)
        × (writers.new.items ≡ with_item writer_key last writers.old.items)) }
    ensures err { OnErr result ((changes.new.items ≡ changes.old.items)
        × (writers.new.items ≡ writers.old.items)) }
    ensures open { (result ≡ Err Uncommitted.Failed → ⊥) → K.is_open keeper.new }
    ensures lasts { Lasts (K.damage keeper.old) (K.damage keeper.new)
        (K.faults keeper.old) (K.faults keeper.new) (result ≡ Err Uncommitted.Failed) }
{
    take_room(changes, new.inner().len(), writers)?;
    commit(keeper, edits)?;
    append(changes, new);
    put_writer(writers, last);
    Ok(())
}

/// Commits a write, after which the node has it.
fn commit_write<K: Keeper>(
    alloc: Global,
    state: &mut State,
    keeper: &mut K,
    ready: ReadyWrite,
) -> Result<(), Uncommitted>
    requires open { K.is_open keeper.old }
    requires order { AscendBy writer_key state.old.writers }
    ensures told { Commits ready.edits (K.keeping keeper.old) (K.keeping keeper.new) result }
    ensures state { OnOk result (state.new ≡ record state.old {
      counts = ready.counts;
      writers = with_item writer_key ready.last state.old.writers;
      changes = state.old.changes ++ ready.changes;
    }) }
    ensures err { OnErr result (state.new ≡ state.old) }
    ensures open { (result ≡ Err Uncommitted.Failed → ⊥) → K.is_open keeper.new }
    ensures lasts { Lasts (K.damage keeper.old) (K.damage keeper.new)
        (K.faults keeper.old) (K.faults keeper.new) (result ≡ Err Uncommitted.Failed) }
{
    let ReadyWrite {
        edits,
        changes: new,
        last,
        counts,
    } = ready;
    let mut changes = mem::replace(&mut state.changes, List::new(alloc)).into_inner();
    let mut writers = mem::replace(&mut state.writers, List::new(alloc)).into_inner();
    let end = commit_lists(keeper, edits.inner(), &mut changes, new, &mut writers, last);
    state.changes = List::of(changes);
    state.writers = List::of(writers);
    end?;
    state.counts = counts;
    Ok(())
}

/// Keeps a write that made these steps. Where it isn't kept, nothing changes.
fn keep_write<K: Keeper>(
    alloc: Global,
    config: &Config,
    state: &mut State,
    keeper: &mut K,
    writer: &str,
    number: u64,
    dones: &[Done],
) -> Result<Written, WriteRefusal>
    requires state { AreCounts state.old.counts × AscendBy writer_key state.old.writers }
    requires steps { FitSteps config.now dones.now × (length dones.now < 2 ^ 32) }
    requires open { K.is_open keeper.old }
    ensures keeps { Keeps WriteRefusal.Fault (write_kept config.now (meaning_of state.old)
        (chars writer.now) number (without_undos dones.now))
        (written config.now (meaning_of state.old) (without_undos dones.now))
        (kept_with state.old (K.keeping keeper.old)) (kept_with state.new (K.keeping keeper.new))
        result }
    ensures tables { state.new.tables ≡ state.old.tables }
    ensures open { (HasFailed WriteRefusal.Fault result → ⊥) → K.is_open keeper.new }
    ensures lasts { Lasts (K.damage keeper.old) (K.damage keeper.new) (K.faults keeper.old)
        (K.faults keeper.new) (HasFailed WriteRefusal.Fault result) }
{
    let ready = ready_write(alloc, config, state, writer, number, dones)?;
    let written = Written::Done {
        first: ready.last.first,
        count: ready.last.count,
    };
    commit_write(alloc, state, keeper, ready)?;
    Ok(written)
}

/// Keeps a write that made these steps, or else undoes them.
fn keep_or_undo<K: Keeper>(
    alloc: Global,
    config: &Config,
    state: &mut State,
    keeper: &mut K,
    writer: &str,
    number: u64,
    dones: List<Done>,
) -> Result<Written, WriteRefusal>
    requires state { AreCounts state.old.counts × AscendBy writer_key state.old.writers }
    requires steps { FitSteps config.now dones × (length dones < 2 ^ 32) }
    requires undone { (before : List TableRow) × Undone dones state.old.tables before }
    requires open { K.is_open keeper.old }
    ensures keeps { (before : List TableRow) → Undone dones state.old.tables before
        → Keeps WriteRefusal.Fault (write_kept config.now (meaning_of state.old)
        (chars writer.now) number (without_undos dones))
        (written config.now (meaning_of state.old) (without_undos dones))
        (record { state = with_rows (meaning_of state.old) before; told = K.keeping keeper.old })
        (kept_with state.new (K.keeping keeper.new)) result }
    ensures tables { state.new.tables.defs ≡ state.old.tables.defs }
    ensures open { (HasFailed WriteRefusal.Fault result → ⊥) → K.is_open keeper.new }
    ensures lasts { Lasts (K.damage keeper.old) (K.damage keeper.new) (K.faults keeper.old)
        (K.faults keeper.new) (HasFailed WriteRefusal.Fault result) }
{
    let kept = keep_write(alloc, config, state, keeper, writer, number, dones.inner());
    if kept.is_err() {
        state.tables.revert_all(dones.into_inner());
    }
    kept
}

/// The refusal of a write that isn't done.
fn refusal_of(broken: Broken) -> WriteRefusal
    ensures { result ≡ refusal_of broken }
{
    match broken {
        Broken::Rule { row, rule } => WriteRefusal::Broken { row, rule },
        Broken::NoMemory => WriteRefusal::Fault(NodeFault::NoMemory),
    }
}

/// Makes a write whose number is the next of its writer.
fn next_write<K: Keeper>(
    alloc: Global,
    config: &Config,
    state: &mut State,
    keeper: &mut K,
    writer: &str,
    number: u64,
    tx: &[TxRow],
) -> Result<Written, WriteRefusal>
    requires config { IsSound config.now }
    requires state { Fits config.now state.old }
    requires open { K.is_open keeper.old }
    requires asked { IsAsked config.now (meaning_of state.old)
        (Write (chars writer.now) number tx.now) × (length tx.now ≤ most_write_rows) }
    ensures ends { Ends config.now (kept_with state.old (K.keeping keeper.old))
        (kept_with state.new (K.keeping keeper.new))
        (within config.now (meaning_of state.old) (writes.write_by
        (Wrote (chars writer.now) number tx.now) (writes.next_answer config.now
        (meaning_of state.old) (chars writer.now) number tx.now))) WriteRefusal.Fault
        (answer_within WriteRefusal.Fault config.now (meaning_of state.old) (writes.write_by
        (Wrote (chars writer.now) number tx.now) (writes.next_answer config.now
        (meaning_of state.old) (chars writer.now) number tx.now))
        (writes.next_answer config.now (meaning_of state.old) (chars writer.now) number tx.now))
        result }
    ensures tables { state.new.tables.defs ≡ state.old.tables.defs }
    ensures open { (HasFailed WriteRefusal.Fault result → ⊥) → K.is_open keeper.new }
    ensures lasts { Lasts (K.damage keeper.old) (K.damage keeper.new) (K.faults keeper.old)
        (K.faults keeper.new) (HasFailed WriteRefusal.Fault result) }
{
    let waiting = waiting_in(state.counts);
    let group = state.me.group.as_str();
    match run_write(alloc, config, group, &mut state.tables, tx, waiting) {
        Ok(dones) => keep_or_undo(alloc, config, state, keeper, writer, number, dones),
        Err(broken) => Err(refusal_of(broken)),
    }
}

/// Makes a writer's numbered write: an own write of the node, as one act in one commit. A repeat of
/// the writer's last write is told its answer again. Where it is refused, or the keeper fails, or
/// memory is wanting, the node has what it had (the numbers of writers and the order of refusals
/// are symds' own).
pub fn write<K: Keeper>(
    alloc: Global,
    config: &Config,
    state: &mut State,
    keeper: &mut K,
    writer: &str,
    number: u64,
    tx: &[TxRow],
) -> Result<Written, WriteRefusal>
    requires config { IsSound config.now }
    requires state { Fits config.now state.old }
    requires open { K.is_open keeper.old }
    requires asked { IsAsked config.now (meaning_of state.old)
        (Write (chars writer.now) number tx.now) }
    ensures ends { Ends config.now (kept_with state.old (K.keeping keeper.old))
        (kept_with state.new (K.keeping keeper.new))
        (writes.write_act config.now (meaning_of state.old) (chars writer.now) number tx.now)
        WriteRefusal.Fault (writes.write_answer config.now (meaning_of state.old)
        (chars writer.now) number tx.now) result }
    ensures tables { state.new.tables.defs ≡ state.old.tables.defs }
    ensures open { (HasFailed WriteRefusal.Fault result → ⊥) → K.is_open keeper.new }
    ensures lasts { Lasts (K.damage keeper.old) (K.damage keeper.new) (K.faults keeper.old)
        (K.faults keeper.new) (HasFailed WriteRefusal.Fault result) }
{
    if tx.len() > MOST_WRITE_ROWS {
        return Err(WriteRefusal::TooManyRows);
    }
    if let Some(answer) = judge_number(state, writer, number) {
        return answer;
    }
    next_write(alloc, config, state, keeper, writer, number, tx)
}
