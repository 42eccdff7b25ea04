// A keeper in memory, which fails at the calls of two lists.
ghost use Rattle.std.specs.Prelude.{◌≡◌, ◌≤◌, ◌++◌, ◌∷◌, ℕ, [], true, false, IfOk, OnOk, OnErr, drop, slice_get};
ghost use Rattle.sds_outside.specs.Records.{IsAscending, IsAscending-prop, AreDistinct, in_key_order};
ghost use Rattle.sds_outside.specs.Causes.{next_number};
ghost use Rattle.sds_outside.specs.Stands.{left_armed, next_stand_of, stand_of};

use crate::calls::Calls;
use crate::sorted::{apply_all, sorted, twin_edits, twin_record};
use crate::{Edit, KeepFail, Keeper};
use sds_base::{Bytes, List, NoMemory};
use std::alloc::Global;

/// A commit that fails.
#[derive(Clone, Copy, Debug, PartialEq, Eq)]
pub struct FailAt {
    /// The number of the commit, counted from 1.
    pub commit: u64,
    /// Whether its edits stand all the same.
    pub stands: bool,
}

/// A keeper of records in memory. It is never damaged.
#[derive(Drop)]
pub struct MemKeeper {
    alloc: Global,
    records: Vec<(Bytes, Bytes)>,
    at: usize,
    opened: bool,
    reads: Calls,
    commits: List<FailAt>,
    commit_calls: u64,
    armed: Vec<bool>,
    faults: u64,
    ghost ordered: { IsAscending records.items } by { IsAscending-prop records.items },
}

impl MemKeeper {
    ghost use Rattle.sds_outside.specs.MemKeeping.{kept_records, kept_faults, kept_reads, kept_read_calls, kept_commits, kept_commit_calls, kept_armed, AreAsBefore};

    /// A keeper of these records, whose keys are distinct (`are_distinct` tests it). `reads` lists the
    /// numbers of the calls of `reopen` and `next` together that fail, and `commits` the commits that fail.
    /// Both are counted from 1.
    pub fn new(
        alloc: Global,
        records: List<(Bytes, Bytes)>,
        reads: List<u64>,
        commits: List<FailAt>,
    ) -> Result<MemKeeper, NoMemory>
        requires { AreDistinct records }
        ensures records { IfOk result (λ keeper. kept_records keeper ≡ Some (in_key_order records)) }
        ensures reads { IfOk result (λ keeper. kept_reads keeper ≡ reads) }
        ensures read_calls { IfOk result (λ keeper. kept_read_calls keeper ≡ 0) }
        ensures commits { IfOk result (λ keeper. kept_commits keeper ≡ commits) }
        ensures commit_calls { IfOk result (λ keeper. kept_commit_calls keeper ≡ 0) }
        ensures armed { IfOk result (λ keeper. kept_armed keeper ≡ []) }
        ensures faults { IfOk result (λ keeper. kept_faults keeper ≡ 0) }
    {
        let records = sorted(alloc, records.into_inner())?;
        Ok(MemKeeper {
            alloc,
            records,
            at: 0,
            opened: false,
            reads: Calls::new(reads),
            commits,
            commit_calls: 0,
            armed: Vec::new(alloc),
            faults: 0,
        })
    }

    /// A keeper of these records, whose keys are distinct, that never fails.
    pub fn sound(alloc: Global, records: List<(Bytes, Bytes)>) -> Result<MemKeeper, NoMemory>
        requires { AreDistinct records }
        ensures records { IfOk result (λ keeper. kept_records keeper ≡ Some (in_key_order records)) }
        ensures reads { IfOk result (λ keeper. kept_reads keeper ≡ []) }
        ensures read_calls { IfOk result (λ keeper. kept_read_calls keeper ≡ 0) }
        ensures commits { IfOk result (λ keeper. kept_commits keeper ≡ []) }
        ensures commit_calls { IfOk result (λ keeper. kept_commit_calls keeper ≡ 0) }
        ensures armed { IfOk result (λ keeper. kept_armed keeper ≡ []) }
        ensures faults { IfOk result (λ keeper. kept_faults keeper ≡ 0) }
    {
        MemKeeper::new(alloc, records, List::new(alloc), List::new(alloc))
    }

    /// Lets the first commit to come fail that isn't to fail yet; `stands` says whether its edits stand
    /// all the same. Out of memory changes nothing.
    pub fn arm(&mut self, stands: bool) -> Result<(), NoMemory>
        ensures armed { OnOk result (kept_armed self.new ≡ kept_armed self.old ++ stands ∷ []) }
        ensures no_memory { OnErr result (kept_armed self.new ≡ kept_armed self.old) }
        ensures rest { AreAsBefore self.old self.new }
    {
        self.armed.push(stands)?;
        Ok(())
    }

    /// Counts a commit: whether it stands, where it fails.
    fn next_stand(&mut self) -> Option<bool>
        ensures stand { result ≡ next_stand_of self.old.commits self.new.commit_calls self.old.armed.items }
        ensures armed { self.new.armed.items
            ≡ left_armed self.old.commits self.new.commit_calls self.old.armed.items }
        ensures rest { self.new ≡ record self.old {
          commit_calls = next_number self.old.commit_calls;
          armed = self.new.armed;
        } }
    {
        self.commit_calls = self.commit_calls.saturating_add(1);
        let listed = stand_of(self.commits.inner(), self.commit_calls);
        if listed.is_some() {
            return listed;
        }
        take_armed(&mut self.armed)
    }

    /// Counts a fault, after which the keeper isn't open.
    fn fault(&mut self) -> KeepFail
        ensures failed { result ≡ KeepFail.Failed }
        ensures later { self.old.faults ≤ self.new.faults }
        ensures rest { self.new ≡ record self.old { opened = false; faults = next_number self.old.faults } }
    {
        self.opened = false;
        self.faults = self.faults.saturating_add(1);
        KeepFail::Failed
    }
}

/// Takes the first of the armed commits, if there is one.
fn take_armed(armed: &mut Vec<bool>) -> Option<bool>
    ensures first { result ≡ slice_get armed.old.items 0 }
    ensures rest { armed.new.items ≡ drop 1 armed.old.items }
{
    if armed.is_empty() {
        return None;
    }
    Some(armed.remove(0))
}

/// Whether the failing commit of this number stands, or none where it doesn't fail.
fn stand_of(commits: &[FailAt], number: u64) -> Option<bool>
    ensures { result ≡ stand_of commits.now number }
{
    for fail in commits {
        if fail.commit == number {
            return Some(fail.stands);
        }
    }
    None
}

impl Keeper for MemKeeper {
    ghost use Rattle.std.specs.Prelude.{◌↔◌, Some, None, IsTrue, IsOk, OnOk, IsErrOf};
    ghost use Rattle.sds_outside.specs.Causes.{Rose};
    ghost use Rattle.sds_outside.specs.Keepings.{FailsAs, MayFail, NoneFails, with_edits};
    ghost use Rattle.sds_outside.specs.Records.{told_edited, told_ended, Gives};
    ghost use Rattle.sds_outside.specs.MemKeeping.{kept_fates, kept_records, kept_told, kept_unread, kept_faults, IsKeptOpen, read_fails, next_stand, CountsRead, CountsCommit};

    ghost keeping = { kept_told };

    ghost unread = { kept_unread };

    ghost is_open = { IsKeptOpen };

    ghost damage = { λ k. Some None };

    ghost faults = { kept_faults };

    fn reopen(&mut self) -> Result<(), KeepFail>
        ensures opens { OnOk result (IsKeptOpen self.new) }
        ensures unread { OnOk result (kept_unread self.new ≡ kept_records self.old) }
        ensures keeping { kept_told self.new ≡ kept_told self.old }
        ensures ok { read_fails self.old ≡ false → IsOk result }
        ensures told { IsErrOf result KeepFail.Failed → Rose (kept_faults self.old) (kept_faults self.new) × MayFail (kept_fates self.old) }
        ensures failed { IsTrue (read_fails self.old) → IsErrOf result KeepFail.Failed }
        ensures later { kept_faults self.old ≤ kept_faults self.new }
        ensures quiet { OnOk result (kept_faults self.new ≡ kept_faults self.old) }
        ensures counted { CountsRead self.old self.new }
    {
        if self.reads.next_fails() {
            return Err(self.fault());
        }
        self.at = 0;
        self.opened = true;
        Ok(())
    }

    fn next(&mut self) -> Result<Option<(Bytes, Bytes)>, KeepFail>
        requires { IsKeptOpen self.old }
        ensures gives { IfOk result (λ next. IsKeptOpen self.new × Gives (kept_unread self.old) next (kept_unread self.new)) }
        ensures not_damaged { (at : ℕ) → IsErrOf result (KeepFail.Damaged at) → ⊥ }
        ensures no_memory { IsErrOf result KeepFail.NoMemory → IsKeptOpen self.new × (kept_unread self.new ≡ kept_unread self.old) }
        ensures keeping { kept_told self.new ≡ kept_told self.old }
        ensures failed { IsErrOf result KeepFail.Failed ↔ IsTrue (read_fails self.old) }
        ensures later { kept_faults self.old ≤ kept_faults self.new }
        ensures told { IsErrOf result KeepFail.Failed → Rose (kept_faults self.old) (kept_faults self.new) × MayFail (kept_fates self.old) }
        ensures quiet { read_fails self.old ≡ false → kept_faults self.new ≡ kept_faults self.old }
        ensures counted { CountsRead self.old self.new }
    {
        if self.reads.next_fails() {
            return Err(self.fault());
        }
        let Some(record) = self.records.get(self.at) else {
            return Ok(None);
        };
        let record = twin_record(self.alloc, record)?;
        self.at += 1;
        Ok(Some(record))
    }

    fn commit(&mut self, edits: &[Edit]) -> Result<(), KeepFail>
        requires { IsKeptOpen self.old }
        ensures ok { OnOk result (IsKeptOpen self.new × (kept_told self.new ≡ with_edits edits.now (kept_told self.old)) × NoneFails (kept_fates self.old)) }
        ensures ended { OnOk result (kept_unread self.new ≡ told_ended (kept_unread self.old)) }
        ensures no_memory { IsErrOf result KeepFail.NoMemory → IsKeptOpen self.new × (kept_told self.new ≡ kept_told self.old) × (kept_unread self.new ≡ kept_unread self.old) }
        ensures not_damaged { (at : ℕ) → IsErrOf result (KeepFail.Damaged at) → ⊥ }
        ensures sound { next_stand self.old ≡ None → IsErrOf result KeepFail.Failed → ⊥ }
        ensures fails { OnOk result (next_stand self.old ≡ None) }
        ensures dropped { next_stand self.old ≡ Some false → IsErrOf result KeepFail.Failed → kept_records self.new ≡ kept_records self.old }
        ensures stood { next_stand self.old ≡ Some true → IsErrOf result KeepFail.Failed → kept_records self.new ≡ told_edited edits.now (kept_records self.old) }
        ensures told { IsErrOf result KeepFail.Failed → FailsAs (kept_fates self.old) edits.now (kept_told self.old) (kept_told self.new) }
        ensures later { kept_faults self.old ≤ kept_faults self.new }
        ensures rose { IsErrOf result KeepFail.Failed → Rose (kept_faults self.old) (kept_faults self.new) }
        ensures quiet { next_stand self.old ≡ None → kept_faults self.new ≡ kept_faults self.old }
        ensures counted { (IsErrOf result KeepFail.NoMemory → ⊥) → CountsCommit self.old self.new }
    {
        let copies = twin_edits(self.alloc, edits)?;
        if self.records.reserve(edits.len()).is_err() {
            return Err(KeepFail::NoMemory);
        }
        let stand = self.next_stand();
        if stand == Some(false) {
            return Err(self.fault());
        }
        apply_all(&mut self.records, copies);
        self.at = self.records.len();
        if stand.is_some() {
            return Err(self.fault());
        }
        Ok(())
    }

    ghost ascends = { λ k. k.ordered };
}
