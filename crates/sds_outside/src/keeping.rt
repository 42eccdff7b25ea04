// Records that outlive a crash.
ghost use Rattle.std.specs.Prelude.{◌≡◌, ◌≤◌, ℕ, List, Option, OnOk, IfOk, IfSome, IsErrOf};
ghost use Rattle.sds_outside.specs.Causes.{Rose};

use sds_base::{Bytes, NoMemory, Same, Twin};
use std::alloc::Global;

/// Puts the record of a key, or drops it where there is no body.
#[derive(Debug, Drop)]
pub struct Edit {
    /// The key of the record.
    pub key: Bytes,
    /// The record's new body, or none to drop the record.
    pub body: Option<Bytes>,
}

impl Same for Edit {
    fn same(&self, other: &Edit) -> bool {
        self.key.same(&other.key) && self.body.same(&other.body)
    }
}

impl Twin for Edit {
    fn twin(&self, alloc: Global) -> Result<Edit, NoMemory> {
        Ok(Edit {
            key: self.key.twin(alloc)?,
            body: self.body.twin(alloc)?,
        })
    }
}

/// How a call of a keeper fails.
#[derive(Clone, Copy, Debug, PartialEq, Eq)]
pub enum KeepFail {
    /// The outside failed, and the count of faults rose. The keeper has to be reopened.
    Failed,
    /// What is kept is damaged at this offset, in bytes. Only `reopen` answers it.
    Damaged(u64),
    /// Memory was wanting. The keeper is as open as it was, and its records are as before.
    NoMemory,
}

impl From<NoMemory> for KeepFail {
    ghost use Rattle.sds_outside.specs.declared.keeping.KeepFail.TheVariants as fail;

    ghost from_gives = { λ _ e. e ≡ fail.NoMemory };

    fn from(_: NoMemory) -> KeepFail {
        KeepFail::NoMemory
    }
}

/// Keeps records, each a key and a body, through crashes. What it tells of them stands in the byte
/// order of their keys, which are distinct. What is told goes on being told, and never begins to be.
pub trait Keeper {
    ghost use Rattle.sds_outside.specs.Records.{Record, IsAscending, told_ended, Gives};
    ghost use Rattle.sds_outside.specs.Keepings.{FailsAs, Keeping, MayFail, NoneFails, with_edits};

    /// The records in the byte order of their keys, and which of the commits to come fail, where the
    /// keeper tells them.
    ghost keeping: { Self → Keeping };

    /// What the reading that runs will still give, where the keeper tells it.
    ghost unread: { Self → Option (List Record) };

    /// `reopen` has answered Ok, and no call has answered `Failed` or `Damaged` since.
    ghost is_open: { Self → Type 0 };

    /// Its damage, where the keeper tells it: none, or an offset in bytes.
    ghost damage: { Self → Option (Option ℕ) };

    /// How often it failed; it never falls, and stands still at the last value of a u64.
    ghost faults: { Self → ℕ };

    /// Starts a reading of the records, from the first.
    fn reopen(&mut self) -> Result<(), KeepFail>
        ensures opens { OnOk result (is_open self.new) }
        ensures unread { OnOk result (unread self.new ≡ (keeping self.old).records) }
        ensures whole { OnOk result (IfSome (damage self.old) (λ found. found ≡ Option.None)) }
        ensures damaged { (at : ℕ) → IsErrOf result (KeepFail.Damaged at) → IfSome (damage self.old) (λ found. found ≡ Option.Some at) }
        ensures no_memory { IsErrOf result KeepFail.NoMemory → (is_open self.old → is_open self.new) × (unread self.new ≡ unread self.old) }
        ensures keeping { keeping self.new ≡ keeping self.old }
        ensures damage { damage self.new ≡ damage self.old }
        ensures later { faults self.old ≤ faults self.new }
        ensures failed { IsErrOf result KeepFail.Failed → Rose (faults self.old) (faults self.new) × MayFail (keeping self.old).fates };

    /// The next record of the reading that runs, or none where none is left.
    fn next(&mut self) -> Result<Option<(Bytes, Bytes)>, KeepFail>
        requires { is_open self.old }
        ensures gives { IfOk result (λ next. is_open self.new × Gives (unread self.old) next (unread self.new)) }
        ensures not_damaged { (at : ℕ) → IsErrOf result (KeepFail.Damaged at) → ⊥ }
        ensures no_memory { IsErrOf result KeepFail.NoMemory → is_open self.new × (unread self.new ≡ unread self.old) }
        ensures keeping { keeping self.new ≡ keeping self.old }
        ensures damage { damage self.new ≡ damage self.old }
        ensures later { faults self.old ≤ faults self.new }
        ensures failed { IsErrOf result KeepFail.Failed → Rose (faults self.old) (faults self.new) × MayFail (keeping self.old).fates };

    /// Makes all edits in order, at once. After `Failed` either all were made or none. A commit that answers
    /// Ok ends the reading: nothing is left to read.
    fn commit(&mut self, edits: &[Edit]) -> Result<(), KeepFail>
        requires { is_open self.old }
        ensures ok { OnOk result (is_open self.new × (keeping self.new ≡ with_edits edits.now (keeping self.old)) × NoneFails (keeping self.old).fates) }
        ensures ended { OnOk result (unread self.new ≡ told_ended (unread self.old)) }
        ensures no_memory { IsErrOf result KeepFail.NoMemory → is_open self.new × (keeping self.new ≡ keeping self.old) × (unread self.new ≡ unread self.old) }
        ensures fails { IsErrOf result KeepFail.Failed → FailsAs (keeping self.old).fates edits.now (keeping self.old) (keeping self.new) }
        ensures not_damaged { (at : ℕ) → IsErrOf result (KeepFail.Damaged at) → ⊥ }
        ensures damage { damage self.new ≡ damage self.old }
        ensures later { faults self.old ≤ faults self.new }
        ensures failed { IsErrOf result KeepFail.Failed → Rose (faults self.old) (faults self.new) };

    /// What is told stands in the byte order of distinct keys.
    ghost ascends: { (keeper : Self) → IfSome (keeping keeper).records IsAscending };
}
