//! One commit of the edits of an act.
ghost use Rattle.std.specs.Prelude.{◌≡◌, Err};
ghost use Rattle.sds_commit.specs.Commits.{Commits};
ghost use Rattle.sds_commit.specs.Ends.{Lasts};

use sds_base::NoMemory;
use sds_outside::{Edit, KeepFail, Keeper};
use sds_types::{AckRefusal, NodeFault, PeerRefusal, RegRefusal, WriteRefusal};

/// Why a commit isn't known to stand.
#[derive(Clone, Copy, Debug, PartialEq, Eq)]
pub enum Uncommitted {
    /// The keeper failed, and its count of faults rose: the edits stand, all of them, or none does.
    Failed,
    /// Memory was wanting: the records are as before.
    NoMemory,
}

impl From<NoMemory> for Uncommitted {
    ghost use Rattle.sds_commit.specs.declared.committing.Uncommitted.TheVariants as end;

    ghost from_gives = { λ _ e. e ≡ end.NoMemory };

    fn from(_: NoMemory) -> Uncommitted {
        Uncommitted::NoMemory
    }
}

impl From<Uncommitted> for NodeFault {
    ghost use Rattle.sds_commit.specs.Faults.{fault_of};

    ghost from_gives = { λ end fault. fault ≡ fault_of end };

    fn from(end: Uncommitted) -> NodeFault {
        match end {
            Uncommitted::Failed => NodeFault::Keeper,
            Uncommitted::NoMemory => NodeFault::NoMemory,
        }
    }
}

impl From<Uncommitted> for RegRefusal {
    ghost use Rattle.sds_types.specs.declared.registration.RegRefusal.TheVariants.{Fault};
    ghost use Rattle.sds_commit.specs.Faults.{fault_of};

    ghost from_gives = { λ end refusal. refusal ≡ Fault (fault_of end) };

    fn from(end: Uncommitted) -> RegRefusal {
        RegRefusal::Fault(end.into())
    }
}

impl From<Uncommitted> for PeerRefusal {
    ghost use Rattle.sds_types.specs.declared.load_answer.PeerRefusal.TheVariants.{Fault};
    ghost use Rattle.sds_commit.specs.Faults.{fault_of};

    ghost from_gives = { λ end refusal. refusal ≡ Fault (fault_of end) };

    fn from(end: Uncommitted) -> PeerRefusal {
        PeerRefusal::Fault(end.into())
    }
}

impl From<Uncommitted> for AckRefusal {
    ghost use Rattle.sds_types.specs.declared.ack.AckRefusal.TheVariants.{Fault};
    ghost use Rattle.sds_commit.specs.Faults.{fault_of};

    ghost from_gives = { λ end refusal. refusal ≡ Fault (fault_of end) };

    fn from(end: Uncommitted) -> AckRefusal {
        AckRefusal::Fault(end.into())
    }
}

impl From<Uncommitted> for WriteRefusal {
    ghost use Rattle.sds_types.specs.declared.write_answer.WriteRefusal.TheVariants.{Fault};
    ghost use Rattle.sds_commit.specs.Faults.{fault_of};

    ghost from_gives = { λ end refusal. refusal ≡ Fault (fault_of end) };

    fn from(end: Uncommitted) -> WriteRefusal {
        WriteRefusal::Fault(end.into())
    }
}

/// Commits the edits of an act, all at once.
pub fn commit<K: Keeper>(keeper: &mut K, edits: &[Edit]) -> Result<(), Uncommitted>
    requires { K.is_open keeper.old }
    ensures told { Commits edits.now (K.keeping keeper.old) (K.keeping keeper.new) result }
    ensures open { (result ≡ Err Uncommitted.Failed → ⊥) → K.is_open keeper.new }
    ensures lasts { Lasts (K.damage keeper.old) (K.damage keeper.new)
        (K.faults keeper.old) (K.faults keeper.new) (result ≡ Err Uncommitted.Failed) }
{
    match keeper.commit(edits) {
        Ok(()) => Ok(()),
        Err(KeepFail::NoMemory) => Err(Uncommitted::NoMemory),
        Err(KeepFail::Failed) => Err(Uncommitted::Failed),
        Err(KeepFail::Damaged(_)) => unreachable!(),
    }
}
