//! Results of calls, apart from out of memory, which ends a rehearsal.
ghost use Rattle.std.specs.Prelude.{◌≡◌, IfOk};
ghost use Rattle.sds_commit.specs.Ends.{LacksMemory};

use sds_base::NoMemory;
use sds_types::{AckRefusal, NodeFault, PeerRefusal, RegRefusal, WriteRefusal};

/// The result of a call that has to do with a registration.
pub(crate) fn unless_registering_lacks<T: Drop>(
    end: Result<T, RegRefusal>,
) -> Result<Result<T, RegRefusal>, NoMemory>
    ensures { IfOk result (λ answer. (answer ≡ end) × (LacksMemory RegRefusal.Fault end → ⊥)) }
{
    match end {
        Err(RegRefusal::Fault(NodeFault::NoMemory)) => Err(NoMemory),
        answer => Ok(answer),
    }
}

/// The result of a call that has to do with a write.
pub(crate) fn unless_writing_lacks<T: Drop>(
    end: Result<T, WriteRefusal>,
) -> Result<Result<T, WriteRefusal>, NoMemory>
    ensures { IfOk result (λ answer. (answer ≡ end) × (LacksMemory WriteRefusal.Fault end → ⊥)) }
{
    match end {
        Err(WriteRefusal::Fault(NodeFault::NoMemory)) => Err(NoMemory),
        answer => Ok(answer),
    }
}

/// The result of a call that has to do with acks.
pub(crate) fn unless_acking_lacks<T: Drop>(
    end: Result<T, AckRefusal>,
) -> Result<Result<T, AckRefusal>, NoMemory>
    ensures { IfOk result (λ answer. (answer ≡ end) × (LacksMemory AckRefusal.Fault end → ⊥)) }
{
    match end {
        Err(AckRefusal::Fault(NodeFault::NoMemory)) => Err(NoMemory),
        answer => Ok(answer),
    }
}

/// The result of another call.
pub(crate) fn unless_lacking<T: Drop>(
    end: Result<T, NodeFault>,
) -> Result<Result<T, NodeFault>, NoMemory>
    ensures { IfOk result (λ answer. (answer ≡ end) × (LacksMemory (λ fault. fault) end → ⊥)) }
{
    match end {
        Err(NodeFault::NoMemory) => Err(NoMemory),
        answer => Ok(answer),
    }
}

/// The result of a call that has to do with a peer.
pub(crate) fn unless_loading_lacks<T: Drop>(
    end: Result<T, PeerRefusal>,
) -> Result<Result<T, PeerRefusal>, NoMemory>
    ensures { IfOk result (λ answer. (answer ≡ end) × (LacksMemory PeerRefusal.Fault end → ⊥)) }
{
    match end {
        Err(PeerRefusal::Fault(NodeFault::NoMemory)) => Err(NoMemory),
        answer => Ok(answer),
    }
}
