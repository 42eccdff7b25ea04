//! Whether the keeper failed in a call, by the call's result.
ghost use Rattle.std.specs.Prelude.{◌↔◌, IsTrue};
ghost use Rattle.sds_commit.specs.Ends.{HasFailed};

use sds_types::{AckRefusal, NodeFault, PeerRefusal, RegRefusal, WriteRefusal};

/// Whether the keeper failed in a call that has to do with a registration.
pub(crate) fn registering_failed<T>(end: &Result<T, RegRefusal>) -> bool
    ensures { IsTrue result ↔ HasFailed RegRefusal.Fault end.now }
{
    matches!(end, Err(RegRefusal::Fault(NodeFault::Keeper)))
}

/// Whether the keeper failed in a call that has to do with a write.
pub(crate) fn writing_failed<T>(end: &Result<T, WriteRefusal>) -> bool
    ensures { IsTrue result ↔ HasFailed WriteRefusal.Fault end.now }
{
    matches!(end, Err(WriteRefusal::Fault(NodeFault::Keeper)))
}

/// Whether the keeper failed in a call that has to do with a load.
pub(crate) fn loading_failed<T>(end: &Result<T, PeerRefusal>) -> bool
    ensures { IsTrue result ↔ HasFailed PeerRefusal.Fault end.now }
{
    matches!(end, Err(PeerRefusal::Fault(NodeFault::Keeper)))
}

/// Whether the keeper failed in a call that has to do with acks.
pub(crate) fn acking_failed<T>(end: &Result<T, AckRefusal>) -> bool
    ensures { IsTrue result ↔ HasFailed AckRefusal.Fault end.now }
{
    matches!(end, Err(AckRefusal::Fault(NodeFault::Keeper)))
}

/// Whether the keeper failed in another call.
pub(crate) fn has_failed<T>(end: &Result<T, NodeFault>) -> bool
    ensures { IsTrue result ↔ HasFailed (λ fault. fault) end.now }
{
    matches!(end, Err(NodeFault::Keeper))
}
