//! The records that a keeper has, read whole.
ghost use Rattle.std.specs.Prelude.{◌≡◌, ℕ, List, Err, Some, IfOk, IfSome, OnOk};
ghost use Rattle.sds_outside.specs.Keepings.{MayFail};
ghost use Rattle.sds_outside.specs.Records.{Record};
ghost use Rattle.sds_commit.specs.Ends.{Lasts};
ghost use Rattle.sds_node.specs.Faults.{fault_of_fail};

use sds_base::{Bytes, List};
use sds_outside::{KeepFail, Keeper};
use sds_types::NodeFault;
use std::alloc::Global;

/// The records of a keeper, in the byte order of their keys. Afterwards it is open.
pub(crate) fn kept_records<K: Keeper>(
    alloc: Global,
    keeper: &mut K,
) -> Result<List<(Bytes, Bytes)>, KeepFail>
    ensures all { IfOk result (λ all. (told : List Record)
        → (K.keeping keeper.old).records ≡ Some told → told ≡ all) }
    ensures open { OnOk result (K.is_open keeper.new) }
    ensures told { K.keeping keeper.new ≡ K.keeping keeper.old }
    ensures failed { result ≡ Err KeepFail.Failed → MayFail (K.keeping keeper.old).fates }
    ensures damaged { (at : ℕ) → result ≡ Err (KeepFail.Damaged at)
        → IfSome (K.damage keeper.old) (λ found. found ≡ Some at) }
    ensures lasts { Lasts (K.damage keeper.old) (K.damage keeper.new)
        (K.faults keeper.old) (K.faults keeper.new) (result ≡ Err KeepFail.Failed) }
{
    keeper.reopen()?;
    rest_of(alloc, keeper)
}

/// The records that the reading which runs will still give.
fn rest_of<K: Keeper>(alloc: Global, keeper: &mut K) -> Result<List<(Bytes, Bytes)>, KeepFail>
    requires { K.is_open keeper.old }
    ensures all { IfOk result (λ all. (told : List Record)
        → K.unread keeper.old ≡ Some told → told ≡ all) }
    ensures open { OnOk result (K.is_open keeper.new) }
    ensures told { K.keeping keeper.new ≡ K.keeping keeper.old }
    ensures failed { result ≡ Err KeepFail.Failed → MayFail (K.keeping keeper.old).fates }
    ensures not_damaged { (at : ℕ) → result ≡ Err (KeepFail.Damaged at) → ⊥ }
    ensures lasts { Lasts (K.damage keeper.old) (K.damage keeper.new)
        (K.faults keeper.old) (K.faults keeper.new) (result ≡ Err KeepFail.Failed) }
{
    let mut all = List::new(alloc);
    // No memory holds as many records as this has turns.
    for _turn in 0..u64::MAX {
        match keeper.next()? {
            Some(record) => all.push(record)?,
            None => return Ok(all),
        }
    }
    Err(KeepFail::NoMemory)
}

/// A failure of a keeper, as a fault of the node.
pub(crate) fn fault_of(fail: KeepFail) -> NodeFault
    ensures { result ≡ fault_of_fail fail }
{
    match fail {
        KeepFail::Failed => NodeFault::Keeper,
        KeepFail::Damaged(at) => NodeFault::Damaged(at),
        KeepFail::NoMemory => NodeFault::NoMemory,
    }
}
