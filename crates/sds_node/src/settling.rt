//! A node that isn't sure reads its records again.
ghost use Rattle.std.specs.Prelude.{◌≡◌, Err, IfOk, OnOk, codes};
ghost use Rattle.sds_trade.specs.rules.Sound.{IsSound};
ghost use Rattle.sds_history.specs.history.Image.{image_of};
ghost use Rattle.sds_image.specs.Meaning.{meaning_of};
ghost use Rattle.sds_image.specs.Pairs.{pairs};
ghost use Rattle.sds_commit.specs.Ends.{Fits, Lasts};
ghost use Rattle.sds_types.specs.declared.node_fault.NodeFault as fault;
ghost use Rattle.sds_node.specs.Going.{AreBad, AreUnread, IsCause, IsReadFrom, IsUnread, Settles};

use crate::Node;
use crate::keeping::{fault_of, kept_records};
use sds_base::{Bytes, NoMemory, Same};
use sds_image::{State, StateRefusal};
use sds_outside::Keeper;
use sds_types::{Config, NodeFault};
use sds_value::Peer;
use std::alloc::Global;

impl<K: Keeper> Node<K> {
    ghost use Rattle.sds_node.specs.Meaning.{IsNode, has};

    /// Reads the records again where the node isn't sure. On a sure node it calls nothing.
    ///
    /// Refusals: the keeper fails or is damaged, or its records tell no state, or that of another
    /// node. Then the node goes on not being sure.
    pub fn settle(&mut self) -> Result<(), NodeFault>
        requires { IsNode K.is_open K.keeping self.old }
        ensures node { IsNode K.is_open K.keeping self.new }
        ensures settles { Settles K.keeping K.damage self.old self.new result }
        ensures lasts { Lasts (K.damage self.old.keeper) (K.damage self.new.keeper)
            (K.faults self.old.keeper) (K.faults self.new.keeper)
            (result ≡ Err NodeFault.Keeper) }
    {
        if self.sure {
            return Ok(());
        }
        let state = read_own(self.alloc, &self.config, &self.state.me, &mut self.keeper)?;
        self.state = state;
        self.sure = true;
        Ok(())
    }
}

/// The state that a node's records tell. Afterwards the keeper is open.
///
/// Refusals: as for reading the records of any node; and where they are another node's.
fn read_own<K: Keeper>(
    alloc: Global,
    config: &Config,
    me: &Peer,
    keeper: &mut K,
) -> Result<State, NodeFault>
    requires { IsSound config.now }
    ensures read { IfOk result (λ state. IsReadFrom config.now (K.keeping keeper.old).records state
        × ((meaning_of state).me ≡ me.now)) }
    ensures open { OnOk result (K.is_open keeper.new) }
    ensures cause { (found : fault.NodeFault) → result ≡ Err found → IsCause
        (AreBad config.now me.now) (K.keeping keeper.old) (K.damage keeper.old) found }
    ensures told { K.keeping keeper.new ≡ K.keeping keeper.old }
    ensures lasts { Lasts (K.damage keeper.old) (K.damage keeper.new)
        (K.faults keeper.old) (K.faults keeper.new) (result ≡ Err NodeFault.Keeper) }
{
    let state = match read_kept(alloc, config, keeper) {
        Ok(state) => state,
        Err(fault) => return Err(fault),
    };
    if !state.me.same(me) {
        return Err(NodeFault::BadKept(me_key(alloc)?));
    }
    Ok(state)
}

/// The state that the records of a keeper tell. Afterwards the keeper is open.
///
/// Refusals: the keeper fails or is damaged; or its records tell no state, by the record of a key.
pub(crate) fn read_kept<K: Keeper>(
    alloc: Global,
    config: &Config,
    keeper: &mut K,
) -> Result<State, NodeFault>
    requires { IsSound config.now }
    ensures read { IfOk result (λ state. IsReadFrom config.now (K.keeping keeper.old).records state) }
    ensures open { OnOk result (K.is_open keeper.new) }
    ensures cause { (found : fault.NodeFault) → result ≡ Err found → IsCause
        (AreUnread config.now) (K.keeping keeper.old) (K.damage keeper.old) found }
    ensures told { K.keeping keeper.new ≡ K.keeping keeper.old }
    ensures lasts { Lasts (K.damage keeper.old) (K.damage keeper.new)
        (K.faults keeper.old) (K.faults keeper.new) (result ≡ Err NodeFault.Keeper) }
{
    let records = match kept_records(alloc, keeper) {
        Ok(records) => records,
        Err(fail) => return Err(fault_of(fail)),
    };
    read_records(alloc, config, records.inner())
}

/// The state that records tell.
fn read_records(
    alloc: Global,
    config: &Config,
    records: &[(Bytes, Bytes)],
) -> Result<State, NodeFault>
    requires { IsSound config.now }
    ensures read { IfOk result (λ state. Fits config.now state
        × (records.now ≡ pairs (image_of config.now (meaning_of state)))) }
    ensures cause { (found : fault.NodeFault) → result ≡ Err found
        → IsUnread config.now records.now found }
{
    match State::read(alloc, config, records) {
        Ok(state) => Ok(state),
        Err(StateRefusal::BadRecord(key)) => Err(NodeFault::BadKept(key)),
        Err(StateRefusal::Contradicts(key)) => Err(NodeFault::BadKept(key)),
        Err(StateRefusal::NoMemory) => Err(NodeFault::NoMemory),
    }
}

/// The key of the record of a node itself.
fn me_key(alloc: Global) -> Result<Bytes, NoMemory>
    ensures { IfOk result (λ key. key ≡ codes "me") }
{
    Ok(Bytes::of(b"me".to_vec(alloc)?))
}
