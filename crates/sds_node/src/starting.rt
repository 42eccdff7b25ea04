//! Nodes that begin, and nodes that are opened again.
ghost use Rattle.std.specs.Prelude.{◌≡◌, [], ℕ, true, Err, Ok, Some};
ghost use Rattle.std.specs.Prelude.{IfErr, IfOk, IfSome, IsTrue, OnOk};
ghost use Rattle.sds_outside.specs.Keepings.{MayFail};
ghost use Rattle.sds_trade.specs.rules.Places.{is_among};
ghost use Rattle.sds_trade.specs.rules.Sound.{IsSound};
ghost use Rattle.sds_history.specs.history.States.{new_state};
ghost use Rattle.sds_image.specs.Meaning.{meaning_of};
ghost use Rattle.sds_nodelaws.specs.Asked.{is_named_peer};
ghost use Rattle.sds_types.specs.declared.registration.CreateRefusal as refused;
ghost use Rattle.sds_commit.specs.Commits.{Commits};
ghost use Rattle.sds_commit.specs.Ends.{Lasts};
ghost use Rattle.sds_node.specs.Going.{AreUnread, IsCause};
ghost use Rattle.sds_node.specs.Starting.{HasBegun, IsRefusal, Stands, done_of, own_edit};

use crate::Node;
use crate::keeping::fault_of;
use crate::settling::read_kept;
use sds_base::{List, NoMemory, Txt};
use sds_commit::{Uncommitted, commit, push_put};
use sds_image::{Part, State};
use sds_outside::{KeepFail, Keeper};
use sds_rows::Tables;
use sds_types::{Config, Counts, CreateRefusal, NodeFault};
use sds_value::Peer;
use std::alloc::Global;

impl<K: Keeper> Node<K> {
    ghost use Rattle.sds_node.specs.Meaning.{IsNode};
    ghost use Rattle.sds_node.specs.Starting.{HasFailedAtCreate, HasFailedAtOpen, IsCreated, keeper_after};

    /// Makes a node of a keeper that has no records: its first record is its own. On a refusal the
    /// keeper is given back.
    ///
    /// Refusals, in this order: a record stands; the configuration hasn't the node's group; a fault
    /// of the keeper, after which the node's record may stand.
    pub fn create(
        alloc: Global,
        config: Config,
        me: Peer,
        mut keeper: K,
    ) -> Result<Node<K>, (CreateRefusal, K)>
        requires sound { IsSound config }
        requires names { IsTrue (is_named_peer me) }
        ensures created { IfOk result (λ node. IsNode K.is_open K.keeping node
            × IsCreated config me node) }
        ensures told { IfOk result (λ node. IfSome (K.keeping keeper).records (λ told. told ≡ [])
            × Commits (own_edit me) (K.keeping keeper) (K.keeping node.keeper) (Ok tt)) }
        ensures refused { IfErr result (λ refused. IsRefusal config me (K.keeping keeper)
            (K.damage keeper) (K.keeping refused.1) refused.0) }
        ensures lasts { Lasts (K.damage keeper) (K.damage (keeper_after result))
            (K.faults keeper) (K.faults (keeper_after result)) (HasFailedAtCreate result) }
    {
        match begin(alloc, &config, me, &mut keeper) {
            Ok(state) => Ok(Node {
                alloc,
                config,
                state,
                keeper,
                sure: true,
            }),
            Err(refusal) => Err((refusal, keeper)),
        }
    }

    /// Opens a node of the records that its keeper has. On a refusal the keeper is given back.
    ///
    /// Refusals: the keeper fails or is damaged; or its records tell no state, by the record of a
    /// key, which is empty where the node's own record is missing.
    pub fn open(alloc: Global, config: Config, mut keeper: K) -> Result<Node<K>, (NodeFault, K)>
        requires sound { IsSound config }
        ensures opened { IfOk result (λ node. IsNode K.is_open K.keeping node
            × ((node.sure ≡ true) × (node.config ≡ config))) }
        ensures told { K.keeping (keeper_after result) ≡ K.keeping keeper }
        ensures cause { IfErr result (λ refused. IsCause (AreUnread config) (K.keeping keeper)
            (K.damage keeper) refused.0) }
        ensures lasts { Lasts (K.damage keeper) (K.damage (keeper_after result))
            (K.faults keeper) (K.faults (keeper_after result)) (HasFailedAtOpen result) }
    {
        match read_kept(alloc, &config, &mut keeper) {
            Ok(state) => Ok(Node {
                alloc,
                config,
                state,
                keeper,
                sure: true,
            }),
            Err(fault) => Err((fault, keeper)),
        }
    }
}

/// Puts the record of a node into a keeper that has none, and gives the state of a new node.
fn begin<K: Keeper>(
    alloc: Global,
    config: &Config,
    me: Peer,
    keeper: &mut K,
) -> Result<State, CreateRefusal>
    requires sound { IsSound config.now }
    requires names { IsTrue (is_named_peer me) }
    ensures begun { IfOk result (λ state. HasBegun config.now me (K.keeping keeper.new).records state) }
    ensures empty { OnOk result (IfSome (K.keeping keeper.old).records (λ told. told ≡ [])) }
    ensures told { OnOk result (Commits (own_edit me) (K.keeping keeper.old)
        (K.keeping keeper.new) (Ok tt)) }
    ensures open { OnOk result (K.is_open keeper.new) }
    ensures refused { (refusal : refused.CreateRefusal) → result ≡ Err refusal
        → IsRefusal config.now me (K.keeping keeper.old) (K.damage keeper.old)
        (K.keeping keeper.new) refusal }
    ensures lasts { Lasts (K.damage keeper.old) (K.damage keeper.new)
        (K.faults keeper.old) (K.faults keeper.new)
        (result ≡ Err (CreateRefusal.Fault NodeFault.Keeper)) }
{
    match has_record(keeper) {
        Ok(false) => {}
        Ok(true) => return Err(CreateRefusal::NotEmpty),
        Err(fail) => return Err(CreateRefusal::Fault(fault_of(fail))),
    }
    if !has_group(config, &me.group) {
        return Err(CreateRefusal::UnknownGroup);
    }
    match put_me(alloc, config, me, keeper) {
        Ok(state) => Ok(state),
        Err(end) => Err(CreateRefusal::Fault(end.into())),
    }
}

/// Whether a keeper has a record. Afterwards it is open.
fn has_record<K: Keeper>(keeper: &mut K) -> Result<bool, KeepFail>
    ensures stands { IfOk result (λ stands. IfSome (K.keeping keeper.old).records
        (λ told. Stands told stands)) }
    ensures open { OnOk result (K.is_open keeper.new) }
    ensures damaged { (at : ℕ) → result ≡ Err (KeepFail.Damaged at)
        → IfSome (K.damage keeper.old) (λ found. found ≡ Some at) }
    ensures told { K.keeping keeper.new ≡ K.keeping keeper.old }
    ensures failed { result ≡ Err KeepFail.Failed → MayFail (K.keeping keeper.old).fates }
    ensures lasts { Lasts (K.damage keeper.old) (K.damage keeper.new)
        (K.faults keeper.old) (K.faults keeper.new) (result ≡ Err KeepFail.Failed) }
{
    keeper.reopen()?;
    let first = keeper.next()?;
    Ok(first.is_some())
}

/// Whether a configuration has a group of this name.
fn has_group(config: &Config, name: &Txt) -> bool
    ensures { result ≡ is_among config.now.groups name.now }
{
    config.groups.inner().iter().any(|group| group == name)
}

/// Commits the record of a node, and gives the state of a new node.
fn put_me<K: Keeper>(
    alloc: Global,
    config: &Config,
    me: Peer,
    keeper: &mut K,
) -> Result<State, Uncommitted>
    requires { K.is_open keeper.old }
    ensures state { IfOk result (λ state. (meaning_of state ≡ new_state me)
        × (state.tables.defs ≡ config.now.tables)) }
    ensures told { Commits (own_edit me) (K.keeping keeper.old)
        (K.keeping keeper.new) (done_of result) }
    ensures open { OnOk result (K.is_open keeper.new) }
    ensures lasts { Lasts (K.damage keeper.old) (K.damage keeper.new)
        (K.faults keeper.old) (K.faults keeper.new) (result ≡ Err Uncommitted.Failed) }
{
    let state = new_state(alloc, config, me)?;
    let mut edits = Vec::new(alloc);
    push_put(alloc, config, &Part::Me(&state.me), &mut edits)?;
    commit(keeper, &edits)?;
    Ok(state)
}

/// The state of a node that has made no act.
fn new_state(alloc: Global, config: &Config, me: Peer) -> Result<State, NoMemory>
    ensures { IfOk result (λ state. (meaning_of state ≡ new_state me)
        × (state.tables.defs ≡ config.now.tables)) }
{
    Ok(State {
        me,
        counts: Counts {
            acts: 0,
            last_change: 0,
            last_batch: 0,
            last_tx: 0,
            routed: 0,
        },
        peers: List::new(alloc),
        openings: List::new(alloc),
        writers: List::new(alloc),
        tables: Tables::new(alloc, &config.tables)?,
        changes: List::new(alloc),
        batches: List::new(alloc),
        lanes: List::new(alloc),
    })
}
