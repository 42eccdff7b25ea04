//! Nodes that are opened again from what they keep.
ghost use Rattle.std.specs.Prelude.{◌≡◌, ◌<◌, ◌≤◌, [], length, IfOk, OnErr, OnOk, slice_index_or, slice_set};
ghost use Rattle.std.specs.List.{All, insert};
ghost use Rattle.std.specs.Str.{chars};
ghost use Rattle.sds_outside.specs.MemKeeping.{IsKeptOpen, kept_told};
ghost use Rattle.sds_outside.specs.declared.mem_keeper.MemKeeper as keepers;
ghost use Rattle.sds_types.specs.declared.world_event.WorldEvent.TheVariants as event;
ghost use Rattle.sds_trade.specs.rules.Sound.{IsSound};
ghost use Rattle.sds_history.specs.world.Calling.{armed};
ghost use Rattle.sds_history.specs.world.Worlds.{Node as Stood};
ghost use Rattle.sds_node.specs.Meaning.{IsNode};
ghost use Rattle.sds_node.specs.declared.node.Node as nodes_of;
ghost use Rattle.sds_standing.specs.Standing.{KeepsFor};
ghost use Rattle.sds_stage.specs.Standing.{Stands, undamaged};

use crate::Stage;
use crate::finding::place_in;
use sds_base::NoMemory;
use sds_node::Node;
use sds_outside::MemKeeper;
use sds_told::put_crashed;
use sds_types::Config;
use std::alloc::Global;

impl Stage {
    ghost use Rattle.sds_stage.specs.Playing.{IsStage, Plays};

    /// A node is dropped, and opened again from what its keeper has.
    pub fn crash(&mut self, id: &str, out: &mut Vec<u8>) -> Result<(), NoMemory>
        requires stage { IsStage self.old }
        ensures stage { OnOk result (IsStage self.new) }
        ensures config { self.new.config ≡ self.old.config }
        ensures noise { self.new.noise ≡ self.old.noise }
        ensures plays { OnOk result (Plays self.old self.new out.old.items out.new.items
            (event.Crash (chars id.now))) }
    {
        let Some(place) = place_in(&self.nodes, id) else {
            return put_crashed(id, out);
        };
        let config = self.config.copy(self.alloc)?;
        crash_at(self.alloc, config, &mut self.nodes, place)?;
        put_crashed(id, out)
    }

    /// A fault is armed at the keeper of a node, after those that are armed already: the commit that
    /// meets it fails, and `stands` says whether its edits stand all the same. The node is opened
    /// again.
    pub fn fault(&mut self, id: &str, stands: bool) -> Result<(), NoMemory>
        requires stage { IsStage self.old }
        ensures stage { OnOk result (IsStage self.new) }
        ensures config { self.new.config ≡ self.old.config }
        ensures noise { self.new.noise ≡ self.old.noise }
        ensures plays { OnOk result (Plays self.old self.new [] [] (event.Fault (chars id.now) stands)) }
    {
        let Some(place) = place_in(&self.nodes, id) else {
            return Ok(());
        };
        let config = self.config.copy(self.alloc)?;
        fault_at(self.alloc, config, &mut self.nodes, place, stands)
    }
}

/// The node at a place is dropped, and opened again.
fn crash_at(
    alloc: Global,
    config: Config,
    nodes: &mut Vec<Node<MemKeeper>>,
    place: usize,
) -> Result<(), NoMemory>
    requires config { IsSound config }
    requires place { place < length nodes.old.items }
    requires nodes { All (λ (node : nodes_of.Node keepers.MemKeeper). IsNode IsKeptOpen kept_told node) nodes.old.items }
    ensures nodes { All (λ (node : nodes_of.Node keepers.MemKeeper). IsNode IsKeptOpen kept_told node) nodes.new.items }
    ensures stands { OnOk result ((before : nodes_of.Node keepers.MemKeeper)
        × ((after : nodes_of.Node keepers.MemKeeper)
        × ((before ≡ slice_index_or nodes.old.items place before)
        × ((nodes.new.items ≡ slice_set nodes.old.items place after)
        × ((stood : Stood) → Stands config before stood → Stands config after stood))))) }
{
    let keeper = nodes.remove(place).close();
    let node = open_again(alloc, config, keeper)?;
    put_in(nodes, place, node)
}

/// The node at a place is dropped, and opened again with a fault that is armed at its keeper.
fn fault_at(
    alloc: Global,
    config: Config,
    nodes: &mut Vec<Node<MemKeeper>>,
    place: usize,
    stands: bool,
) -> Result<(), NoMemory>
    requires config { IsSound config }
    requires place { place < length nodes.old.items }
    requires nodes { All (λ (node : nodes_of.Node keepers.MemKeeper). IsNode IsKeptOpen kept_told node) nodes.old.items }
    ensures nodes { All (λ (node : nodes_of.Node keepers.MemKeeper). IsNode IsKeptOpen kept_told node) nodes.new.items }
    ensures faulty { OnOk result ((before : nodes_of.Node keepers.MemKeeper)
        × ((after : nodes_of.Node keepers.MemKeeper)
        × ((before ≡ slice_index_or nodes.old.items place before)
        × ((nodes.new.items ≡ slice_set nodes.old.items place after)
        × ((stood : Stood) → Stands config before stood → Stands config after (armed stood stands)))))) }
{
    let mut keeper = nodes.remove(place).close();
    keeper.arm(stands)?;
    let node = open_again(alloc, config, keeper)?;
    put_in(nodes, place, node)
}

/// Puts a node in at a place. Out of memory changes nothing.
fn put_in(
    nodes: &mut Vec<Node<MemKeeper>>,
    place: usize,
    node: Node<MemKeeper>,
) -> Result<(), NoMemory>
    requires { place ≤ length nodes.old.items }
    ensures ok { OnOk result (nodes.new.items ≡ insert nodes.old.items place node) }
    ensures err { OnErr result (nodes.new.items ≡ nodes.old.items) }
{
    nodes.insert(place, node)?;
    Ok(())
}

/// A node of the records that a keeper has.
fn open_again(alloc: Global, config: Config, keeper: MemKeeper) -> Result<Node<MemKeeper>, NoMemory>
    requires { IsSound config }
    ensures node { IfOk result (λ node. IsNode IsKeptOpen kept_told node) }
    ensures stands { IfOk result (λ node. (stood : Stood)
        → KeepsFor kept_told undamaged config keeper stood → Stands config node stood) }
{
    match Node::open(alloc, config, keeper) {
        Ok(node) => Ok(node),
        Err(_) => Err(NoMemory),
    }
}
