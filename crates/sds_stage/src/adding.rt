//! Nodes that begin.
ghost use Rattle.std.specs.Prelude.{◌≡◌, [], None, IfOk, IsTrue, OnOk};
ghost use Rattle.sds_outside.specs.MemKeeping.{IsKeptOpen, kept_told};
ghost use Rattle.sds_types.specs.declared.world_event.WorldEvent.TheVariants as event;
ghost use Rattle.sds_trade.specs.rules.Sound.{IsSound};
ghost use Rattle.sds_history.specs.world.Worlds.{World, new_node, node_at};
ghost use Rattle.sds_nodelaws.specs.Asked.{is_named_peer};
ghost use Rattle.sds_node.specs.Meaning.{IsNode};
ghost use Rattle.sds_stage.specs.Standing.{Stands};

use crate::Stage;
use sds_base::{List, NoMemory};
use sds_node::Node;
use sds_outside::MemKeeper;
use sds_types::Config;
use sds_value::Peer;
use std::alloc::Global;

impl Stage {
    ghost use Rattle.sds_stage.specs.Playing.{HasPlayed, IsStage, PlaysWorld};

    /// A node is made, with empty tables, over its own keeper. Its group is one of the configuration,
    /// and no node has its id.
    pub fn add(&mut self, me: Peer) -> Result<(), NoMemory>
        requires stage { IsStage self.old }
        requires names { IsTrue (is_named_peer me) }
        ensures stage { IsStage self.new }
        ensures config { self.new.config ≡ self.old.config }
        ensures noise { self.new.noise ≡ self.old.noise }
        ensures plays { OnOk result ((world : World) → PlaysWorld self.old world
            → node_at world me.id ≡ None
            → HasPlayed self.old self.new [] [] world (event.Node me)) }
    {
        let config = self.config.copy(self.alloc)?;
        let node = begin_new(self.alloc, config, me)?;
        self.nodes.push(node)?;
        Ok(())
    }
}

/// A new node, over a keeper that has nothing and won't fail.
fn begin_new(alloc: Global, config: Config, me: Peer) -> Result<Node<MemKeeper>, NoMemory>
    requires config { IsSound config }
    requires names { IsTrue (is_named_peer me) }
    ensures node { IfOk result (λ node. IsNode IsKeptOpen kept_told node) }
    ensures stands { IfOk result (λ node. Stands config node (new_node me)) }
{
    let keeper = MemKeeper::sound(alloc, List::new(alloc))?;
    match Node::create(alloc, config, me, keeper) {
        Ok(node) => Ok(node),
        Err(_) => Err(NoMemory),
    }
}
