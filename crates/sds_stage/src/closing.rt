//! Nodes that are closed.
ghost use Rattle.std.specs.Prelude.{◌≡◌, IfOk, map};
ghost use Rattle.sds_history.specs.world.Worlds.{World};
ghost use Rattle.sds_stage.specs.Keeping.{AllKeep, keeper_of};

use crate::Stage;
use sds_base::NoMemory;
use sds_node::Node;
use sds_outside::MemKeeper;
use std::alloc::Global;
use std::collections::VecDeque;

impl Stage {
    ghost use Rattle.sds_stage.specs.Playing.{PlaysWorld};

    /// Closes every node, and gives their keepers back, in the order of the nodes.
    pub fn close(self) -> Result<Vec<MemKeeper>, NoMemory>
        ensures keep { IfOk result (λ keepers. (world : World) → PlaysWorld self world
            → AllKeep self.config keepers.items world.nodes) }
    {
        let Stage { alloc, nodes, .. } = self;
        let keepers = closed(alloc, nodes)?;
        Ok(keepers)
    }
}

/// The keepers of nodes, in their order.
fn closed(alloc: Global, nodes: Vec<Node<MemKeeper>>) -> Result<Vec<MemKeeper>, NoMemory>
    ensures { IfOk result (λ keepers. keepers.items ≡ map keeper_of nodes.items) }
{
    let mut keepers = Vec::new(alloc);
    let mut nodes = VecDeque::from(nodes);
    while let Some(node) = nodes.pop_front() {
        keepers.push(node.close())?;
    }
    Ok(keepers)
}
