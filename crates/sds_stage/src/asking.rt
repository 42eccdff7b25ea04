//! What is asked of the nodes of a rehearsal.
ghost use Rattle.std.specs.Prelude.{◌≡◌, length};
ghost use Rattle.std.specs.Str.{chars};
ghost use Rattle.sds_history.specs.world.Worlds.{World};
ghost use Rattle.sds_screen.specs.Causes.{is_node};

use crate::Stage;
use crate::finding::place_in;
use sds_types::Config;
use std::alloc::Global;

impl Stage {
    ghost use Rattle.sds_stage.specs.Playing.{PlaysWorld};

    /// The configuration of all nodes.
    pub fn config(&self) -> &Config
        ensures { result.now ≡ self.now.config }
    {
        &self.config
    }

    /// What all nodes allocate with.
    pub fn alloc(&self) -> Global {
        self.alloc
    }

    /// Whether a node has this id.
    pub fn has_node(&self, id: &str) -> bool
        ensures { (world : World) → PlaysWorld self.now world
            → result ≡ is_node world (chars id.now) }
    {
        place_in(&self.nodes, id).is_some()
    }

    /// How many nodes there are.
    pub fn node_count(&self) -> usize
        ensures { (world : World) → PlaysWorld self.now world → result ≡ length world.nodes }
    {
        self.nodes.len()
    }
}
