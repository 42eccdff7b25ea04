//! The configuration of a chain of nodes.
ghost use Rattle.std.specs.Prelude.{◌≡◌, IfOk};

use crate::{
    ChannelDef, ConflictDef, LinkDef, RouterDef, TransformDef, TriggerDef, TriggerRouterDef,
};
use sds_base::{List, NoMemory, Twin, Txt};
use sds_value::TableDef;
use std::alloc::Global;

/// The whole configuration, a list for each section of the file. All nodes of a chain have the same one.
#[derive(Debug, Drop)]
pub struct Config {
    /// The names of the node groups.
    pub groups: List<Txt>,
    pub links: List<LinkDef>,
    pub channels: List<ChannelDef>,
    pub tables: List<TableDef>,
    pub triggers: List<TriggerDef>,
    pub routers: List<RouterDef>,
    pub trigger_routers: List<TriggerRouterDef>,
    pub transforms: List<TransformDef>,
    pub conflicts: List<ConflictDef>,
}

impl Config {
    /// An equal configuration.
    pub fn copy(&self, alloc: Global) -> Result<Config, NoMemory>
        ensures { IfOk result (λ copy. copy ≡ self.now) }
    {
        self.twin(alloc)
    }
}

impl Twin for Config {
    fn twin(&self, alloc: Global) -> Result<Config, NoMemory> {
        Ok(Config {
            groups: self.groups.twin(alloc)?,
            links: self.links.twin(alloc)?,
            channels: self.channels.twin(alloc)?,
            tables: self.tables.twin(alloc)?,
            triggers: self.triggers.twin(alloc)?,
            routers: self.routers.twin(alloc)?,
            trigger_routers: self.trigger_routers.twin(alloc)?,
            transforms: self.transforms.twin(alloc)?,
            conflicts: self.conflicts.twin(alloc)?,
        })
    }
}
