//! Triggers, and what joins them to routers.
use sds_base::{NoMemory, Twin, Txt};
use std::alloc::Global;

/// Which changes of a table are captured, and in which channel they go (the SymmetricDS guide's chapter on triggers).
#[derive(Debug, Drop)]
pub struct TriggerDef {
    pub id: Txt,
    /// The place of the table.
    pub source_table: u32,
    /// The place of the channel.
    pub channel: u32,
    pub sync_on_insert: bool,
    pub sync_on_update: bool,
    pub sync_on_delete: bool,
    /// Whether rows that a batch brought are captured too.
    pub sync_on_incoming_batch: bool,
}

/// Joins a trigger to a router.
#[derive(Clone, Copy, Debug, PartialEq, Eq)]
pub struct TriggerRouterDef {
    /// The place of the trigger.
    pub trigger: u32,
    /// The place of the router.
    pub router: u32,
    pub enabled: bool,
    /// Whether a change may go back to the node that it came from.
    pub ping_back_enabled: bool,
}

impl Twin for TriggerDef {
    fn twin(&self, alloc: Global) -> Result<TriggerDef, NoMemory> {
        Ok(TriggerDef {
            id: self.id.twin(alloc)?,
            source_table: self.source_table,
            channel: self.channel,
            sync_on_insert: self.sync_on_insert,
            sync_on_update: self.sync_on_update,
            sync_on_delete: self.sync_on_delete,
            sync_on_incoming_batch: self.sync_on_incoming_batch,
        })
    }
}

impl Twin for TriggerRouterDef {
    fn twin(&self, _alloc: Global) -> Result<TriggerRouterDef, NoMemory> {
        Ok(*self)
    }
}
