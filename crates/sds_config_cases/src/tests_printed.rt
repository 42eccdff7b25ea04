// A configuration as a text, an entry a line, in which the tests state whole values.
use sds_base::{List, NoMemory, Txt};
use sds_types::{
    ChannelDef, Config, ConflictDef, LinkDef, RouterDef, TransformColumn, TransformDef, TriggerDef,
    TriggerRouterDef,
};
use sds_value::{ColumnDef, TableDef};
use std::alloc::Global;

/// What has a text of its own in a printed configuration.
trait Printed {
    fn printed(&self, alloc: Global) -> Result<String, NoMemory>;
}

impl Printed for Txt {
    fn printed(&self, alloc: Global) -> Result<String, NoMemory> {
        let name = self.as_str();
        Ok(format!(in alloc; "group {name}\n")?)
    }
}

impl Printed for LinkDef {
    fn printed(&self, alloc: Global) -> Result<String, NoMemory> {
        let LinkDef {
            source,
            target,
            action,
        } = self;
        Ok(format!(in alloc; "link {source} to {target} by {action:?}\n")?)
    }
}

impl Printed for ChannelDef {
    fn printed(&self, alloc: Global) -> Result<String, NoMemory> {
        let ChannelDef {
            id,
            processing_order,
            max_batch_size,
            max_batch_to_send,
            batch_algorithm,
        } = self;
        let id = id.as_str();
        Ok(format!(in alloc;
            "channel {id} order {processing_order} size {max_batch_size} send {max_batch_to_send} {batch_algorithm:?}\n"
        )?)
    }
}

impl Printed for ColumnDef {
    fn printed(&self, alloc: Global) -> Result<String, NoMemory> {
        let ColumnDef {
            name,
            kind,
            not_null,
            parent,
        } = self;
        let name = name.as_str();
        Ok(format!(in alloc; "  {name} {kind:?} not null {not_null} parent {parent:?}\n")?)
    }
}

impl Printed for TableDef {
    fn printed(&self, alloc: Global) -> Result<String, NoMemory> {
        let TableDef { name, columns, key } = self;
        let name = name.as_str();
        let key = key.inner().as_slice();
        let columns = all_printed(alloc, columns)?;
        let columns = columns.as_str();
        Ok(format!(in alloc; "table {name} key {key:?}\n{columns}")?)
    }
}

impl Printed for TriggerDef {
    fn printed(&self, alloc: Global) -> Result<String, NoMemory> {
        let TriggerDef {
            id,
            source_table,
            channel,
            sync_on_insert,
            sync_on_update,
            sync_on_delete,
            sync_on_incoming_batch,
        } = self;
        let id = id.as_str();
        Ok(format!(in alloc;
            "trigger {id} table {source_table} channel {channel} insert {sync_on_insert} update {sync_on_update} delete {sync_on_delete} incoming {sync_on_incoming_batch}\n"
        )?)
    }
}

impl Printed for RouterDef {
    fn printed(&self, alloc: Global) -> Result<String, NoMemory> {
        let id = self.id.as_str();
        let (source, target) = (self.source_group, self.target_group);
        let kind = self.kind;
        let expression = self.expression.as_str();
        Ok(format!(in alloc; "router {id} {source} to {target} {kind:?} {expression:?}\n")?)
    }
}

impl Printed for TriggerRouterDef {
    fn printed(&self, alloc: Global) -> Result<String, NoMemory> {
        let TriggerRouterDef {
            trigger,
            router,
            enabled,
            ping_back_enabled,
        } = self;
        Ok(format!(in alloc;
            "trigger {trigger} with router {router} enabled {enabled} ping back {ping_back_enabled}\n"
        )?)
    }
}

impl Printed for TransformColumn {
    fn printed(&self, alloc: Global) -> Result<String, NoMemory> {
        let (target, source) = (self.target.as_str(), self.source.as_str());
        let (pk, events) = (self.pk, self.include_on.as_str());
        let kind = self.kind;
        let expression = self.expression.as_str();
        Ok(format!(in alloc;
            "  {target:?} of {source:?} pk {pk} on {events} {kind:?} {expression:?}\n"
        )?)
    }
}

impl Printed for TransformDef {
    fn printed(&self, alloc: Global) -> Result<String, NoMemory> {
        let id = self.id.as_str();
        let (source, target) = (self.source_group, self.target_group);
        let point = self.point;
        let (from, into) = (self.source_table.as_str(), self.target_table.as_str());
        let (deletes, policy) = (self.delete_action, self.column_policy);
        let columns = all_printed(alloc, &self.columns)?;
        let columns = columns.as_str();
        Ok(format!(in alloc;
            "transform {id} {source} to {target} {point:?} {from} to {into} {deletes:?} {policy:?}\n{columns}"
        )?)
    }
}

impl Printed for ConflictDef {
    fn printed(&self, alloc: Global) -> Result<String, NoMemory> {
        let ConflictDef {
            source_group,
            target_group,
            target_table,
            detect_type,
            detect_expression,
            resolve_type,
            resolve_row_only,
        } = self;
        Ok(format!(in alloc;
            "conflict {source_group} to {target_group} table {target_table} {detect_type:?} {detect_expression:?} {resolve_type:?} row only {resolve_row_only}\n"
        )?)
    }
}

fn all_printed<P: Printed>(alloc: Global, items: &List<P>) -> Result<String, NoMemory> {
    let mut text = String::new(alloc);
    for item in items.inner() {
        text.push_str(item.printed(alloc)?.as_str())?;
    }
    Ok(text)
}

/// The configuration as a text: groups, tables and the like by their places, from 0.
pub fn print(alloc: Global, config: &Config) -> Result<String, NoMemory> {
    let Config {
        groups,
        links,
        channels,
        tables,
        triggers,
        routers,
        trigger_routers,
        transforms,
        conflicts,
    } = config;
    let mut text = all_printed(alloc, groups)?;
    text.push_str(all_printed(alloc, links)?.as_str())?;
    text.push_str(all_printed(alloc, channels)?.as_str())?;
    text.push_str(all_printed(alloc, tables)?.as_str())?;
    text.push_str(all_printed(alloc, triggers)?.as_str())?;
    text.push_str(all_printed(alloc, routers)?.as_str())?;
    text.push_str(all_printed(alloc, trigger_routers)?.as_str())?;
    text.push_str(all_printed(alloc, transforms)?.as_str())?;
    text.push_str(all_printed(alloc, conflicts)?.as_str())?;
    Ok(text)
}
