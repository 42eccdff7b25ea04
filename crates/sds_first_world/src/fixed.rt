ghost use Rattle.std.specs.Prelude.{◌≡◌, ◌∷◌, [], IfOk};
ghost use Rattle.sds_first_spec.specs.One.{one, pair_table, data_channel, pair_trigger, down_router};

use crate::words::word;
use sds_base::{List, NoMemory};
use sds_types::{
    Action, Algorithm, ChannelDef, Config, LinkDef, RouterDef, RouterExpression, RouterKind,
    TriggerDef, TriggerRouterDef,
};
use sds_value::{ColumnDef, Kind, TableDef};
use std::alloc::Global;

/// The one configuration that a rehearsal has until the configuration file is read.
pub fn one(alloc: Global) -> Result<Config, NoMemory>
    ensures { IfOk result (λ config. config ≡ one) }
{
    Ok(Config {
        groups: pair(word(alloc, "corp")?, word(alloc, "store")?, alloc)?,
        links: single(
            alloc,
            LinkDef {
                source: 0,
                target: 1,
                action: Action::P,
            },
        )?,
        channels: single(alloc, data_channel(alloc)?)?,
        tables: single(alloc, pair_table(alloc)?)?,
        triggers: single(alloc, pair_trigger(alloc)?)?,
        routers: single(alloc, down_router(alloc)?)?,
        trigger_routers: single(
            alloc,
            TriggerRouterDef {
                trigger: 0,
                router: 0,
                enabled: true,
                ping_back_enabled: false,
            },
        )?,
        transforms: List::new(alloc),
        conflicts: List::new(alloc),
    })
}

/// The list of one item.
fn single<T: Drop>(alloc: Global, item: T) -> Result<List<T>, NoMemory>
    ensures { IfOk result (λ list. list ≡ item ∷ []) }
{
    let mut list = List::new(alloc);
    list.push(item)?;
    Ok(list)
}

/// The list of two items.
fn pair<T: Drop>(first: T, second: T, alloc: Global) -> Result<List<T>, NoMemory>
    ensures { IfOk result (λ list. list ≡ first ∷ second ∷ []) }
{
    let mut list = List::new(alloc);
    list.push(first)?;
    list.push(second)?;
    Ok(list)
}

/// The one channel.
fn data_channel(alloc: Global) -> Result<ChannelDef, NoMemory>
    ensures { IfOk result (λ channel. channel ≡ data_channel) }
{
    Ok(ChannelDef {
        id: word(alloc, "data")?,
        processing_order: 1,
        max_batch_size: 10_000,
        max_batch_to_send: 10_000,
        batch_algorithm: Algorithm::Default,
    })
}

/// The one table: a number, which is the key, and a text.
fn pair_table(alloc: Global) -> Result<TableDef, NoMemory>
    ensures { IfOk result (λ table. table ≡ pair_table) }
{
    let id = ColumnDef {
        name: word(alloc, "id")?,
        kind: Kind::Integer,
        not_null: true,
        parent: None,
    };
    let text = ColumnDef {
        name: word(alloc, "text")?,
        kind: Kind::Varchar(40),
        not_null: false,
        parent: None,
    };
    Ok(TableDef {
        name: word(alloc, "pair")?,
        columns: pair(id, text, alloc)?,
        key: single(alloc, 0)?,
    })
}

/// The trigger of the one table.
fn pair_trigger(alloc: Global) -> Result<TriggerDef, NoMemory>
    ensures { IfOk result (λ trigger. trigger ≡ pair_trigger) }
{
    Ok(TriggerDef {
        id: word(alloc, "pair")?,
        source_table: 0,
        channel: 0,
        sync_on_insert: true,
        sync_on_update: true,
        sync_on_delete: true,
        sync_on_incoming_batch: false,
    })
}

/// The router from the head office to the stores.
fn down_router(alloc: Global) -> Result<RouterDef, NoMemory>
    ensures { IfOk result (λ router. router ≡ down_router) }
{
    Ok(RouterDef {
        id: word(alloc, "down")?,
        source_group: 0,
        target_group: 1,
        kind: RouterKind::Default,
        expression: word(alloc, "")?,
        parsed: RouterExpression::Everything,
    })
}
