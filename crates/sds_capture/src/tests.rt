//! Which steps are captured: by table, event, group, and where a batch brought them.
use crate::capture::channel_of;
use crate::captured;
use sds_base::{List, NoMemory, Txt};
use sds_rows::{Done, Tables};
use sds_types::{
    Config, Key, RouterDef, RouterExpression, RouterKind, Row, RowStep, TriggerDef,
    TriggerRouterDef,
};
use sds_value::{ColumnDef, Event, Kind, TableDef, Value};
use std::alloc::Global;
use std::test::Fail;

fn trigger(
    alloc: Global,
    table: u32,
    channel: u32,
    sync_on_update: bool,
    incoming: bool,
) -> Result<TriggerDef, NoMemory> {
    Ok(TriggerDef {
        id: Txt::copied(alloc, "trigger")?,
        source_table: table,
        channel,
        sync_on_insert: true,
        sync_on_update,
        sync_on_delete: table == 0,
        sync_on_incoming_batch: incoming,
    })
}

fn router(alloc: Global, source_group: u32, target_group: u32) -> Result<RouterDef, NoMemory> {
    Ok(RouterDef {
        id: Txt::copied(alloc, "router")?,
        source_group,
        target_group,
        kind: RouterKind::Default,
        expression: Txt::copied(alloc, "")?,
        parsed: RouterExpression::Everything,
    })
}

fn join(trigger: u32, router: u32, enabled: bool) -> TriggerRouterDef {
    TriggerRouterDef {
        trigger,
        router,
        enabled,
        ping_back_enabled: false,
    }
}

fn groups(alloc: Global) -> Result<List<Txt>, NoMemory> {
    let mut groups = List::new(alloc);
    for name in ["corp", "store", "bank"] {
        groups.push(Txt::copied(alloc, name)?)?;
    }
    Ok(groups)
}

fn triggers(alloc: Global) -> Result<List<TriggerDef>, NoMemory> {
    let mut triggers = List::new(alloc);
    triggers.push(trigger(alloc, 0, 4, false, false)?)?;
    triggers.push(trigger(alloc, 1, 5, true, true)?)?;
    triggers.push(trigger(alloc, 2, 6, true, true)?)?;
    Ok(triggers)
}

fn routers(alloc: Global) -> Result<List<RouterDef>, NoMemory> {
    let mut routers = List::new(alloc);
    routers.push(router(alloc, 0, 1)?)?;
    routers.push(router(alloc, 1, 2)?)?;
    Ok(routers)
}

fn joins(alloc: Global) -> Result<List<TriggerRouterDef>, NoMemory> {
    let mut joins = List::new(alloc);
    joins.push(join(0, 0, true))?;
    joins.push(join(1, 1, true))?;
    joins.push(join(2, 0, false))?;
    Ok(joins)
}

/// Groups corp, store and bank, with a router from each of the first two to the next. The trigger on
/// table 0 doesn't capture updates and is joined to the first router; that on table 1 doesn't capture
/// deletes, captures incoming rows, and is joined to the second; that on table 2 is joined by a
/// disabled entry alone.
fn config(alloc: Global) -> Result<Config, NoMemory> {
    Ok(Config {
        groups: groups(alloc)?,
        links: List::new(alloc),
        channels: List::new(alloc),
        tables: List::new(alloc),
        triggers: triggers(alloc)?,
        routers: routers(alloc)?,
        trigger_routers: joins(alloc)?,
        transforms: List::new(alloc),
        conflicts: List::new(alloc),
    })
}

fn step_of(alloc: Global, event: Event, table: u32) -> RowStep {
    let row = Row(List::new(alloc));
    let key = Key(List::new(alloc));
    match event {
        Event::Insert => RowStep::Insert { table, row },
        Event::Update => RowStep::Update { table, key, row },
        Event::Delete => RowStep::Delete { table, key },
    }
}

#[test]
fn steps_are_captured_by_what_happened(rt: HostRuntime) -> Result<(), Fail> {
    let alloc = rt.alloc();
    let config = config(alloc)?;
    let cases = [
        // The group, whether a batch brought it, the event, the table, and the channel.
        ("corp", false, Event::Insert, 0, Some(4)),
        ("corp", false, Event::Update, 0, None),
        ("corp", false, Event::Delete, 0, Some(4)),
        ("corp", true, Event::Insert, 0, None),
        ("store", false, Event::Insert, 0, None),
        ("bank", false, Event::Insert, 0, None),
        ("", false, Event::Insert, 0, None),
        ("store", false, Event::Insert, 1, Some(5)),
        ("store", false, Event::Update, 1, Some(5)),
        ("store", false, Event::Delete, 1, None),
        ("store", true, Event::Update, 1, Some(5)),
        ("corp", true, Event::Update, 1, None),
        // An entry that is disabled joins nothing, and no trigger stands on the last table.
        ("corp", false, Event::Insert, 2, None),
        ("corp", false, Event::Insert, 3, None),
    ];
    for (group, incoming, event, table, channel) in cases {
        let step = step_of(alloc, event, table);
        assert_eq!(rt; channel_of(&config, group, incoming, &step), channel);
    }
    Ok(())
}

/// The table item with a number as its key.
fn defs(alloc: Global) -> Result<List<TableDef>, NoMemory> {
    let mut columns = List::new(alloc);
    columns.push(ColumnDef {
        name: Txt::copied(alloc, "id")?,
        kind: Kind::Integer,
        not_null: true,
        parent: None,
    })?;
    let mut key = List::new(alloc);
    key.push(0)?;
    let mut defs = List::new(alloc);
    defs.push(TableDef {
        name: Txt::copied(alloc, "item")?,
        columns,
        key,
    })?;
    Ok(defs)
}

#[test]
fn a_step_that_was_made_is_captured(rt: HostRuntime) -> Result<(), Fail> {
    let alloc = rt.alloc();
    let mut tables = Tables::new(alloc, &defs(alloc)?)?;
    let mut values = List::new(alloc);
    values.push(Value::Integer(1))?;
    let step = RowStep::Insert {
        table: 0,
        row: Row(values),
    };
    tables.reserve(1)?;
    let broken = tables.test(&step);
    assert_eq!(rt; broken, None);
    let undo = tables.apply(step);
    let done = Done {
        step: step_of(alloc, Event::Insert, 0),
        old: None,
        undo,
    };
    let config = config(alloc)?;
    assert_eq!(rt; captured(&config, "corp", &done, false), Some(4));
    assert_eq!(rt; captured(&config, "corp", &done, true), None);
    Ok(())
}
