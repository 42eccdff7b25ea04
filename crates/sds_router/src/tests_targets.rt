//! Which peers changes are for, by trigger-routers, groups, and the node that a change came from.
use crate::targets;
use crate::tests::{BARE, LOOKUP, MOVED, PUT, TAKEN, parsed};
use crate::tests_rows::{Given, change_of, peer, standing, tables};
use sds_base::{List, NoMemory, Txt};
use sds_types::{Config, RouterDef, RouterKind, TriggerDef, TriggerRouterDef};
use sds_value::Peer;
use std::alloc::Global;
use std::test::Fail;

/// A trigger-router: the places of its trigger and its router, whether it is enabled, and whether
/// changes may go back.
type Join = (u32, u32, bool, bool);

/// From the region up to corp.
const UP: Join = (0, 0, true, false);

/// From the region down to the stores.
const DOWN: Join = (0, 1, true, false);

/// The same, also back to the store that a change came from.
const DOWN_AND_BACK: Join = (0, 1, true, true);

/// The same, but disabled.
const OFF: Join = (0, 1, false, true);

/// The same, of the trigger of another table.
const OF_OTHERS: Join = (1, 1, true, true);

/// From the region down to the store of a purchase.
const TO_STORE: Join = (0, 2, true, false);

/// The same, also back to the store that a change came from.
const TO_STORE_AND_BACK: Join = (0, 2, true, true);

/// From the region down to the stores that are looked up.
const LOOKED_UP: Join = (0, 3, true, false);

/// From the region to other regions.
const AROUND: Join = (0, 4, true, false);

/// From corp down to the stores.
const OF_CORP: Join = (0, 5, true, false);

fn trigger(alloc: Global, source_table: u32) -> Result<TriggerDef, NoMemory> {
    Ok(TriggerDef {
        id: Txt::copied(alloc, "trigger")?,
        source_table,
        channel: 0,
        sync_on_insert: true,
        sync_on_update: true,
        sync_on_delete: true,
        sync_on_incoming_batch: true,
    })
}

fn router(
    alloc: Global,
    source_group: u32,
    target_group: u32,
    kind: RouterKind,
    text: &str,
) -> Result<RouterDef, NoMemory> {
    Ok(RouterDef {
        id: Txt::copied(alloc, "router")?,
        source_group,
        target_group,
        kind,
        expression: Txt::copied(alloc, text)?,
        parsed: parsed(alloc, kind, text)?,
    })
}

fn groups(alloc: Global) -> Result<List<Txt>, NoMemory> {
    let mut groups = List::new(alloc);
    for name in ["corp", "region", "store"] {
        groups.push(Txt::copied(alloc, name)?)?;
    }
    Ok(groups)
}

fn routers(alloc: Global) -> Result<List<RouterDef>, NoMemory> {
    let by_store = "STORE_ID=:EXTERNAL_ID";
    let mut routers = List::new(alloc);
    routers.push(router(alloc, 1, 0, RouterKind::Default, "")?)?;
    routers.push(router(alloc, 1, 2, RouterKind::Default, "")?)?;
    routers.push(router(alloc, 1, 2, RouterKind::Column, by_store)?)?;
    routers.push(router(alloc, 1, 2, RouterKind::LookupTable, LOOKUP)?)?;
    routers.push(router(alloc, 1, 1, RouterKind::Default, "")?)?;
    routers.push(router(alloc, 0, 2, RouterKind::Default, "")?)?;
    Ok(routers)
}

/// Corp, regions and stores, with a trigger on each table and these trigger-routers.
fn config(alloc: Global, joins: [Join; 2]) -> Result<Config, NoMemory> {
    let mut triggers = List::new(alloc);
    triggers.push(trigger(alloc, 0)?)?;
    triggers.push(trigger(alloc, 1)?)?;
    let mut trigger_routers = List::new(alloc);
    for (trigger, router, enabled, ping_back_enabled) in joins {
        trigger_routers.push(TriggerRouterDef {
            trigger,
            router,
            enabled,
            ping_back_enabled,
        })?;
    }
    Ok(Config {
        groups: groups(alloc)?,
        links: List::new(alloc),
        channels: List::new(alloc),
        tables: tables(alloc)?,
        triggers,
        routers: routers(alloc)?,
        trigger_routers,
        transforms: List::new(alloc),
        conflicts: List::new(alloc),
    })
}

/// Corp at place 0, two regions at 1 and 2, and two stores at 3 and 4.
fn peers(alloc: Global) -> Result<Vec<Peer>, NoMemory> {
    let mut peers = Vec::new(alloc);
    peers.push(peer(alloc, "corp", "corp", "corp")?)?;
    peers.push(peer(alloc, "r1", "region", "r1")?)?;
    peers.push(peer(alloc, "r2", "region", "r2")?)?;
    peers.push(peer(alloc, "s1", "store", "001")?)?;
    peers.push(peer(alloc, "s2", "store", "002")?)?;
    Ok(peers)
}

/// The places of the peers that a change of a source is for at a node. An own change has an empty
/// source.
fn told(
    alloc: Global,
    me: &Peer,
    joins: [Join; 2],
    source: &str,
    given: Given,
) -> Result<String, NoMemory> {
    let config = config(alloc, joins)?;
    let rows = standing(alloc, config.tables.inner())?;
    let mut change = change_of(alloc, config.tables.inner(), given)?;
    if !source.is_empty() {
        change.source = Some(Txt::copied(alloc, source)?);
    }
    let mut out = String::new(alloc);
    let places = targets(alloc, &config, me, &rows, &change, &peers(alloc)?)?;
    for place in places.inner() {
        let said = format!(in alloc; "{place} ")?;
        out.push_str(said.as_str())?;
    }
    Ok(out)
}

/// The same at the region `r1`.
fn told_at_region(
    alloc: Global,
    joins: [Join; 2],
    source: &str,
    given: Given,
) -> Result<String, NoMemory> {
    told(
        alloc,
        &peer(alloc, "r1", "region", "r1")?,
        joins,
        source,
        given,
    )
}

/// The same at corp.
fn told_at_corp(
    alloc: Global,
    joins: [Join; 2],
    source: &str,
    given: Given,
) -> Result<String, NoMemory> {
    told(
        alloc,
        &peer(alloc, "corp", "corp", "corp")?,
        joins,
        source,
        given,
    )
}

#[test]
fn entries_lead_from_group_to_group(rt: HostRuntime) -> Result<(), Fail> {
    for (joins, due) in [
        // Each group by its entry, and the node itself left out.
        ([UP, OFF], "0 "),
        ([UP, DOWN], "0 3 4 "),
        ([AROUND, OFF], "2 "),
        ([OF_CORP, OFF], ""),
        // Each peer once, by an enabled entry of the table's trigger.
        ([DOWN, DOWN], "3 4 "),
        ([OFF, OFF], ""),
        ([OF_OTHERS, OFF], ""),
        ([(9, 1, true, true), (0, 9, true, true)], ""),
    ] {
        let got = told_at_region(rt.alloc(), joins, "", PUT)?;
        assert_eq!(rt; got.as_str(), due, "{joins:?}");
    }
    for (joins, source, due) in [
        ([OF_CORP, OFF], "", "3 4 "),
        ([OF_CORP, OFF], "s2", "3 "),
        ([UP, DOWN], "", ""),
    ] {
        let got = told_at_corp(rt.alloc(), joins, source, PUT)?;
        assert_eq!(rt; got.as_str(), due, "{joins:?} {source}");
    }
    Ok(())
}

/// A change doesn't go back to where it came from, unless an entry that names that node lets it.
#[test]
fn changes_go_back_where_they_may(rt: HostRuntime) -> Result<(), Fail> {
    for (joins, source, due) in [
        ([UP, DOWN], "s1", "0 4 "),
        ([UP, DOWN], "corp", "3 4 "),
        ([UP, DOWN], "s9", "0 3 4 "),
        ([UP, DOWN_AND_BACK], "s1", "0 3 4 "),
        ([UP, DOWN_AND_BACK], "corp", "3 4 "),
        ([DOWN, OFF], "s2", "3 "),
        ([TO_STORE, OFF], "s1", ""),
        ([TO_STORE, DOWN_AND_BACK], "s1", "3 4 "),
        ([TO_STORE_AND_BACK, DOWN], "s2", "3 "),
        ([TO_STORE_AND_BACK, DOWN], "s1", "3 4 "),
    ] {
        let got = told_at_region(rt.alloc(), joins, source, PUT)?;
        assert_eq!(rt; got.as_str(), due, "{joins:?} {source}");
    }
    Ok(())
}

#[test]
fn expressions_are_asked(rt: HostRuntime) -> Result<(), Fail> {
    for (joins, source, given, due) in [
        ([TO_STORE, OFF], "", PUT, "3 "),
        ([TO_STORE, OFF], "", MOVED, "4 "),
        ([TO_STORE, OFF], "", TAKEN, "3 "),
        ([TO_STORE, OFF], "", BARE, ""),
        ([TO_STORE, OFF], "s1", TAKEN, ""),
        ([TO_STORE, UP], "", TAKEN, "0 3 "),
        ([LOOKED_UP, OFF], "", PUT, "4 "),
        ([LOOKED_UP, TO_STORE], "", PUT, "3 4 "),
        ([LOOKED_UP, OFF], "", MOVED, "3 "),
        ([LOOKED_UP, OFF], "s1", MOVED, ""),
    ] {
        let got = told_at_region(rt.alloc(), joins, source, given)?;
        assert_eq!(rt; got.as_str(), due, "{joins:?} {source}");
    }
    Ok(())
}
