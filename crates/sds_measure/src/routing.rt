//! What routing costs: changes that a `column` router sends to many peers, cut into batches.
ghost use Rattle.std.specs.Prelude.{◌≡◌, ◌<◌, ℕ, IfOk, IsTrue};
ghost use Rattle.std.specs.List.{All, AllPairs};
ghost use Rattle.sds_value.specs.Values.{fits};
ghost use Rattle.sds_trade.specs.rules.Fitting.{FitColumns};
ghost use Rattle.sds_trade.specs.rules.Places as place;
ghost use Rattle.sds_measure.specs.Fitting.{Fits};

use crate::none;
use sds_base::{List, NoMemory, Txt};
use sds_batcher::run;
use sds_router::targets;
use sds_trade::peers_are_named_once;
use sds_types::{
    Algorithm, Change, ChannelDef, ColumnTest, Config, Operand, RouterDef, RouterExpression,
    RouterKind, Row, TableRow, TriggerDef, TriggerRouterDef,
};
use sds_value::{Binary, ColumnDef, Event, Kind, Peer, TableDef, Value, read_value_fits};
use std::alloc::Global;
use std::io;
use std::rt::Clock;
use std::time::Instant;

/// The changes of one transaction.
const TRANSACTION: u64 = 5;

/// Changes that wait at a node, and the peers that they may be for.
#[derive(Drop)]
struct Work {
    config: Config,
    me: Peer,
    peers: Vec<Peer>,
    changes: Vec<Change>,
}

/// For how many peers the changes are, each peer counted for each change, and in how many batches.
#[derive(Clone, Copy, Debug)]
struct Routed {
    named: u64,
    batches: u64,
}

fn column(alloc: Global, name: &str, kind: Kind) -> Result<ColumnDef, NoMemory> {
    Ok(ColumnDef {
        name: Txt::copied(alloc, name)?,
        kind,
        not_null: true,
        parent: None,
    })
}

/// The table `sale` of an id and a store.
fn tables(alloc: Global) -> Result<List<TableDef>, NoMemory> {
    let mut columns = List::new(alloc);
    columns.push(column(alloc, "id", Kind::Integer)?)?;
    columns.push(column(alloc, "store", Kind::Varchar(10))?)?;
    let mut key = List::new(alloc);
    key.push(0)?;
    let mut tables = List::new(alloc);
    tables.push(TableDef {
        name: Txt::copied(alloc, "sale")?,
        columns,
        key,
    })?;
    Ok(tables)
}

/// Whether the store, or the old store, is the peer's external id.
fn tests(alloc: Global) -> Result<List<ColumnTest>, NoMemory> {
    let mut tests = List::new(alloc);
    for old in [false, true] {
        tests.push(ColumnTest {
            name: Txt::copied(alloc, "store")?,
            old,
            differs: false,
            operand: Operand::ExternalId,
        })?;
    }
    Ok(tests)
}

fn routers(alloc: Global) -> Result<List<RouterDef>, NoMemory> {
    let mut routers = List::new(alloc);
    routers.push(RouterDef {
        id: Txt::copied(alloc, "down")?,
        source_group: 0,
        target_group: 1,
        kind: RouterKind::Column,
        expression: Txt::copied(alloc, "store=:EXTERNAL_ID or OLD_store=:EXTERNAL_ID")?,
        parsed: RouterExpression::Tests(tests(alloc)?),
    })?;
    Ok(routers)
}

fn triggers(alloc: Global) -> Result<List<TriggerDef>, NoMemory> {
    let mut triggers = List::new(alloc);
    triggers.push(TriggerDef {
        id: Txt::copied(alloc, "sale")?,
        source_table: 0,
        channel: 0,
        sync_on_insert: true,
        sync_on_update: true,
        sync_on_delete: true,
        sync_on_incoming_batch: false,
    })?;
    Ok(triggers)
}

/// A channel whose batches are full at ten changes.
fn channels(alloc: Global) -> Result<List<ChannelDef>, NoMemory> {
    let mut channels = List::new(alloc);
    channels.push(ChannelDef {
        id: Txt::copied(alloc, "sale")?,
        processing_order: 10,
        max_batch_size: 10,
        max_batch_to_send: 10,
        batch_algorithm: Algorithm::Default,
    })?;
    Ok(channels)
}

fn groups(alloc: Global) -> Result<List<Txt>, NoMemory> {
    let mut groups = List::new(alloc);
    groups.push(Txt::copied(alloc, "corp")?)?;
    groups.push(Txt::copied(alloc, "store")?)?;
    Ok(groups)
}

/// Sales go from corp down to the stores that they are of and were of.
fn config(alloc: Global) -> Result<Config, NoMemory> {
    let mut trigger_routers = List::new(alloc);
    trigger_routers.push(TriggerRouterDef {
        trigger: 0,
        router: 0,
        enabled: true,
        ping_back_enabled: false,
    })?;
    Ok(Config {
        groups: groups(alloc)?,
        links: List::new(alloc),
        channels: channels(alloc)?,
        tables: tables(alloc)?,
        triggers: triggers(alloc)?,
        routers: routers(alloc)?,
        trigger_routers,
        transforms: List::new(alloc),
        conflicts: List::new(alloc),
    })
}

fn number(alloc: Global, number: u64) -> Result<Txt, NoMemory> {
    Ok(Txt::of(number.to_string(alloc)?))
}

fn peer(alloc: Global, id: Txt, group: &str, external: Txt) -> Result<Peer, NoMemory> {
    Ok(Peer {
        id,
        group: Txt::copied(alloc, group)?,
        external,
    })
}

/// So many stores, whose ids and external ids are their numbers from 0.
fn stores(alloc: Global, count: u64) -> Result<Vec<Peer>, NoMemory> {
    let mut stores = Vec::new(alloc);
    for place in 0..count {
        let id = number(alloc, place)?;
        stores.push(peer(alloc, id, "store", number(alloc, place)?)?)?;
    }
    Ok(stores)
}

/// The value that a text is read as. A text that isn't one of the kind is out of memory.
fn value_of(alloc: Global, kind: Kind, text: &Txt) -> Result<Value, NoMemory>
    ensures { IfOk result (λ value. IsTrue (fits kind value)) }
{
    read_value_fits();
    let text = text.as_str();
    match Value::read(alloc, kind, text, Binary::Base64) {
        Ok(value) => Ok(value),
        Err(_refused) => Err(NoMemory),
    }
}

/// The row of a sale: its id in the first column, and its store in the others.
#[tactic(auto, using(crate::proofs::Filled::row_end))]
fn row_of(alloc: Global, columns: &[ColumnDef], id: u64, store: u64) -> Result<Row, NoMemory>
    ensures { IfOk result (λ row. FitColumns columns.now row.0) }
{
    let mut values = List::new(alloc);
    for (place, column) in columns.iter().enumerate() {
        let text = number(alloc, if place == 0 { id } else { store })?;
        values.push(value_of(alloc, column.kind, &text)?)?;
    }
    Ok(Row(values))
}

/// The columns of the table at a place.
fn columns_at(defs: &[TableDef], table: u32) -> &[ColumnDef]
    ensures { result.now ≡ place.columns_at defs.now table }
{
    match defs.get(table as usize) {
        None => &[],
        Some(def) => def.columns.inner().as_slice(),
    }
}

/// The change of a number: a sale that goes from one store to the one before it.
fn change_of(alloc: Global, defs: &[TableDef], id: u64, stores: u64) -> Result<Change, NoMemory>
    requires { 0 < stores }
    ensures { IfOk result (Fits defs.now) }
{
    let columns = columns_at(defs, 0);
    let new = row_of(alloc, columns, id, id % stores)?;
    let old = row_of(alloc, columns, id, id.saturating_add(1) % stores)?;
    Ok(Change {
        id,
        tx: id.saturating_sub(1) / TRANSACTION,
        table: 0,
        event: Event::Update,
        new: Some(new),
        old: Some(old),
        channel: 0,
        source: None,
    })
}

/// So many changes.
#[tactic(auto, using(crate::proofs::Filled::change_more))]
fn changes_of(
    alloc: Global,
    defs: &[TableDef],
    count: u64,
    stores: u64,
) -> Result<Vec<Change>, NoMemory>
    requires { 0 < stores }
    ensures { IfOk result (λ changes. All (Fits defs.now) changes.items) }
{
    let mut changes = Vec::new(alloc);
    for place in 0..count {
        changes.push(change_of(alloc, defs, place.saturating_add(1), stores)?)?;
    }
    Ok(changes)
}

/// So many changes that wait at corp, and so many stores.
fn make_work(alloc: Global, count: u64, peers: u64) -> Result<Work, NoMemory>
    requires { 0 < peers }
    ensures { IfOk result (λ work. All (Fits work.config.tables) work.changes.items) }
{
    let config = config(alloc)?;
    let changes = changes_of(alloc, config.tables.inner(), count, peers)?;
    let corp = Txt::copied(alloc, "corp")?;
    Ok(Work {
        config,
        me: peer(alloc, corp, "corp", Txt::copied(alloc, "corp")?)?,
        peers: stores(alloc, peers)?,
        changes,
    })
}

/// The peers that a change is for.
fn targets_of(alloc: Global, work: &Work, change: &Change) -> Result<List<u32>, NoMemory>
    requires { Fits work.now.config.tables change.now }
    ensures { IfOk result (λ places. AllPairs (λ (a b : ℕ). a < b) places) }
{
    peers_are_named_once();
    let rows: List<TableRow> = List::new(alloc);
    let Work {
        config,
        me,
        peers,
        ..
    } = work;
    targets(alloc, config, me, &rows, change, peers)
}

/// For each change the peers that it is for.
#[tactic(auto, using(crate::proofs::Filled::places_more))]
fn all_targets(alloc: Global, work: &Work) -> Result<Vec<List<u32>>, NoMemory>
    requires { All (Fits work.now.config.tables) work.now.changes.items }
    ensures { IfOk result (λ targets. All (AllPairs (λ (a b : ℕ). a < b)) targets.items) }
{
    let mut all = Vec::new(alloc);
    for change in work.changes.as_slice() {
        all.push(targets_of(alloc, work, change)?)?;
    }
    Ok(all)
}

/// Routes the changes and cuts them into batches.
fn route(alloc: Global, work: &Work) -> Result<Routed, NoMemory>
    requires { All (Fits work.now.config.tables) work.now.changes.items }
{
    let targets = all_targets(alloc, work)?;
    let batches = run(alloc, &work.config, &work.changes, &targets, 1)?;
    let mut named = 0u64;
    for places in &targets {
        named = named.saturating_add(places.inner().len() as u64);
    }
    Ok(Routed {
        named,
        batches: batches.inner().len() as u64,
    })
}

/// Routes changes to peers, few of them or ten thousand to a hundred, and prints what came of it,
/// and where it is timed how long it took.
pub(crate) fn measure<R: Print + Clock + Alloc<A = Global>>(
    rt: &R,
    is_timed: bool,
) -> io::Result<()> {
    let (count, peers) = if is_timed {
        (10_000u64, 100u64)
    } else {
        (40, 4)
    };
    let work = make_work(rt.alloc(), count, peers).map_err(|_| none())?;
    let start = Instant::now(rt)?;
    let Routed { named, batches } = route(rt.alloc(), &work).map_err(|_| none())?;
    println!(rt; "routed {count} changes to {peers} peers, {named} named, {batches} batches")?;
    if !is_timed {
        return Ok(());
    }
    let elapsed = start.elapsed(rt)?;
    let seconds = elapsed.as_secs();
    let millis = elapsed.subsec_millis();
    let total = seconds
        .saturating_mul(1_000)
        .saturating_add(u64::from(millis))
        .max(1);
    let speed = count.saturating_mul(1_000) / total;
    println!(rt; "in {seconds}.{millis:03} s, {speed} changes/s")
}
