//! What the tests share: a configuration, and a node's tables, peers, batches and lanes.
ghost use Rattle.std.specs.Prelude.{◌≡◌, ◌≤◌, IfOk, IsTrue, None, OnOk, length};
ghost use Rattle.sds_types.specs.Limits.{most_rows};
ghost use Rattle.sds_types.specs.declared.row.RowStep.TheVariants.{Insert};
ghost use Rattle.sds_trade.specs.rules.Fitting.{FitColumns, FitsStep, Suits};
ghost use Rattle.sds_trade.specs.rules.StepRules.{broken_rule};
ghost use Rattle.sds_trade.specs.rules.Steps.{rows_after};
ghost use Rattle.sds_trade.specs.rules.Tables.{AreTables};

use sds_base::{List, NoMemory, Txt};
use sds_image::State;
use sds_rows::{Tables, steps_keep_tables};
use sds_rowvalues::columns_at;
use sds_types::{
    Algorithm, ChannelDef, Config, Counts, KeptPeer, LaneError, LaneIn, OutBatch, Row, RowStep,
    Rule, Standing,
};
use sds_value::{ColumnDef, Kind, Peer, TableDef, Value};
use std::alloc::Global;

fn channel(alloc: Global, id: &str, processing_order: u32) -> Result<ChannelDef, NoMemory> {
    Ok(ChannelDef {
        id: Txt::copied(alloc, id)?,
        processing_order,
        max_batch_size: 10,
        max_batch_to_send: 10,
        batch_algorithm: Algorithm::Default,
    })
}

/// The channels `news`, `orders` and `bulk`, which go as `orders`, `bulk`, `news`.
fn channels(alloc: Global) -> Result<List<ChannelDef>, NoMemory> {
    let mut channels = List::new(alloc);
    channels.push(channel(alloc, "news", 2)?)?;
    channels.push(channel(alloc, "orders", 1)?)?;
    channels.push(channel(alloc, "bulk", 2)?)?;
    Ok(channels)
}

/// A table with the key `id` and another column, which allows null.
fn table(alloc: Global, name: &str, other: &str, kind: Kind) -> Result<TableDef, NoMemory> {
    let mut columns = List::new(alloc);
    for (name, kind) in [("id", Kind::Integer), (other, kind)] {
        columns.push(ColumnDef {
            name: Txt::copied(alloc, name)?,
            kind,
            not_null: false,
            parent: None,
        })?;
    }
    let mut key = List::new(alloc);
    key.push(0)?;
    let name = Txt::copied(alloc, name)?;
    Ok(TableDef { name, columns, key })
}

/// A configuration with the tables `price`, `stock` and `bin`, and three channels.
pub(crate) fn config(alloc: Global) -> Result<Config, NoMemory> {
    let mut tables = List::new(alloc);
    tables.push(table(alloc, "price", "price", Kind::Decimal(2))?)?;
    tables.push(table(alloc, "stock", "count", Kind::Integer)?)?;
    tables.push(table(alloc, "bin", "count", Kind::Integer)?)?;
    Ok(Config {
        groups: List::new(alloc),
        links: List::new(alloc),
        channels: channels(alloc)?,
        tables,
        triggers: List::new(alloc),
        routers: List::new(alloc),
        trigger_routers: List::new(alloc),
        transforms: List::new(alloc),
        conflicts: List::new(alloc),
    })
}

/// Whether a value is null, or a number in a column of numbers.
fn is_suited(column: &ColumnDef, value: &Value) -> bool
    ensures { IsTrue result → Suits (column.now, value.now) }
{
    match (column.kind, value) {
        (_, Value::Null) => true,
        (Kind::Integer, Value::Integer(number)) => {
            let _number: i64 = *number;
            true
        }
        (Kind::Decimal(_), Value::Decimal(units)) => {
            let _units: i64 = *units;
            true
        }
        _ => false,
    }
}

/// Whether there are as many values as columns, each of which suits its column.
fn are_suited(columns: &[ColumnDef], values: &[Value]) -> bool
    ensures { IsTrue result → FitColumns columns.now values.now }
{
    match (columns, values) {
        ([], []) => true,
        ([column, columns @ ..], [value, values @ ..]) => {
            is_suited(column, value) && are_suited(columns, values)
        }
        _ => false,
    }
}

/// Whether there is a table at a place, and a row suits it.
fn is_fit(tables: &Tables, place: u32, row: &Row) -> bool
    ensures { IsTrue result → FitsStep tables.now.defs (Insert place row.now) }
{
    let defs = tables.defs().inner().as_slice();
    (place as usize) < defs.len() && are_suited(columns_at(defs, place as usize), row.0.inner())
}

/// Makes a step that breaks no rule, where no more rows stand after it than a node may have.
fn make(tables: &mut Tables, step: RowStep) -> Result<(), NoMemory>
    ensures allowed { OnOk result (broken_rule tables.old.defs tables.old.rows step ≡ None) }
    ensures rows { OnOk result (tables.new.rows
        ≡ rows_after tables.old.defs tables.old.rows step) }
    ensures few { OnOk result (length tables.new.rows ≤ most_rows) }
    ensures defs { tables.new.defs ≡ tables.old.defs }
{
    if tables.test(&step).is_some() {
        return Err(NoMemory);
    }
    tables.reserve(1)?;
    let _ = tables.apply(step);
    if tables.count() > 200_000 {
        return Err(NoMemory);
    }
    Ok(())
}

/// Inserts a row into the table at a place, where it suits.
fn insert(tables: &mut Tables, place: u32, row: Row) -> Result<(), NoMemory>
    requires { AreTables tables.old.defs tables.old.rows }
    ensures rows { OnOk result (AreTables tables.new.defs tables.new.rows) }
    ensures defs { tables.new.defs ≡ tables.old.defs }
{
    steps_keep_tables();
    if !is_fit(tables, place, &row) {
        return Err(NoMemory);
    }
    make(tables, RowStep::Insert { table: place, row })?;
    Ok(())
}

fn row(alloc: Global, id: i64, other: Value) -> Result<Row, NoMemory> {
    let mut values = List::new(alloc);
    values.push(Value::Integer(id))?;
    values.push(other)?;
    Ok(Row(values))
}

/// Tables of these definitions: of the first three rows, and of the second one.
pub(crate) fn tables(alloc: Global, defs: &List<TableDef>) -> Result<Tables, NoMemory>
    ensures { IfOk result (λ tables.
        (tables.defs ≡ defs.now) × AreTables defs.now tables.rows) }
{
    let mut tables = Tables::new(alloc, defs)?;
    insert(&mut tables, 1, row(alloc, 12, Value::Integer(4))?)?;
    insert(&mut tables, 0, row(alloc, 7, Value::Decimal(250))?)?;
    insert(&mut tables, 0, row(alloc, -3, Value::Null)?)?;
    insert(&mut tables, 0, row(alloc, 5, Value::Decimal(-5))?)?;
    Ok(tables)
}

fn peer(alloc: Global, id: &str) -> Result<Peer, NoMemory> {
    Ok(Peer {
        id: Txt::copied(alloc, id)?,
        group: Txt::copied(alloc, "store")?,
        external: Txt::copied(alloc, id)?,
    })
}

/// The peers `s1` and `s2`.
fn peers(alloc: Global) -> Result<List<KeptPeer>, NoMemory> {
    let mut peers = List::new(alloc);
    for id in ["s1", "s2"] {
        peers.push(KeptPeer {
            peer: peer(alloc, id)?,
            token: Txt::copied(alloc, "0123456789abcdef0123456789abcdef")?,
            child: true,
        })?;
    }
    Ok(peers)
}

/// A batch with these changes.
fn batch(
    alloc: Global,
    id: u64,
    peer: &str,
    channel: u32,
    standing: Standing,
    changes: &[u64],
) -> Result<OutBatch, NoMemory> {
    let mut numbers = Vec::new(alloc);
    numbers.extend_from_slice(changes)?;
    Ok(OutBatch {
        id,
        peer: Txt::copied(alloc, peer)?,
        channel,
        standing,
        changes: List::of(numbers),
    })
}

/// A batch that is loaded, one in error, and one of which nothing is known.
fn batches(alloc: Global) -> Result<List<OutBatch>, NoMemory> {
    let erred = Standing::Erred { row: 2, rule: 9 };
    let mut batches = List::new(alloc);
    batches.push(batch(alloc, 1, "s1", 1, Standing::Acked, &[4, 5, 6])?)?;
    batches.push(batch(alloc, 2, "s2", 0, erred, &[7, 8])?)?;
    batches.push(batch(alloc, 12, "s1", 2, Standing::New, &[9])?)?;
    Ok(batches)
}

fn lane(
    alloc: Global,
    peer: &str,
    channel: u32,
    highest: u64,
    ignored: Option<bool>,
    error: Option<LaneError>,
) -> Result<LaneIn, NoMemory> {
    Ok(LaneIn {
        peer: Txt::copied(alloc, peer)?,
        channel,
        highest,
        ignored,
        error,
    })
}

/// Lanes by peer and the name of their channel: two in error, one of them before its first batch.
fn lanes(alloc: Global) -> Result<List<LaneIn>, NoMemory> {
    let parent = LaneError {
        batch: 4,
        row: 1,
        rule: Rule::MissingParent,
    };
    let value = LaneError {
        batch: 10,
        row: 2,
        rule: Rule::BadValue,
    };
    let mut lanes = List::new(alloc);
    lanes.push(lane(alloc, "s1", 0, 3, Some(true), Some(parent))?)?;
    lanes.push(lane(alloc, "s1", 1, 5, Some(false), None)?)?;
    lanes.push(lane(alloc, "s2", 2, 0, None, Some(value))?)?;
    lanes.push(lane(alloc, "s2", 1, 11, Some(true), None)?)?;
    Ok(lanes)
}

/// The node `corp` with these tables, and with peers, batches and lanes.
pub(crate) fn state(alloc: Global, tables: Tables) -> Result<State, NoMemory>
    ensures { IfOk result (λ state. state.tables ≡ tables) }
{
    let counts = Counts {
        acts: 20,
        last_change: 9,
        last_batch: 12,
        last_tx: 4,
        routed: 9,
    };
    Ok(State {
        me: peer(alloc, "corp")?,
        counts,
        peers: peers(alloc)?,
        openings: List::new(alloc),
        writers: List::new(alloc),
        tables,
        changes: List::new(alloc),
        batches: batches(alloc)?,
        lanes: lanes(alloc)?,
    })
}
