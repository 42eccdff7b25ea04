//! The batch whose loading is measured: sales of one item, each of which refers to it.
ghost use Rattle.std.specs.Prelude.{◌≡◌, ◌<◌, ◌^◌, IsTrue, length};
ghost use Rattle.sds_load.specs.Bodies.{rows_in};

use crate::writes::config;
use sds_base::{List, NoMemory, Txt};
use sds_load::{outcome, prepare};
use sds_rows::Tables;
use sds_types::{Algorithm, BatchDoc, Body, ChannelDef, Config, Prepared, Way};
use sds_value::{Binary, DocRow, Event, Field};
use std::alloc::Global;

/// The most rows of a batch that is measured.
pub(crate) const MOST_BATCH_ROWS: u32 = 10_000;

fn channel(alloc: Global) -> Result<ChannelDef, NoMemory> {
    Ok(ChannelDef {
        id: Txt::copied(alloc, "sale")?,
        processing_order: 1,
        max_batch_size: MOST_BATCH_ROWS,
        max_batch_to_send: 1,
        batch_algorithm: Algorithm::Default,
    })
}

/// The way up from a store.
fn way(alloc: Global) -> Result<Way, NoMemory> {
    Ok(Way {
        source: Txt::copied(alloc, "s1")?,
        source_group: Txt::copied(alloc, "store")?,
        target: Txt::copied(alloc, "corp")?,
        target_group: Txt::copied(alloc, "corp")?,
    })
}

/// The insert of a row of a table whose key is `id`.
fn insert(alloc: Global, table: &str, given: &[(&str, &str)]) -> Result<DocRow, NoMemory> {
    let mut keys = List::new(alloc);
    keys.push(Txt::copied(alloc, "id")?)?;
    let mut columns = List::new(alloc);
    let mut new = List::new(alloc);
    for (column, value) in given {
        columns.push(Txt::copied(alloc, column)?)?;
        new.push(Field::Text(Txt::copied(alloc, value)?))?;
    }
    Ok(DocRow {
        event: Event::Insert,
        table: Txt::copied(alloc, table)?,
        keys,
        columns,
        new,
        key: List::new(alloc),
        old: None,
    })
}

/// Inserts of so many sales of the item 1.
fn sales(alloc: Global, count: u32) -> Result<List<DocRow>, NoMemory> {
    let mut rows = List::new(alloc);
    for number in 0..count {
        let id = format!(in alloc; "s1-{number}")?;
        let given = [("id", id.as_str()), ("item_id", "1"), ("qty", "2")];
        rows.push(insert(alloc, "sale", &given)?)?;
    }
    Ok(rows)
}

/// Whether a batch has no more rows than one that is measured.
fn is_measured(batch: &Prepared) -> bool
    ensures { IsTrue result → length (rows_in batch.now.body) < 2 ^ 32 }
{
    match &batch.body {
        Body::Rows(rows) => rows.inner().len() <= MOST_BATCH_ROWS as usize,
        Body::Broken { .. } => true,
    }
}

/// Prepares and loads the batch of these rows.
fn load(
    alloc: Global,
    config: &Config,
    tables: &mut Tables,
    rows: List<DocRow>,
) -> Result<(), NoMemory>
    requires { tables.old.defs ≡ config.now.tables }
    ensures { tables.new.defs ≡ config.now.tables }
{
    let doc = BatchDoc {
        channel: Txt::copied(alloc, "sale")?,
        batch: 1,
        binary: Binary::Base64,
        rows,
    };
    if doc.rows.inner().len() > MOST_BATCH_ROWS as usize {
        return Ok(());
    }
    let batch = prepare(alloc, config, &way(alloc)?, &doc)?;
    if is_measured(&batch) {
        let _ = outcome(alloc, config, "corp", tables, &batch, 0)?;
    }
    Ok(())
}

/// Loads a batch with an item, and then one of so many sales of it, and tells how many of these
/// stand after it.
pub(crate) fn load_rows(alloc: Global, count: u32) -> Result<u32, NoMemory> {
    let mut config = config(alloc)?;
    config.channels.push(channel(alloc)?)?;
    let mut tables = Tables::new(alloc, &config.tables)?;
    let mut item = List::new(alloc);
    item.push(insert(alloc, "item", &[("id", "1")])?)?;
    load(alloc, &config, &mut tables, item)?;
    let rows = sales(alloc, count)?;
    load(alloc, &config, &mut tables, rows)?;
    Ok(tables.count().saturating_sub(1))
}
