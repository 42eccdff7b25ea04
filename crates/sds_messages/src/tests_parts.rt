//! What the tests share: a configuration, and the state of a node read from its records.
ghost use Rattle.std.specs.Prelude.{◌≡◌, None, IfOk, IfSome};
ghost use Rattle.std.specs.Str.{chars};
ghost use Rattle.sds_trade.specs.worked.Entries.{column_def, table_def};
ghost use Rattle.sds_trade.specs.rules.Sound.{IsSound};
ghost use Rattle.sds_history.specs.history.SoundStates.{IsSoundState};
ghost use Rattle.sds_image.specs.Meaning.{meaning_of};
ghost use Rattle.sds_messages.specs.TwoChannels.{channel_with, named_columns, two_channels};

use sds_base::{Bytes, List, NoMemory, Txt};
use sds_image::{State, StateRefusal};
use sds_types::{Algorithm, ChannelDef, Config};
use sds_value::{ColumnDef, Kind, TableDef};
use std::alloc::Global;

fn channel(alloc: Global, id: &str, order: u32, most: u32) -> Result<ChannelDef, NoMemory>
    ensures { IfOk result (λ def. def ≡ channel_with (chars id.now) order most) }
{
    Ok(ChannelDef {
        id: Txt::copied(alloc, id)?,
        processing_order: order,
        max_batch_size: 100,
        max_batch_to_send: most,
        batch_algorithm: Algorithm::Default,
    })
}

fn column(alloc: Global, name: &str, kind: Kind) -> Result<ColumnDef, NoMemory>
    ensures { IfOk result (λ def. def ≡ column_def (chars name.now) kind None) }
{
    Ok(ColumnDef {
        name: Txt::copied(alloc, name)?,
        kind,
        not_null: true,
        parent: None,
    })
}

/// The columns `id` and `name`.
fn columns(alloc: Global) -> Result<List<ColumnDef>, NoMemory>
    ensures { IfOk result (λ columns. columns ≡ named_columns) }
{
    let mut columns = List::new(alloc);
    columns.push(column(alloc, "id", Kind::Integer)?)?;
    columns.push(column(alloc, "name", Kind::Varchar(40))?)?;
    Ok(columns)
}

/// A table with the key `id` and the column `name`.
fn table(alloc: Global, name: &str) -> Result<TableDef, NoMemory>
    ensures { IfOk result (λ def. def ≡ table_def (chars name.now) named_columns) }
{
    let mut key = List::new(alloc);
    key.push(0)?;
    Ok(TableDef {
        name: Txt::copied(alloc, name)?,
        columns: columns(alloc)?,
        key,
    })
}

fn groups(alloc: Global) -> Result<List<Txt>, NoMemory>
    ensures { IfOk result (λ groups. groups ≡ two_channels.groups) }
{
    let mut groups = List::new(alloc);
    groups.push(Txt::copied(alloc, "corp")?)?;
    groups.push(Txt::copied(alloc, "store")?)?;
    Ok(groups)
}

fn channels(alloc: Global) -> Result<List<ChannelDef>, NoMemory>
    ensures { IfOk result (λ channels. channels ≡ two_channels.channels) }
{
    let mut channels = List::new(alloc);
    channels.push(channel(alloc, "orders", 20, 2)?)?;
    channels.push(channel(alloc, "stock", 10, 10)?)?;
    Ok(channels)
}

fn tables(alloc: Global) -> Result<List<TableDef>, NoMemory>
    ensures { IfOk result (λ tables. tables ≡ two_channels.tables) }
{
    let mut tables = List::new(alloc);
    tables.push(table(alloc, "item")?)?;
    tables.push(table(alloc, "shelf")?)?;
    Ok(tables)
}

/// A configuration of the groups `corp` and `store`, the channels `orders`, of which a message
/// takes two batches, and `stock`, which goes first, and the tables `item` and `shelf`.
pub(crate) fn config(alloc: Global) -> Result<Config, NoMemory>
    ensures { IfOk result (λ config. config ≡ two_channels) }
{
    Ok(Config {
        groups: groups(alloc)?,
        links: List::new(alloc),
        channels: channels(alloc)?,
        tables: tables(alloc)?,
        triggers: List::new(alloc),
        routers: List::new(alloc),
        trigger_routers: List::new(alloc),
        transforms: List::new(alloc),
        conflicts: List::new(alloc),
    })
}

fn bytes(alloc: Global, text: &str) -> Result<Bytes, NoMemory> {
    let mut copy = Vec::new(alloc);
    copy.extend_from_slice(text.as_bytes())?;
    Ok(Bytes::of(copy))
}

/// These records.
pub(crate) fn kept(
    alloc: Global,
    records: &[(&str, &str)],
) -> Result<Vec<(Bytes, Bytes)>, NoMemory> {
    let mut all = Vec::new(alloc);
    for record in records {
        all.push((bytes(alloc, record.0)?, bytes(alloc, record.1)?))?;
    }
    Ok(all)
}

/// The state that records tell, or none where they tell none.
pub(crate) fn state(
    alloc: Global,
    config: &Config,
    records: &[(Bytes, Bytes)],
) -> Result<Option<State>, NoMemory>
    ensures { IsSound config.now → IfOk result (λ state. IfSome state (λ told.
        IsSoundState config.now (meaning_of told))) }
{
    match State::read(alloc, config, records) {
        Ok(state) => Ok(Some(state)),
        Err(StateRefusal::NoMemory) => Err(NoMemory),
        Err(StateRefusal::BadRecord(_) | StateRefusal::Contradicts(_)) => Ok(None),
    }
}
