//! What the tests of records share: parts of a state, and the edits of a part in words.
ghost use Rattle.sds_records.specs.Parts.{FitsPart};

use crate::{Part, drop_part, put_part};
use sds_base::{List, NoMemory, Txt};
use sds_outside::Edit;
use sds_types::{
    Algorithm, ChannelDef, Config, KeptPeer, LaneError, LaneIn, Opening, OutBatch, Stage, Standing,
    WriterLast,
};
use sds_value::{ColumnDef, Kind, Peer, TableDef};
use std::alloc::Global;

/// A token.
pub(crate) const TOKEN: &str = "0123456789abcdef0123456789abcdef";

fn channel(alloc: Global, id: &str) -> Result<ChannelDef, NoMemory> {
    Ok(ChannelDef {
        id: Txt::copied(alloc, id)?,
        processing_order: 1,
        max_batch_size: 10,
        max_batch_to_send: 10,
        batch_algorithm: Algorithm::Default,
    })
}

fn column(alloc: Global, name: &str, kind: Kind) -> Result<ColumnDef, NoMemory> {
    Ok(ColumnDef {
        name: Txt::copied(alloc, name)?,
        kind,
        not_null: false,
        parent: None,
    })
}

/// The table `item` with the key `id`.
fn item(alloc: Global) -> Result<TableDef, NoMemory> {
    let mut columns = List::new(alloc);
    columns.push(column(alloc, "id", Kind::Integer)?)?;
    columns.push(column(alloc, "name", Kind::Varchar(40))?)?;
    columns.push(column(alloc, "price", Kind::Decimal(2))?)?;
    let mut key = List::new(alloc);
    key.push(0)?;
    let name = Txt::copied(alloc, "item")?;
    Ok(TableDef { name, columns, key })
}

/// The table `stock` with the key `shop`, `item`.
fn stock(alloc: Global) -> Result<TableDef, NoMemory> {
    let mut columns = List::new(alloc);
    columns.push(column(alloc, "shop", Kind::Varchar(10))?)?;
    columns.push(column(alloc, "price", Kind::Decimal(2))?)?;
    columns.push(column(alloc, "item", Kind::Integer)?)?;
    let mut key = List::new(alloc);
    key.push(0)?;
    key.push(2)?;
    let name = Txt::copied(alloc, "stock")?;
    Ok(TableDef { name, columns, key })
}

/// A configuration with the channels `orders` and `news` and the tables `item` and `stock`.
pub(crate) fn config(alloc: Global) -> Result<Config, NoMemory> {
    let mut channels = List::new(alloc);
    channels.push(channel(alloc, "orders")?)?;
    channels.push(channel(alloc, "news")?)?;
    let mut tables = List::new(alloc);
    tables.push(item(alloc)?)?;
    tables.push(stock(alloc)?)?;
    Ok(Config {
        groups: List::new(alloc),
        links: List::new(alloc),
        channels,
        tables,
        triggers: List::new(alloc),
        routers: List::new(alloc),
        trigger_routers: List::new(alloc),
        transforms: List::new(alloc),
        conflicts: List::new(alloc),
    })
}

/// A node of an id, a group and an external id.
pub(crate) fn peer(alloc: Global, id: &str, group: &str, external: &str) -> Result<Peer, NoMemory> {
    Ok(Peer {
        id: Txt::copied(alloc, id)?,
        group: Txt::copied(alloc, group)?,
        external: Txt::copied(alloc, external)?,
    })
}

/// A peer that registered here, or one at which this node registered.
pub(crate) fn kept(alloc: Global, peer: Peer, child: bool) -> Result<KeptPeer, NoMemory> {
    Ok(KeptPeer {
        peer,
        token: Txt::copied(alloc, TOKEN)?,
        child,
    })
}

/// An opening for the group `store`.
pub(crate) fn opening(alloc: Global, external: &str, stage: Stage) -> Result<Opening, NoMemory> {
    Ok(Opening {
        group: Txt::copied(alloc, "store")?,
        external: Txt::copied(alloc, external)?,
        token: Txt::copied(alloc, TOKEN)?,
        stage,
    })
}

/// A writer's last write.
pub(crate) fn writer(
    alloc: Global,
    name: &str,
    number: u64,
    first: u64,
    count: u32,
) -> Result<WriterLast, NoMemory> {
    Ok(WriterLast {
        writer: Txt::copied(alloc, name)?,
        number,
        first,
        count,
    })
}

/// A batch to the node `s1` with changes from one number up to another.
pub(crate) fn batch(
    alloc: Global,
    id: u64,
    channel: u32,
    standing: Standing,
    first: u64,
    last: u64,
) -> Result<OutBatch, NoMemory> {
    let mut changes = List::new(alloc);
    for change in first..=last {
        changes.push(change)?;
    }
    Ok(OutBatch {
        id,
        peer: Txt::copied(alloc, "s1")?,
        channel,
        standing,
        changes,
    })
}

/// The lane from the node `s1` in a channel.
pub(crate) fn lane(
    alloc: Global,
    channel: u32,
    highest: u64,
    ignored: Option<bool>,
    error: Option<LaneError>,
) -> Result<LaneIn, NoMemory> {
    Ok(LaneIn {
        peer: Txt::copied(alloc, "s1")?,
        channel,
        highest,
        ignored,
        error,
    })
}

fn put_edit(word: &str, edit: &Edit, out: &mut Vec<u8>) -> Result<(), NoMemory> {
    out.extend_from_slice(word.as_bytes())?;
    out.extend_from_slice(edit.key.inner())?;
    if let Some(body) = &edit.body {
        out.extend_from_slice(" = ".as_bytes())?;
        out.extend_from_slice(body.inner())?;
    }
    out.push(b'\n')?;
    Ok(())
}

/// Adds two lines: the edit that puts a part, and the one that drops it.
pub(crate) fn tell(
    alloc: Global,
    config: &Config,
    part: &Part,
    out: &mut Vec<u8>,
) -> Result<(), NoMemory>
    requires { FitsPart config.now part.now }
{
    put_edit("put ", &put_part(alloc, config, part)?, out)?;
    put_edit("drop ", &drop_part(alloc, config, part)?, out)
}
