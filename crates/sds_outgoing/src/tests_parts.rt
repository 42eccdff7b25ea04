//! What the tests share: a configuration, a node without acts, and batches in words.
ghost use Rattle.std.specs.Prelude.{◌≡◌, IfOk};

use sds_base::{List, NoMemory, Txt};
use sds_image::State;
use sds_rows::Tables;
use sds_types::{
    Ack, Algorithm, ChannelDef, ColumnPolicy, Config, Counts, DeleteAction, KeptPeer, OutBatch,
    Point, Standing, TransformDef,
};
use sds_value::{Peer, TableDef};
use std::alloc::Global;

fn channel(alloc: Global, id: &str, order: u32, most: u32) -> Result<ChannelDef, NoMemory> {
    Ok(ChannelDef {
        id: Txt::copied(alloc, id)?,
        processing_order: order,
        max_batch_size: 10,
        max_batch_to_send: most,
        batch_algorithm: Algorithm::Default,
    })
}

fn table(alloc: Global, name: &str) -> Result<TableDef, NoMemory> {
    Ok(TableDef {
        name: Txt::copied(alloc, name)?,
        columns: List::new(alloc),
        key: List::new(alloc),
    })
}

/// What becomes of the table `t` between the groups at two places: the table `v`.
fn transform(alloc: Global, source: u32, target: u32) -> Result<TransformDef, NoMemory> {
    Ok(TransformDef {
        id: Txt::copied(alloc, "one")?,
        source_group: source,
        target_group: target,
        point: Point::Extract,
        source_table: Txt::copied(alloc, "t")?,
        target_table: Txt::copied(alloc, "v")?,
        delete_action: DeleteAction::DelRow,
        column_policy: ColumnPolicy::Implied,
        columns: List::new(alloc),
    })
}

/// A configuration of the groups `hq` and `store`, the channels `a`, `b` and `c`, which go in the
/// order `b`, `c`, `a`, the tables `t` and `u`, and a transform from `t` to `v` on the way down.
pub(crate) fn config(alloc: Global) -> Result<Config, NoMemory> {
    let mut groups = List::new(alloc);
    groups.push(Txt::copied(alloc, "hq")?)?;
    groups.push(Txt::copied(alloc, "store")?)?;
    let mut channels = List::new(alloc);
    channels.push(channel(alloc, "a", 2, 3)?)?;
    channels.push(channel(alloc, "b", 1, 2)?)?;
    channels.push(channel(alloc, "c", 1, 10)?)?;
    let mut tables = List::new(alloc);
    tables.push(table(alloc, "t")?)?;
    tables.push(table(alloc, "u")?)?;
    let mut transforms = List::new(alloc);
    transforms.push(transform(alloc, 0, 1)?)?;
    Ok(Config {
        groups,
        links: List::new(alloc),
        channels,
        tables,
        triggers: List::new(alloc),
        routers: List::new(alloc),
        trigger_routers: List::new(alloc),
        transforms,
        conflicts: List::new(alloc),
    })
}

fn peer(alloc: Global, id: &str, group: &str) -> Result<Peer, NoMemory> {
    Ok(Peer {
        id: Txt::copied(alloc, id)?,
        group: Txt::copied(alloc, group)?,
        external: Txt::copied(alloc, id)?,
    })
}

fn child(alloc: Global, id: &str, group: &str) -> Result<KeptPeer, NoMemory> {
    Ok(KeptPeer {
        peer: peer(alloc, id, group)?,
        token: Txt::copied(alloc, "t1")?,
        child: true,
    })
}

/// The node `corp` of the group `hq` with the peers `s1` of `store` and `s2` of `hq`, and with
/// these batches.
pub(crate) fn node(alloc: Global, batches: Vec<OutBatch>) -> Result<State, NoMemory>
    ensures { IfOk result (λ state. state.batches ≡ batches.items) }
{
    let mut peers = List::new(alloc);
    peers.push(child(alloc, "s1", "store")?)?;
    peers.push(child(alloc, "s2", "hq")?)?;
    let counts = Counts {
        acts: 0,
        last_change: 0,
        last_batch: 0,
        last_tx: 0,
        routed: 0,
    };
    Ok(State {
        me: peer(alloc, "corp", "hq")?,
        counts,
        peers,
        openings: List::new(alloc),
        writers: List::new(alloc),
        tables: Tables::new(alloc, &List::new(alloc))?,
        changes: List::new(alloc),
        batches: List::of(batches),
        lanes: List::new(alloc),
    })
}

/// A batch by its number, the peer that it goes to, the place of its channel and its standing.
pub(crate) type Given = (u64, &'static str, u32, Standing);

/// The error of a batch whose second row broke the third rule.
pub(crate) const ERRED: Standing = Standing::Erred { row: 2, rule: 3 };

/// Batches without changes.
pub(crate) fn batches(alloc: Global, given: &[Given]) -> Result<Vec<OutBatch>, NoMemory> {
    let mut batches = Vec::new(alloc);
    for (id, peer, channel, standing) in given {
        batches.push(OutBatch {
            id: *id,
            peer: Txt::copied(alloc, *peer)?,
            channel: *channel,
            standing: *standing,
            changes: List::new(alloc),
        })?;
    }
    Ok(batches)
}

/// Acks by their batches, each with the row that broke the third rule, which is 0 where the batch
/// is loaded.
pub(crate) fn acks(alloc: Global, given: &[(u64, u32)]) -> Result<Vec<Ack>, NoMemory> {
    let mut acks = Vec::new(alloc);
    for (batch, row) in given {
        let error = if *row == 0 { None } else { Some((*row, 3)) };
        acks.push(Ack {
            batch: *batch,
            error,
        })?;
    }
    Ok(acks)
}
