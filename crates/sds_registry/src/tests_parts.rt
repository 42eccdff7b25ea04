//! What the tests share: a configuration, a state, and items of its lists.
use sds_base::{List, NoMemory, Txt};
use sds_image::State;
use sds_rows::Tables;
use sds_types::{
    Action, Algorithm, Body, ChannelDef, Config, Counts, KeptPeer, LaneError, LaneIn, LinkDef,
    Opening, Prepared, Stage, WriterLast,
};
use sds_value::Peer;
use std::alloc::Global;

fn channel(alloc: Global, id: &str) -> Result<ChannelDef, NoMemory> {
    Ok(ChannelDef {
        id: Txt::copied(alloc, id)?,
        processing_order: 1,
        max_batch_size: 10,
        max_batch_to_send: 10,
        batch_algorithm: Algorithm::Default,
    })
}

fn groups(alloc: Global) -> Result<List<Txt>, NoMemory> {
    let mut groups = List::new(alloc);
    groups.push(Txt::copied(alloc, "hq")?)?;
    groups.push(Txt::copied(alloc, "store")?)?;
    groups.push(Txt::copied(alloc, "lab")?)?;
    Ok(groups)
}

/// A configuration with the groups `hq`, `store` and `lab`, a link from `store` to `hq`, and the
/// channels `orders` and `news`.
pub(crate) fn config(alloc: Global) -> Result<Config, NoMemory> {
    let mut links = List::new(alloc);
    links.push(LinkDef {
        source: 1,
        target: 0,
        action: Action::P,
    })?;
    let mut channels = List::new(alloc);
    channels.push(channel(alloc, "orders")?)?;
    channels.push(channel(alloc, "news")?)?;
    Ok(Config {
        groups: groups(alloc)?,
        links,
        channels,
        tables: List::new(alloc),
        triggers: List::new(alloc),
        routers: List::new(alloc),
        trigger_routers: List::new(alloc),
        transforms: List::new(alloc),
        conflicts: List::new(alloc),
    })
}

/// A node of an id, a group and an external id.
pub(crate) fn peer(alloc: Global, id: &str, group: &str, external: &str) -> Result<Peer, NoMemory> {
    Ok(Peer {
        id: Txt::copied(alloc, id)?,
        group: Txt::copied(alloc, group)?,
        external: Txt::copied(alloc, external)?,
    })
}

/// A peer of the group `store` and the external id `001`.
pub(crate) fn kept(alloc: Global, id: &str, token: &str) -> Result<KeptPeer, NoMemory> {
    Ok(KeptPeer {
        peer: peer(alloc, id, "store", "001")?,
        token: Txt::copied(alloc, token)?,
        child: true,
    })
}

/// The stage of an opening: it waits, or was given to a node, or is closed.
pub(crate) fn stage(alloc: Global, kind: &str, node: &str) -> Result<Stage, NoMemory> {
    if kind == "waiting" {
        return Ok(Stage::Waiting);
    }
    let node = Txt::copied(alloc, node)?;
    if kind == "given" {
        return Ok(Stage::Given(node));
    }
    Ok(Stage::Closed(node))
}

/// An opening, whose token is its external id.
pub(crate) fn opening(
    alloc: Global,
    group: &str,
    external: &str,
    stage: Stage,
) -> Result<Opening, NoMemory> {
    Ok(Opening {
        group: Txt::copied(alloc, group)?,
        external: Txt::copied(alloc, external)?,
        token: Txt::copied(alloc, external)?,
        stage,
    })
}

/// A writer's last write, of which two changes from 11 on were captured.
pub(crate) fn writer(alloc: Global, name: &str, number: u64) -> Result<WriterLast, NoMemory> {
    Ok(WriterLast {
        writer: Txt::copied(alloc, name)?,
        number,
        first: 11,
        count: 2,
    })
}

/// What is kept of a lane.
pub(crate) fn lane(
    alloc: Global,
    peer: &str,
    channel: u32,
    highest: u64,
    error: Option<LaneError>,
) -> Result<LaneIn, NoMemory> {
    Ok(LaneIn {
        peer: Txt::copied(alloc, peer)?,
        channel,
        highest,
        ignored: None,
        error,
    })
}

/// A batch without rows of a node of this group.
pub(crate) fn batch(
    alloc: Global,
    group: &str,
    channel: Option<u32>,
    number: u64,
) -> Result<Prepared, NoMemory> {
    Ok(Prepared {
        from: Txt::copied(alloc, "s1")?,
        from_group: Txt::copied(alloc, group)?,
        channel,
        batch: number,
        body: Body::Rows(List::new(alloc)),
        settings: List::new(alloc),
    })
}

/// The node `corp` of the group `hq`, at which nothing happened yet.
pub(crate) fn state(alloc: Global) -> Result<State, NoMemory> {
    let counts = Counts {
        acts: 0,
        last_change: 0,
        last_batch: 0,
        last_tx: 0,
        routed: 0,
    };
    Ok(State {
        me: peer(alloc, "corp", "hq", "000")?,
        counts,
        peers: List::new(alloc),
        openings: List::new(alloc),
        writers: List::new(alloc),
        tables: Tables::new(alloc, &List::new(alloc))?,
        changes: List::new(alloc),
        batches: List::new(alloc),
        lanes: List::new(alloc),
    })
}
