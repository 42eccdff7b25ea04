//! Records of parts in the order of their keys, in words.
use crate::records::{push_counts, push_peers, push_writers};
use crate::sorted::sorted;
use sds_base::{Bytes, List, NoMemory, Txt};
use sds_types::{Config, Counts, KeptPeer, WriterLast};
use sds_value::Peer;
use std::alloc::Global;
use std::test::Fail;

fn config(alloc: Global) -> Config {
    Config {
        groups: List::new(alloc),
        links: List::new(alloc),
        channels: List::new(alloc),
        tables: List::new(alloc),
        triggers: List::new(alloc),
        routers: List::new(alloc),
        trigger_routers: List::new(alloc),
        transforms: List::new(alloc),
        conflicts: List::new(alloc),
    }
}

fn counts(acts: u64) -> Counts {
    Counts {
        acts,
        last_change: 0,
        last_batch: 0,
        last_tx: 0,
        routed: 0,
    }
}

fn peer(alloc: Global, id: &str) -> Result<KeptPeer, NoMemory> {
    Ok(KeptPeer {
        peer: Peer {
            id: Txt::copied(alloc, id)?,
            group: Txt::copied(alloc, "shop")?,
            external: Txt::copied(alloc, id)?,
        },
        token: Txt::copied(alloc, "t")?,
        child: true,
    })
}

fn writer(alloc: Global, name: &str) -> Result<WriterLast, NoMemory> {
    Ok(WriterLast {
        writer: Txt::copied(alloc, name)?,
        number: 1,
        first: 2,
        count: 3,
    })
}

/// The keys of the records of a writer, two peers and the counters.
fn keys(alloc: Global, acts: u64, out: &mut Vec<u8>) -> Result<(), NoMemory> {
    let config = config(alloc);
    let mut all = Vec::new(alloc);
    let writers = [writer(alloc, "till")?];
    let peers = [peer(alloc, "s2")?, peer(alloc, "s1")?];
    push_writers(alloc, &config, &writers, &mut all)?;
    push_peers(alloc, &config, &peers, &mut all)?;
    push_counts(alloc, &config, &counts(acts), &mut all)?;
    put_keys(&sorted(alloc, all)?, out)
}

fn put_keys(records: &[(Bytes, Bytes)], out: &mut Vec<u8>) -> Result<(), NoMemory> {
    for kept in records {
        out.extend_from_slice(kept.0.inner())?;
        out.push(b'\n')?;
    }
    Ok(())
}

#[test]
fn records_stand_in_the_order_of_their_keys(rt: HostRuntime) -> Result<(), Fail> {
    let alloc = rt.alloc();
    let mut out = Vec::new(alloc);
    keys(alloc, 0, &mut out)?;
    keys(alloc, 4, &mut out)?;
    let due = "n/s1\nn/s2\nw/till\ncount\nn/s1\nn/s2\nw/till\n";
    assert_eq!(rt; out.as_slice(), due.as_bytes());
    Ok(())
}
