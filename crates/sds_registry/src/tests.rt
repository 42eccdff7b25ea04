//! Items that are put into their lists and found there, and openings that are given and closed.
ghost use Rattle.std.specs.Prelude.{IfOk};
ghost use Rattle.sds_history.specs.history.Openings.{opening_key};
ghost use Rattle.sds_history.specs.history.SoundParts.{AscendBy};

use crate::tests_parts::{config, kept, lane, opening, peer, writer};
use crate::{
    close_openings, give_opening, kept_lane, kept_peer, opening_of, put_lane, put_opening,
    put_peer, put_writer, writer_of,
};
use sds_base::{NoMemory, Twin};
use sds_types::{KeptPeer, LaneIn, Opening, Stage, WriterLast};
use std::alloc::Global;
use std::test::Fail;

fn put_peers(alloc: Global, items: &[(&str, &str)]) -> Result<Vec<KeptPeer>, NoMemory> {
    let mut peers = Vec::new(alloc);
    for (id, token) in items {
        let new = kept(alloc, *id, *token)?;
        peers.reserve(1)?;
        put_peer(&mut peers, new);
    }
    Ok(peers)
}

fn tell_peers(alloc: Global, peers: &[KeptPeer]) -> Result<String, NoMemory> {
    let mut out = String::new(alloc);
    for kept in peers {
        out.push_str(kept.peer.id.as_str())?;
        out.push_str("=")?;
        out.push_str(kept.token.as_str())?;
        out.push_str(" ")?;
    }
    Ok(out)
}

#[test]
fn peers_stand_by_the_bytes_of_their_ids(rt: HostRuntime) -> Result<(), Fail> {
    let alloc = rt.alloc();
    let items = [
        ("s", "1"),
        ("s10", "2"),
        ("b", "3"),
        ("s1", "4"),
        ("s-1", "5"),
        ("s1", "6"),
        ("Z", "7"),
        ("é", "8"),
        ("s", "9"),
    ];
    let peers = put_peers(alloc, &items)?;
    let told = tell_peers(alloc, &peers)?;
    assert_eq!(rt; told.as_str(), "Z=7 b=3 s=9 s-1=5 s1=6 s10=2 é=8 ");
    assert!(rt; kept_peer(&peers, "s1").is_some());
    assert!(rt; kept_peer(&peers, "s2").is_none());
    Ok(())
}

fn put_openings(alloc: Global, items: &[(&str, &str)]) -> Result<Vec<Opening>, NoMemory>
    ensures { IfOk result (λ openings. AscendBy opening_key openings.items) }
{
    let mut openings = Vec::new(alloc);
    for (group, external) in items {
        let new = opening(alloc, *group, *external, Stage::Waiting)?;
        openings.reserve(1)?;
        put_opening(&mut openings, new);
    }
    Ok(openings)
}

fn tell_openings(alloc: Global, openings: &[Opening]) -> Result<String, NoMemory> {
    let mut out = String::new(alloc);
    for opening in openings {
        out.push_str(opening.group.as_str())?;
        out.push_str("/")?;
        out.push_str(opening.external.as_str())?;
        match &opening.stage {
            Stage::Waiting => out.push_str(" waits\n")?,
            Stage::Given(node) => {
                out.push_str(" given to ")?;
                out.push_str(node.as_str())?;
                out.push_str("\n")?;
            }
            Stage::Closed(node) => {
                out.push_str(" closed for ")?;
                out.push_str(node.as_str())?;
                out.push_str("\n")?;
            }
        }
    }
    Ok(out)
}

const PAIRS: [(&str, &str); 5] = [
    ("store", "001"),
    ("store-2", "001"),
    ("store0", "000"),
    ("store", "00"),
    ("store", "001"),
];

#[test]
fn openings_stand_by_the_bytes_of_their_pairs(rt: HostRuntime) -> Result<(), Fail> {
    let alloc = rt.alloc();
    let openings = put_openings(alloc, &PAIRS)?;
    let told = tell_openings(alloc, &openings)?;
    // `-` is below the slash between the names, and digits are above it.
    let due = "store-2/001 waits\nstore/00 waits\nstore/001 waits\nstore0/000 waits\n";
    assert_eq!(rt; told.as_str(), due);
    assert!(rt; opening_of(&openings, "store-2", "001").is_some());
    assert!(rt; opening_of(&openings, "store", "000").is_none());
    Ok(())
}

fn give(
    alloc: Global,
    openings: &mut Vec<Opening>,
    id: &str,
    external: &str,
) -> Result<(), NoMemory>
    requires { AscendBy opening_key openings.old.items }
    ensures { AscendBy opening_key openings.new.items }
{
    let asks = peer(alloc, id, "store", external)?;
    let node = asks.id.twin(alloc)?;
    give_opening(openings, &asks, node);
    Ok(())
}

#[test]
fn an_opening_is_given_and_closed(rt: HostRuntime) -> Result<(), Fail> {
    let alloc = rt.alloc();
    let mut openings = put_openings(alloc, &PAIRS)?;
    give(alloc, &mut openings, "s1", "001")?;
    give(alloc, &mut openings, "s2", "00")?;
    give(alloc, &mut openings, "s3", "000")?;
    give(alloc, &mut openings, "s4", "00")?;
    close_openings(&mut openings, "s1");
    close_openings(&mut openings, "s2");
    let told = tell_openings(alloc, &openings)?;
    let due = "store-2/001 waits\nstore/00 given to s4\nstore/001 closed for s1\n\
               store0/000 waits\n";
    assert_eq!(rt; told.as_str(), due);
    Ok(())
}

fn put_writers(alloc: Global, items: &[(&str, u64)]) -> Result<Vec<WriterLast>, NoMemory> {
    let mut writers = Vec::new(alloc);
    for (name, number) in items {
        let new = writer(alloc, *name, *number)?;
        writers.reserve(1)?;
        put_writer(&mut writers, new);
    }
    Ok(writers)
}

#[test]
fn writers_stand_by_name(rt: HostRuntime) -> Result<(), Fail> {
    let alloc = rt.alloc();
    let writers = put_writers(alloc, &[("till", 1), ("app", 2), ("zoo", 3), ("till", 4)])?;
    let mut out = String::new(alloc);
    for last in &writers {
        out.push_str(last.writer.as_str())?;
        out.push_str(if last.number == 4 { "! " } else { " " })?;
    }
    assert_eq!(rt; out.as_str(), "app till! zoo ");
    assert!(rt; writer_of(&writers, "zoo").is_some());
    assert!(rt; writer_of(&writers, "tills").is_none());
    Ok(())
}

fn put_lanes(alloc: Global, items: &[(&str, u32, u64)]) -> Result<Vec<LaneIn>, NoMemory> {
    let config = config(alloc)?;
    let mut lanes = Vec::new(alloc);
    for (peer, channel, highest) in items {
        let new = lane(alloc, *peer, *channel, *highest, None)?;
        lanes.reserve(1)?;
        put_lane(&config, &mut lanes, new);
    }
    Ok(lanes)
}

#[test]
fn lanes_stand_by_peer_and_the_name_of_their_channel(rt: HostRuntime) -> Result<(), Fail> {
    let alloc = rt.alloc();
    // The channel at place 0 is `orders`, and that at 1 is `news`.
    let items = [
        ("s1", 0, 3),
        ("s1", 1, 4),
        ("s1-b", 0, 5),
        ("s0", 0, 6),
        ("s1", 0, 7),
    ];
    let lanes = put_lanes(alloc, &items)?;
    let mut highest = Vec::new(alloc);
    for lane in &lanes {
        highest.push(lane.highest)?;
    }
    assert_eq!(rt; highest.as_slice(), [6, 5, 4, 7].as_slice());
    assert!(rt; kept_lane(&lanes, "s1", 1).is_some());
    assert!(rt; kept_lane(&lanes, "s0", 1).is_none());
    Ok(())
}
