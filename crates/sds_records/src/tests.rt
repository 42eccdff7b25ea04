//! The edits of each kind of part, in words.
use crate::Part;
use crate::tests_parts::{batch, config, kept, lane, opening, peer, tell, writer};
use sds_base::{NoMemory, Txt};
use sds_types::{Counts, LaneError, Rule, Stage, Standing};
use std::alloc::Global;
use std::test::Fail;

fn tell_node(
    alloc: Global,
    id: &str,
    group: &str,
    external: &str,
    out: &mut Vec<u8>,
) -> Result<(), NoMemory> {
    tell(
        alloc,
        &config(alloc)?,
        &Part::Me(&peer(alloc, id, group, external)?),
        out,
    )
}

#[test]
fn the_node_and_its_counters(rt: HostRuntime) -> Result<(), Fail> {
    let alloc = rt.alloc();
    let mut out = Vec::new(alloc);
    tell_node(alloc, "corp", "hq", "c0", &mut out)?;
    tell_node(alloc, "corp", "hq", "a\"b\\c, ä", &mut out)?;
    let counts = Counts {
        acts: 7,
        last_change: 12,
        last_batch: 3,
        last_tx: 5,
        routed: 9,
    };
    tell(alloc, &config(alloc)?, &Part::Counts(&counts), &mut out)?;
    let due = "put me = \"corp\",\"hq\",\"c0\"\n\
               drop me\n\
               put me = \"corp\",\"hq\",\"a\\\"b\\\\c, ä\"\n\
               drop me\n\
               put count = \"7\",\"12\",\"3\",\"5\",\"9\"\n\
               drop count\n";
    assert_eq!(rt; out.as_slice(), due.as_bytes());
    Ok(())
}

fn tell_peer(
    alloc: Global,
    id: &str,
    group: &str,
    child: bool,
    out: &mut Vec<u8>,
) -> Result<(), NoMemory> {
    let peer = peer(alloc, id, group, "001")?;
    tell(
        alloc,
        &config(alloc)?,
        &Part::Peer(&kept(alloc, peer, child)?),
        out,
    )
}

#[test]
fn peers_of_both_sides_and_writers(rt: HostRuntime) -> Result<(), Fail> {
    let alloc = rt.alloc();
    let mut out = Vec::new(alloc);
    tell_peer(alloc, "s1", "store", true, &mut out)?;
    tell_peer(alloc, "corp", "hq", false, &mut out)?;
    let till = writer(alloc, "till", 4, 11, 2)?;
    tell(alloc, &config(alloc)?, &Part::Writer(&till), &mut out)?;
    let due = "put n/s1 = \"store\",\"001\",\"0123456789abcdef0123456789abcdef\",\"child\"\n\
               drop n/s1\n\
               put n/corp = \"hq\",\"001\",\"0123456789abcdef0123456789abcdef\",\"parent\"\n\
               drop n/corp\n\
               put w/till = \"4\",\"11\",\"2\"\n\
               drop w/till\n";
    assert_eq!(rt; out.as_slice(), due.as_bytes());
    Ok(())
}

fn tell_opening(
    alloc: Global,
    external: &str,
    stage: Stage,
    out: &mut Vec<u8>,
) -> Result<(), NoMemory> {
    let opening = opening(alloc, external, stage)?;
    tell(alloc, &config(alloc)?, &Part::Opening(&opening), out)
}

#[test]
fn each_stage_of_an_opening(rt: HostRuntime) -> Result<(), Fail> {
    let alloc = rt.alloc();
    let mut out = Vec::new(alloc);
    tell_opening(alloc, "001", Stage::Waiting, &mut out)?;
    let given = Stage::Given(Txt::copied(alloc, "s2")?);
    tell_opening(alloc, "002", given, &mut out)?;
    let closed = Stage::Closed(Txt::copied(alloc, "s3")?);
    tell_opening(alloc, "003", closed, &mut out)?;
    let due = "put o/store/001 = \"0123456789abcdef0123456789abcdef\",\"waiting\",\n\
               drop o/store/001\n\
               put o/store/002 = \"0123456789abcdef0123456789abcdef\",\"given\",\"s2\"\n\
               drop o/store/002\n\
               put o/store/003 = \"0123456789abcdef0123456789abcdef\",\"closed\",\"s3\"\n\
               drop o/store/003\n";
    assert_eq!(rt; out.as_slice(), due.as_bytes());
    Ok(())
}

fn tell_batch(
    alloc: Global,
    id: u64,
    channel: u32,
    standing: Standing,
    changes: (u64, u64),
    out: &mut Vec<u8>,
) -> Result<(), NoMemory> {
    let (first, last) = changes;
    let batch = batch(alloc, id, channel, standing, first, last)?;
    tell(alloc, &config(alloc)?, &Part::Batch(&batch), out)
}

#[test]
fn each_standing_of_a_batch(rt: HostRuntime) -> Result<(), Fail> {
    let alloc = rt.alloc();
    let mut out = Vec::new(alloc);
    tell_batch(alloc, 3, 1, Standing::New, (11, 12), &mut out)?;
    let erred = Standing::Erred { row: 2, rule: 8 };
    tell_batch(alloc, 21, 0, erred, (9, 11), &mut out)?;
    tell_batch(
        alloc,
        4611686018427387904,
        0,
        Standing::Acked,
        (1, 1),
        &mut out,
    )?;
    tell_batch(
        alloc,
        18446744073709551615,
        0,
        Standing::Acked,
        (1, 0),
        &mut out,
    )?;
    let due = "put b/00000000000000000003 = \"s1\",\"news\",\"NE\",,,\"11\",\"12\"\n\
               drop b/00000000000000000003\n\
               put b/00000000000000000021 = \"s1\",\"orders\",\"ER\",\"2\",\"8\",\"9\",\"10\",\"11\"\n\
               drop b/00000000000000000021\n\
               put b/04611686018427387904 = \"s1\",\"orders\",\"OK\",,,\"1\"\n\
               drop b/04611686018427387904\n\
               put b/18446744073709551615 = \"s1\",\"orders\",\"OK\",,\n\
               drop b/18446744073709551615\n";
    assert_eq!(rt; out.as_slice(), due.as_bytes());
    Ok(())
}

fn tell_lane(
    alloc: Global,
    channel: u32,
    highest: u64,
    ignored: Option<bool>,
    error: Option<LaneError>,
    out: &mut Vec<u8>,
) -> Result<(), NoMemory> {
    let lane = lane(alloc, channel, highest, ignored, error)?;
    tell(alloc, &config(alloc)?, &Part::Lane(&lane), out)
}

#[test]
fn lanes_with_and_without_an_error(rt: HostRuntime) -> Result<(), Fail> {
    let alloc = rt.alloc();
    let mut out = Vec::new(alloc);
    let doubled = LaneError {
        batch: 6,
        row: 1,
        rule: Rule::DuplicateKey,
    };
    let manual = LaneError {
        batch: 1,
        row: 3,
        rule: Rule::ManualConflict,
    };
    tell_lane(alloc, 0, 5, Some(false), None, &mut out)?;
    tell_lane(alloc, 1, 5, Some(true), None, &mut out)?;
    tell_lane(alloc, 0, 5, Some(false), Some(doubled), &mut out)?;
    tell_lane(alloc, 1, 0, None, Some(manual), &mut out)?;
    let due = "put i/s1/orders = \"5\",\"OK\",,,\n\
               drop i/s1/orders\n\
               put i/s1/news = \"5\",\"IG\",,,\n\
               drop i/s1/news\n\
               put i/s1/orders = \"5\",\"OK\",\"6\",\"1\",\"7\"\n\
               drop i/s1/orders\n\
               put i/s1/news = \"0\",,\"1\",\"3\",\"12\"\n\
               drop i/s1/news\n";
    assert_eq!(rt; out.as_slice(), due.as_bytes());
    Ok(())
}
