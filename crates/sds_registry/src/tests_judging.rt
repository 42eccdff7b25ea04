//! What the lists decide of a call, for each ground in its order.
use crate::tests_parts::{batch, config, kept, lane, opening, peer, stage, state, writer};
use crate::{
    are_linked, is_open_for, judge_join, judge_lane, judge_number, judge_opening,
    judge_registration, keeps_error, knows_sender,
};
use sds_base::{List, NoMemory};
use sds_image::State;
use sds_types::{
    KeptPeer, LaneError, LaneIn, LoadAnswer, Opening, RegRefusal, Rule, Stage, WriteRefusal,
    Written,
};
use std::alloc::Global;
use std::test::Fail;

/// The number of a refusal, or 0.
fn number_of(answer: Result<(), RegRefusal>) -> u8 {
    match answer {
        Ok(()) => 0,
        Err(refusal) => refusal.number(),
    }
}

fn two_peers(alloc: Global) -> Result<List<KeptPeer>, NoMemory> {
    let mut peers = List::new(alloc);
    for (id, token) in &[("s1", "t1"), ("s2", "t2")] {
        peers.push(kept(alloc, *id, *token)?)?;
    }
    Ok(peers)
}

fn three_openings(alloc: Global) -> Result<List<Opening>, NoMemory> {
    let items = [
        ("001", "given", "s1"),
        ("002", "closed", "s2"),
        ("003", "waiting", ""),
    ];
    let mut openings = List::new(alloc);
    for (external, kind, node) in &items {
        let stage = stage(alloc, *kind, *node)?;
        openings.push(opening(alloc, "store", *external, stage)?)?;
    }
    Ok(openings)
}

/// The error of the lane of `s1` in the first channel.
fn lane_error() -> LaneError {
    LaneError {
        batch: 8,
        row: 2,
        rule: Rule::RowMissing,
    }
}

fn two_lanes(alloc: Global) -> Result<List<LaneIn>, NoMemory> {
    let mut lanes = List::new(alloc);
    lanes.push(lane(alloc, "s1", 0, 7, Some(lane_error()))?)?;
    lanes.push(lane(alloc, "s2", 1, 3, None)?)?;
    Ok(lanes)
}

/// Gives a node the peers `s1` and `s2`, three openings, a writer and a lane in error.
fn fill(alloc: Global, node: &mut State) -> Result<(), NoMemory> {
    node.peers = two_peers(alloc)?;
    node.openings = three_openings(alloc)?;
    node.writers.push(writer(alloc, "till", 4)?)?;
    node.lanes = two_lanes(alloc)?;
    Ok(())
}

fn node(alloc: Global) -> Result<State, NoMemory> {
    let mut node = state(alloc)?;
    fill(alloc, &mut node)?;
    Ok(node)
}

/// 1,000 peers of one id.
fn most_peers(alloc: Global) -> Result<List<KeptPeer>, NoMemory> {
    let mut peers = List::new(alloc);
    for _ in 0..1_000 {
        peers.push(kept(alloc, "s1", "t1")?)?;
    }
    Ok(peers)
}

/// A node with 1,000 peers of one id and an opening that waits.
fn full_node(alloc: Global) -> Result<State, NoMemory> {
    let mut node = state(alloc)?;
    node.peers = most_peers(alloc)?;
    node.openings = three_openings(alloc)?;
    Ok(node)
}

#[test]
fn openings_are_judged(rt: HostRuntime) -> Result<(), Fail> {
    let alloc = rt.alloc();
    let config = config(alloc)?;
    let node = node(alloc)?;
    let cases = [
        ("lab", "001", 2),
        ("store", "001", 3),
        ("store", "002", 3),
        ("store", "004", 0),
    ];
    for (group, external, due) in &cases {
        let answer = judge_opening(&config, &node, *group, *external);
        assert_eq!(rt; number_of(answer), *due);
    }
    assert!(rt; is_open_for(&node, "s1"));
    assert!(rt; !is_open_for(&node, "s2"));
    Ok(())
}

#[test]
fn groups_are_linked_both_ways(rt: HostRuntime) -> Result<(), Fail> {
    let config = config(rt.alloc())?;
    assert!(rt; are_linked(&config, "store", "hq"));
    assert!(rt; are_linked(&config, "hq", "store"));
    assert!(rt; !are_linked(&config, "store", "store"));
    Ok(())
}

/// The number of the refusal of a node that asks, and 0 where it is given the token.
fn asked(alloc: Global, node: &State, id: &str, external: &str) -> Result<u8, NoMemory> {
    let asks = peer(alloc, id, "store", external)?;
    Ok(match judge_registration(node, &asks) {
        Ok(token) => { if token.is(external) { 0 } else { 9 } }
        Err(refusal) => refusal.number(),
    })
}

#[test]
fn registrations_are_judged(rt: HostRuntime) -> Result<(), Fail> {
    let alloc = rt.alloc();
    let node = node(alloc)?;
    let cases = [
        ("s9", "009", 1),
        ("s2", "002", 1),
        ("corp", "003", 4),
        ("s1", "003", 4),
        ("s9", "001", 4),
        ("s1", "001", 0),
        ("s9", "003", 0),
    ];
    for (id, external, due) in &cases {
        assert_eq!(rt; asked(alloc, &node, *id, *external)?, *due);
    }
    Ok(())
}

/// The number of the refusal to join a node of the group `store`, or 0.
fn joined(alloc: Global, node: &State, id: &str, values: (&str, &str)) -> Result<u8, NoMemory> {
    let config = config(alloc)?;
    let (external, token) = values;
    let other = peer(alloc, id, "store", external)?;
    Ok(number_of(judge_join(&config, node, &other, token)))
}

#[test]
fn joins_are_judged(rt: HostRuntime) -> Result<(), Fail> {
    let alloc = rt.alloc();
    let node = node(alloc)?;
    let cases = [
        ("corp", "001", "t9", 4),
        ("s1", "002", "t1", 4),
        ("s1", "001", "t2", 4),
        ("s1", "001", "t1", 0),
        ("s9", "001", "t9", 0),
    ];
    for (id, external, token, due) in &cases {
        assert_eq!(rt; joined(alloc, &node, *id, (*external, *token))?, *due);
    }
    Ok(())
}

#[test]
fn a_full_node_takes_no_further_peer(rt: HostRuntime) -> Result<(), Fail> {
    let alloc = rt.alloc();
    let node = full_node(alloc)?;
    assert_eq!(rt; asked(alloc, &node, "s9", "003")?, 5);
    assert_eq!(rt; joined(alloc, &node, "s9", ("001", "t9"))?, 5);
    assert_eq!(rt; joined(alloc, &node, "s1", ("001", "t1"))?, 0);
    Ok(())
}

/// The kind of an answer by a write's number, and the numbers that it tells.
fn told(answer: Option<Result<Written, WriteRefusal>>) -> (&'static str, u64, u32) {
    match answer {
        None => ("next", 0, 0),
        Some(Ok(Written::Again { first, count })) => ("again", first, count),
        Some(Err(WriteRefusal::OldNumber(last))) => ("old", last, 0),
        Some(Err(WriteRefusal::GapNumber(last))) => ("gap", last, 0),
        Some(_) => ("other", 0, 0),
    }
}

#[test]
fn numbers_of_writes_are_judged(rt: HostRuntime) -> Result<(), Fail> {
    let node = node(rt.alloc())?;
    let cases = [
        ("till", 0, ("old", 4, 0)),
        ("till", 3, ("old", 4, 0)),
        ("till", 4, ("again", 11, 2)),
        ("till", 5, ("next", 0, 0)),
        ("till", 6, ("gap", 4, 0)),
        ("till", 18446744073709551615, ("gap", 4, 0)),
        ("app", 0, ("old", 0, 0)),
        ("app", 1, ("next", 0, 0)),
        ("app", 2, ("gap", 0, 0)),
    ];
    for (name, number, due) in &cases {
        assert_eq!(rt; told(judge_number(&node, *name, *number)), *due);
    }
    Ok(())
}

#[test]
fn batches_are_judged_by_their_lane(rt: HostRuntime) -> Result<(), Fail> {
    let alloc = rt.alloc();
    let node = node(alloc)?;
    let held = LoadAnswer::Held {
        batch: 8,
        row: 2,
        rule: Rule::RowMissing,
    };
    let unknown = LoadAnswer::Erred {
        row: 0,
        rule: Rule::UnknownChannel,
    };
    let cases = [
        ("s1", None, 9, Some(unknown)),
        ("s1", Some(0), 7, Some(LoadAnswer::Again)),
        ("s1", Some(0), 8, None),
        ("s1", Some(0), 9, Some(held)),
        ("s1", Some(1), 9, None),
        ("s2", Some(1), 3, Some(LoadAnswer::Again)),
        ("s2", Some(1), 4, None),
        ("s2", Some(0), 0, Some(LoadAnswer::Again)),
    ];
    for (from, channel, number, due) in &cases {
        let batch = batch(alloc, "store", *channel, *number)?;
        assert_eq!(rt; judge_lane(&node, *from, &batch), *due);
    }
    Ok(())
}

#[test]
fn senders_are_known_by_id_and_group(rt: HostRuntime) -> Result<(), Fail> {
    let alloc = rt.alloc();
    let node = node(alloc)?;
    let own = batch(alloc, "store", Some(0), 9)?;
    let other = batch(alloc, "hq", Some(0), 9)?;
    assert!(rt; knows_sender(&node, "s1", &own));
    assert!(rt; !knows_sender(&node, "s9", &own));
    assert!(rt; !knows_sender(&node, "s1", &other));
    Ok(())
}

#[test]
fn an_error_is_kept_once(rt: HostRuntime) -> Result<(), Fail> {
    let node = node(rt.alloc())?;
    let error = lane_error();
    let later = LaneError { batch: 9, ..error };
    let other = LaneError { row: 1, ..error };
    assert!(rt; keeps_error(&node, "s1", 0, error));
    assert!(rt; !keeps_error(&node, "s1", 1, error));
    assert!(rt; !keeps_error(&node, "s1", 0, later));
    assert!(rt; !keeps_error(&node, "s1", 0, other));
    Ok(())
}
