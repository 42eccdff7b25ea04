//! Tests of the batches that a routing run makes, each run in a table with what is due.
ghost use Rattle.std.specs.Prelude.{◌<◌, ℕ, IfOk};
ghost use Rattle.std.specs.List.{All, AllPairs};

use crate::{Algorithm, run};
use sds_base::{List, NoMemory, Txt};
use sds_types::{Change, ChannelDef, Config, NewBatch};
use sds_value::Event;
use std::alloc::Global;
use std::test::Fail;

/// The peers at the places 0, 1 and 2, each a binary digit, and none of them.
const A: u32 = 1;

const B: u32 = 2;

const C: u32 = 4;

const NOBODY: u32 = 0;

/// A change that waits: its number, its transaction, the place of its channel, and its peers.
type Given = (u64, u64, u32, u32);

/// A channel whose batches are full at two changes.
fn channel(
    alloc: Global,
    id: &str,
    processing_order: u32,
    batch_algorithm: Algorithm,
) -> Result<ChannelDef, NoMemory> {
    Ok(ChannelDef {
        id: Txt::copied(alloc, id)?,
        processing_order,
        max_batch_size: 2,
        max_batch_to_send: 10,
        batch_algorithm,
    })
}

/// The channel `b` at place 0, which goes last, and `c` and `a` of one processing order.
fn config(alloc: Global, algorithms: [Algorithm; 3]) -> Result<Config, NoMemory> {
    let mut channels = List::new(alloc);
    channels.push(channel(alloc, "b", 20, algorithms[0])?)?;
    channels.push(channel(alloc, "c", 10, algorithms[1])?)?;
    channels.push(channel(alloc, "a", 10, algorithms[2])?)?;
    Ok(Config {
        groups: List::new(alloc),
        links: List::new(alloc),
        channels,
        tables: List::new(alloc),
        triggers: List::new(alloc),
        routers: List::new(alloc),
        trigger_routers: List::new(alloc),
        transforms: List::new(alloc),
        conflicts: List::new(alloc),
    })
}

fn change(given: Given) -> Change {
    let (id, tx, channel, _peers) = given;
    Change {
        id,
        tx,
        table: 0,
        event: Event::Insert,
        new: None,
        old: None,
        channel,
        source: None,
    }
}

/// The places of these peers, ascending.
#[tactic(auto, using(crate::proofs::Places::one_more, crate::proofs::Places::as_before))]
fn places(alloc: Global, peers: u32) -> Result<List<u32>, NoMemory>
    ensures { IfOk result (λ places. AllPairs (λ (a b : ℕ). a < b) places) }
{
    let mut places = List::new(alloc);
    let mut left = peers;
    for place in 0..32u32 {
        let is_one = left % 2 == 1;
        left /= 2;
        if !is_one {
            continue;
        }
        places.push(place)?;
    }
    Ok(places)
}

/// For each change the places of its peers.
#[tactic(auto, using(crate::proofs::Places::one_list_more))]
fn targets(alloc: Global, given: &[Given]) -> Result<Vec<List<u32>>, NoMemory>
    ensures { IfOk result (λ targets. All (AllPairs (λ (a b : ℕ). a < b)) targets.items) }
{
    let mut targets = Vec::new(alloc);
    for one in given {
        let (_id, _tx, _channel, peers) = *one;
        targets.push(places(alloc, peers)?)?;
    }
    Ok(targets)
}

fn put_batch(batch: &NewBatch, out: &mut String) -> Result<(), NoMemory> {
    let alloc = *out.allocator();
    let NewBatch {
        id,
        peer,
        channel,
        changes,
    } = batch;
    let said = format!(in alloc; "{id} channel {channel} peer {peer}:")?;
    out.push_str(said.as_str())?;
    for change in changes.inner() {
        let said = format!(in alloc; " {change}")?;
        out.push_str(said.as_str())?;
    }
    out.push('\n')?;
    Ok(())
}

/// Adds a line for each batch that is made of these changes, and a last one.
fn tell(
    alloc: Global,
    out: &mut String,
    config: &Config,
    first: u64,
    given: &[Given],
) -> Result<(), NoMemory> {
    let mut changes = Vec::new(alloc);
    for one in given {
        changes.push(change(*one))?;
    }
    let targets = targets(alloc, given)?;
    let batches = run(alloc, config, &changes, &targets, first)?;
    for batch in batches.inner() {
        put_batch(batch, out)?;
    }
    out.push_str("--\n")?;
    Ok(())
}

/// Channels by their processing order and then by id, in each of them the peers by their places,
/// and each of a lane's batches by the channel's algorithm.
const CHANNELS_GO_IN_ORDER: &str = "\
1 channel 2 peer 0: 3 6
2 channel 2 peer 0: 9
3 channel 2 peer 2: 3 6
4 channel 2 peer 2: 9
5 channel 1 peer 0: 2
6 channel 1 peer 0: 5 8
7 channel 1 peer 2: 2
8 channel 1 peer 2: 5 8
9 channel 0 peer 0: 1 4 7
10 channel 0 peer 2: 1 4 7
--
";

#[test]
fn channels_go_in_order(rt: HostRuntime) -> Result<(), Fail> {
    let alloc = rt.alloc();
    let config = config(
        alloc,
        [
            Algorithm::Default,
            Algorithm::Transactional,
            Algorithm::Nontransactional,
        ],
    )?;
    let both = A | C;
    let mut out = String::new(alloc);
    tell(
        alloc,
        &mut out,
        &config,
        1,
        &[
            (1, 1, 0, both),
            (2, 1, 1, both),
            (3, 1, 2, both),
            (4, 2, 0, both),
            (5, 2, 1, both),
            (6, 2, 2, both),
            (7, 2, 0, both),
            (8, 2, 1, both),
            (9, 2, 2, both),
        ],
    )?;
    assert_eq!(rt; out.as_str(), CHANNELS_GO_IN_ORDER);
    Ok(())
}

/// Each peer has the changes that are for it, whatever others have, and one that is for nobody
/// stands in no batch. The numbers go on from lane to lane.
const PEERS_HAVE_THEIR_OWN_BATCHES: &str = "\
7 channel 0 peer 0: 1 3
8 channel 0 peer 0: 4
9 channel 0 peer 1: 2
--
1 channel 0 peer 2: 1 3
2 channel 0 peer 2: 5
--
100 channel 1 peer 0: 2
101 channel 1 peer 1: 4
102 channel 0 peer 0: 1 3
--
--
--
";

#[test]
fn peers_have_their_own_batches(rt: HostRuntime) -> Result<(), Fail> {
    let alloc = rt.alloc();
    let config = config(alloc, [Algorithm::Default; 3])?;
    let apart = [(1, 1, 0, A), (2, 1, 0, B), (3, 1, 0, A), (4, 2, 0, A)];
    let unnamed = [
        (1, 1, 0, C),
        (2, 1, 0, NOBODY),
        (3, 2, 0, C),
        (4, 3, 0, NOBODY),
        (5, 3, 0, C),
    ];
    let across = [(1, 1, 0, A), (2, 1, 1, A), (3, 1, 0, A), (4, 2, 1, B)];
    let none = [(1, 1, 0, NOBODY), (2, 1, 1, NOBODY)];
    let mut out = String::new(alloc);
    tell(alloc, &mut out, &config, 7, &apart)?;
    tell(alloc, &mut out, &config, 1, &unnamed)?;
    tell(alloc, &mut out, &config, 100, &across)?;
    tell(alloc, &mut out, &config, 1, &none)?;
    tell(alloc, &mut out, &config, 1, &[])?;
    assert_eq!(rt; out.as_str(), PEERS_HAVE_THEIR_OWN_BATCHES);
    Ok(())
}
