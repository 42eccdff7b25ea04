//! What goes next to a peer, and what acks say, each case with what is due.
use crate::tests_parts::{ERRED, Given, acks, batches, config, node};
use crate::{changed, offer, restate, unknown_ack};
use sds_base::NoMemory;
use sds_types::{OutBatch, Standing};
use std::alloc::Global;
use std::test::Fail;

/// Batches of three lanes to `s1`, of which one has an acknowledged batch and one a batch in error,
/// and a batch to `s2`.
const LANES: [Given; 11] = [
    (1, "s1", 0, Standing::Acked),
    (2, "s1", 0, Standing::New),
    (3, "s1", 1, Standing::New),
    (4, "s1", 0, Standing::New),
    (5, "s1", 2, ERRED),
    (6, "s1", 2, Standing::New),
    (7, "s1", 0, Standing::New),
    (8, "s1", 0, Standing::New),
    (9, "s1", 1, Standing::New),
    (10, "s1", 1, Standing::New),
    (11, "s2", 0, Standing::New),
];

/// The numbers of the batches that go next.
fn offered(alloc: Global, to: &str, channels: &[u32]) -> Result<String, NoMemory> {
    let config = config(alloc)?;
    let node = node(alloc, batches(alloc, &LANES)?)?;
    let ids = offer(alloc, &config, &node, to, channels)?;
    let mut text = String::new(alloc);
    for id in ids.inner() {
        let said = format!(in alloc; "{id} ")?;
        text.push_str(said.as_str())?;
    }
    Ok(text)
}

#[test]
fn batches_go_up_to_the_most_and_up_to_an_error(rt: HostRuntime) -> Result<(), Fail> {
    let alloc = rt.alloc();
    let cases: [(&'static str, &'static [u32], &'static str); 5] = [
        ("s1", &[], "3 9 5 2 4 7 "),
        ("s1", &[0], "2 4 7 "),
        ("s1", &[2, 1], "3 9 5 "),
        ("s1", &[7], ""),
        ("s2", &[], "11 "),
    ];
    for (to, channels, due) in &cases {
        let said = offered(alloc, *to, *channels)?;
        assert_eq!(rt; said.as_str(), *due);
    }
    Ok(())
}

/// The numbers and the standings of batches.
fn told(alloc: Global, batches: &[OutBatch]) -> Result<String, NoMemory> {
    let mut text = String::new(alloc);
    for batch in batches {
        let id = batch.id;
        let name = batch.standing.name();
        let said = match batch.standing {
            Standing::Erred { row, rule } => format!(in alloc; "{id} {name} {row} {rule}, ")?,
            _ => format!(in alloc; "{id} {name}, ")?,
        };
        text.push_str(said.as_str())?;
    }
    Ok(text)
}

/// Batches of two lanes to `s1` and a batch to `s2`.
const SENT: [Given; 7] = [
    (1, "s1", 0, Standing::New),
    (2, "s1", 0, Standing::New),
    (3, "s2", 0, Standing::New),
    (4, "s1", 1, Standing::New),
    (5, "s1", 0, Standing::New),
    (6, "s1", 0, ERRED),
    (7, "s1", 0, Standing::New),
];

/// The batches after acks of `s1`, and how many the acks change.
fn after_acks(alloc: Global, given: &[(u64, u32)]) -> Result<String, NoMemory> {
    let mut batches = batches(alloc, &SENT)?;
    let acks = acks(alloc, given)?;
    let restated = changed(alloc, &batches, "s1", &acks)?;
    restate(&mut batches, restated.inner());
    let mut text = told(alloc, &batches)?;
    let count = restated.inner().len();
    let said = format!(in alloc; "{count} changed")?;
    text.push_str(said.as_str())?;
    Ok(text)
}

#[test]
fn acks_say_what_became_of_batches(rt: HostRuntime) -> Result<(), Fail> {
    let alloc = rt.alloc();
    let cases: [(&'static [(u64, u32)], &'static str); 8] = [
        (
            &[],
            "1 NE, 2 NE, 3 NE, 4 NE, 5 NE, 6 ER 2 3, 7 NE, 0 changed",
        ),
        (
            &[(5, 4), (5, 0)],
            "1 OK, 2 OK, 3 NE, 4 NE, 5 OK, 6 ER 2 3, 7 NE, 3 changed",
        ),
        (
            &[(5, 0), (5, 4)],
            "1 OK, 2 OK, 3 NE, 4 NE, 5 OK, 6 ER 2 3, 7 NE, 3 changed",
        ),
        (
            &[(1, 0), (2, 4)],
            "1 OK, 2 ER 4 3, 3 NE, 4 NE, 5 NE, 6 ER 2 3, 7 NE, 2 changed",
        ),
        (
            &[(4, 0)],
            "1 NE, 2 NE, 3 NE, 4 OK, 5 NE, 6 ER 2 3, 7 NE, 1 changed",
        ),
        (
            &[(3, 0)],
            "1 NE, 2 NE, 3 NE, 4 NE, 5 NE, 6 ER 2 3, 7 NE, 0 changed",
        ),
        (
            &[(6, 2)],
            "1 NE, 2 NE, 3 NE, 4 NE, 5 NE, 6 ER 2 3, 7 NE, 0 changed",
        ),
        (
            &[(6, 0)],
            "1 OK, 2 OK, 3 NE, 4 NE, 5 OK, 6 OK, 7 NE, 4 changed",
        ),
    ];
    for (given, due) in &cases {
        let said = after_acks(alloc, *given)?;
        assert_eq!(rt; said.as_str(), *due);
    }
    Ok(())
}

#[test]
fn the_first_ack_without_a_batch_is_told(rt: HostRuntime) -> Result<(), Fail> {
    let alloc = rt.alloc();
    let node = node(alloc, batches(alloc, &SENT)?)?;
    let cases: [(&'static [(u64, u32)], u64); 4] = [
        (&[], 0),
        (&[(1, 0), (7, 4)], 0),
        (&[(1, 0), (3, 0), (8, 0)], 3),
        (&[(8, 4), (3, 0)], 8),
    ];
    for (given, due) in &cases {
        let acks = acks(alloc, *given)?;
        assert_eq!(rt; unknown_ack(&node, "s1", &acks).unwrap_or(0), *due);
    }
    Ok(())
}
