//! The orders of a few messages, worked out by hand.
use crate::{acks_in_order, deliver_places};
use sds_base::NoMemory;
use sds_types::Ack;
use std::alloc::Global;
use std::test::Fail;

/// The places in the order of delivery.
fn delivered(alloc: Global, mentions: &[u32], channels: &[u32]) -> Result<String, NoMemory> {
    let places = deliver_places(alloc, mentions, channels)?;
    let mut text = String::new(alloc);
    for place in &places {
        let said = format!(in alloc; "{place} ")?;
        text.push_str(said.as_str())?;
    }
    Ok(text)
}

#[test]
fn mentions_stand_for_the_next_of_their_channel(rt: HostRuntime) -> Result<(), Fail> {
    let alloc = rt.alloc();
    let cases: [(&'static [u32], &'static [u32], &'static str); 10] = [
        (&[], &[0, 1, 0, 1, 2], "0 1 2 3 4 "),
        (&[1], &[0, 1, 0, 1, 2], "1 0 2 3 4 "),
        (&[1, 1, 0], &[0, 1, 0, 1, 2], "1 3 0 2 4 "),
        (&[2, 0, 1], &[0, 1, 0, 1, 2], "4 0 1 2 3 "),
        (&[0, 7, 0, 1], &[0, 1, 0, 1, 2], "0 2 1 3 4 "),
        (&[2, 2, 2], &[0, 1, 0, 1, 2], "4 0 1 2 3 "),
        (&[7], &[0, 1, 0, 1, 2], "0 1 2 3 4 "),
        (&[3, 3], &[3, 3, 3], "0 1 2 "),
        (&[1], &[], ""),
        (&[], &[], ""),
    ];
    for (mentions, channels, due) in &cases {
        let said = delivered(alloc, *mentions, *channels)?;
        assert_eq!(rt; said.as_str(), *due);
    }
    Ok(())
}

/// The acks in the order of a message, of a place, a batch and the row of its error, or 0, each.
fn ordered(alloc: Global, count: usize, given: &[(usize, u64, u32)]) -> Result<String, NoMemory> {
    let mut acks = Vec::new(alloc);
    for (place, batch, row) in given {
        let error = if *row == 0 { None } else { Some((*row, 3)) };
        let ack = Ack {
            batch: *batch,
            error,
        };
        acks.push((*place, ack))?;
    }
    let made = acks_in_order(alloc, count, &acks)?;
    let mut text = String::new(alloc);
    for ack in made.inner() {
        let batch = ack.batch;
        let said = match ack.error {
            Some((row, rule)) => format!(in alloc; "{batch} ER {row} {rule}, ")?,
            None => format!(in alloc; "{batch} OK, ")?,
        };
        text.push_str(said.as_str())?;
    }
    Ok(text)
}

#[test]
fn acks_come_in_the_order_of_the_message(rt: HostRuntime) -> Result<(), Fail> {
    let alloc = rt.alloc();
    let cases: [(usize, &'static [(usize, u64, u32)], &'static str); 7] = [
        (
            3,
            &[(2, 12, 0), (0, 10, 0), (1, 11, 0)],
            "10 OK, 11 OK, 12 OK, ",
        ),
        (3, &[(2, 12, 4), (0, 10, 0)], "10 OK, 12 ER 4 3, "),
        (3, &[(1, 11, 0), (1, 21, 5)], "11 OK, "),
        (3, &[(3, 13, 0), (2, 12, 0)], "12 OK, "),
        (2, &[(0, 12, 0), (1, 10, 0)], "12 OK, 10 OK, "),
        (3, &[], ""),
        (0, &[(0, 10, 0)], ""),
    ];
    for (count, given, due) in &cases {
        let said = ordered(alloc, *count, *given)?;
        assert_eq!(rt; said.as_str(), *due);
    }
    Ok(())
}
