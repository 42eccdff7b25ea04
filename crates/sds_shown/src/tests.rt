//! The tables and the batches of a node, as they are shown.
use crate::tests_parts::{config, state, tables};
use crate::{put_batches, put_tables};
use std::test::Fail;

/// What is shown of the tables: rows by key, the null as nothing, and each number in quotes.
const TABLES: &str = "> table price\n\
    \"-3\",\n\
    \"5\",\"-0.05\"\n\
    \"7\",\"2.50\"\n\
    table stock\n\
    \"12\",\"4\"\n\
    table bin\n";

/// What is shown of the batches: those that go out by number, then the lanes by peer and, of a peer,
/// in the order of channels.
const BATCHES: &str = "> out 1 s1 orders 3 OK\n\
    out 2 s2 news 2 ER 2 9\n\
    out 12 s1 bulk 1 NE\n\
    in s1 orders 5 OK\n\
    in s1 news 3 IG held 4 1 9\n\
    in s2 orders 11 IG\n\
    in s2 bulk 0 - held 10 2 4\n";

#[test]
fn tables_are_shown_with_their_rows(rt: HostRuntime) -> Result<(), Fail> {
    let alloc = rt.alloc();
    let config = config(alloc)?;
    let tables = tables(alloc, &config.tables)?;
    let state = state(alloc, tables)?;
    let mut out = Vec::new(alloc);
    out.extend_from_slice(b"> ")?;
    put_tables(alloc, &config, &state, &mut out)?;
    assert_eq!(rt; out.as_slice(), TABLES.as_bytes());
    Ok(())
}

#[test]
fn batches_are_shown_with_their_statuses(rt: HostRuntime) -> Result<(), Fail> {
    let alloc = rt.alloc();
    let config = config(alloc)?;
    let tables = tables(alloc, &config.tables)?;
    let state = state(alloc, tables)?;
    let mut out = Vec::new(alloc);
    out.extend_from_slice(b"> ")?;
    put_batches(alloc, &config, &state, &mut out)?;
    assert_eq!(rt; out.as_slice(), BATCHES.as_bytes());
    Ok(())
}
