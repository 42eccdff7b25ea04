//! Messages, each with the text that is due.
use crate::put_message;
use crate::tests_parts::{config, kept, state};
use sds_base::{Bytes, NoMemory};
use std::alloc::Global;
use std::test::Fail;

/// The records of the node `corp` with batches of all standings to `s1` and to `s2`.
const RECORDS: [(&'static str, &'static str); 18] = [
    ("b/00000000000000000001", "\"s1\",\"orders\",\"OK\",,,\"1\""),
    ("b/00000000000000000002", "\"s1\",\"orders\",\"NE\",,,\"2\""),
    (
        "b/00000000000000000003",
        "\"s1\",\"stock\",\"ER\",\"1\",\"3\",\"3\"",
    ),
    ("b/00000000000000000004", "\"s1\",\"orders\",\"NE\",,,\"4\""),
    ("b/00000000000000000005", "\"s1\",\"stock\",\"NE\",,,\"5\""),
    (
        "b/00000000000000000006",
        "\"s2\",\"orders\",\"NE\",,,\"1\",\"2\"",
    ),
    ("b/00000000000000000007", "\"s1\",\"orders\",\"NE\",,,\"6\""),
    ("b/00000000000000000008", "\"s2\",\"stock\",\"OK\",,,\"5\""),
    ("count", "\"9\",\"6\",\"8\",\"6\",\"6\""),
    (
        "d/00000000000000000001",
        "\"1\",\"item\",\"I\",\"orders\",,\"1\",\"pen\"",
    ),
    (
        "d/00000000000000000002",
        "\"2\",\"item\",\"U\",\"orders\",,\"1\",\"ink\",\"1\",\"pen\"",
    ),
    (
        "d/00000000000000000003",
        "\"3\",\"shelf\",\"I\",\"stock\",,\"7\",\"a \\\"top\\\" one\"",
    ),
    (
        "d/00000000000000000004",
        "\"4\",\"item\",\"D\",\"orders\",,\"1\",\"ink\"",
    ),
    (
        "d/00000000000000000005",
        "\"5\",\"shelf\",\"I\",\"stock\",,\"8\",\"low\"",
    ),
    (
        "d/00000000000000000006",
        "\"6\",\"item\",\"I\",\"orders\",,\"2\",\"cap\"",
    ),
    ("me", "\"corp\",\"corp\",\"c0\""),
    (
        "n/s1",
        "\"store\",\"001\",\"0123456789abcdef0123456789abcdef\",\"child\"",
    ),
    (
        "n/s2",
        "\"store\",\"002\",\"0123456789abcdef0123456789abcdef\",\"child\"",
    ),
];

/// The document of the batch in `stock`, which is in error.
const STOCK: &'static str = "channel,stock\nbatch,3\ntable,shelf\nkeys,id\ncolumns,id,name\n\
    insert,\"7\",\"a \\\"top\\\" one\"\ncommit,3\n";

/// The documents of the two batches in `orders`.
const ORDERS: &'static str = "channel,orders\nbatch,2\ntable,item\nkeys,id\ncolumns,id,name\n\
    old,\"1\",\"pen\"\nupdate,\"1\",\"ink\",\"1\"\ncommit,2\n\
    channel,orders\nbatch,4\ntable,item\nkeys,id\ncolumns,id,name\n\
    old,\"1\",\"ink\"\ndelete,\"1\"\ncommit,4\n";

/// The document of the batch to `s2`.
const OTHER: &'static str = "channel,orders\nbatch,6\ntable,item\nkeys,id\ncolumns,id,name\n\
    insert,\"1\",\"pen\"\nold,\"1\",\"pen\"\nupdate,\"1\",\"ink\",\"1\"\ncommit,6\n";

/// What stands before a message, and its text: the head, and two texts of documents.
fn due(alloc: Global, first: &str, later: &str) -> Result<Vec<u8>, NoMemory> {
    let mut text = Vec::new(alloc);
    text.extend_from_slice(b"before\nnodeid,corp\nbinary,BASE64\n")?;
    text.extend_from_slice(first.as_bytes())?;
    text.extend_from_slice(later.as_bytes())?;
    Ok(text)
}

/// What stands before a message, and its text, and how many batches it has; or none where the
/// records tell no state.
fn written(
    alloc: Global,
    records: &[(Bytes, Bytes)],
    to: &str,
    channels: &[u32],
) -> Result<Option<(u64, Vec<u8>)>, NoMemory> {
    let config = config(alloc)?;
    let Some(state) = state(alloc, &config, records)? else {
        return Ok(None);
    };
    let mut out = Vec::new(alloc);
    out.extend_from_slice(b"before\n")?;
    let count = put_message(alloc, &config, &state, to, channels, &mut out)?;
    Ok(Some((count, out)))
}

#[test]
fn a_message_goes_channel_by_channel(rt: HostRuntime) -> Result<(), Fail> {
    let alloc = rt.alloc();
    let cases: [(
        &'static str,
        &'static [u32],
        u64,
        &'static str,
        &'static str,
    ); 6] = [
        ("s1", &[], 3, STOCK, ORDERS),
        ("s1", &[0], 2, ORDERS, ""),
        ("s1", &[1], 1, STOCK, ""),
        ("s2", &[], 1, OTHER, ""),
        ("s2", &[1], 0, "", ""),
        ("s3", &[], 0, "", ""),
    ];
    let records = kept(alloc, &RECORDS)?;
    for (to, channels, count, first, later) in &cases {
        let said = written(alloc, &records, *to, *channels)?;
        assert_eq!(rt; said, Some((*count, due(alloc, *first, *later)?)));
    }
    Ok(())
}
