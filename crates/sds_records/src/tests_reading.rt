//! Records that are read, and others that tell no part.
use crate::read_record;
use crate::tests_parts::config;
use sds_base::{Bytes, NoMemory, Txt};
use sds_types::Config;
use std::alloc::Global;
use std::test::Fail;

fn bytes(alloc: Global, text: &str) -> Result<Bytes, NoMemory> {
    let mut copy = Vec::new(alloc);
    copy.extend_from_slice(text.as_bytes())?;
    Ok(Bytes::of(copy))
}

/// The configuration of the other tests, with the group `store`.
fn grouped(alloc: Global) -> Result<Config, NoMemory> {
    let mut config = config(alloc)?;
    config.groups.push(Txt::copied(alloc, "store")?)?;
    Ok(config)
}

/// Whether a record tells a part.
fn tells(alloc: Global, key: &str, body: &str) -> Result<bool, NoMemory> {
    let config = grouped(alloc)?;
    let told = read_record(alloc, &config, &bytes(alloc, key)?, &bytes(alloc, body)?)?;
    Ok(told.is_some())
}

/// How many of these records tell a part.
fn count(alloc: Global, records: &[(&str, &str)]) -> Result<usize, NoMemory> {
    let mut count = 0_usize;
    for record in records {
        if tells(alloc, record.0, record.1)? {
            count = count.saturating_add(1);
        }
    }
    Ok(count)
}

const TOLD: [(&str, &str); 19] = [
    ("me", "\"corp\",\"store\",\"c0\""),
    ("count", "\"7\",\"12\",\"3\",\"5\",\"9\""),
    (
        "n/s1",
        "\"store\",\"001\",\"0123456789abcdef0123456789abcdef\",\"child\"",
    ),
    (
        "n/s1",
        "\"store\",\"001\",\"0123456789abcdef0123456789abcdef\",\"parent\"",
    ),
    (
        "o/store/001",
        "\"0123456789abcdef0123456789abcdef\",\"waiting\",",
    ),
    (
        "o/store/001",
        "\"0123456789abcdef0123456789abcdef\",\"given\",\"s1\"",
    ),
    (
        "o/store/001",
        "\"0123456789abcdef0123456789abcdef\",\"closed\",\"s1\"",
    ),
    ("w/till", "\"4\",\"11\",\"2\""),
    ("w/till", "\"18446744073709551615\",\"0\",\"4294967295\""),
    ("t/item/\"1\"", "\"1\",\"a\\\"b\",\"2.50\""),
    ("t/stock/\"x,y\",\"12\"", "\"x,y\",,\"12\""),
    (
        "d/00000000000000000011",
        "\"3\",\"item\",\"I\",\"orders\",,\"1\",\"a\",\"2.50\"",
    ),
    (
        "d/00000000000000000012",
        "\"3\",\"item\",\"U\",\"news\",\"s1\",\"1\",\"b\",,\"1\",\"a\",\"2.50\"",
    ),
    (
        "d/00000000000000000013",
        "\"3\",\"item\",\"D\",\"orders\",,\"1\",\"b\",",
    ),
    (
        "b/00000000000000000001",
        "\"s1\",\"orders\",\"NE\",,,\"1\",\"2\"",
    ),
    (
        "b/00000000000000000002",
        "\"s1\",\"news\",\"ER\",\"4\",\"7\",\"3\"",
    ),
    ("b/00000000000000000003", "\"s1\",\"news\",\"OK\",,"),
    ("i/s1/orders", "\"5\",\"OK\",,,"),
    ("i/s1/news", "\"0\",,\"1\",\"2\",\"16\""),
];

#[test]
fn records_of_each_kind_are_read(rt: HostRuntime) -> Result<(), Fail> {
    let alloc = rt.alloc();
    assert_eq!(rt; count(alloc, &TOLD)?, TOLD.len());
    Ok(())
}

const UNTOLD: [(&str, &str); 30] = [
    ("", "\"corp\",\"store\",\"c0\""),
    ("mee", "\"corp\",\"store\",\"c0\""),
    ("me", "\"corp\",\"store\""),
    ("me", "\"corp\",\"hq\",\"c0\""),
    ("me", "\"co rp\",\"store\",\"c0\""),
    ("me", "corp,\"store\",\"c0\""),
    ("me", "\"corp\",\"store\",\"c0\"\n"),
    ("count", "\"7\",\"12\",\"3\",\"5\""),
    ("count", "\"07\",\"12\",\"3\",\"5\",\"9\""),
    ("count", "\"+7\",\"12\",\"3\",\"5\",\"9\""),
    (
        "n/",
        "\"store\",\"001\",\"0123456789abcdef0123456789abcdef\",\"child\"",
    ),
    (
        "n/s1",
        "\"store\",\"001\",\"0123456789ABCDEF0123456789abcdef\",\"child\"",
    ),
    (
        "n/s1",
        "\"store\",\"001\",\"0123456789abcdef0123456789abcdef\",\"CHILD\"",
    ),
    (
        "o/store",
        "\"0123456789abcdef0123456789abcdef\",\"waiting\",",
    ),
    (
        "o/store/001",
        "\"0123456789abcdef0123456789abcdef\",\"waiting\",\"s1\"",
    ),
    (
        "o/store/001",
        "\"0123456789abcdef0123456789abcdef\",\"given\",",
    ),
    ("w/till", "\"4\",\"11\",\"4294967296\""),
    ("t/nosuch/\"1\"", "\"1\",\"a\",\"2.50\""),
    ("t/item/\"2\"", "\"1\",\"a\",\"2.50\""),
    ("t/item/\"1\"", "\"1\",\"a\",\"2.5\""),
    ("t/item/\"1\"", "\"1\",\"a\""),
    ("t/item/\"1\"", "\"1\",\"a\",\"2.50\",\"3\""),
    (
        "d/11",
        "\"3\",\"item\",\"I\",\"orders\",,\"1\",\"a\",\"2.50\"",
    ),
    (
        "d/00000000000000000011",
        "\"3\",\"item\",\"I\",\"none\",,\"1\",\"a\",\"2.50\"",
    ),
    (
        "d/00000000000000000011",
        "\"3\",\"item\",\"U\",\"orders\",,\"1\",\"a\",\"2.50\"",
    ),
    (
        "b/00000000000000000001",
        "\"s1\",\"orders\",\"NE\",\"4\",\"7\",\"1\"",
    ),
    ("b/00000000000000000001", "\"s1\",\"orders\",\"ER\",,,\"1\""),
    (
        "b/00000000000000000001",
        "\"s1\",\"orders\",\"ER\",\"4\",\"17\",\"1\"",
    ),
    ("i/s1/orders", "\"5\",\"OK\",\"6\",,"),
    ("i/s1/orders", "\"5\",\"NE\",,,"),
];

#[test]
fn other_records_tell_no_part(rt: HostRuntime) -> Result<(), Fail> {
    let alloc = rt.alloc();
    assert_eq!(rt; count(alloc, &UNTOLD)?, 0);
    Ok(())
}
