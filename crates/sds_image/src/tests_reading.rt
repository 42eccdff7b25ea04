//! Records that tell a state, and others that tell none, with the key of the record that is to blame.
use crate::{State, StateRefusal};
use sds_base::{Bytes, List, NoMemory, Txt};
use sds_types::{Algorithm, ChannelDef, Config};
use sds_value::{ColumnDef, Kind, TableDef};
use std::alloc::Global;
use std::test::Fail;

fn column(
    alloc: Global,
    name: &str,
    kind: Kind,
    parent: Option<u32>,
) -> Result<ColumnDef, NoMemory> {
    Ok(ColumnDef {
        name: Txt::copied(alloc, name)?,
        kind,
        not_null: parent.is_none(),
        parent,
    })
}

/// A table with the key `id` and another column, which allows null where it refers to a table.
fn table(
    alloc: Global,
    name: &str,
    other: &str,
    kind: Kind,
    parent: Option<u32>,
) -> Result<TableDef, NoMemory> {
    let mut columns = List::new(alloc);
    columns.push(column(alloc, "id", Kind::Integer, None)?)?;
    columns.push(column(alloc, other, kind, parent)?)?;
    let mut key = List::new(alloc);
    key.push(0)?;
    let name = Txt::copied(alloc, name)?;
    Ok(TableDef { name, columns, key })
}

/// The tables `item` with a name, and `line`, which refers to items.
fn tables(alloc: Global) -> Result<List<TableDef>, NoMemory> {
    let mut tables = List::new(alloc);
    tables.push(table(alloc, "item", "name", Kind::Varchar(40), None)?)?;
    tables.push(table(alloc, "line", "item", Kind::Integer, Some(0))?)?;
    Ok(tables)
}

fn channels(alloc: Global) -> Result<List<ChannelDef>, NoMemory> {
    let mut channels = List::new(alloc);
    channels.push(ChannelDef {
        id: Txt::copied(alloc, "orders")?,
        processing_order: 1,
        max_batch_size: 10,
        max_batch_to_send: 10,
        batch_algorithm: Algorithm::Default,
    })?;
    Ok(channels)
}

/// A configuration with the groups `corp` and `store` and the channel `orders`.
fn config(alloc: Global) -> Result<Config, NoMemory> {
    let mut groups = List::new(alloc);
    groups.push(Txt::copied(alloc, "corp")?)?;
    groups.push(Txt::copied(alloc, "store")?)?;
    Ok(Config {
        groups,
        links: List::new(alloc),
        channels: channels(alloc)?,
        tables: tables(alloc)?,
        triggers: List::new(alloc),
        routers: List::new(alloc),
        trigger_routers: List::new(alloc),
        transforms: List::new(alloc),
        conflicts: List::new(alloc),
    })
}

/// Records that tell a state.
const GOOD: [(&str, &str); 14] = [
    ("b/00000000000000000001", "\"s1\",\"orders\",\"OK\",,,\"1\""),
    ("b/00000000000000000002", "\"s1\",\"orders\",\"NE\",,,\"2\""),
    ("count", "\"5\",\"3\",\"3\",\"2\",\"2\""),
    (
        "d/00000000000000000001",
        "\"1\",\"item\",\"I\",\"orders\",,\"1\",\"pen\"",
    ),
    (
        "d/00000000000000000002",
        "\"2\",\"item\",\"U\",\"orders\",\"s1\",\"1\",\"ink\",\"1\",\"pen\"",
    ),
    (
        "d/00000000000000000003",
        "\"2\",\"line\",\"I\",\"orders\",,\"7\",\"1\"",
    ),
    ("i/s1/orders", "\"4\",\"OK\",\"5\",\"1\",\"9\""),
    ("me", "\"corp\",\"corp\",\"c0\""),
    (
        "n/s1",
        "\"store\",\"001\",\"0123456789abcdef0123456789abcdef\",\"child\"",
    ),
    (
        "o/store/001",
        "\"0123456789abcdef0123456789abcdef\",\"given\",\"s1\"",
    ),
    (
        "o/store/002",
        "\"0123456789abcdef0123456789abcdef\",\"waiting\",",
    ),
    ("t/item/\"1\"", "\"1\",\"ink\""),
    ("t/line/\"7\"", "\"7\",\"1\""),
    ("w/till", "\"2\",\"2\",\"2\""),
];

fn bytes(alloc: Global, text: &str) -> Result<Bytes, NoMemory> {
    let mut copy = Vec::new(alloc);
    copy.extend_from_slice(text.as_bytes())?;
    Ok(Bytes::of(copy))
}

fn push(
    alloc: Global,
    records: &mut Vec<(Bytes, Bytes)>,
    key: &str,
    body: &str,
) -> Result<(), NoMemory> {
    records.push((bytes(alloc, key)?, bytes(alloc, body)?))?;
    Ok(())
}

/// These records.
fn kept(alloc: Global, records: &[(&str, &str)]) -> Result<Vec<(Bytes, Bytes)>, NoMemory> {
    let mut all = Vec::new(alloc);
    for record in records {
        push(alloc, &mut all, record.0, record.1)?;
    }
    Ok(all)
}

/// The good records with one more, in the place of the one that has its key.
fn with(alloc: Global, key: &str, body: &str) -> Result<Vec<(Bytes, Bytes)>, NoMemory> {
    let mut all = Vec::new(alloc);
    for record in &GOOD {
        if record.0.as_bytes() < key.as_bytes() {
            push(alloc, &mut all, record.0, record.1)?;
        }
    }
    push(alloc, &mut all, key, body)?;
    for record in &GOOD {
        if record.0.as_bytes() > key.as_bytes() {
            push(alloc, &mut all, record.0, record.1)?;
        }
    }
    Ok(all)
}

/// The good records without one.
fn without(alloc: Global, key: &str) -> Result<Vec<(Bytes, Bytes)>, NoMemory> {
    let mut all = Vec::new(alloc);
    for record in &GOOD {
        if record.0.as_bytes() != key.as_bytes() {
            push(alloc, &mut all, record.0, record.1)?;
        }
    }
    Ok(all)
}

fn named(alloc: Global, word: &str, key: &Bytes) -> Result<Vec<u8>, NoMemory> {
    let mut text = Vec::new(alloc);
    text.extend_from_slice(word.as_bytes())?;
    text.extend_from_slice(key.inner())?;
    Ok(text)
}

/// What records are read as: `ok`, or `bad` or `against` with the key of a record.
fn told(alloc: Global, records: &[(Bytes, Bytes)]) -> Result<Vec<u8>, NoMemory> {
    let config = config(alloc)?;
    match State::read(alloc, &config, records) {
        Ok(_) => Ok(bytes(alloc, "ok")?.into_inner()),
        Err(StateRefusal::BadRecord(key)) => named(alloc, "bad ", &key),
        Err(StateRefusal::Contradicts(key)) => named(alloc, "against ", &key),
        Err(StateRefusal::NoMemory) => Err(NoMemory),
    }
}

/// Records that tell no part, or none under the configuration.
const BAD: [(&str, &str); 10] = [
    ("b/3", "\"s1\",\"orders\",\"NE\",,"),
    ("b/00000000000000000002", "\"s1\",\"orders\",\"NE\",\"2\""),
    (
        "b/00000000000000000002",
        "\"s1\",\"orders\",\"ER\",\"1\",\"17\"",
    ),
    (
        "d/00000000000000000003",
        "\"2\",\"line\",\"I\",\"news\",,\"7\",\"1\"",
    ),
    (
        "n/s1",
        "\"depot\",\"001\",\"0123456789abcdef0123456789abcdef\",\"child\"",
    ),
    ("me", "\"corp\",\"depot\",\"c0\""),
    ("t/none/\"1\"", "\"1\",\"ink\""),
    ("t/item/\"2\"", "\"1\",\"ink\""),
    ("t/line/\"7\"", "\"7\",\"one\""),
    ("x/1", "\"1\""),
];

/// Records that disagree with the good ones.
const AGAINST: [(&str, &str); 29] = [
    ("b/00000000000000000000", "\"s1\",\"orders\",\"NE\",,"),
    ("b/00000000000000000002", "\"s2\",\"orders\",\"NE\",,"),
    ("b/00000000000000000002", "\"s1\",\"orders\",\"NE\",,,\"4\""),
    ("b/00000000000000000003", "\"s1\",\"orders\",\"OK\",,"),
    ("b/00000000000000000004", "\"s1\",\"orders\",\"NE\",,"),
    ("count", "\"5\",\"3\",\"3\",\"2\",\"4\""),
    ("count", "\"5\",\"4\",\"3\",\"2\",\"2\""),
    ("count", "\"4611686018427387905\",\"3\",\"3\",\"2\",\"2\""),
    (
        "count",
        "\"5\",\"4611686018427387905\",\"3\",\"2\",\"4611686018427387905\"",
    ),
    ("count", "\"5\",\"3\",\"4611686018427387905\",\"2\",\"2\""),
    ("count", "\"5\",\"3\",\"3\",\"4611686018427387905\",\"2\""),
    ("count", "\"0\",\"3\",\"3\",\"2\",\"2\""),
    (
        "d/00000000000000000000",
        "\"1\",\"item\",\"I\",\"orders\",,\"1\",\"pen\"",
    ),
    (
        "d/00000000000000000004",
        "\"2\",\"item\",\"D\",\"orders\",,\"1\",\"ink\"",
    ),
    (
        "d/00000000000000000003",
        "\"3\",\"line\",\"I\",\"orders\",,\"7\",\"1\"",
    ),
    (
        "d/00000000000000000003",
        "\"0\",\"line\",\"I\",\"orders\",,\"7\",\"1\"",
    ),
    (
        "d/00000000000000000001",
        "\"1\",\"item\",\"I\",\"orders\",,\"1\",",
    ),
    ("i/s1/orders", "\"4611686018427387905\",\"OK\",,,"),
    (
        "i/s1/orders",
        "\"4\",\"OK\",\"4611686018427387905\",\"1\",\"9\"",
    ),
    ("i/s1/orders", "\"5\",\"OK\",\"5\",\"1\",\"9\""),
    ("i/s2/orders", "\"4\",\"IG\",,,"),
    (
        "o/store/002",
        "\"0123456789abcdef0123456789abcdef\",\"given\",\"s2\"",
    ),
    (
        "o/store/002",
        "\"0123456789abcdef0123456789abcdef\",\"closed\",\"s1\"",
    ),
    ("t/item/\"2\"", "\"2\","),
    ("t/line/\"8\"", "\"8\",\"2\""),
    ("w/till", "\"6\",\"2\",\"2\""),
    ("w/till", "\"2\",\"3\",\"2\""),
    ("w/till", "\"2\",\"2\",\"3\""),
    ("w/till", "\"2\",\"18446744073709551615\",\"4294967295\""),
];

/// Records that agree with the good ones.
const MORE: [(&str, &str); 9] = [
    ("b/00000000000000000003", "\"s1\",\"orders\",\"NE\",,"),
    ("count", "\"4611686018427387904\",\"3\",\"3\",\"2\",\"3\""),
    ("i/s1/orders", "\"4611686018427387904\",\"OK\",,,"),
    ("i/s1/orders", "\"0\",,\"1\",\"2\",\"16\""),
    (
        "n/s2",
        "\"store\",\"002\",\"0123456789abcdef0123456789abcdef\",\"parent\"",
    ),
    ("t/item/\"10\"", "\"10\",\"cap\""),
    ("t/line/\"6\"", "\"6\","),
    ("w/till", "\"5\",\"4\",\"0\""),
    ("w/shop", "\"1\",\"1\",\"3\""),
];

fn due(alloc: Global, word: &str, key: &str) -> Result<Vec<u8>, NoMemory> {
    named(alloc, word, &bytes(alloc, key)?)
}

/// How many items each list of a state has, and how many acts were made.
fn sizes(state: &State) -> [usize; 8] {
    [
        state.counts.acts as usize,
        state.peers.inner().len(),
        state.openings.inner().len(),
        state.writers.inner().len(),
        state.tables.count() as usize,
        state.changes.inner().len(),
        state.batches.inner().len(),
        state.lanes.inner().len(),
    ]
}

/// The sizes of the state that records tell, or none where they tell none.
fn sizes_told(alloc: Global, records: &[(Bytes, Bytes)]) -> Result<Option<[usize; 8]>, NoMemory> {
    let config = config(alloc)?;
    match State::read(alloc, &config, records) {
        Ok(state) => Ok(Some(sizes(&state))),
        Err(StateRefusal::NoMemory) => Err(NoMemory),
        Err(StateRefusal::BadRecord(_) | StateRefusal::Contradicts(_)) => Ok(None),
    }
}

#[test]
fn good_records_tell_a_state(rt: HostRuntime) -> Result<(), Fail> {
    let alloc = rt.alloc();
    let good = kept(alloc, &GOOD)?;
    assert_eq!(rt; sizes_told(alloc, &good)?, Some([5, 1, 2, 1, 2, 3, 2, 1]));
    let new = kept(alloc, &[("me", "\"corp\",\"corp\",\"c0\"")])?;
    assert_eq!(rt; sizes_told(alloc, &new)?, Some([0, 0, 0, 0, 0, 0, 0, 0]));
    Ok(())
}

#[test]
fn records_that_agree_are_read(rt: HostRuntime) -> Result<(), Fail> {
    let alloc = rt.alloc();
    for record in &MORE {
        let records = with(alloc, record.0, record.1)?;
        assert_eq!(rt; told(alloc, &records)?.as_slice(), "ok".as_bytes());
    }
    Ok(())
}

#[test]
fn a_record_that_tells_no_part_is_bad(rt: HostRuntime) -> Result<(), Fail> {
    let alloc = rt.alloc();
    for record in &BAD {
        let records = with(alloc, record.0, record.1)?;
        assert_eq!(rt; told(alloc, &records)?, due(alloc, "bad ", record.0)?);
    }
    Ok(())
}

#[test]
fn a_part_that_disagrees_contradicts(rt: HostRuntime) -> Result<(), Fail> {
    let alloc = rt.alloc();
    for record in &AGAINST {
        let records = with(alloc, record.0, record.1)?;
        assert_eq!(rt; told(alloc, &records)?, due(alloc, "against ", record.0)?);
    }
    Ok(())
}

/// What disagrees once a record isn't there.
const MISSED: [(&str, &str); 5] = [
    ("b/00000000000000000001", "ok"),
    ("d/00000000000000000001", "against b/00000000000000000001"),
    ("d/00000000000000000003", "against count"),
    ("n/s1", "against b/00000000000000000001"),
    ("t/item/\"1\"", "against t/line/\"7\""),
];

#[test]
fn parts_disagree_without_others(rt: HostRuntime) -> Result<(), Fail> {
    let alloc = rt.alloc();
    for record in &MISSED {
        let records = without(alloc, record.0)?;
        assert_eq!(rt; told(alloc, &records)?, due(alloc, record.1, "")?);
    }
    Ok(())
}

#[test]
fn the_first_refusal_counts(rt: HostRuntime) -> Result<(), Fail> {
    let alloc = rt.alloc();
    // No record of the node itself comes before all else.
    let mut records = without(alloc, "me")?;
    assert_eq!(rt; told(alloc, &records)?, due(alloc, "bad ", "")?);
    push(alloc, &mut records, "x/1", "")?;
    assert_eq!(rt; told(alloc, &records)?, due(alloc, "bad ", "")?);
    // A bad record comes before a part that disagrees.
    let mut records = with(alloc, "count", "\"5\",\"4\",\"3\",\"2\",\"2\"")?;
    assert_eq!(rt; told(alloc, &records)?, due(alloc, "against ", "count")?);
    push(alloc, &mut records, "x/1", "")?;
    assert_eq!(rt; told(alloc, &records)?, due(alloc, "bad ", "x/1")?);
    Ok(())
}

#[test]
fn keys_ascend(rt: HostRuntime) -> Result<(), Fail> {
    let alloc = rt.alloc();
    let mut records = kept(alloc, &GOOD)?;
    push(alloc, &mut records, "w/till", "\"2\",\"2\",\"2\"")?;
    assert_eq!(rt; told(alloc, &records)?, due(alloc, "bad ", "w/till")?);
    let mut records = kept(alloc, &GOOD)?;
    push(alloc, &mut records, "w/shop", "\"1\",\"1\",\"3\"")?;
    assert_eq!(rt; told(alloc, &records)?, due(alloc, "bad ", "w/shop")?);
    Ok(())
}

#[test]
fn counters_of_no_act_are_kept_nowhere(rt: HostRuntime) -> Result<(), Fail> {
    let alloc = rt.alloc();
    let records = [
        ("count", "\"0\",\"0\",\"0\",\"0\",\"0\""),
        ("me", "\"corp\",\"corp\",\"c0\""),
    ];
    let records = kept(alloc, &records)?;
    assert_eq!(rt; told(alloc, &records)?, due(alloc, "against ", "count")?);
    Ok(())
}
