//! Loads of batches, one after another: each line is a batch in words and how its load is to end.
use crate::tests_loads::{Coming, due, told};
use crate::tests_shop::shop;
use sds_rows::Tables;
use std::test::Fail;

/// A batch in the shop's channel, where no change waits.
const PLAIN: Coming<'static> = Coming {
    channel: "all",
    waiting: 0,
};

/// Batches that load whole: the row of a batch stands for the rows after it.
const WHOLE: [&str; 10] = [
    "insert item 1, name Pen, price 2.50; insert sale a, item 1 \
     -> done, insert 1 Pen 250, insert a 1",
    " -> done",
    // Where nothing is set for a table, its rows are made to stand.
    "insert item 1, name Cap -> done, update 1 Cap 250 for 1 Pen 250",
    "update item 2, name Ink -> done, insert 2 Ink -",
    "update item 9, id 2, price 1 -> done, update 2 Ink 100 for 2 Ink -",
    "delete item 9 -> done",
    "insert item 3, name Bag; update item 3, id 4; delete item 4 \
     -> done, insert 3 Bag -, update 4 Bag - for 3 Bag -, delete for 4 Bag -",
    // A row of the document that becomes two.
    "insert pair 5, name Mug -> done, insert 5 Mug -, insert 5 Mug -",
    // Pieces of texts, and what stands for a letter.
    "insert word 1, text abcdef, letter a; insert word 2, text abcdef, letter z \
     -> done, insert 1 cd ef '' '' ab 1, insert 2 cd ef '' '' ab 9",
    "delete sale a; delete item 1 -> done, delete for a 1, delete for 1 Cap 250",
];

#[test]
fn batches_load_whole(rt: HostRuntime) -> Result<(), Fail> {
    let alloc = rt.alloc();
    let config = shop(alloc)?;
    let mut tables = Tables::new(alloc, &config.tables)?;
    let out = told(alloc, &config, &mut tables, PLAIN, &WHOLE)?;
    assert_eq!(rt; out, due(alloc, &WHOLE)?);
    Ok(())
}

/// Batches with conflicts, in the tables whose rows are skipped, whose batches are skipped, whose
/// conflicts a person looks at, and whose newer rows win.
const CONFLICTS: [&str; 17] = [
    "insert skips 1, name A; insert skips 1, name B; insert skips 2, name C \
     -> done, insert 1 A -, insert 2 C -",
    "update skips 3, name D; delete skips 3; delete skips 2 -> done, delete for 2 C -",
    "insert item 1, name Pen; insert drops 1, name A; insert drops 1, name B -> ignored",
    "insert drops 1, name A -> done, insert 1 A -",
    "delete item 1; insert drops 1, name B; insert item 1 -> ignored",
    "insert item 1, name Pen; update drops 1, name C \
     -> done, insert 1 Pen -, update 1 C - for 1 A -",
    "delete drops 2 -> ignored",
    // Texts are read before any conflict is seen.
    "insert drops 1, name B; insert item x, name Cap -> 2 BadValue",
    "insert asks 1, name A; insert asks 1, name B -> 2 ManualConflict",
    "insert asks 1, name A; update asks 1, name B -> done, insert 1 A -, update 1 B - for 1 A -",
    "delete item 1; delete asks 2 -> 2 ManualConflict",
    // A tie is skipped, and a nanosecond is enough.
    "insert newer 1, name Old, set 2024-02-29 12:00:00.000 \
     -> done, insert 1 Old t43200000000000",
    "insert newer 1, name Same, set 2024-02-29 12:00:00.000; insert item 2, name Ink \
     -> done, insert 2 Ink -",
    "insert newer 1, name New, set 2024-02-29 12:00:00.000000001 \
     -> done, update 1 New t43200000000001 for 1 Old t43200000000000",
    "insert newer 1, name Old, set 2024-02-29 12:00:00.000; update newer 2, name Two \
     -> done, insert 2 Two -",
    "insert item 3, name Bag; update newer 1, name Cap -> 2 OldMissing",
    "delete item 3 -> done",
];

#[test]
fn each_resolution_in_a_whole_batch(rt: HostRuntime) -> Result<(), Fail> {
    let alloc = rt.alloc();
    let config = shop(alloc)?;
    let mut tables = Tables::new(alloc, &config.tables)?;
    let out = told(alloc, &config, &mut tables, PLAIN, &CONFLICTS)?;
    assert_eq!(rt; out, due(alloc, &CONFLICTS)?);
    Ok(())
}

/// Sums: what a store counts is added to what stands, and twice what is lost is taken away.
const SUMS: [&str; 8] = [
    "insert item 1, name Pen; insert stock 1, qty 9223372036854775807 \
     -> done, insert 1 Pen -, insert 1 9223372036854775807",
    "insert stock 1, qty 1 -> 1 SumOutOfRange",
    "insert item 2, name Ink; insert stock 2, qty 5; insert stock 1, qty 1 -> 3 SumOutOfRange",
    "insert stock 1, qty -7 -> done, update 1 9223372036854775800 for 1 9223372036854775807",
    "insert loss 1, qty -5 -> done, insert 1 10",
    "update loss 1, id 1 was 1, qty 3 was 5 -> done, update 1 14 for 1 10",
    "update loss 1, id 1, qty 3 -> 1 OldMissing",
    "insert item 3, name Bag; update loss 1, id 1, qty 3 -> 2 OldMissing",
];

#[test]
fn numbers_are_added_to_those_that_stand(rt: HostRuntime) -> Result<(), Fail> {
    let alloc = rt.alloc();
    let config = shop(alloc)?;
    let mut tables = Tables::new(alloc, &config.tables)?;
    let out = told(alloc, &config, &mut tables, PLAIN, &SUMS)?;
    assert_eq!(rt; out, due(alloc, &SUMS)?);
    Ok(())
}

/// Batches of which a row breaks a rule: none of their rows stands.
const BROKEN: [&str; 14] = [
    "insert item 1, name Pen; insert item 2, name Ink; insert sale a, item 1 \
     -> done, insert 1 Pen -, insert 2 Ink -, insert a 1",
    "insert item 3, name Bag; insert sale b, item 9 -> 2 MissingParent",
    "delete sale a; delete item 1; update item 2, id 4; insert item 5 -> 4 NullNotAllowed",
    "update item 1, name Cap; update item 2, id 1 -> 2 DuplicateKey",
    "insert item 3, name Bag; delete item 1 -> 2 HasChildren",
    "insert item 3, name Bag; update item 1, id 7; insert item x -> 3 BadValue",
    // The first broken row is told, and a row goes by the number of its document's row.
    "insert sale b, item 9; delete item 1 -> 1 MissingParent",
    "insert pair 6, name Mug; insert sale b, item 9 -> 2 MissingParent",
    "insert item 3, name Bag; insert pair 3, name - -> 2 NullNotAllowed",
    // Texts are read first, also those of the rows after one that breaks a later rule.
    "insert sale b, item 9; insert nix 1 -> 2 UnknownTable",
    "insert item 3, name Bag; insert item 4, nix 1; insert item x -> 2 UnknownColumn",
    "insert item -, name Bag -> 1 MissingKey",
    "insert item 3, name Pencil -> 1 TooLong",
    "insert item 3, name Bag -> done, insert 3 Bag -",
];

#[test]
fn a_broken_row_leaves_the_tables(rt: HostRuntime) -> Result<(), Fail> {
    let alloc = rt.alloc();
    let config = shop(alloc)?;
    let mut tables = Tables::new(alloc, &config.tables)?;
    let out = told(alloc, &config, &mut tables, PLAIN, &BROKEN)?;
    assert_eq!(rt; out, due(alloc, &BROKEN)?);
    Ok(())
}

/// Batches in a channel that isn't known.
const ELSEWHERE: [&str; 4] = [
    "insert item 1, name Pen -> 0 UnknownChannel",
    "insert item x -> 0 UnknownChannel",
    "insert sale a, item 9 -> 0 UnknownChannel",
    " -> 0 UnknownChannel",
];

#[test]
fn an_unknown_channel_is_broken_at_row_0(rt: HostRuntime) -> Result<(), Fail> {
    let alloc = rt.alloc();
    let config = shop(alloc)?;
    let mut tables = Tables::new(alloc, &config.tables)?;
    let coming = Coming {
        channel: "other",
        waiting: 100_000,
    };
    let out = told(alloc, &config, &mut tables, coming, &ELSEWHERE)?;
    assert_eq!(rt; out, due(alloc, &ELSEWHERE)?);
    Ok(())
}

/// Where one change fewer waits than may: those of the batch itself aren't counted.
const ROOM: [&str; 1] = [
    "insert item 1, name Pen; insert item 2, name Ink; insert item 3, name Bag \
     -> done, insert 1 Pen -, insert 2 Ink -, insert 3 Bag -",
];

/// Where no further change may wait. What a batch brings is captured of items alone, and of these
/// inserts and updates.
const FULL: [&str; 12] = [
    "insert item 4, name Cap -> 1 CaptureFull",
    "insert item 1, name Cap -> 1 CaptureFull",
    "update item 9, name Cap -> 1 CaptureFull",
    "insert loss 1, qty 1; delete item 3; insert item 4, name Cap -> 3 CaptureFull",
    "insert loss 1, qty 1 -> done, insert 1 -2",
    "insert sale a, item 1 -> done, insert a 1",
    "delete item 3; delete item 9 -> done, delete for 3 Bag -",
    // A step breaks the rules on steps first.
    "insert item 4 -> 1 NullNotAllowed",
    "update item 1, id 2 -> 1 DuplicateKey",
    "update item 1, id 5 -> 1 HasChildren",
    "insert item 4, name Pencil -> 1 TooLong",
    "insert drops 1, name A; insert drops 1, name B; insert item 4, name Cap -> ignored",
];

#[test]
fn too_many_waiting_changes_refuse_what_is_captured_again(rt: HostRuntime) -> Result<(), Fail> {
    let alloc = rt.alloc();
    let config = shop(alloc)?;
    let mut tables = Tables::new(alloc, &config.tables)?;
    let coming = Coming {
        channel: "all",
        waiting: 99_999,
    };
    let room = told(alloc, &config, &mut tables, coming, &ROOM)?;
    assert_eq!(rt; room, due(alloc, &ROOM)?);
    let coming = Coming {
        channel: "all",
        waiting: 100_000,
    };
    let full = told(alloc, &config, &mut tables, coming, &FULL)?;
    assert_eq!(rt; full, due(alloc, &FULL)?);
    Ok(())
}
