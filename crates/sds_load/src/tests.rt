//! Batches with what they are prepared as: each line of a table is a batch in words and what is
//! due.
use crate::prepare;
use crate::tests_parts::{config, row, way};
use crate::tests_told::{told_body, told_head};
use sds_base::{List, NoMemory, Txt};
use sds_types::{BatchDoc, Prepared};
use sds_value::{Binary, DocRow};
use std::alloc::Global;
use std::test::Fail;

/// The rows between bars, or none.
fn rows_of(alloc: Global, texts: &str) -> Result<List<DocRow>, NoMemory> {
    let mut rows = List::new(alloc);
    if texts != "none" {
        for text in texts.split('|') {
            rows.push(row(alloc, text)?)?;
        }
    }
    Ok(rows)
}

/// The batch 7 of these rows, of which there are at most nine, prepared on a way.
fn prepared(
    alloc: Global,
    word: &str,
    channel: &str,
    binary: Binary,
    texts: &str,
) -> Result<Prepared, NoMemory> {
    let batch = BatchDoc {
        channel: Txt::copied(alloc, channel)?,
        batch: 7,
        binary,
        rows: rows_of(alloc, texts)?,
    };
    if batch.rows.inner().len() > 9 {
        return Err(NoMemory);
    }
    prepare(alloc, &config(alloc)?, &way(alloc, word)?, &batch)
}

/// The sender, the channel's place and each table's setting, by the way.
const HEADS: &str = "\
up sale => s1 store batch 7 channel 0 settings none 0 3
up stock => s1 store batch 7 channel 1 settings none 0 3
up other => s1 store batch 7 channel none settings none 0 3
down sale => c corp batch 7 channel 0 settings 1 none none
side sale => p1 shop batch 7 channel 0 settings 2 none none
";

#[test]
fn a_batch_has_its_channel_and_settings(rt: HostRuntime) -> Result<(), Fail> {
    let alloc = rt.alloc();
    for line in HEADS.lines() {
        let (words, due) = line.split_once(" => ").ok_or("nothing is due")?;
        let (word, channel) = words.split_once(' ').ok_or("no channel")?;
        let batch = prepared(alloc, word, channel, Binary::Base64, "insert t id 1")?;
        let got = told_head(alloc, &batch)?;
        assert_eq!(rt; got.as_str(), due, "{words}");
    }
    Ok(())
}

/// Rows of batches from a store up.
const BODIES: &str = "\
none => rows
insert t id,name 1,Tea|update v price 2.5 1|delete u id . 3 \
    => rows; 1 insert 0 key 1 new 1 Tea; 2 update 2 key 1 new 250; 3 delete 1 key 3 new
insert w id,name,price,code 1,Te,2.5,AQI=|insert t id 2 \
    => rows; 1 insert 0 key 1 new 1 Te.1.2; 1 insert 1 key 1 new 1 Te 250 add 500; \
    2 insert 0 key 2 new 2
update w name,price Te,1 1|delete w id . 2|delete t id . 3 \
    => rows; 1 update 0 key 1 new null Te null; 1 update 1 key 1 new null Te 100 add unknown; \
    2 delete 0 key 2 new; 3 delete 0 key 3 new
insert t id 1|insert t id x|insert x id 1 => broken 2 BadValue
insert x id 1|insert t id x => broken 1 UnknownTable
insert t id,name 1,Green|insert t id x => broken 1 TooLong
insert t id 1|insert t id 1|insert u id,name 1,Tea => broken 3 TooLong
insert t id 1|insert w id,name 1,Tea => broken 2 TooLong
insert w id,name,price 1,Green,x => broken 1 TooLong
insert t id 1|delete w id . x => broken 2 BadValue
";

#[test]
fn rows_are_read_up_to_the_first_broken_one(rt: HostRuntime) -> Result<(), Fail> {
    let alloc = rt.alloc();
    for line in BODIES.lines() {
        let (rows, due) = line.split_once(" => ").ok_or("nothing is due")?;
        let batch = prepared(alloc, "up", "sale", Binary::Base64, rows)?;
        let got = told_body(alloc, &batch.body)?;
        assert_eq!(rt; got.as_str(), due, "{rows}");
    }
    Ok(())
}

#[test]
fn rows_are_read_where_the_channel_is_unknown(rt: HostRuntime) -> Result<(), Fail> {
    let alloc = rt.alloc();
    for (rows, due) in [
        ("insert t id 1", "rows; 1 insert 0 key 1 new 1"),
        ("insert t id 1|insert t id x", "broken 2 BadValue"),
    ] {
        let batch = prepared(alloc, "up", "other", Binary::Base64, rows)?;
        let got = told_body(alloc, &batch.body)?;
        assert_eq!(rt; got.as_str(), due, "{rows}");
    }
    Ok(())
}

#[test]
fn rows_are_shaped_by_their_way(rt: HostRuntime) -> Result<(), Fail> {
    let alloc = rt.alloc();
    let batch = prepared(alloc, "side", "sale", Binary::Base64, "insert w id 1")?;
    let got = told_body(alloc, &batch.body)?;
    assert_eq!(rt; got.as_str(), "broken 1 UnknownTable");
    Ok(())
}

#[test]
fn bytes_are_read_by_the_form_of_the_batch(rt: HostRuntime) -> Result<(), Fail> {
    let alloc = rt.alloc();
    for (form, due) in [
        (Binary::Base64, "broken 1 TooLong"),
        (Binary::Hex, "rows; 1 insert 0 key 1 new 1.171.205"),
        (Binary::Plain, "broken 1 BadValue"),
    ] {
        let batch = prepared(alloc, "up", "sale", form, "insert t id,code 1,AbCd")?;
        let got = told_body(alloc, &batch.body)?;
        assert_eq!(rt; got.as_str(), due);
    }
    Ok(())
}
