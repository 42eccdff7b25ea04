// The fakes on their happy paths and with each failing call in turn, and the adapters once.
use crate::{
    Edit, Exchange, Fail, FailAt, Failed, FileSource, KeepFail, Keeper, Link, MemKeeper, MemLink,
    MemSink, MemSource, ReadStop, Sink, Source, StdSink, StdSource, are_distinct, read_all,
    write_all,
};
use sds_base::{Bytes, List, NoMemory, Same, Twin};
use std::alloc::Global;
use std::fs;
use std::test::Fail as TestFail;

fn bytes(alloc: Global, text: &str) -> Result<Bytes, NoMemory> {
    Ok(Bytes::of(text.as_bytes().to_vec(alloc)?))
}

fn one(alloc: Global, number: u64) -> Result<List<u64>, NoMemory> {
    let mut numbers = List::new(alloc);
    numbers.push(number)?;
    Ok(numbers)
}

#[test]
fn a_source_in_memory_gives_its_bytes_and_fails_at_the_listed_call(
    rt: HostRuntime,
) -> Result<(), TestFail> {
    let alloc = rt.alloc();
    let mut sound = MemSource::sound(alloc, bytes(alloc, "hello")?);
    let mut piece = [0u8; 3];
    assert_eq!(rt; sound.read(&mut piece), Ok(3));
    assert_eq!(rt; piece.as_slice(), "hel".as_bytes());
    assert_eq!(rt; sound.read(&mut piece), Ok(2));
    assert_eq!(rt; piece.as_slice(), "lol".as_bytes());
    assert_eq!(rt; sound.read(&mut piece), Ok(0));
    for call in 1..5u64 {
        let mut source = MemSource::new(bytes(alloc, "hello")?, one(alloc, call)?);
        let mut read = Vec::new(alloc);
        let mut failed = 0;
        for turn in 1..5u64 {
            match source.read(&mut piece) {
                Ok(count) if count <= 3 => read.extend_from_slice(&piece[..count])?,
                Ok(_) => {}
                Err(Failed) => failed = turn,
            }
        }
        assert_eq!(rt; failed, call);
        assert_eq!(rt;
            read.as_slice(),
            "hello".as_bytes(),
            "with call {call} failing"
        );
    }
    Ok(())
}

#[test]
fn a_sink_in_memory_takes_up_to_its_room_and_fails_at_the_listed_call(
    rt: HostRuntime,
) -> Result<(), TestFail> {
    let alloc = rt.alloc();
    for (room, call, want, taken, empty) in [
        (5u64, 9u64, Ok(()), "hello", Ok(0)),
        (4, 9, Err(Failed), "hell", Ok(0)),
        (0, 9, Err(Failed), "", Ok(0)),
        (5, 1, Err(Failed), "", Ok(0)),
        (5, 2, Ok(()), "hello", Err(Failed)),
    ] {
        let mut sink = MemSink::new(alloc, room, one(alloc, call)?)?;
        assert_eq!(rt;
            write_all(&mut sink, "hello".as_bytes()),
            want,
            "{room} {call}"
        );
        assert_eq!(rt; sink.taken(), taken.as_bytes(), "{room} {call}");
        assert_eq!(rt; sink.write("".as_bytes()), empty, "{room} {call}");
    }
    Ok(())
}

#[test]
fn all_is_read_and_more_than_the_limit_is_a_front(rt: HostRuntime) -> Result<(), TestFail> {
    let alloc = rt.alloc();
    for (limit, is_over) in [(4usize, true), (5, false), (6, false)] {
        let mut source = MemSource::sound(alloc, bytes(alloc, "hello")?);
        let whole = read_all(alloc, &mut source, limit)?;
        assert_eq!(rt; whole.is_over, is_over, "within {limit}");
        assert_eq!(rt; whole.bytes.inner().as_slice(), "hello".as_bytes());
    }
    for call in 1..3u64 {
        let mut source = MemSource::new(bytes(alloc, "hello")?, one(alloc, call)?);
        assert_eq!(rt;
            read_all(alloc, &mut source, 9).err(),
            Some(ReadStop::Fault)
        );
    }
    Ok(())
}

fn record(alloc: Global, key: &str, body: &str) -> Result<(Bytes, Bytes), NoMemory> {
    Ok((bytes(alloc, key)?, bytes(alloc, body)?))
}

fn two_records(alloc: Global) -> Result<List<(Bytes, Bytes)>, NoMemory> {
    let mut records = List::new(alloc);
    records.push(record(alloc, "b", "2")?)?;
    records.push(record(alloc, "a", "1")?)?;
    Ok(records)
}

/// The keys and bodies that a new reading gives.
fn told(alloc: Global, keeper: &mut MemKeeper) -> Result<Vec<u8>, KeepFail> {
    keeper.reopen()?;
    let mut text = Vec::new(alloc);
    for _turn in 0..9u64 {
        let Some((key, body)) = keeper.next()? else {
            break;
        };
        let Ok(()) = text.extend_from_slice(key.inner()) else {
            return Err(KeepFail::NoMemory);
        };
        let Ok(()) = text.extend_from_slice(body.inner()) else {
            return Err(KeepFail::NoMemory);
        };
    }
    Ok(text)
}

#[test]
fn a_keeper_gives_its_records_by_key_and_fails_at_the_listed_call(
    rt: HostRuntime,
) -> Result<(), TestFail> {
    let alloc = rt.alloc();
    for call in 1..6u64 {
        let records = two_records(alloc)?;
        assert!(rt; are_distinct(records.inner().as_slice()));
        let mut keeper = MemKeeper::new(alloc, records, one(alloc, call)?, List::new(alloc))?;
        let first = told(alloc, &mut keeper);
        let second = told(alloc, &mut keeper);
        let (failing, sound) = if call < 5 {
            (first, second)
        } else {
            (second, first)
        };
        assert_eq!(rt; failing.err(), Some(KeepFail::Failed), "call {call}");
        assert_eq!(rt; sound?.as_slice(), "a1b2".as_bytes(), "call {call}");
    }
    Ok(())
}

#[test]
fn a_commit_puts_and_drops_and_where_it_fails_it_stands_as_listed(
    rt: HostRuntime,
) -> Result<(), TestFail> {
    let alloc = rt.alloc();
    for (commit, stands, want, after) in [
        (9u64, true, Ok(()), "a1c3"),
        (1, true, Err(KeepFail::Failed), "a1c3"),
        (1, false, Err(KeepFail::Failed), "a1b2"),
        (2, false, Ok(()), "a1c3"),
    ] {
        let records = two_records(alloc)?;
        assert!(rt; are_distinct(records.inner().as_slice()));
        let mut fails = List::new(alloc);
        fails.push(FailAt { commit, stands })?;
        let mut keeper = MemKeeper::new(alloc, records, List::new(alloc), fails)?;
        keeper.reopen()?;
        let put = Edit {
            key: bytes(alloc, "c")?,
            body: Some(bytes(alloc, "3")?),
        };
        let dropped = Edit {
            key: bytes(alloc, "b")?,
            body: None,
        };
        assert!(rt; put.same(&put.twin(alloc)?) && !put.same(&dropped));
        assert_eq!(rt; keeper.commit(&[put, dropped]), want, "{commit} {stands}");
        assert_eq!(rt;
            told(alloc, &mut keeper)?.as_slice(),
            after.as_bytes(),
            "{commit} {stands}"
        );
    }
    Ok(())
}

/// Opens the keeper and puts a record of this key with the body 3.
fn put(alloc: Global, keeper: &mut MemKeeper, key: &str) -> Result<(), KeepFail> {
    keeper.reopen()?;
    keeper.commit(&[Edit {
        key: bytes(alloc, key)?,
        body: Some(bytes(alloc, "3")?),
    }])
}

#[test]
fn an_armed_commit_is_the_first_to_come_that_is_not_to_fail_yet(
    rt: HostRuntime,
) -> Result<(), TestFail> {
    let alloc = rt.alloc();
    let mut fails = List::new(alloc);
    fails.push(FailAt {
        commit: 2,
        stands: false,
    })?;
    let records = two_records(alloc)?;
    assert!(rt; are_distinct(records.inner().as_slice()));
    let mut keeper = MemKeeper::new(alloc, records, List::new(alloc), fails)?;
    keeper.arm(true)?;
    keeper.arm(false)?;
    assert_eq!(rt; put(alloc, &mut keeper, "c"), Err(KeepFail::Failed));
    assert_eq!(rt; put(alloc, &mut keeper, "d"), Err(KeepFail::Failed));
    assert_eq!(rt; put(alloc, &mut keeper, "e"), Err(KeepFail::Failed));
    assert_eq!(rt; put(alloc, &mut keeper, "f"), Ok(()));
    assert_eq!(rt; told(alloc, &mut keeper)?.as_slice(), "a1b2c3f3".as_bytes());
    Ok(())
}

#[test]
fn a_link_gives_its_replies_in_order_and_fails_where_listed_or_unprepared(
    rt: HostRuntime,
) -> Result<(), TestFail> {
    let alloc = rt.alloc();
    for call in 1..4u64 {
        let mut replies = List::new(alloc);
        replies.push(bytes(alloc, "one")?)?;
        replies.push(bytes(alloc, "two")?)?;
        let mut link = MemLink::new(alloc, replies, one(alloc, call)?);
        let mut text = Vec::new(alloc);
        for turn in 1..5u64 {
            let mut reply = "old".as_bytes().to_vec(alloc)?;
            match link.exchange("ask".as_bytes(), &mut reply) {
                Ok(()) => text.extend_from_slice(&reply)?,
                Err(Fail::Failed) => assert!(rt; turn == call || turn > 2, "{turn} {call}"),
                Err(Fail::NoMemory) => return Err(NoMemory)?,
            }
        }
        assert_eq!(rt; text.as_slice(), "onetwo".as_bytes(), "{call}");
        let exchange = Exchange {
            request: bytes(alloc, "ask")?,
            reply: Some(bytes(alloc, "two")?),
        };
        assert_eq!(rt; link.exchanges().len(), 2);
        assert!(rt; link.exchanges()[1].same(&exchange.twin(alloc)?));
    }
    Ok(())
}

#[test]
fn a_reader_of_std_is_read_to_its_end(rt: HostRuntime) -> Result<(), TestFail> {
    let alloc = rt.alloc();
    let mut source = StdSource::new("hello".as_bytes());
    let whole = read_all(alloc, &mut source, 9)?;
    assert!(rt; !whole.is_over);
    assert_eq!(rt; whole.bytes.inner().as_slice(), "hello".as_bytes());
    Ok(())
}

#[test]
fn a_writer_of_std_takes_all_or_counts_a_fault(rt: HostRuntime) -> Result<(), TestFail> {
    let alloc = rt.alloc();
    let mut text = Vec::new(alloc);
    let mut sink = StdSink::new(&mut text);
    assert_eq!(rt; write_all(&mut sink, "hello".as_bytes()), Ok(()));
    assert_eq!(rt; sink.write("".as_bytes()), Ok(0));
    drop(sink);
    assert_eq!(rt; text.as_slice(), "hello".as_bytes());
    let mut room = [0u8; 2];
    let mut full = StdSink::new(room.as_mut_slice());
    assert_eq!(rt; write_all(&mut full, "hello".as_bytes()), Err(Failed));
    Ok(())
}

#[test]
fn a_file_is_read_to_its_end_and_a_missing_one_fails(rt: HostRuntime) -> Result<(), TestFail> {
    let alloc = rt.alloc();
    let path = "sds_outside_file_to_read";
    fs::write(&rt, path, "hello")?;
    let mut source = FileSource::open(&rt, path);
    let whole = read_all(alloc, &mut source, 9)?;
    fs::remove_file(&rt, path)?;
    assert!(rt; !whole.is_over);
    assert_eq!(rt; whole.bytes.inner().as_slice(), "hello".as_bytes());
    let mut missing = FileSource::open(&rt, path);
    let mut piece = [0u8; 3];
    for _turn in 0..2u64 {
        assert_eq!(rt; missing.read(&mut piece), Err(Failed));
    }
    assert_eq!(rt;
        read_all(alloc, &mut missing, 9).err(),
        Some(ReadStop::Fault)
    );
    Ok(())
}
