//! Tests of the lines that are printed of answers, and of replies both ways.
ghost use Rattle.std.specs.Prelude.{◌<◌, ◌^◌, length};

use crate::{
    put_acks, put_answering, put_crashed, put_delivering, put_ended_acks, put_no_pull, put_no_push,
    put_opening, put_registering, put_routing, put_sending, put_writing, read_acks,
};
use sds_base::{List, NoMemory};
use sds_types::{
    Ack, AckRefusal, AcksRefusal, DocumentCause, End, NodeFault, RegRefusal, Rule, SyncRefusal,
    WriteRefusal, Written,
};
use std::alloc::Global;
use std::test::Fail;

/// The lines of registrations and of own writes.
const CALLS: &str = "open corp store 001: ok
open corp store 001: refused 3
open corp store 001: fault
register s1 corp: ok
register s1 corp: refused 1
write corp till 1: done 1 2
write corp till 1: again 1 2
write corp till 2: refused 3 16
write corp till 0: old 7
write corp till 9: gap 7
write corp till 8: rows
write corp till 8: fault
";

fn put_calls(out: &mut Vec<u8>) -> Result<(), NoMemory> {
    put_opening("corp", "store", "001", &Ok(()), out)?;
    put_opening("corp", "store", "001", &Err(RegRefusal::AlreadyOpen), out)?;
    let fault = Err(RegRefusal::Fault(NodeFault::Keeper));
    put_opening("corp", "store", "001", &fault, out)?;
    put_registering("s1", "corp", &Ok(()), out)?;
    put_registering("s1", "corp", &Err(RegRefusal::NotOpen), out)?;
    put_writes(out)
}

fn put_writes(out: &mut Vec<u8>) -> Result<(), NoMemory> {
    let done = Ok(Written::Done { first: 1, count: 2 });
    put_writing("corp", "till", 1, &done, out)?;
    let again = Ok(Written::Again { first: 1, count: 2 });
    put_writing("corp", "till", 1, &again, out)?;
    let broken = Err(WriteRefusal::Broken {
        row: 3,
        rule: Rule::UnknownChannel,
    });
    put_writing("corp", "till", 2, &broken, out)?;
    put_writing("corp", "till", 0, &Err(WriteRefusal::OldNumber(7)), out)?;
    put_writing("corp", "till", 9, &Err(WriteRefusal::GapNumber(7)), out)?;
    put_writing("corp", "till", 8, &Err(WriteRefusal::TooManyRows), out)?;
    let fault = Err(WriteRefusal::Fault(NodeFault::Keeper));
    put_writing("corp", "till", 8, &fault, out)
}

/// The lines of routing runs, of messages and of replies.
const EXCHANGES: &str = "route é: 12 batches
route é: fault
send 4 corp s1: 2 batches
send corp s1: no way
send corp s1: fault
deliver 4: reply 2 batch-7=ok&batch-8=er.3.16
deliver 4: reply 3 -
deliver 4: no way
deliver 4: fault
answer 2: 1 changed
answer 2: no way
answer 2: no way
answer 2: fault
push corp s1: no way
pull s1 corp: no way
crash s1: ok
";

fn put_exchanges(alloc: Global, out: &mut Vec<u8>) -> Result<(), NoMemory> {
    put_routing("é", &Ok(12), out)?;
    put_routing("é", &Err(NodeFault::Counters), out)?;
    put_sending("corp", "s1", &Ok((4, 2)), out)?;
    put_sending("corp", "s1", &Err(SyncRefusal::NoWay), out)?;
    let fault = Err(SyncRefusal::Fault(NodeFault::Keeper));
    put_sending("corp", "s1", &fault, out)?;
    put_deliveries(alloc, out)?;
    put_answers(out)?;
    put_no_push("corp", "s1", out)?;
    put_no_pull("s1", "corp", out)?;
    put_crashed("s1", out)
}

fn put_deliveries(alloc: Global, out: &mut Vec<u8>) -> Result<(), NoMemory> {
    put_delivering(4, &Ok((2, two_acks(alloc)?)), out)?;
    put_delivering(4, &Ok((3, List::new(alloc))), out)?;
    put_delivering(4, &Err(SyncRefusal::NoWay), out)?;
    let fault = Err(SyncRefusal::Fault(NodeFault::Keeper));
    put_delivering(4, &fault, out)
}

fn put_answers(out: &mut Vec<u8>) -> Result<(), NoMemory> {
    put_answering(2, &Ok(1), out)?;
    put_answering(2, &Err(AckRefusal::UnknownNode), out)?;
    put_answering(2, &Err(AckRefusal::UnknownBatch(5)), out)?;
    let fault = Err(AckRefusal::Fault(NodeFault::Keeper));
    put_answering(2, &fault, out)
}

/// The reply `batch-7=ok&batch-8=er.3.16`.
fn two_acks(alloc: Global) -> Result<List<Ack>, NoMemory> {
    let mut acks = List::new(alloc);
    acks.push(Ack {
        batch: 7,
        error: None,
    })?;
    acks.push(Ack {
        batch: 8,
        error: Some((3, 16)),
    })?;
    Ok(acks)
}

#[test]
fn each_answer_has_its_line(rt: HostRuntime) -> Result<(), Fail> {
    let alloc = rt.alloc();
    let mut calls = Vec::new(alloc);
    put_calls(&mut calls)?;
    assert_eq!(rt; String::from_utf8(calls)?.as_str(), CALLS);
    let mut exchanges = Vec::new(alloc);
    put_exchanges(alloc, &mut exchanges)?;
    assert_eq!(rt; String::from_utf8(exchanges)?.as_str(), EXCHANGES);
    Ok(())
}

#[test]
fn a_reply_is_written(rt: HostRuntime) -> Result<(), Fail> {
    let alloc = rt.alloc();
    let acks = two_acks(alloc)?;
    let mut text = Vec::new(alloc);
    put_acks(acks.inner().as_slice(), &mut text)?;
    assert_eq!(rt;
        String::from_utf8(text)?.as_str(),
        "batch-7=ok&batch-8=er.3.16"
    );
    let mut none = Vec::new(alloc);
    put_acks(&[], &mut none)?;
    assert_eq!(rt; String::from_utf8(none)?.as_str(), "");
    Ok(())
}

#[test]
fn a_reply_tells_where_its_document_is_broken(rt: HostRuntime) -> Result<(), Fail> {
    let alloc = rt.alloc();
    let broken = End::Broken {
        line: 12,
        cause: DocumentCause::Unfinished,
    };
    let acks = two_acks(alloc)?;
    let mut text = Vec::new(alloc);
    put_ended_acks(acks.inner().as_slice(), broken, &mut text)?;
    text.extend_from_slice(b" ")?;
    put_ended_acks(&[], broken, &mut text)?;
    text.extend_from_slice(b" ")?;
    put_ended_acks(acks.inner().as_slice(), End::Clean, &mut text)?;
    assert_eq!(rt;
        String::from_utf8(text)?.as_str(),
        "batch-7=ok&batch-8=er.3.16&broken=12.7 broken=12.7 batch-7=ok&batch-8=er.3.16"
    );
    Ok(())
}

/// Texts of replies, and what each says: its acks as they are written, or the place of the first
/// pair that is refused.
const REPLIES: [(&str, &str); 34] = [
    ("", ""),
    ("&&", ""),
    ("batch-1=ok", "batch-1=ok"),
    ("&batch-2=ok&&batch-1=ok&", "batch-2=ok&batch-1=ok"),
    ("batch-1=er.3.16", "batch-1=er.3.16"),
    ("batch-007=er.00.01", "batch-7=er.0.1"),
    ("batch-1=er.4294967295.1", "batch-1=er.4294967295.1"),
    (
        "batch-4611686018427387904=ok",
        "batch-4611686018427387904=ok",
    ),
    ("b%61tch%2D1=%6Fk", "batch-1=ok"),
    ("batch-1=ok&batch-1=er.1.1", "batch-1=ok&batch-1=er.1.1"),
    ("batch-1=maybe", "1"),
    ("batch-1", "1"),
    ("=", "1"),
    ("batch-0=ok", "1"),
    ("batch-=ok", "1"),
    ("batch-4611686018427387905=ok", "1"),
    ("batch-99999999999999999999=ok", "1"),
    ("batch-+1=ok", "1"),
    ("batch-1 =ok", "1"),
    ("Batch-1=ok", "1"),
    ("batch-1=OK", "1"),
    ("batch-1=ok=", "1"),
    ("batch-1=er.4294967296.1", "1"),
    ("batch-1=er.1.0", "1"),
    ("batch-1=er.1.17", "1"),
    ("batch-1=er.1", "1"),
    ("batch-1=er..1", "1"),
    ("batch-1=er.1.1.1", "1"),
    ("batch-1=er.-1.1", "1"),
    ("batch-1=ok+", "1"),
    ("batch-1=%FF", "1"),
    ("batch-1=ok&broken=4.2", "2"),
    ("batch-1=ok&&batch-2=no&batch-3=no", "2"),
    ("batch-1=ok;batch-2=ok", "1"),
];

fn said(alloc: Global, text: &str) -> Result<String, NoMemory>
    requires { length text.now < 2 ^ 32 }
{
    let mut words = Vec::new(alloc);
    match read_acks(alloc, text.as_bytes()) {
        Ok(acks) => put_acks(acks.inner().as_slice(), &mut words)?,
        Err(AcksRefusal::BadAcks(place)) => return Ok(format!(in alloc; "{place}")?),
        Err(AcksRefusal::NoMemory) => return Err(NoMemory),
    }
    match String::from_utf8(words) {
        Ok(words) => Ok(words),
        Err(_) => Ok(String::from_str(alloc, "no text")?),
    }
}

#[test]
fn a_reply_is_read_or_refused_at_its_first_bad_pair(rt: HostRuntime) -> Result<(), Fail> {
    for (text, wanted) in REPLIES {
        if text.len() < 100 {
            assert_eq!(rt; said(rt.alloc(), text)?.as_str(), wanted);
        }
    }
    Ok(())
}
