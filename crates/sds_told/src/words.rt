//! The words of answers.
ghost use Rattle.std.specs.Prelude.{◌≡◌, IfOk, string_bytes};
ghost use Rattle.sds_screen.specs.Words as stated;

use crate::replies::reply_text;
use sds_base::{List, NoMemory};
use sds_types::{Ack, AckRefusal, NodeFault, RegRefusal, SyncRefusal, WriteRefusal, Written};
use std::alloc::Global;

/// The words of a registration's answer.
pub(crate) fn registration_words(
    alloc: Global,
    answer: &Result<(), RegRefusal>,
) -> Result<String, NoMemory>
    ensures { IfOk result (λ text. string_bytes text ≡ stated.registration_words answer.now) }
{
    match answer {
        Ok(()) => Ok(String::from_str(alloc, "ok")?),
        Err(refusal) => refusal_words(alloc, refusal),
    }
}

fn refusal_words(alloc: Global, refusal: &RegRefusal) -> Result<String, NoMemory>
    ensures { IfOk result (λ text. string_bytes text ≡ stated.refusal_words refusal.now) }
{
    let number = refusal.number();
    Ok(match refusal {
        RegRefusal::Fault(_) => String::from_str(alloc, "fault")?,
        _ => format!(in alloc; "refused {number}")?,
    })
}

/// The words of a write's answer.
pub(crate) fn write_words(
    alloc: Global,
    answer: &Result<Written, WriteRefusal>,
) -> Result<String, NoMemory>
    ensures { IfOk result (λ text. string_bytes text ≡ stated.write_words answer.now) }
{
    Ok(match answer {
        Ok(Written::Done { first, count }) => format!(in alloc; "done {first} {count}")?,
        Ok(Written::Again { first, count }) => format!(in alloc; "again {first} {count}")?,
        Err(WriteRefusal::Broken { row, rule }) => {
            let number = rule.number();
            format!(in alloc; "refused {row} {number}")?
        }
        Err(WriteRefusal::OldNumber(last)) => format!(in alloc; "old {last}")?,
        Err(WriteRefusal::GapNumber(last)) => format!(in alloc; "gap {last}")?,
        Err(WriteRefusal::TooManyRows) => String::from_str(alloc, "rows")?,
        Err(WriteRefusal::Fault(_)) => String::from_str(alloc, "fault")?,
    })
}

/// The words of a routing run's answer.
pub(crate) fn route_words(
    alloc: Global,
    answer: &Result<u64, NodeFault>,
) -> Result<String, NoMemory>
    ensures { IfOk result (λ text. string_bytes text ≡ stated.route_words answer.now) }
{
    Ok(match answer {
        Ok(count) => format!(in alloc; "{count} batches")?,
        Err(_) => String::from_str(alloc, "fault")?,
    })
}

/// The words of a refusal to make a message or to take one.
pub(crate) fn sync_words(refusal: &SyncRefusal) -> &'static str
    ensures { result.now ≡ stated.sync_words refusal.now }
{
    match refusal {
        SyncRefusal::NoWay => "no way",
        SyncRefusal::Fault(_) => "fault",
    }
}

/// The words of the answer to a message: the number of its reply, and the reply.
pub(crate) fn delivery_words(
    alloc: Global,
    answer: &Result<(u64, List<Ack>), SyncRefusal>,
) -> Result<String, NoMemory>
    ensures { IfOk result (λ text. string_bytes text ≡ stated.delivery_words answer.now) }
{
    match answer {
        Ok((reply, acks)) => {
            let words = acks_words(alloc, acks.inner().as_slice())?;
            let words = words.as_str();
            Ok(format!(in alloc; "reply {reply} {words}")?)
        }
        Err(refusal) => Ok(String::from_str(alloc, sync_words(refusal))?),
    }
}

/// A reply, or a dash for an empty one.
fn acks_words(alloc: Global, acks: &[Ack]) -> Result<String, NoMemory>
    ensures { IfOk result (λ text. string_bytes text ≡ stated.acks_words acks.now) }
{
    if acks.is_empty() {
        return Ok(String::from_str(alloc, "-")?);
    }
    reply_text(alloc, acks)
}

/// The words of the answer to a reply.
pub(crate) fn answer_words(
    alloc: Global,
    answer: &Result<u64, AckRefusal>,
) -> Result<String, NoMemory>
    ensures { IfOk result (λ text. string_bytes text ≡ stated.answer_words answer.now) }
{
    Ok(match answer {
        Ok(count) => format!(in alloc; "{count} changed")?,
        Err(AckRefusal::UnknownNode) => String::from_str(alloc, "no way")?,
        Err(AckRefusal::UnknownBatch(_)) => String::from_str(alloc, "no way")?,
        Err(AckRefusal::Fault(_)) => String::from_str(alloc, "fault")?,
    })
}
