// The lines of a screen.
ghost use Rattle.std.specs.Prelude.{◌≡◌, ◌++◌, ◌∷◌, [], IfOk, OnOk, List, ℕ, string_bytes, Result, Ok, Err, codes};
ghost use Rattle.sds_first_world.specs.Acking.{others_words};
ghost use Rattle.sds_first_spec.specs.Screen.{write_words, write_line, route_line, count_words, send_line, answer_line, changed_words, ack_word, acks_words, deliver_line, utf8};

use sds_base::{NoMemory, Txt};
use sds_types::{Ack, AckRefusal, NodeFault, WriteRefusal, Written};
use std::alloc::Global;

/// The words of a write's answer.
fn write_words(alloc: Global, answer: &Result<Written, WriteRefusal>) -> Result<String, NoMemory>
    ensures { IfOk result (λ text. string_bytes text ≡ write_words answer.now) }
{
    Ok(match answer {
        Ok(Written::Done { first, count }) => format!(in alloc; "done {first} {count}")?,
        Ok(Written::Again { first, count }) => format!(in alloc; "again {first} {count}")?,
        Err(WriteRefusal::Broken { row, rule }) => {
            let number = rule.number();
            format!(in alloc; "refused {row} {number}")?
        }
        Err(WriteRefusal::OldNumber(last)) => format!(in alloc; "old {last}")?,
        Err(WriteRefusal::GapNumber(last)) => format!(in alloc; "gap {last}")?,
        Err(WriteRefusal::TooManyRows) => format!(in alloc; "rows")?,
        Err(WriteRefusal::Fault(_)) => format!(in alloc; "fault")?,
    })
}

/// The line of a write.
pub(crate) fn write_line(
    alloc: Global,
    node: &Txt,
    writer: &Txt,
    number: u64,
    answer: &Result<Written, WriteRefusal>,
) -> Result<String, NoMemory>
    ensures { IfOk result (λ text. string_bytes text ≡ write_line node.now writer.now number answer.now) }
{
    let words = write_words(alloc, answer)?;
    let node = node.as_str();
    let writer = writer.as_str();
    let words = words.as_str();
    Ok(format!(in alloc; "write {node} {writer} {number}: {words}\n")?)
}

/// The line of an opened registration.
pub(crate) fn open_line(
    alloc: Global,
    at: &Txt,
    group: &Txt,
    external: &Txt,
) -> Result<String, NoMemory>
    ensures { IfOk result (λ text. string_bytes text ≡ codes "open " ++ (utf8 at.now ++ (codes " " ++ (utf8 group.now ++ (codes " " ++ (utf8 external.now ++ codes ": ok\n")))))) }
{
    let at = at.as_str();
    let group = group.as_str();
    let external = external.as_str();
    Ok(format!(in alloc; "open {at} {group} {external}: ok\n")?)
}

/// The line of a registration.
pub(crate) fn register_line(alloc: Global, asks: &Txt, at: &Txt) -> Result<String, NoMemory>
    ensures { IfOk result (λ text. string_bytes text ≡ codes "register " ++ (utf8 asks.now ++ (codes " " ++ (utf8 at.now ++ codes ": ok\n")))) }
{
    let asks = asks.as_str();
    let at = at.as_str();
    Ok(format!(in alloc; "register {asks} {at}: ok\n")?)
}

/// The line of a routing run.
pub(crate) fn route_line(
    alloc: Global,
    node: &Txt,
    answer: &Result<u64, NodeFault>,
) -> Result<String, NoMemory>
    ensures { IfOk result (λ text. string_bytes text ≡ route_line node.now answer.now) }
{
    let node = node.as_str();
    Ok(match answer {
        Ok(count) => format!(in alloc; "route {node}: {count} batches\n")?,
        Err(_) => format!(in alloc; "route {node}: fault\n")?,
    })
}

/// The line of a message that is sent.
pub(crate) fn send_line(
    alloc: Global,
    number: u64,
    sender: &Txt,
    receiver: &Txt,
    batches: u64,
) -> Result<String, NoMemory>
    ensures { IfOk result (λ text. string_bytes text ≡ send_line number sender.now receiver.now batches) }
{
    let sender = sender.as_str();
    let receiver = receiver.as_str();
    Ok(format!(in alloc; "send {number} {sender} {receiver}: {batches} batches\n")?)
}

/// What a reply says of a batch.
fn ack_word(alloc: Global, ack: &Ack) -> Result<String, NoMemory>
    ensures { IfOk result (λ text. string_bytes text ≡ ack_word ack.now) }
{
    let batch = ack.batch;
    Ok(match ack.error {
        None => format!(in alloc; "batch-{batch}=ok")?,
        Some((row, rule)) => format!(in alloc; "batch-{batch}=er.{row}.{rule}")?,
    })
}

/// Writes the words of further acks behind those that stand, `&` before each.
fn put_others(alloc: Global, acks: &[Ack], words: &mut String) -> Result<(), NoMemory>
    ensures { OnOk result (string_bytes words.new ≡ string_bytes words.old ++ others_words acks.now) }
{
    for ack in acks {
        let word = ack_word(alloc, ack)?;
        words.push_str("&")?;
        words.push_str(word.as_str())?;
    }
    Ok(())
}

/// A reply's pairs, or a dash where there is none.
fn acks_words(alloc: Global, acks: &[Ack]) -> Result<String, NoMemory>
    ensures { IfOk result (λ text. string_bytes text ≡ acks_words acks.now) }
{
    if let [first, others @ ..] = acks {
        let mut words = ack_word(alloc, first)?;
        put_others(alloc, others, &mut words)?;
        return Ok(words);
    }
    Ok(String::from_str(alloc, "-")?)
}

/// The line of a message that is delivered.
pub(crate) fn deliver_line(
    alloc: Global,
    message: u64,
    reply: u64,
    acks: &[Ack],
) -> Result<String, NoMemory>
    ensures { IfOk result (λ text. string_bytes text ≡ deliver_line message reply acks.now) }
{
    let words = acks_words(alloc, acks)?;
    let words = words.as_str();
    Ok(format!(in alloc; "deliver {message}: reply {reply} {words}\n")?)
}

/// The line of a reply that is answered.
pub(crate) fn answer_line(
    alloc: Global,
    reply: u64,
    answer: &Result<u64, AckRefusal>,
) -> Result<String, NoMemory>
    ensures { IfOk result (λ text. string_bytes text ≡ answer_line reply answer.now) }
{
    Ok(match answer {
        Ok(count) => format!(in alloc; "answer {reply}: {count} changed\n")?,
        Err(_) => format!(in alloc; "answer {reply}: fault\n")?,
    })
}
