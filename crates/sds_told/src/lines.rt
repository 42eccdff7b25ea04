//! The lines that a rehearsal prints, one for each answer: what was asked, a colon, and the answer.
//! A call that is out of memory leaves `out` as it was. The form is symds' own.
ghost use Rattle.std.specs.Prelude.{◌≡◌, OnOk, OnErr, IfOk, ◌++◌, string_bytes};
ghost use Rattle.std.specs.Str.{chars};
ghost use Rattle.sds_screen.specs.Lines as stated;

use crate::words::{
    answer_words, delivery_words, registration_words, route_words, sync_words, write_words,
};
use sds_base::{List, NoMemory};
use sds_types::{Ack, AckRefusal, NodeFault, RegRefusal, SyncRefusal, WriteRefusal, Written};
use std::alloc::Global;

/// Writes the line of a registration that the node `at` was to open for a group and an external id.
pub fn put_opening(
    at: &str,
    group: &str,
    external: &str,
    answer: &Result<(), RegRefusal>,
    out: &mut Vec<u8>,
) -> Result<(), NoMemory>
    ensures ok { OnOk result (out.new.items ≡ out.old.items ++ stated.opening_line (chars at.now)
        (chars group.now) (chars external.now) answer.now) }
    ensures err { OnErr result (out.new.items ≡ out.old.items) }
{
    let alloc = *out.allocator();
    let words = registration_words(alloc, answer)?;
    let words = words.as_str();
    let line = format!(in alloc; "open {at} {group} {external}: {words}\n")?;
    put(&line, out)
}

/// Writes the line of the registration that the node `asks` asked for at the node `at`.
pub fn put_registering(
    asks: &str,
    at: &str,
    answer: &Result<(), RegRefusal>,
    out: &mut Vec<u8>,
) -> Result<(), NoMemory>
    ensures ok { OnOk result (out.new.items ≡ out.old.items
        ++ stated.registering_line (chars asks.now) (chars at.now) answer.now) }
    ensures err { OnErr result (out.new.items ≡ out.old.items) }
{
    let alloc = *out.allocator();
    let words = registration_words(alloc, answer)?;
    let words = words.as_str();
    let line = format!(in alloc; "register {asks} {at}: {words}\n")?;
    put(&line, out)
}

/// Writes the line of the own write with this number of a writer at a node.
pub fn put_writing(
    node: &str,
    writer: &str,
    number: u64,
    answer: &Result<Written, WriteRefusal>,
    out: &mut Vec<u8>,
) -> Result<(), NoMemory>
    ensures ok { OnOk result (out.new.items ≡ out.old.items
        ++ stated.writing_line (chars node.now) (chars writer.now) number answer.now) }
    ensures err { OnErr result (out.new.items ≡ out.old.items) }
{
    let alloc = *out.allocator();
    let words = write_words(alloc, answer)?;
    let words = words.as_str();
    let line = format!(in alloc; "write {node} {writer} {number}: {words}\n")?;
    put(&line, out)
}

/// Writes the line of a routing run of a node: how many batches it made.
pub fn put_routing(
    node: &str,
    answer: &Result<u64, NodeFault>,
    out: &mut Vec<u8>,
) -> Result<(), NoMemory>
    ensures ok { OnOk result (out.new.items ≡ out.old.items
        ++ stated.routing_line (chars node.now) answer.now) }
    ensures err { OnErr result (out.new.items ≡ out.old.items) }
{
    let alloc = *out.allocator();
    let words = route_words(alloc, answer)?;
    let words = words.as_str();
    let line = format!(in alloc; "route {node}: {words}\n")?;
    put(&line, out)
}

/// Writes the line of a message from a node to another: its number and how many batches it has, or
/// why it isn't made.
pub fn put_sending(
    from: &str,
    to: &str,
    answer: &Result<(u64, u64), SyncRefusal>,
    out: &mut Vec<u8>,
) -> Result<(), NoMemory>
    ensures ok { OnOk result (out.new.items ≡ out.old.items
        ++ stated.send_line (chars from.now) (chars to.now) answer.now) }
    ensures err { OnErr result (out.new.items ≡ out.old.items) }
{
    let line = sending_line(*out.allocator(), from, to, answer)?;
    put(&line, out)
}

fn sending_line(
    alloc: Global,
    from: &str,
    to: &str,
    answer: &Result<(u64, u64), SyncRefusal>,
) -> Result<String, NoMemory>
    ensures { IfOk result (λ line. string_bytes line
        ≡ stated.send_line (chars from.now) (chars to.now) answer.now) }
{
    match answer {
        Ok((message, count)) => {
            Ok(format!(in alloc; "send {message} {from} {to}: {count} batches\n")?)
        }
        Err(refusal) => {
            let words = sync_words(refusal);
            Ok(format!(in alloc; "send {from} {to}: {words}\n")?)
        }
    }
}

/// Writes the line of the message of this number, delivered: its reply, by number and in words.
pub fn put_delivering(
    message: u64,
    answer: &Result<(u64, List<Ack>), SyncRefusal>,
    out: &mut Vec<u8>,
) -> Result<(), NoMemory>
    ensures ok { OnOk result (out.new.items ≡ out.old.items
        ++ stated.delivering_line message answer.now) }
    ensures err { OnErr result (out.new.items ≡ out.old.items) }
{
    let alloc = *out.allocator();
    let words = delivery_words(alloc, answer)?;
    let words = words.as_str();
    let line = format!(in alloc; "deliver {message}: {words}\n")?;
    put(&line, out)
}

/// Writes the line of the reply of this number, answered: how many batches it changed.
pub fn put_answering(
    reply: u64,
    answer: &Result<u64, AckRefusal>,
    out: &mut Vec<u8>,
) -> Result<(), NoMemory>
    ensures ok { OnOk result (out.new.items ≡ out.old.items
        ++ stated.answering_line reply answer.now) }
    ensures err { OnErr result (out.new.items ≡ out.old.items) }
{
    let alloc = *out.allocator();
    let words = answer_words(alloc, answer)?;
    let words = words.as_str();
    let line = format!(in alloc; "answer {reply}: {words}\n")?;
    put(&line, out)
}

/// Writes the line of a push that has no way from a node to another.
pub fn put_no_push(from: &str, to: &str, out: &mut Vec<u8>) -> Result<(), NoMemory>
    ensures ok { OnOk result (out.new.items ≡ out.old.items
        ++ stated.no_push_line (chars from.now) (chars to.now)) }
    ensures err { OnErr result (out.new.items ≡ out.old.items) }
{
    let alloc = *out.allocator();
    let line = format!(in alloc; "push {from} {to}: no way\n")?;
    put(&line, out)
}

/// Writes the line of a pull by the node `to` that has no way from the node `from`.
pub fn put_no_pull(to: &str, from: &str, out: &mut Vec<u8>) -> Result<(), NoMemory>
    ensures ok { OnOk result (out.new.items ≡ out.old.items
        ++ stated.no_pull_line (chars to.now) (chars from.now)) }
    ensures err { OnErr result (out.new.items ≡ out.old.items) }
{
    let alloc = *out.allocator();
    let line = format!(in alloc; "pull {to} {from}: no way\n")?;
    put(&line, out)
}

/// Writes the line of a node that crashed and has opened what it keeps.
pub fn put_crashed(node: &str, out: &mut Vec<u8>) -> Result<(), NoMemory>
    ensures ok { OnOk result (out.new.items ≡ out.old.items
        ++ stated.crashed_line (chars node.now)) }
    ensures err { OnErr result (out.new.items ≡ out.old.items) }
{
    let alloc = *out.allocator();
    let line = format!(in alloc; "crash {node}: ok\n")?;
    put(&line, out)
}

fn put(line: &String, out: &mut Vec<u8>) -> Result<(), NoMemory>
    ensures ok { OnOk result (out.new.items ≡ out.old.items ++ string_bytes line.now) }
    ensures err { OnErr result (out.new.items ≡ out.old.items) }
{
    out.extend_from_slice(line.as_bytes())?;
    Ok(())
}
