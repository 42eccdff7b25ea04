//! The text of a reply: a pair for each batch that is answered, in the form of web forms.
ghost use Rattle.std.specs.Prelude.{◌≡◌, ◌≢◌, ◌<◌, ◌^◌, ◌++◌, ◌∷◌, length, if◌then◌else◌};
ghost use Rattle.std.specs.Prelude.{Ok, Err, OnOk, OnErr, IfOk, IsErr, MatchResult, string_bytes};
ghost use Rattle.std.specs.Cow.{cow_str_bytes};
ghost use Rattle.sds_screen.specs.Words as stated;
ghost use Rattle.sds_told.specs.Replies.{ack_of, acks_of, ended_text, further_words, pairs};

use crate::pairs::ack_said;
use form_urlencoded::parse;
use sds_base::{List, NoMemory};
use sds_types::{Ack, AcksRefusal, End};
use std::alloc::{AllocError, Global};
use std::borrow::CowStr;

/// Writes the text of a reply: `batch-N=ok` for a batch that is loaded, and `batch-N=er.ROW.RULE`
/// for one whose row, from 1, broke the rule of this number; joined by `&`. Out of memory leaves
/// `out` as it was. The form is symds' own, after the acknowledgments of SymmetricDS.
pub fn put_acks(acks: &[Ack], out: &mut Vec<u8>) -> Result<(), NoMemory>
    ensures ok { OnOk result (out.new.items ≡ out.old.items ++ stated.reply_text acks.now) }
    ensures err { OnErr result (out.new.items ≡ out.old.items) }
{
    let text = reply_text(*out.allocator(), acks)?;
    out.extend_from_slice(text.as_bytes())?;
    Ok(())
}

/// Writes a reply to a document that ended so: the text of its acks, and `broken=LINE.CAUSE` after
/// them for the first line, from 1, that wasn't read, with the number of the cause. Out of memory
/// leaves `out` as it was.
pub fn put_ended_acks(acks: &[Ack], ending: End, out: &mut Vec<u8>) -> Result<(), NoMemory>
    ensures ok { OnOk result (out.new.items ≡ out.old.items ++ ended_text acks.now ending) }
    ensures err { OnErr result (out.new.items ≡ out.old.items) }
{
    let text = ended_text(*out.allocator(), acks, ending)?;
    out.extend_from_slice(text.as_bytes())?;
    Ok(())
}

fn ended_text(alloc: Global, acks: &[Ack], ending: End) -> Result<String, NoMemory>
    ensures { IfOk result (λ text. string_bytes text ≡ ended_text acks.now ending) }
{
    let mut text = reply_text(alloc, acks)?;
    let End::Broken { line, cause } = ending else {
        return Ok(text);
    };
    let number = cause.number();
    let word = format!(in alloc; "broken={line}.{number}")?;
    put_last(word.as_str(), acks.is_empty(), &mut text)?;
    Ok(text)
}

/// Writes the last word of a reply, `&` before it unless it is the only one.
fn put_last(word: &str, only: bool, text: &mut String) -> Result<(), NoMemory>
    ensures { OnOk result (string_bytes text.new
        ≡ string_bytes text.old ++ (if only then word.now else 38 ∷ word.now)) }
{
    if !only {
        text.push_str("&")?;
    }
    text.push_str(word)?;
    Ok(())
}

/// The text of a reply.
pub(crate) fn reply_text(alloc: Global, acks: &[Ack]) -> Result<String, NoMemory>
    ensures { IfOk result (λ text. string_bytes text ≡ stated.reply_text acks.now) }
{
    let [first, others @ ..] = acks else {
        return Ok(String::new(alloc));
    };
    let mut text = ack_word(alloc, first)?;
    put_further(alloc, others, &mut text)?;
    Ok(text)
}

/// Writes the words of acks that stand after another, `&` before each.
fn put_further(alloc: Global, acks: &[Ack], text: &mut String) -> Result<(), NoMemory>
    ensures { OnOk result (string_bytes text.new
        ≡ string_bytes text.old ++ further_words acks.now) }
{
    for ack in acks {
        let word = ack_word(alloc, ack)?;
        text.push_str("&")?;
        text.push_str(word.as_str())?;
    }
    Ok(())
}

/// What a reply says of a batch.
fn ack_word(alloc: Global, ack: &Ack) -> Result<String, NoMemory>
    ensures { IfOk result (λ text. string_bytes text ≡ stated.ack_word ack.now) }
{
    let batch = ack.batch;
    Ok(match ack.error {
        None => format!(in alloc; "batch-{batch}=ok")?,
        Some((row, rule)) => format!(in alloc; "batch-{batch}=er.{row}.{rule}")?,
    })
}

/// Reads the text of a reply: the pairs that it writes as web forms do, where an empty piece is no
/// pair. In a pair `batch-N=ok` or `batch-N=er.ROW.RULE` the batch is 1 to 2^62, the row fits 32
/// bits and the rule is 1 to 16, each in decimal digits, which may begin with zeros. A pair of
/// another form is refused by its place. The form is symds' own, after the acknowledgments of
/// SymmetricDS.
pub fn read_acks(alloc: Global, text: &[u8]) -> Result<List<Ack>, AcksRefusal>
    requires { length text.now < 2 ^ 32 }
    ensures { result ≢ Err AcksRefusal.NoMemory → result ≡ acks_of (pairs text.now) }
{
    let mut acks = List::new(alloc);
    let mut place: u32 = 0;
    for pair in parse(alloc, text) {
        place += 1;
        match pair_said(pair) {
            Err(NoMemory) => return Err(AcksRefusal::NoMemory),
            Ok(None) => return Err(AcksRefusal::BadAcks(place)),
            Ok(Some(ack)) => {
                if let Err(NoMemory) = acks.push(ack) {
                    return Err(AcksRefusal::NoMemory);
                }
            }
        }
    }
    Ok(acks)
}

/// What a pair says of a batch, where there was memory to decode it.
fn pair_said(pair: Result<(CowStr<'_>, CowStr<'_>), AllocError>) -> Result<Option<Ack>, NoMemory>
    ensures { MatchResult pair.entry
        (λ texts. result ≡ Ok (ack_of (cow_str_bytes texts.0) (cow_str_bytes texts.1)))
        (λ _. IsErr result) }
{
    match pair {
        Err(_) => Err(NoMemory),
        Ok((name, value)) => Ok(ack_said(name.as_str(), value.as_str())),
    }
}
