//! What the program tells on standard error: what went wrong, and what to do about it.
use crate::words::Order;
use sds_base::{NoMemory, Txt};
use sds_types::{ConfigRefusal, DocumentCause, InputCause, ScenarioCause, Status, Unreadable};
use std::alloc::Global;

/// How many characters of a path or a name are told at most.
const MOST_TOLD: usize = 200;

/// The second line on standard error for a status that isn't Done, without its indent; `file` is the configuration file.
pub fn message_of(alloc: Global, status: &Status, file: &str) -> Result<String, NoMemory> {
    Ok(match status {
        Status::Words { place: 0 } => String::from_str(
            alloc,
            "these words are no command; `symds --help` lists the commands and options",
        )?,
        Status::Words { place } => format!(in alloc;
            "word {place} after `rehearse` is one too many; the scenario comes on standard input"
        )?,
        Status::Config(refusal) => refusal_message(alloc, refusal, file)?,
        Status::ReadFault(Unreadable::Configuration) => {
            let file = escaped(alloc, file)?;
            format!(in alloc;
                "{file} could not be read; is it there, and a file that you may read?"
            )?
        }
        Status::ReadFault(Unreadable::Input) => String::from_str(
            alloc,
            "standard input could not be read; give the scenario by `symds rehearse < FILE`",
        )?,
        Status::ReadFault(Unreadable::Noise) => {
            String::from_str(alloc, "the system gave no random bytes")?
        }
        Status::WriteFault => String::from_str(
            alloc,
            "standard output could not be written to its end; what was written is a prefix",
        )?,
        Status::NoMemory => String::from_str(alloc, "out of memory; nothing was changed")?,
        Status::BadInput { line, cause } => {
            let number = cause.number();
            let why = cause_message(*cause);
            format!(in alloc; "line {line}: {why} (cause {number})")?
        }
        _ => String::from_str(alloc, status.name())?,
    })
}

/// What a refused configuration says, with its place in the file.
fn refusal_message(alloc: Global, refusal: &ConfigRefusal, file: &str) -> Result<String, NoMemory> {
    let name = refusal.name();
    let why = refusal_cause(refusal);
    let path = match refusal.path() {
        Some(path) if path.is_empty() => String::from_str(alloc, "the key \"\"")?,
        Some(path) => escaped(alloc, path.as_str())?,
        None => escaped(alloc, file)?,
    };
    Ok(match refusal {
        ConfigRefusal::NotToml { line, column } => {
            format!(in alloc; "{name}: {path}, line {line}, column {column}: {why}")?
        }
        ConfigRefusal::BadExpression { place, .. } => {
            format!(in alloc; "{name}: {path}, character {place} counted from 0: {why}")?
        }
        _ => format!(in alloc; "{name}: {path}: {why}")?,
    })
}

/// What is wrong with a configuration.
fn refusal_cause(refusal: &ConfigRefusal) -> &'static str {
    match refusal {
        ConfigRefusal::NotToml { .. } => "the file is not TOML in UTF-8 from here on",
        ConfigRefusal::MissingEntry(_) => "this field has no default and is missing",
        ConfigRefusal::WrongType(_) => "the value has another type than this field",
        ConfigRefusal::UnknownName(_) => "a name here refers to nothing in the file",
        ConfigRefusal::Duplicate(_) => "this stands twice",
        ConfigRefusal::NoLink(_) => "no link joins its two groups",
        ConfigRefusal::BadExpression { .. } => {
            "the expression of this router is malformed at this character"
        }
        ConfigRefusal::BadSetting(_) => "the key is unknown, or the value is not one that it takes",
        ConfigRefusal::TooMany(_) => "more than the limit",
        ConfigRefusal::NoMemory => "out of memory",
    }
}

/// What is wrong with a line of an input, and what was expected.
fn cause_message(cause: InputCause) -> &'static str {
    match cause {
        InputCause::Scenario(ScenarioCause::BadForm) => {
            "malformed: fields are divided by commas, a quote stands only round a whole field, a line has at most 1 MiB of UTF-8"
        }
        InputCause::Scenario(ScenarioCause::UnknownName) => {
            "a node, group, channel, message or reply that does not exist"
        }
        InputCause::Scenario(ScenarioCause::Twice) => "a node of this id exists",
        InputCause::Scenario(ScenarioCause::Unfinished) => {
            "the input ends inside a write; expected rows and then `end`"
        }
        InputCause::Scenario(ScenarioCause::TooLong) => "the input has more than 1 GiB",
        InputCause::Scenario(ScenarioCause::NotSupported) => {
            "not supported yet here; lines are supported under the configuration of examples/two-nodes alone, in its order"
        }
        InputCause::Document(DocumentCause::TooLong) => "the document has more than 1 GiB",
        InputCause::Document(cause) => cause.name(),
    }
}

/// The first characters of a text, with control characters by their numbers, so that no text of a file can write to a
/// terminal what it likes.
pub fn escaped(alloc: Global, text: &str) -> Result<String, NoMemory> {
    let mut told = String::new(alloc);
    for (count, character) in text.chars().enumerate() {
        if count == MOST_TOLD {
            told.push_str("..")?;
            return Ok(told);
        }
        put_escaped(alloc, &mut told, character)?;
    }
    Ok(told)
}

fn put_escaped(alloc: Global, told: &mut String, character: char) -> Result<(), NoMemory> {
    if character.is_control() {
        let number = character as u32;
        let escape = format!(in alloc; "\\u{{{number:x}}}")?;
        told.push_str(escape.as_str())?;
    } else {
        told.push(character)?;
    }
    Ok(())
}

/// The configuration file of an order.
pub fn file_of(alloc: Global, order: &Order) -> Result<Txt, NoMemory> {
    let folder = order.folder.as_str();
    if folder == "." {
        return Txt::copied(alloc, "symds.toml");
    }
    Ok(Txt::of(format!(in alloc; "{folder}/symds.toml")?))
}
