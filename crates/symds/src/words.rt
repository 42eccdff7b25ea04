//! The words that the program is called with, read with `clap`.
ghost use Rattle.std.specs.Prelude.{◌≡◌, ◌≢◌, ◌⊎◌, List, ℕ, IfOk, IfErr, false, map, option_map};
ghost use Rattle.std.specs.Prelude.{unwrap_or, slice_get, codes};
ghost use Rattle.clap.specs.Faults.{fault_of};
ghost use Rattle.clap.specs.Kinds.{FailsBy, IsAmong};
ghost use Rattle.clap.specs.Matches.{found_of};
ghost use Rattle.clap.specs.Simple.{app_of, matches_of};
ghost use Rattle.clap.specs.Values.{kind_of};
ghost use Rattle.clap.specs.Walk.{rows_of, rule_of};
ghost use Rattle.clap.specs.declared.error.kind.ErrorKind.TheVariants as kinds;
ghost use Rattle.symds.specs.Words as wanted;

use clap::error::ErrorKind;
use clap::{Arg, ArgAction, ArgMatches, Command, Error};
use sds_base::{List, NoMemory, Txt};
use sds_expressions::plain_number;
use std::alloc::{AllocError, Global};

/// What the words ask for. The grammar is symds' own: options `--folder F`, `--keeper journal` or
/// `sqlite`, `--port N`, a command and its words. An option may be written `--x=v`, stands once,
/// and isn't one after `--`.
#[derive(Debug, Drop)]
pub struct Order {
    /// The folder in which the configuration and the node's records lie.
    pub folder: Txt,
    /// Where a node keeps its records: `journal` or `sqlite`.
    pub keeper: Txt,
    /// The port of loopback, 1 to 65,535, that is served or called.
    pub port: u16,
    pub command: Txt,
    /// The words after the command.
    pub rest: List<Txt>,
}

/// Why words are no order.
#[derive(Clone, Copy, Debug, PartialEq, Eq)]
pub enum WordsRefusal {
    /// The place of the first word after the command that doesn't fit, from 1, or 0 for any other
    /// mistake.
    Bad(u32),
    /// They ask for help.
    Help,
    /// They ask for the version.
    Version,
    NoMemory,
}

/// Reads the words after the program's name.
pub fn read_words(alloc: Global, words: &[Txt]) -> Result<Order, WordsRefusal>
    ensures order { IfOk result (λ order. wanted.IsOrder words.now order) }
    ensures refused { IfErr result (λ why. wanted.IsRefused words.now why) }
{
    let Ok(texts) = texts_of(alloc, words) else {
        return Err(WordsRefusal::NoMemory);
    };
    match read_matches(alloc, texts.as_slice()) {
        Ok(matches) => order_of(alloc, &matches),
        Err(error) => Err(refusal_of(error.kind())),
    }
}

/// The words by their texts.
fn texts_of<'a>(alloc: Global, words: &'a [Txt]) -> Result<Vec<&'a str>, NoMemory>
    ensures { IfOk result (λ texts.
        map (λ text. text.now) texts.items ≡ wanted.texts_of words.now) }
{
    let mut texts = Vec::new(alloc);
    for word in words {
        texts.push(word.as_str())?;
    }
    Ok(texts)
}

fn folder_arg<'a>(alloc: Global) -> Arg<'a>
    ensures rule { rule_of result ≡ wanted.folder_rule }
    ensures local { result.global ≡ false }
{
    Arg::new(alloc, "folder")
        .long("folder")
        .action(ArgAction::Set)
        .default_value(".")
}

fn keeper_arg<'a>(alloc: Global) -> Arg<'a>
    ensures rule { rule_of result ≡ wanted.keeper_rule }
    ensures local { result.global ≡ false }
{
    Arg::new(alloc, "keeper")
        .long("keeper")
        .action(ArgAction::Set)
        .default_value("journal")
}

fn port_arg<'a>(alloc: Global) -> Arg<'a>
    ensures rule { rule_of result ≡ wanted.port_rule }
    ensures local { result.global ≡ false }
{
    Arg::new(alloc, "port")
        .long("port")
        .action(ArgAction::Set)
        .default_value("31415")
}

fn command_arg<'a>(alloc: Global) -> Arg<'a>
    ensures rule { rule_of result ≡ wanted.command_rule }
    ensures local { result.global ≡ false }
{
    Arg::new(alloc, "command")
        .action(ArgAction::Set)
        .required(true)
}

fn rest_arg<'a>(alloc: Global) -> Arg<'a>
    ensures rule { rule_of result ≡ wanted.rest_rule }
    ensures local { result.global ≡ false }
{
    Arg::new(alloc, "rest")
        .action(ArgAction::Append)
        .num_args(..)
}

fn bare_program<'a>(alloc: Global) -> Command<'a>
    ensures { app_of result ≡ wanted.bare_program }
{
    Command::new(alloc, "symds")
        .no_binary_name(true)
        .version("")
}

fn program_with_options<'a>(alloc: Global) -> Result<Command<'a>, AllocError>
    ensures { IfOk result (λ command. app_of command ≡ wanted.program_with_options) }
{
    bare_program(alloc)
        .arg(folder_arg(alloc))?
        .arg(keeper_arg(alloc))?
        .arg(port_arg(alloc))
}

fn program<'a>(alloc: Global) -> Result<Command<'a>, AllocError>
    ensures { IfOk result (λ command. app_of command ≡ wanted.program) }
{
    program_with_options(alloc)?
        .arg(command_arg(alloc))?
        .arg(rest_arg(alloc))
}

fn read_matches<'a>(alloc: Global, texts: &'a [&'a str]) -> Result<ArgMatches<'a>, Error>
    ensures matches { IfOk result (λ m. rows_of (found_of m)
        ≡ matches_of wanted.program (map (λ text. text.now) texts.entry.now)) }
    ensures refused { FailsBy (fault_of wanted.program (map (λ text. text.now) texts.entry.now)) result }
{
    program(alloc)?.try_get_matches_from(texts)
}

/// Why words are refused, by the kind of clap's error.
fn refusal_of(kind: ErrorKind) -> WordsRefusal
    ensures { result ≡ wanted.words_refusal_of kind }
{
    match kind {
        ErrorKind::DisplayHelp => WordsRefusal::Help,
        ErrorKind::DisplayVersion => WordsRefusal::Version,
        ErrorKind::OutOfMemory => WordsRefusal::NoMemory,
        _ => WordsRefusal::Bad(0),
    }
}

/// The order of the values, or the place of what doesn't fit.
fn order_of(alloc: Global, matches: &ArgMatches<'_>) -> Result<Order, WordsRefusal>
    ensures order { IfOk result (λ order.
        wanted.order_from (rows_of (found_of matches.now)) ≡ Ok order) }
    ensures refused { IfErr result (λ why. why ≢ WordsRefusal.NoMemory
        → wanted.IsBadOrder (rows_of (found_of matches.now)) why) }
{
    match order_in(alloc, matches) {
        Err(NoMemory) => Err(WordsRefusal::NoMemory),
        Ok(None) => Err(WordsRefusal::Bad(0)),
        Ok(Some(order)) => match misfit(order.command.as_str(), order.rest.inner().len()) {
            None => Ok(order),
            Some(place) => Err(WordsRefusal::Bad(place)),
        },
    }
}

/// The place of the first word after the command that doesn't fit.
fn misfit(command: &str, words: usize) -> Option<u32>
    ensures { result ≡ wanted.misfit_of command.now words }
{
    if command != "rehearse" {
        Some(0)
    } else if words > 0 {
        Some(1)
    } else {
        None
    }
}

fn order_in(alloc: Global, matches: &ArgMatches<'_>) -> Result<Option<Order>, NoMemory>
    ensures { IfOk result (λ order. order ≡ wanted.order_in (rows_of (found_of matches.now))) }
{
    let Some(folder) = value_in(matches, "folder") else {
        return Ok(None);
    };
    let Some(keeper) = keeper_in(matches) else {
        return Ok(None);
    };
    let Some(port) = port_in(matches) else {
        return Ok(None);
    };
    Ok(Some(Order {
        folder: Txt::copied(alloc, folder)?,
        keeper: Txt::copied(alloc, keeper)?,
        port,
        command: command_in(alloc, matches)?,
        rest: rest_in(alloc, matches)?,
    }))
}

fn command_in(alloc: Global, matches: &ArgMatches<'_>) -> Result<Txt, NoMemory>
    ensures { IfOk result (λ command.
        command ≡ wanted.command_in (rows_of (found_of matches.now))) }
{
    match matches.get_str("command") {
        None => Txt::copied(alloc, ""),
        Some(command) => Txt::copied(alloc, command),
    }
}

fn value_in<'a>(matches: &ArgMatches<'a>, id: &str) -> Option<&'a str>
    ensures { option_map (λ value. value.now) result
        ≡ wanted.value_in (rows_of (found_of matches.now)) id.now }
{
    match matches.get_str(id) {
        Some(value) if is_plain(value.as_bytes()) => Some(value),
        _ => None,
    }
}

fn is_plain(value: &[u8]) -> bool
    ensures { result ≡ wanted.is_plain value.now }
{
    match value {
        [] => false,
        [first, ..] => *first != b'-',
    }
}

fn keeper_in<'a>(matches: &ArgMatches<'a>) -> Option<&'a str>
    ensures { option_map (λ value. value.now) result
        ≡ wanted.keeper_in (rows_of (found_of matches.now)) }
{
    match value_in(matches, "keeper") {
        Some(keeper) if keeper == "journal" || keeper == "sqlite" => Some(keeper),
        _ => None,
    }
}

fn port_in(matches: &ArgMatches<'_>) -> Option<u16>
    ensures { result ≡ wanted.port_in (rows_of (found_of matches.now)) }
{
    match value_in(matches, "port") {
        None => None,
        Some(port) => port_of(port.as_bytes()),
    }
}

fn port_of(text: &[u8]) -> Option<u16>
    ensures { result ≡ wanted.port_of text.now }
{
    if text.len() > 19 {
        return None;
    }
    match plain_number(without_zeros(text), 65_535) {
        None => None,
        Some(port) => Some(port as u16),
    }
}

fn without_zeros(text: &[u8]) -> &[u8]
    ensures { result.now ≡ wanted.without_zeros text.now }
{
    let mut rest = text;
    while let [b'0', tail @ ..] = rest {
        rest = tail;
    }
    rest
}

fn rest_in(alloc: Global, matches: &ArgMatches<'_>) -> Result<List<Txt>, NoMemory>
    ensures { IfOk result (λ rest. rest ≡ wanted.rest_in (rows_of (found_of matches.now))) }
{
    match matches.get_strs("rest") {
        None => Ok(List::new(alloc)),
        Some(words) => copies_of(alloc, words),
    }
}

fn copies_of(alloc: Global, words: &[&str]) -> Result<List<Txt>, NoMemory>
    ensures { IfOk result (λ copies.
        copies ≡ wanted.characters_of (map (λ word. word.now) words.now)) }
{
    let mut copies = Vec::new(alloc);
    for word in words {
        copies.push(Txt::copied(alloc, word)?)?;
    }
    Ok(List::of(copies))
}
