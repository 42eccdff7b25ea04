//! Tests of the words that the program is called with.
use crate::words::{Order, WordsRefusal, read_words};
use sds_base::{NoMemory, Txt};
use std::alloc::Global;
use std::test::Fail;

/// Words, divided by single spaces, and what they are read as; `~` stands for the empty word.
const WORDS: &[(&str, &str)] = &[
    ("rehearse", ". journal 31415 rehearse"),
    ("--folder shop rehearse", "shop journal 31415 rehearse"),
    ("rehearse --folder=shop", "shop journal 31415 rehearse"),
    (
        "--keeper sqlite --port 0080 rehearse",
        ". sqlite 80 rehearse",
    ),
    ("--port=65535 rehearse", ". journal 65535 rehearse"),
    ("-- rehearse", ". journal 31415 rehearse"),
    ("", "bad 0"),
    ("~", "bad 0"),
    ("fly", "bad 0"),
    ("Rehearse", "bad 0"),
    ("rehearser", "bad 0"),
    ("rehearse now", "bad 1"),
    ("rehearse ~", "bad 1"),
    ("-- rehearse --folder", "bad 1"),
    ("rehearse -- --help", "bad 1"),
    ("--folder a --folder b rehearse", "bad 0"),
    ("--folder rehearse", "bad 0"),
    ("--folder=-x rehearse", "bad 0"),
    ("--folder= rehearse", "bad 0"),
    ("--folder -x rehearse", "bad 0"),
    ("--keeper paper rehearse", "bad 0"),
    ("--port 0 rehearse", "bad 0"),
    ("--port 65536 rehearse", "bad 0"),
    ("--port 00000000000000000080 rehearse", "bad 0"),
    ("--port +80 rehearse", "bad 0"),
    ("--wings rehearse", "bad 0"),
    ("--help", "help"),
    ("-h", "help"),
    ("rehearse --help", "help"),
    ("--version", "version"),
    ("-V", "version"),
];

/// The words of a line of the table.
fn words_of(alloc: Global, line: &str) -> Result<Vec<Txt>, NoMemory> {
    let mut words = Vec::new(alloc);
    for word in line.split(' ') {
        if word == "~" {
            words.push(Txt::copied(alloc, "")?)?;
        } else if !word.is_empty() {
            words.push(Txt::copied(alloc, word)?)?;
        }
    }
    Ok(words)
}

/// What words are read as, in a text.
fn told(alloc: Global, read: &Result<Order, WordsRefusal>) -> Result<String, NoMemory> {
    Ok(match read {
        Ok(order) => {
            let folder = order.folder.as_str();
            let keeper = order.keeper.as_str();
            let port = order.port;
            let command = order.command.as_str();
            format!(in alloc; "{folder} {keeper} {port} {command}")?
        }
        Err(WordsRefusal::Bad(place)) => format!(in alloc; "bad {place}")?,
        Err(WordsRefusal::Help) => String::from_str(alloc, "help")?,
        Err(WordsRefusal::Version) => String::from_str(alloc, "version")?,
        Err(WordsRefusal::NoMemory) => String::from_str(alloc, "no memory")?,
    })
}

#[test]
fn words_are_read_by_their_grammar(rt: HostRuntime) -> Result<(), Fail> {
    let alloc = rt.alloc();
    for (line, expected) in WORDS {
        let words = words_of(alloc, line)?;
        let read = read_words(alloc, &words);
        assert_eq!(rt; told(alloc, &read)?.as_str(), *expected, "{line:?}");
    }
    Ok(())
}
