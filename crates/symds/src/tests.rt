//! The program by its call: each status, what is written, and what is read.
use crate::command::run;
use sds_base::{Bytes, List, NoMemory, Txt};
use sds_outside::{MemKeeper, MemLink, MemSink, MemSource};
use sds_types::Status;
use std::alloc::Global;
use std::test::Fail;

/// The scenario of examples/two-nodes.
const SCENARIO: &str =
    "node,corp,corp,corp\nnode,s1,store,001\nopen,corp,store,001\nregister,s1,corp\nwrite,corp,office,1\ninsert,pair,2,Ink\ninsert,pair,1,Pen\nend\nroute,corp\npush,corp,s1\nshow,s1\nwrite,corp,office,2\ninsert,pair,1,Cap\nend\npush,corp,s1\n";

/// Its screen.
const SCREEN: &str =
    "open corp store 001: ok\nregister s1 corp: ok\nwrite corp office 1: done 1 2\nroute corp: 1 batches\nsend 1 corp s1: 1 batches\ndeliver 1: reply 1 batch-1=ok\nanswer 1: 1 changed\ntable pair\n\"1\",\"Pen\"\n\"2\",\"Ink\"\nwrite corp office 2: refused 1 7\nsend 2 corp s1: 0 batches\n";

/// The four lines with which a scenario begins.
const BEGIN: &str =
    "node,corp,corp,corp\nnode,s1,store,001\nopen,corp,store,001\nregister,s1,corp\n";

/// The configuration of examples/two-nodes.
pub(crate) const ONE: &str = "version = 1
group = [{id=\"corp\"}, {id=\"store\"}]
link = [{source=\"corp\", target=\"store\", action=\"P\"}]
channel = [{id=\"data\", processing_order=1, max_batch_size=10000, max_batch_to_send=10000, batch_algorithm=\"default\"}]
table = [{id=\"pair\", columns=[\"id INTEGER KEY\", \"text VARCHAR(40)\"]}]
trigger = [{id=\"pair\", source_table=\"pair\", channel=\"data\"}]
router = [{id=\"down\", source_group=\"corp\", target_group=\"store\", type=\"default\"}]
trigger_router = [{trigger=\"pair\", router=\"down\"}]
";

/// What a call ended with, and what it wrote.
#[derive(Drop)]
pub(crate) struct Outcome {
    pub(crate) status: Status,
    pub(crate) written: Vec<u8>,
}

/// Calls `run` with this word over the configuration of examples/two-nodes, an input, a list of readings that fail, and a
/// sink of this room.
fn called(
    alloc: Global,
    word: &str,
    input: Vec<u8>,
    fails: List<u64>,
    room: u64,
) -> Result<Outcome, NoMemory> {
    let config = ONE.as_bytes().to_vec(alloc)?;
    let config = MemSource::sound(alloc, Bytes::of(config));
    called_with(alloc, word, config, input, fails, room)
}

/// Calls `run` over another configuration.
pub(crate) fn called_with(
    alloc: Global,
    word: &str,
    mut config: MemSource,
    input: Vec<u8>,
    fails: List<u64>,
    room: u64,
) -> Result<Outcome, NoMemory> {
    let mut input = MemSource::new(Bytes::of(input), fails);
    let mut link = MemLink::sound(alloc, List::new(alloc));
    let mut out = MemSink::new(alloc, room, List::new(alloc))?;
    let keeper = MemKeeper::sound(alloc, List::new(alloc))?;
    let mut words = Vec::new(alloc);
    words.push(Txt::copied(alloc, word)?)?;
    let (status, _keeper) = run(
        alloc,
        &words,
        &mut config,
        &mut input,
        keeper,
        &mut link,
        [0; 16],
        &mut out,
    );
    let written = out.taken().to_vec(alloc)?;
    Ok(Outcome { status, written })
}

/// A status by its name, and what it says.
pub(crate) fn told(alloc: Global, status: &Status) -> Result<String, NoMemory> {
    let name = status.name();
    Ok(match status {
        Status::Words { place } => format!(in alloc; "{name} {place}")?,
        Status::BadInput { line, cause } => {
            let number = cause.number();
            format!(in alloc; "{name} {line} {number}")?
        }
        Status::Config(refusal) => {
            let number = refusal.number();
            let path = refusal.path().map_or("", |path| path.as_str());
            format!(in alloc; "{name} {number} {path}")?
        }
        _ => String::from_str(alloc, name)?,
    })
}

/// The bytes of two texts, one after the other.
fn joined(alloc: Global, front: &str, back: &[u8]) -> Result<Vec<u8>, NoMemory> {
    let mut text = front.as_bytes().to_vec(alloc)?;
    text.extend_from_slice(back)?;
    Ok(text)
}

/// How a rehearsal ends of the four lines with which a scenario begins, and these after them.
fn ended(alloc: Global, lines: &[u8]) -> Result<Status, NoMemory> {
    let text = joined(alloc, BEGIN, lines)?;
    Ok(called(alloc, "rehearse", text, List::new(alloc), 1000)?.status)
}

#[test]
fn the_scenario_of_two_nodes_prints_its_screen(rt: HostRuntime) -> Result<(), Fail> {
    let alloc = rt.alloc();
    let input = SCENARIO.as_bytes().to_vec(alloc)?;
    let ended = called(alloc, "rehearse", input, List::new(alloc), 1000)?;
    assert_eq!(rt; told(alloc, &ended.status)?.as_str(), "Done");
    assert_eq!(rt; ended.written.as_slice(), SCREEN.as_bytes());
    Ok(())
}

#[test]
fn an_empty_scenario_prints_nothing(rt: HostRuntime) -> Result<(), Fail> {
    let alloc = rt.alloc();
    let ended = called(alloc, "rehearse", Vec::new(alloc), List::new(alloc), 0)?;
    assert_eq!(rt; told(alloc, &ended.status)?.as_str(), "Done");
    assert!(rt; ended.written.is_empty());
    Ok(())
}

#[test]
fn other_words_are_refused(rt: HostRuntime) -> Result<(), Fail> {
    let alloc = rt.alloc();
    for word in ["fly", "", "Rehearse", "rehearse "] {
        let ended = called(alloc, word, Vec::new(alloc), List::new(alloc), 0)?;
        assert_eq!(rt; told(alloc, &ended.status)?.as_str(), "Words 0");
    }
    Ok(())
}

#[test]
fn help_and_the_version_are_printed(rt: HostRuntime) -> Result<(), Fail> {
    let alloc = rt.alloc();
    for (word, front, room) in [
        ("--help", "symds plays rehearsals", 2_000),
        ("--version", "symds 0.1.0\n", 12),
    ] {
        let ended = called(alloc, word, Vec::new(alloc), List::new(alloc), room)?;
        assert_eq!(rt; told(alloc, &ended.status)?.as_str(), "Done");
        assert!(rt; ended.written.starts_with(front.as_bytes()));
        let ended = called(alloc, word, Vec::new(alloc), List::new(alloc), 5)?;
        assert_eq!(rt; told(alloc, &ended.status)?.as_str(), "WriteFault");
        assert_eq!(rt; ended.written.as_slice(), b"symds".as_slice());
    }
    Ok(())
}

#[test]
fn a_reading_that_fails_writes_nothing(rt: HostRuntime) -> Result<(), Fail> {
    let alloc = rt.alloc();
    for call in 1..4u64 {
        let mut fails = List::new(alloc);
        fails.push(call)?;
        let input = SCENARIO.as_bytes().to_vec(alloc)?;
        let ended = called(alloc, "rehearse", input, fails, 1000)?;
        let expected = if call < 3 { "ReadFault" } else { "Done" };
        assert_eq!(rt; told(alloc, &ended.status)?.as_str(), expected);
        assert_eq!(rt; ended.written.is_empty(), call < 3);
    }
    Ok(())
}

#[test]
fn a_writing_that_fails_leaves_a_front_of_the_screen(rt: HostRuntime) -> Result<(), Fail> {
    let alloc = rt.alloc();
    let screen = SCREEN.as_bytes();
    for room in 0..=screen.len() {
        let input = SCENARIO.as_bytes().to_vec(alloc)?;
        let ended = called(alloc, "rehearse", input, List::new(alloc), room as u64)?;
        let expected = if room < screen.len() {
            "WriteFault"
        } else {
            "Done"
        };
        assert_eq!(rt; told(alloc, &ended.status)?.as_str(), expected);
        assert_eq!(rt; ended.written.as_slice(), &screen[..room]);
    }
    Ok(())
}

/// Lines after the four with which a scenario begins, and the first that may not stand, with its cause.
const BAD_LINES: &[(&[u8], u64, u8)] = &[
    (b"write,corp,office,1\ninsert,item,1,Pen\n", 6, 6),
    (b"write,corp,office,2\n", 5, 6),
    (
        b"write,corp,office,1\ninsert,pair,1,Pen\nend\nroute,corp\nroute,corp\n",
        9,
        6,
    ),
    (b"\n# a comment with \"quotes\"\n \t\r\nfly\n", 8, 6),
    (b"show,corp\n\"show\",s2\n", 6, 6),
    (b"show,corp\nshow,\"s1\"x\n", 6, 1),
    (b"show,corp\nsh\"ow,s1\nfly\n", 6, 1),
    (b"fly\nsh\"ow,s1\n", 5, 6),
    (b"write,corp,office,1\ninsert,pair,1,\"P\\en\"\n", 6, 1),
    (b"write,corp,office,1\ninsert,pair,1,\"Pen\nend\n", 6, 1),
    (b"show,corp\n\xff\n", 6, 1),
    (b"# \xc3\n", 5, 1),
    (b"write,corp,office,1\ninsert,pair,1,Pen\n", 7, 4),
    (b"write,corp,office,1\ninsert,pair,1,Pen", 7, 4),
    (
        b"write,corp,office,1\ninsert,pair,1,\"P\ne\nn\"\n# end\n",
        10,
        4,
    ),
];

#[test]
fn a_line_that_may_not_stand_ends_the_run_at_its_number(rt: HostRuntime) -> Result<(), Fail> {
    let alloc = rt.alloc();
    for (lines, line, cause) in BAD_LINES {
        let expected = format!(in alloc; "BadInput {line} {cause}")?;
        assert_eq!(rt; told(alloc, &ended(alloc, lines)?)?, expected);
    }
    Ok(())
}

#[test]
fn a_line_has_at_most_one_mebibyte(rt: HostRuntime) -> Result<(), Fail> {
    let alloc = rt.alloc();
    let mut line = vec![in alloc; b'#'; 1 << 20]?;
    assert_eq!(rt; told(alloc, &ended(alloc, &line)?)?.as_str(), "Done");
    line.push(b'#')?;
    assert_eq!(rt;
        told(alloc, &ended(alloc, &line)?)?.as_str(),
        "BadInput 5 1"
    );
    Ok(())
}

/// A scenario whose fields are quoted, with quotes, backslashes, commas and a line feed inside, and an empty text beside a null.
const QUOTED: &str =
    "\"node\",\"corp\", corp ,\"corp\"\nnode,s1,store,001\nopen,corp,store,\"001\"\nregister,s1,corp\nwrite,corp,\"office\",1\ninsert,pair,2,\"Ink, \\\"blue\\\"\nand \\\\red\"\ninsert,pair,\"1\",\"\"\ninsert,pair,3,\n\"end\"\nroute,corp\npush,corp,s1\nshow,s1\nfly\n";

/// Its screen.
const QUOTED_SCREEN: &str =
    "open corp store 001: ok\nregister s1 corp: ok\nwrite corp office 1: done 1 3\nroute corp: 1 batches\nsend 1 corp s1: 1 batches\ndeliver 1: reply 1 batch-1=ok\nanswer 1: 1 changed\ntable pair\n\"1\",\"\"\n\"2\",\"Ink, \\\"blue\\\"\nand \\\\red\"\n\"3\",\n";

#[test]
fn fields_may_be_quoted(rt: HostRuntime) -> Result<(), Fail> {
    let alloc = rt.alloc();
    let input = QUOTED.as_bytes().to_vec(alloc)?;
    let ended = called(alloc, "rehearse", input, List::new(alloc), 1000)?;
    assert_eq!(rt; told(alloc, &ended.status)?.as_str(), "BadInput 14 6");
    assert_eq!(rt; ended.written.as_slice(), QUOTED_SCREEN.as_bytes());
    Ok(())
}

#[test]
fn what_stood_before_a_bad_line_stays_printed(rt: HostRuntime) -> Result<(), Fail> {
    let alloc = rt.alloc();
    let input = joined(alloc, BEGIN, b"show,s1\nfly\n")?;
    let ended = called(alloc, "rehearse", input, List::new(alloc), 1000)?;
    assert_eq!(rt; told(alloc, &ended.status)?.as_str(), "BadInput 6 6");
    assert_eq!(rt;
        ended.written.as_slice(),
        b"open corp store 001: ok\nregister s1 corp: ok\ntable pair\n".as_slice()
    );
    Ok(())
}

/// A write of ten thousand rows, routed, pushed and shown.
fn ten_thousand(alloc: Global) -> Result<Vec<u8>, NoMemory> {
    let mut text = joined(alloc, BEGIN, b"write,corp,office,1\n")?;
    for number in 0..10_000u32 {
        let row = format!(in alloc; "insert,pair,{number},Pen\n")?;
        text.extend_from_slice(row.as_bytes())?;
    }
    text.extend_from_slice(b"end\nroute,corp\npush,corp,s1\nshow,s1\n")?;
    Ok(text)
}

#[test]
fn ten_thousand_rows_come_through(rt: HostRuntime) -> Result<(), Fail> {
    let alloc = rt.alloc();
    let input = ten_thousand(alloc)?;
    let ended = called(alloc, "rehearse", input, List::new(alloc), 1 << 20)?;
    assert_eq!(rt; told(alloc, &ended.status)?.as_str(), "Done");
    assert!(rt;
        ended
            .written
            .ends_with(b"\"9998\",\"Pen\"\n\"9999\",\"Pen\"\n")
    );
    Ok(())
}
