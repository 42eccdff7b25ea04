// Tests of what the configuration file makes of a call.
use crate::tests::{ONE, Outcome, called_with, told};
use sds_base::{Bytes, List, NoMemory, Txt};
use sds_outside::MemSource;
use std::alloc::Global;
use std::test::Fail;

/// A rehearsal of a scenario under a configuration file.
fn under(alloc: Global, file: &str, scenario: &str) -> Result<Outcome, NoMemory> {
    let file = file.as_bytes().to_vec(alloc)?;
    let config = MemSource::sound(alloc, Bytes::of(file));
    let input = scenario.as_bytes().to_vec(alloc)?;
    called_with(alloc, "rehearse", config, input, List::new(alloc), 1000)
}

/// The configuration of examples/two-nodes with another text in the place of one of its texts, and how a call ends with it.
const REFUSED: &[(&str, &str, u8, &str)] = &[
    ("version = 1", "version = \"1\"", 3, "version"),
    ("version = 1", "version = 1\ncolour = 1", 8, "colour"),
    (
        "max_batch_size=10000",
        "max_batch_size=0",
        8,
        "channel[0].max_batch_size",
    ),
    (
        "channel=\"data\"}",
        "channel=\"nix\"}",
        4,
        "trigger[0].channel",
    ),
    ("{id=\"store\"}", "{id=\"corp\"}", 5, "group[1].id"),
    (
        "source_group=\"corp\", target_group=\"store\"",
        "source_group=\"store\", target_group=\"corp\"",
        6,
        "router[0]",
    ),
    (
        "type=\"default\"}",
        "type=\"column\", expression=\"id ~ 1\"}",
        7,
        "down",
    ),
    ("version = 1", "version =", 1, ""),
    ("version = 1", "", 2, "version"),
];

#[test]
fn a_configuration_that_is_refused_ends_the_call(rt: HostRuntime) -> Result<(), Fail> {
    let alloc = rt.alloc();
    for (old, new, number, path) in REFUSED {
        let (front, back) = ONE.split_once(*old).ok_or("no such text")?;
        let file = format!(in alloc; "{front}{new}{back}")?;
        let ended = under(alloc, file.as_str(), "fly\n")?;
        let expected = format!(in alloc; "Config {number} {path}")?;
        assert_eq!(rt; told(alloc, &ended.status)?, expected, "{new:?}");
        assert!(rt; ended.written.is_empty());
    }
    Ok(())
}

#[test]
fn the_words_come_before_the_configuration(rt: HostRuntime) -> Result<(), Fail> {
    let alloc = rt.alloc();
    let config = MemSource::sound(alloc, Bytes::of(Vec::new(alloc)));
    let ended = called_with(alloc, "fly", config, Vec::new(alloc), List::new(alloc), 0)?;
    assert_eq!(rt; told(alloc, &ended.status)?.as_str(), "Words 0");
    Ok(())
}

#[test]
fn a_configuration_that_cannot_be_read_is_a_fault(rt: HostRuntime) -> Result<(), Fail> {
    let alloc = rt.alloc();
    for call in 1..4u64 {
        let mut fails = List::new(alloc);
        fails.push(call)?;
        let file = ONE.as_bytes().to_vec(alloc)?;
        let config = MemSource::new(Bytes::of(file), fails);
        let input = Vec::new(alloc);
        let ended = called_with(alloc, "rehearse", config, input, List::new(alloc), 0)?;
        let expected = if call < 3 { "ReadFault" } else { "Done" };
        assert_eq!(rt; told(alloc, &ended.status)?.as_str(), expected);
    }
    Ok(())
}

/// The same configuration, written otherwise.
const OTHERWISE: &str = "# two nodes
version = 1
[[trigger_router]]
trigger = \"pair\"
router = \"down\"
enabled = true
[[group]]
id = \"corp\"
[[group]]
id = \"store\"
[[link]]
action = \"P\"
target = \"store\"
source = \"corp\"
[[channel]]
id = 'data'
processing_order = 1
max_batch_size = 10_000
max_batch_to_send = 10_000
batch_algorithm = \"default\"
[[table]]
id = \"pair\"
columns = [\"id INTEGER KEY\", \"text VARCHAR(40)\"]
[[trigger]]
id = \"pair\"
source_table = \"pair\"
channel = \"data\"
sync_on_delete = true
[[router]]
id = \"down\"
source_group = \"corp\"
target_group = \"store\"
type = \"default\"
expression = \"\"
";

#[test]
fn a_file_counts_by_what_it_says(rt: HostRuntime) -> Result<(), Fail> {
    let alloc = rt.alloc();
    let scenario = "node,corp,corp,corp\nnode,s1,store,001\nopen,corp,store,001\n";
    let ended = under(alloc, OTHERWISE, scenario)?;
    assert_eq!(rt; told(alloc, &ended.status)?.as_str(), "Done");
    assert_eq!(rt;
        ended.written.as_slice(),
        b"open corp store 001: ok\n".as_slice()
    );
    Ok(())
}

/// Scenarios, and how they end under a configuration that is valid and another one: at the first line that has fields.
const UNBUILT: &[(&str, Option<(u64, u8)>)] = &[
    ("", None),
    ("\n# nothing\n", None),
    ("# first\n\nnode,corp,corp,corp\n", Some((3, 6))),
    ("\"node\nx\",corp\nfly\"\n", Some((1, 6))),
    ("# \n\"x\" y\n", Some((2, 1))),
    ("\"x", Some((1, 1))),
];

#[test]
fn under_another_configuration_no_line_is_built(rt: HostRuntime) -> Result<(), Fail> {
    let alloc = rt.alloc();
    let (front, back) = ONE.split_once("VARCHAR(40)").ok_or("no such text")?;
    let file = format!(in alloc; "{front}VARCHAR(41){back}")?;
    for (scenario, bad) in UNBUILT {
        let expected = match *bad {
            None => format!(in alloc; "Done")?,
            Some((line, cause)) => format!(in alloc; "BadInput {line} {cause}")?,
        };
        let ended = under(alloc, file.as_str(), scenario)?;
        assert_eq!(rt; told(alloc, &ended.status)?, expected, "{scenario:?}");
        assert!(rt; ended.written.is_empty());
    }
    Ok(())
}
