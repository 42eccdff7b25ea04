//! Tests of what the program tells on standard error.
use crate::messages::{escaped, message_of};
use sds_base::{NoMemory, Txt};
use sds_types::{ConfigRefusal, InputCause, ScenarioCause, Status, Unreadable};
use std::alloc::Global;
use std::test::Fail;

/// The message of a status whose configuration file is symds.toml.
fn told(alloc: Global, status: &Status) -> Result<String, NoMemory> {
    message_of(alloc, status, "symds.toml")
}

#[test]
fn each_status_tells_what_to_do(rt: HostRuntime) -> Result<(), Fail> {
    let alloc = rt.alloc();
    for (status, message) in [
        (
            Status::Words { place: 0 },
            "these words are no command; `symds --help` lists the commands and options",
        ),
        (
            Status::Words { place: 1 },
            "word 1 after `rehearse` is one too many; the scenario comes on standard input",
        ),
        (
            Status::Config(ConfigRefusal::NotToml {
                line: 3,
                column: 10,
            }),
            "NotToml: symds.toml, line 3, column 10: the file is not TOML in UTF-8 from here on",
        ),
        (
            Status::ReadFault(Unreadable::Configuration),
            "symds.toml could not be read; is it there, and a file that you may read?",
        ),
        (
            Status::ReadFault(Unreadable::Input),
            "standard input could not be read; give the scenario by `symds rehearse < FILE`",
        ),
        (
            Status::WriteFault,
            "standard output could not be written to its end; what was written is a prefix",
        ),
        (Status::NoMemory, "out of memory; nothing was changed"),
        (
            Status::BadInput {
                line: 7,
                cause: InputCause::Scenario(ScenarioCause::Unfinished),
            },
            "line 7: the input ends inside a write; expected rows and then `end` (cause 4)",
        ),
        (
            Status::BadInput {
                line: 9,
                cause: InputCause::Scenario(ScenarioCause::TooLong),
            },
            "line 9: the input has more than 1 GiB (cause 5)",
        ),
    ] {
        assert_eq!(rt; told(alloc, &status)?.as_str(), message);
    }
    Ok(())
}

#[test]
fn a_bad_expression_tells_its_place(rt: HostRuntime) -> Result<(), Fail> {
    let alloc = rt.alloc();
    let status = Status::Config(ConfigRefusal::BadExpression {
        router: Txt::copied(alloc, "down")?,
        place: 3,
    });
    assert_eq!(rt;
        told(alloc, &status)?.as_str(),
        "BadExpression: down, character 3 counted from 0: the expression of this router is malformed at this character"
    );
    Ok(())
}

#[test]
fn an_empty_key_is_told(rt: HostRuntime) -> Result<(), Fail> {
    let alloc = rt.alloc();
    let status = Status::Config(ConfigRefusal::BadSetting(Txt::copied(alloc, "")?));
    assert_eq!(rt;
        told(alloc, &status)?.as_str(),
        "BadSetting: the key \"\": the key is unknown, or the value is not one that it takes"
    );
    Ok(())
}

#[test]
fn control_characters_are_told_by_their_numbers(rt: HostRuntime) -> Result<(), Fail> {
    let alloc = rt.alloc();
    for (text, shown) in [
        ("trigger[0].channel", "trigger[0].channel"),
        ("\u{1b}[31mred\n", "\\u{1b}[31mred\\u{a}"),
        ("caf\u{e9} \u{9b}", "caf\u{e9} \\u{9b}"),
        ("", ""),
    ] {
        assert_eq!(rt; escaped(alloc, text)?.as_str(), shown);
    }
    let long = "x".repeat(alloc, 201)?;
    let told = escaped(alloc, long.as_str())?;
    assert_eq!(rt; told.len(), 202);
    assert!(rt; told.as_str().ends_with("xx.."));
    Ok(())
}
