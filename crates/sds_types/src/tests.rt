//! Numbers and names as the outside sees them, and copies.
use crate::{
    ConfigRefusal, CreateRefusal, DocumentCause, InputCause, NodeFault, RegRefusal, Row, Rule,
    ScenarioCause, Standing, Status, Unreadable,
};
use sds_base::{List, NoMemory, Same, Twin, Txt};
use sds_value::Value;
use std::test::Fail;

/// A file that isn't TOML.
fn not_toml() -> ConfigRefusal {
    ConfigRefusal::NotToml { line: 2, column: 7 }
}

#[test]
fn rules_have_the_numbers_that_are_printed(rt: HostRuntime) {
    for (rule, number, name) in [
        (Rule::UnknownTable, 1, "UnknownTable"),
        (Rule::UnknownColumn, 2, "UnknownColumn"),
        (Rule::MissingKey, 3, "MissingKey"),
        (Rule::BadValue, 4, "BadValue"),
        (Rule::TooLong, 5, "TooLong"),
        (Rule::NullNotAllowed, 6, "NullNotAllowed"),
        (Rule::DuplicateKey, 7, "DuplicateKey"),
        (Rule::RowMissing, 8, "RowMissing"),
        (Rule::MissingParent, 9, "MissingParent"),
        (Rule::HasChildren, 10, "HasChildren"),
        (Rule::TableFull, 11, "TableFull"),
        (Rule::ManualConflict, 12, "ManualConflict"),
        (Rule::OldMissing, 13, "OldMissing"),
        (Rule::SumOutOfRange, 14, "SumOutOfRange"),
        (Rule::CaptureFull, 15, "CaptureFull"),
        (Rule::UnknownChannel, 16, "UnknownChannel"),
    ] {
        assert_eq!(rt; rule.number(), number);
        assert_eq!(rt; rule.name(), name);
    }
}

#[test]
fn causes_have_the_numbers_that_are_printed(rt: HostRuntime) {
    for (cause, number, name) in [
        (InputCause::Document(DocumentCause::BadLine), 1, "BadLine"),
        (
            InputCause::Document(DocumentCause::Unfinished),
            7,
            "Unfinished",
        ),
        (
            InputCause::Document(DocumentCause::WrongNode),
            8,
            "WrongNode",
        ),
        (InputCause::Document(DocumentCause::TooLong), 9, "TooLong"),
        (InputCause::Scenario(ScenarioCause::BadForm), 1, "BadForm"),
        (
            InputCause::Scenario(ScenarioCause::Unfinished),
            4,
            "Unfinished",
        ),
        (InputCause::Scenario(ScenarioCause::TooLong), 5, "TooLong"),
        (
            InputCause::Scenario(ScenarioCause::NotSupported),
            6,
            "NotSupported",
        ),
    ] {
        assert_eq!(rt; cause.number(), number);
        assert_eq!(rt; cause.name(), name);
    }
}

#[test]
fn statuses_end_the_process_with_their_numbers(rt: HostRuntime) {
    for (status, number, name) in [
        (Status::Done, 0, "Done"),
        (
            Status::Refused {
                row: 1,
                rule: Rule::DuplicateKey,
            },
            1,
            "Refused",
        ),
        (Status::Words { place: 0 }, 2, "Words"),
        (Status::Config(not_toml()), 3, "Config"),
        (Status::ReadFault(Unreadable::Input), 4, "ReadFault"),
        (Status::NoMemory, 8, "NoMemory"),
        (
            Status::Registration(RegRefusal::AlreadyOpen),
            14,
            "Registration",
        ),
        (Status::Create(CreateRefusal::UnknownGroup), 15, "Create"),
        (Status::Damaged { offset: 9 }, 22, "Damaged"),
    ] {
        assert_eq!(rt; status.number(), number);
        assert_eq!(rt; status.name(), name);
    }
}

#[test]
fn refusals_have_their_numbers_and_names(rt: HostRuntime) {
    let fault = RegRefusal::Fault(NodeFault::from(NoMemory));
    assert_eq!(rt; fault.number(), 0);
    assert_eq!(rt; fault.name(), "NoMemory");
    assert_eq!(rt; RegRefusal::TooManyNodes.number(), 5);
    assert_eq!(rt; RegRefusal::IdTaken.name(), "IdTaken");
    assert_eq!(rt; CreateRefusal::NotEmpty.number(), 1);
    assert_eq!(rt; CreateRefusal::NotEmpty.name(), "NotEmpty");
    assert_eq!(rt; not_toml().number(), 1);
    assert_eq!(rt; not_toml().name(), "NotToml");
    assert!(rt; not_toml().path().is_none());
    assert_eq!(rt; Standing::Acked.name(), "OK");
}

#[test]
fn a_row_is_copied(rt: HostRuntime) -> Result<(), Fail> {
    let alloc = rt.alloc();
    let text = Txt::of(String::from_str(alloc, "Pen")?);
    let row = Row(List::of(vec![in alloc; Value::Integer(-7), Value::Text(text), Value::Null]?));
    let copy = row.twin(alloc)?;
    assert!(rt; copy.0.same(&row.0));
    Ok(())
}
