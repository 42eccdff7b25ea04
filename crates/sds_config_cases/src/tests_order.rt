// Of several faults the first in the order of the rules is answered.
use crate::tests::{answer, expect_files};
use sds_base::NoMemory;
use std::alloc::Global;
use std::process::Abort;
use std::test::Fail;

/// The file's form, its version, unlisted keys of the top level and sections, in this order.
const TOPS: &[(&str, &str)] = &[
    ("version = 2\ncolour", "1"),
    ("colour = 1\nversion = 9223372036854775808", "1"),
    ("colour = 1", "2 version"),
    ("colour = 1\nversion = 2", "8 version"),
    ("group = 1\nversion = \"1\"", "3 version"),
    ("version = 1\ngroup = 1\ncolour = 2", "8 colour"),
    ("version = 1\nconflict = 1\ngroup = 2", "3 group"),
];

#[test]
fn the_version_comes_before_unlisted_keys_and_these_before_sections(
    rt: HostRuntime,
) -> Result<(), Fail> {
    expect_files(&rt, rt.alloc(), TOPS)?;
    Ok(())
}

/// A section: a good list of entries, a list that is refused only when it is read to its end with its answer, and the fields
/// in order, each with a good value and whether it may be absent.
struct Section<'a> {
    name: &'a str,
    good: &'a str,
    bad: &'a str,
    answer: &'a str,
    fields: &'a [(&'a str, &'a str, bool)],
}

const SECTIONS: &[Section<'static>] = &[
    Section {
        name: "group",
        good: r#"[{id="corp"}, {id="store"}]"#,
        bad: r#"[{id="a"}, {id="a"}]"#,
        answer: "5 group[1].id",
        fields: &[("id", r#""a""#, false)],
    },
    Section {
        name: "link",
        good: r#"[{source="corp", target="store", action="P"}]"#,
        bad: r#"[{source="corp", target="store", action="P"}, {source="corp", target="store", action="W"}]"#,
        answer: "5 link[1]",
        fields: &[
            ("source", r#""corp""#, false),
            ("target", r#""store""#, false),
            ("action", r#""P""#, false),
        ],
    },
    Section {
        name: "channel",
        good: r#"[{id="data", processing_order=1, max_batch_size=1, max_batch_to_send=1, batch_algorithm="default"}]"#,
        bad: r#"[{id="data", processing_order=1, max_batch_size=1, max_batch_to_send=1, batch_algorithm="x"}]"#,
        answer: "8 channel[0].batch_algorithm",
        fields: &[
            ("id", r#""a""#, false),
            ("processing_order", "1", false),
            ("max_batch_size", "1", false),
            ("max_batch_to_send", "1", false),
            ("batch_algorithm", r#""default""#, false),
        ],
    },
    Section {
        name: "table",
        good: r#"[{id="item", columns=["id INTEGER KEY"]}]"#,
        bad: r#"[{id="item", columns=[]}]"#,
        answer: "8 table[0]",
        fields: &[
            ("id", r#""a""#, false),
            ("columns", r#"["id INTEGER KEY"]"#, false),
        ],
    },
    Section {
        name: "trigger",
        good: r#"[{id="item", source_table="item", channel="data"}]"#,
        bad: r#"[{id="a", source_table="item", channel="data"}, {id="b", source_table="item", channel="data"}]"#,
        answer: "5 trigger[1]",
        fields: &[
            ("id", r#""a""#, false),
            ("source_table", r#""item""#, false),
            ("channel", r#""data""#, false),
            ("sync_on_insert", "true", true),
            ("sync_on_update", "true", true),
            ("sync_on_delete", "true", true),
            ("sync_on_incoming_batch", "true", true),
        ],
    },
    Section {
        name: "router",
        good: r#"[{id="down", source_group="corp", target_group="store", type="default"}]"#,
        bad: r#"[{id="down", source_group="corp", target_group="store", type="column"}]"#,
        answer: "7 down 0",
        fields: &[
            ("id", r#""a""#, false),
            ("source_group", r#""corp""#, false),
            ("target_group", r#""store""#, false),
            ("type", r#""default""#, false),
            ("expression", r#""""#, true),
        ],
    },
    Section {
        name: "trigger_router",
        good: r#"[{trigger="item", router="down"}]"#,
        bad: r#"[{trigger="item", router="down"}, {trigger="item", router="down"}]"#,
        answer: "5 trigger_router[1]",
        fields: &[
            ("trigger", r#""item""#, false),
            ("router", r#""down""#, false),
            ("enabled", "true", true),
            ("ping_back_enabled", "true", true),
        ],
    },
    Section {
        name: "transform",
        good: r#"[{id="move", source_group="corp", target_group="store", point="LOAD", source_table="item", target_table="item"}]"#,
        bad: r#"[{id="move", source_group="corp", target_group="store", point="LOAD", source_table="item", target_table="item", column=[{target="id", type="remove"}]}]"#,
        answer: "8 transform[0]",
        fields: &[
            ("id", r#""a""#, false),
            ("source_group", r#""corp""#, false),
            ("target_group", r#""store""#, false),
            ("point", r#""LOAD""#, false),
            ("source_table", r#""item""#, false),
            ("target_table", r#""item""#, false),
            ("delete_action", r#""NONE""#, true),
            ("column_policy", r#""IMPLIED""#, true),
            ("column", "[]", true),
        ],
    },
    Section {
        name: "conflict",
        good: r#"[{source_group="corp", target_group="store", target_table="item", detect_type="USE_PK_DATA", resolve_type="IGNORE"}]"#,
        bad: r#"[{source_group="corp", target_group="store", target_table="item", detect_type="USE_PK_DATA", resolve_type="NEWER_WINS"}]"#,
        answer: "8 conflict[0]",
        fields: &[
            ("source_group", r#""corp""#, false),
            ("target_group", r#""store""#, false),
            ("target_table", r#""item""#, false),
            ("detect_type", r#""USE_PK_DATA""#, false),
            ("detect_expression", r#""""#, true),
            ("resolve_type", r#""IGNORE""#, false),
            ("resolve_row_only", "true", true),
        ],
    },
];

/// The fields of a transform's column.
const COLUMN: &[(&str, &str, bool)] = &[
    ("target", r#""id""#, false),
    ("source", r#""""#, true),
    ("pk", "false", true),
    ("include_on", r#""*""#, true),
    ("type", r#""copy""#, false),
    ("expression", r#""""#, true),
];

/// An entry whose fields before this place are good, and from it on of a wrong type or, if so, absent. The last field
/// stands first in it.
fn spoilt(
    alloc: Global,
    fields: &[(&str, &str, bool)],
    good: usize,
    absent: bool,
) -> Result<String, NoMemory> {
    let mut entry = String::from_str(alloc, "}")?;
    for (place, (name, value, _)) in fields.iter().enumerate() {
        let rest = entry.as_str();
        let comma = if rest == "}" { "" } else { ", " };
        if place < good {
            entry = format!(in alloc; "{name}={value}{comma}{rest}")?;
        } else if !absent {
            entry = format!(in alloc; "{name}=1.5{comma}{rest}")?;
        }
    }
    let rest = entry.as_str();
    Ok(format!(in alloc; "{{{rest}")?)
}

/// The first field from this place on that may not be absent.
fn first_needed<'a>(fields: &'a [(&'a str, &'a str, bool)], from: usize) -> Option<&'a str> {
    for (place, (name, _, optional)) in fields.iter().enumerate() {
        if place >= from && !*optional {
            return Some(*name);
        }
    }
    None
}

/// Every field's fault comes before those of the fields after it, whatever their order in the file. In the file, whose last
/// section this is, `front` and `back` stand round the entry, and `at` is its path.
fn expect_fields_in_order(
    rt: &impl Abort,
    alloc: Global,
    front: &str,
    back: &str,
    fields: &[(&str, &str, bool)],
    at: &str,
) -> Result<(), NoMemory> {
    for (place, (name, _, _)) in fields.iter().enumerate() {
        let entry = spoilt(alloc, fields, place, false)?;
        let entry = entry.as_str();
        let file = format!(in alloc; "{front}{entry}{back}")?;
        let wanted = format!(in alloc; "3 {at}.{name}")?;
        assert_eq!(rt;
            answer(alloc, file.as_bytes())?.as_str(),
            wanted.as_str(),
            "{entry}"
        );
        let entry = spoilt(alloc, fields, place, true)?;
        let entry = entry.as_str();
        let file = format!(in alloc; "{front}{entry}{back}")?;
        let wanted = match first_needed(fields, place) {
            Some(name) => format!(in alloc; "2 {at}.{name}")?,
            None => String::from_str(alloc, "ok")?,
        };
        assert_eq!(rt;
            answer(alloc, file.as_bytes())?.as_str(),
            wanted.as_str(),
            "{entry}"
        );
    }
    Ok(())
}

#[test]
fn fields_are_judged_in_their_order(rt: HostRuntime) -> Result<(), Fail> {
    let alloc = rt.alloc();
    let mut before = String::from_str(alloc, "version = 1\n")?;
    for section in SECTIONS {
        let (earlier, name, good) = (before.as_str(), section.name, section.good);
        let front = format!(in alloc; "{earlier}{name} = [")?;
        let at = format!(in alloc; "{name}[0]")?;
        expect_fields_in_order(&rt, alloc, front.as_str(), "]", section.fields, at.as_str())?;
        before = format!(in alloc; "{earlier}{name} = {good}\n")?;
    }
    Ok(())
}

/// A file up to the columns of its transform.
const TO_COLUMNS: &str = r#"version = 1
group = [{id="corp"}, {id="store"}]
link = [{source="corp", target="store", action="P"}]
table = [{id="item", columns=["id INTEGER KEY"]}]
transform = [{id="move", source_group="corp", target_group="store", point="LOAD", source_table="item", target_table="item", column=["#;

#[test]
fn fields_of_a_transforms_columns_are_judged_in_their_order(rt: HostRuntime) -> Result<(), Fail> {
    let at = "transform[0].column[0]";
    expect_fields_in_order(&rt, rt.alloc(), TO_COLUMNS, "]}]", COLUMN, at)?;
    Ok(())
}

/// A file whose sections before this place are good, that has this list in the section there, and no arrays in those after it.
/// The last section stands first in the file.
fn with_list(alloc: Global, at: usize, list: &str) -> Result<String, NoMemory> {
    let mut file = String::from_str(alloc, "version = 1\n")?;
    for (place, section) in SECTIONS.iter().enumerate() {
        let (rest, name, good) = (file.as_str(), section.name, section.good);
        let value = if place < at { good } else { "1" };
        let value = if place == at { list } else { value };
        file = format!(in alloc; "{name} = {value}\n{rest}")?;
    }
    Ok(file)
}

#[test]
fn sections_are_judged_in_their_order(rt: HostRuntime) -> Result<(), Fail> {
    let alloc = rt.alloc();
    for (place, section) in SECTIONS.iter().enumerate() {
        let name = section.name;
        let file = with_list(alloc, place, "1")?;
        let wanted = format!(in alloc; "3 {name}")?;
        assert_eq!(rt; answer(alloc, file.as_bytes())?.as_str(), wanted.as_str());
        let file = with_list(alloc, place, section.bad)?;
        assert_eq!(rt;
            answer(alloc, file.as_bytes())?.as_str(),
            section.answer,
            "{name}"
        );
    }
    Ok(())
}

#[test]
fn entries_are_judged_in_their_order_and_unlisted_keys_first(rt: HostRuntime) -> Result<(), Fail> {
    let alloc = rt.alloc();
    for (place, section) in SECTIONS.iter().enumerate() {
        let name = section.name;
        let first = first_needed(section.fields, 0).unwrap_or("");
        let file = with_list(alloc, place, "[{}, 1]")?;
        let wanted = format!(in alloc; "2 {name}[0].{first}")?;
        assert_eq!(rt; answer(alloc, file.as_bytes())?.as_str(), wanted.as_str());
        let file = with_list(alloc, place, "[1, {}]")?;
        let wanted = format!(in alloc; "3 {name}[0]")?;
        assert_eq!(rt; answer(alloc, file.as_bytes())?.as_str(), wanted.as_str());
        let file = with_list(alloc, place, "[{zz=1, z=1, ZZ=1}]")?;
        let wanted = format!(in alloc; "8 {name}[0].ZZ")?;
        assert_eq!(rt; answer(alloc, file.as_bytes())?.as_str(), wanted.as_str());
    }
    Ok(())
}
