// The limits: as many as are allowed, and one more.
use crate::tests::{FULL, answer, changed};
use sds_base::NoMemory;
use std::alloc::Global;
use std::test::Fail;

/// A section at its limit: its name, how many entries it may have, and what they are: in the entry of a number, from 0, `<q>`
/// is the number divided by `by`, and `<r>` what remains.
struct Limit<'a> {
    section: &'a str,
    most: u32,
    by: u32,
    entry: &'a str,
}

const LIMITS: [Limit<'static>; 9] = [
    Limit {
        section: "group",
        most: 32,
        by: 2_000,
        entry: r#"{id="g<r>"}"#,
    },
    Limit {
        section: "link",
        most: 64,
        by: 8,
        entry: r#"{source="g<q>", target="g<r>", action="P"}"#,
    },
    Limit {
        section: "channel",
        most: 32,
        by: 2_000,
        entry: r#"{id="c<r>", processing_order=<r>, max_batch_size=1, max_batch_to_send=1, batch_algorithm="default"}"#,
    },
    Limit {
        section: "table",
        most: 64,
        by: 2_000,
        entry: r#"{id="t<r>", columns=["id INTEGER KEY"]}"#,
    },
    Limit {
        section: "trigger",
        most: 64,
        by: 2_000,
        entry: r#"{id="a<r>", source_table="t<r>", channel="c31"}"#,
    },
    Limit {
        section: "router",
        most: 256,
        by: 2_000,
        entry: r#"{id="r<r>", source_group="g0", target_group="g7", type="default"}"#,
    },
    Limit {
        section: "trigger_router",
        most: 1_024,
        by: 64,
        entry: r#"{trigger="a<r>", router="r<q>"}"#,
    },
    Limit {
        section: "transform",
        most: 256,
        by: 2_000,
        entry: r#"{id="m<r>", source_group="g0", target_group="g7", point="LOAD", source_table="t0", target_table="t63"}"#,
    },
    Limit {
        section: "conflict",
        most: 256,
        by: 64,
        entry: r#"{source_group="g0", target_group="g<q>", target_table="t<r>", detect_type="USE_PK_DATA", resolve_type="FALLBACK"}"#,
    },
];

/// The template with the number in place of each mark.
fn filled(alloc: Global, template: &str, mark: &str, number: u32) -> Result<String, NoMemory> {
    let mut text = String::new(alloc);
    for (place, piece) in template.split(mark).enumerate() {
        if place > 0 {
            text.push_str(format!(in alloc; "{number}")?.as_str())?;
        }
        text.push_str(piece)?;
    }
    Ok(text)
}

/// So many entries, with commas after each.
fn entries(alloc: Global, template: &str, count: u32, by: u32) -> Result<String, NoMemory> {
    let mut text = String::new(alloc);
    for number in 0..count {
        let entry = filled(alloc, template, "<q>", number.checked_div(by).unwrap_or(0))?;
        let entry = filled(
            alloc,
            entry.as_str(),
            "<r>",
            number.checked_rem(by).unwrap_or(0),
        )?;
        text.push_str(entry.as_str())?;
        text.push_str(",")?;
    }
    Ok(text)
}

/// A file in which each section is at its limit, but for one that has one entry more.
fn crowded(alloc: Global, over: &str) -> Result<String, NoMemory> {
    let mut file = String::from_str(alloc, "version = 1\n")?;
    for limit in &LIMITS {
        let section = limit.section;
        let count = if section == over {
            limit.most.saturating_add(1)
        } else {
            limit.most
        };
        let list = entries(alloc, limit.entry, count, limit.by)?;
        let list = list.as_str();
        file.push_str(format!(in alloc; "{section} = [{list}]\n")?.as_str())?;
    }
    Ok(file)
}

#[test]
fn a_section_may_be_full_and_no_fuller(rt: HostRuntime) -> Result<(), Fail> {
    let alloc = rt.alloc();
    let file = crowded(alloc, "")?;
    assert_eq!(rt; answer(alloc, file.as_bytes())?.as_str(), "ok");
    for limit in &LIMITS {
        let section = limit.section;
        let file = crowded(alloc, section)?;
        let wanted = format!(in alloc; "9 {section}")?;
        assert_eq!(rt; answer(alloc, file.as_bytes())?.as_str(), wanted.as_str());
    }
    Ok(())
}

/// Too many entries are refused before any of them is looked at.
#[test]
fn too_many_entries_are_not_looked_at(rt: HostRuntime) -> Result<(), Fail> {
    let alloc = rt.alloc();
    let mut before = String::from_str(alloc, "version = 1\n")?;
    for limit in &LIMITS {
        let section = limit.section;
        let list = entries(alloc, "7", limit.most.saturating_add(1), 1)?;
        let list = list.as_str();
        let front = before.as_str();
        let file = format!(in alloc; "{front}{section} = [{list}]\n")?;
        let wanted = format!(in alloc; "9 {section}")?;
        assert_eq!(rt; answer(alloc, file.as_bytes())?.as_str(), wanted.as_str());
        let list = entries(alloc, limit.entry, limit.most, limit.by)?;
        let list = list.as_str();
        before.push_str(format!(in alloc; "{section} = [{list}]\n")?.as_str())?;
    }
    Ok(())
}

/// Lists within an entry: the section, the text that the list stands in place of, what stands before it, an item, what stands
/// after it, how many items there are, and the answer.
const LISTS: &[(&str, &str, &str, &str, &str, u32, &str)] = &[
    // The columns of a table.
    (
        "table",
        "[",
        "[{id=\"t\", columns=[",
        "\"c<r> INTEGER KEY\"",
        "]}, ",
        64,
        "ok",
    ),
    (
        "table",
        "[",
        "[{id=\"t\", columns=[",
        "\"c<r> INTEGER KEY\"",
        "]}, ",
        65,
        "9 table[0]",
    ),
    (
        "table",
        "[",
        "[{id=\"t\", columns=[",
        "\"c<r> INTEGER\"",
        "]}, ",
        65,
        "8 table[0]",
    ),
    (
        "table",
        "[",
        "[{id=\"t\", columns=[",
        "\"c INTEGER KEY\"",
        "]}, ",
        65,
        "8 table[0]",
    ),
    (
        "table",
        "[",
        "[{id=\"t\", columns=[",
        "\"c<r> NUMBER KEY\"",
        "]}, ",
        65,
        "8 table[0]",
    ),
    (
        "table",
        "[",
        "[{id=\"t\", columns=[",
        "\"c<r> VARBINARY(247) KEY\"",
        "]}, ",
        65,
        "8 table[0]",
    ),
    (
        "table",
        "[",
        "[{id=\"t\", columns=[",
        "\"c<r> VARBINARY(246) KEY\"",
        "]}, ",
        65,
        "9 table[0]",
    ),
    (
        "table",
        "[",
        "[{id=\"t\", columns=[",
        "\"c<r> VARBINARY(250) KEY\"",
        "]}, ",
        64,
        "ok",
    ),
    (
        "table",
        "[",
        "[{id=\"t\", columns=[",
        "\"c<r> INTEGER KEY REF nix\"",
        "]}, ",
        65,
        "8 table[0]",
    ),
    (
        "table",
        "[",
        "[{id=\"t\", columns=[",
        "7",
        "]}, ",
        65,
        "3 table[0].columns",
    ),
    // The columns of a transform.
    (
        "transform",
        "]}",
        ", ",
        "{target=\"price\", type=\"copy\", include_on=\"\"}",
        "]}",
        63,
        "8 transform[0]",
    ),
    (
        "transform",
        "]}",
        ", ",
        "{target=\"price\", type=\"copy\", include_on=\"\"}",
        "]}",
        64,
        "9 transform.column",
    ),
    (
        "transform",
        "]}",
        ", ",
        "7",
        "]}",
        63,
        "3 transform[0].column[1]",
    ),
    ("transform", "]}", ", ", "7", "]}", 64, "9 transform.column"),
];

#[test]
fn lists_within_an_entry_have_limits(rt: HostRuntime) -> Result<(), Fail> {
    let alloc = rt.alloc();
    for (section, old, before, item, behind, count, wanted) in LISTS {
        let list = entries(alloc, item, *count, 2_000)?;
        let list = list.as_str();
        let new = format!(in alloc; "{before}{list}{behind}")?;
        let file = changed(alloc, &rt, FULL, section, old, new.as_str())?;
        let got = answer(alloc, file.as_bytes())?;
        assert_eq!(rt; got.as_str(), *wanted, "{count} times {item}");
    }
    Ok(())
}

/// A transform at EXTRACT with so many columns.
fn extracting(alloc: Global, column: &str, count: u32, back: &str) -> Result<String, NoMemory> {
    let list = entries(alloc, column, count, 2_000)?;
    let list = list.as_str();
    Ok(format!(in alloc;
        "version = 1\ngroup = [{{id=\"g\"}}]\nlink = [{{source=\"g\", target=\"g\", action=\"P\"}}]\ntable = [{{id=\"t\", columns=[\"id INTEGER KEY\"]}}]\ntransform = [{{id=\"m\", source_group=\"g\", target_group=\"g\", point=\"EXTRACT\", source_table=\"t\", target_table=\"any\", column=[{list}]{back}}}]\n"
    )?)
}

#[test]
fn a_transform_has_at_most_so_many_columns_and_keys(rt: HostRuntime) -> Result<(), Fail> {
    let alloc = rt.alloc();
    let key = r#"{target="c<r>", source="id", pk=true, type="copy"}"#;
    let implied = ", column_policy=\"IMPLIED\"";
    for (column, count, back, wanted) in [
        (key, 32, "", "ok"),
        (key, 33, "", "8 transform[0]"),
        (key, 64, "", "8 transform[0]"),
        (key, 65, "", "9 transform.column"),
        (r#"{target="c<r>", type="const"}"#, 64, implied, "ok"),
        (
            r#"{target="c<r>", type="const"}"#,
            65,
            implied,
            "9 transform.column",
        ),
        (
            r#"{target="c<r>", type="const"}"#,
            65,
            ", point2=1",
            "8 transform[0].point2",
        ),
    ] {
        let file = extracting(alloc, column, count, back)?;
        assert_eq!(rt;
            answer(alloc, file.as_bytes())?.as_str(),
            wanted,
            "{count} times {column}"
        );
    }
    Ok(())
}

/// Transforms of a table with 64 key columns: the point, the policy, columns in front, how many columns in place of key columns
/// follow them, and the answer.
const FOR_KEYS: &[(&str, &str, &str, u32, &str)] = &[
    ("EXTRACT", "IMPLIED", "", 61, "ok"),
    ("EXTRACT", "IMPLIED", "", 62, "8 transform[0]"),
    ("EXTRACT", "IMPLIED", "", 64, "8 transform[0]"),
    // A key of the made row is for a key wherever it stands.
    (
        "EXTRACT",
        "IMPLIED",
        r#"{target="own", pk=true, type="const"}, "#,
        60,
        "ok",
    ),
    (
        "EXTRACT",
        "IMPLIED",
        r#"{target="own", pk=true, type="const"}, "#,
        61,
        "8 transform[0]",
    ),
    // What is no key doesn't count.
    (
        "EXTRACT",
        "IMPLIED",
        r#"{target="a", type="const"}, {target="b", type="const"}, {target="d", type="const"}, "#,
        61,
        "ok",
    ),
    // Each column counts, also two of one target.
    (
        "EXTRACT",
        "IMPLIED",
        r#"{target="c63", type="const", include_on="I"}, {target="c63", type="remove", include_on="U"}, "#,
        59,
        "ok",
    ),
    (
        "EXTRACT",
        "IMPLIED",
        r#"{target="c63", type="const", include_on="I"}, {target="c63", type="remove", include_on="U"}, "#,
        60,
        "8 transform[0]",
    ),
    // Another policy and another point have no such limit.
    (
        "EXTRACT",
        "SPECIFIED",
        r#"{target="own", pk=true, type="const"}, "#,
        63,
        "ok",
    ),
    ("LOAD", "IMPLIED", "", 64, "ok"),
    ("LOAD", "SPECIFIED", "", 64, "ok"),
];

/// A file with such a transform.
fn replacing(
    alloc: Global,
    point: &str,
    policy: &str,
    front: &str,
    count: u32,
) -> Result<String, NoMemory> {
    let keys = entries(alloc, r#""c<r> INTEGER KEY""#, 64, 2_000)?;
    let columns = entries(alloc, r#"{target="c<r>", type="const"}"#, count, 2_000)?;
    let keys = keys.as_str();
    let columns = columns.as_str();
    Ok(format!(in alloc;
        "version = 1\ngroup = [{{id=\"g\"}}]\nlink = [{{source=\"g\", target=\"g\", action=\"P\"}}]\ntable = [{{id=\"t\", columns=[{keys}]}}]\ntransform = [{{id=\"m\", source_group=\"g\", target_group=\"g\", point=\"{point}\", source_table=\"t\", target_table=\"t\", column_policy=\"{policy}\", column=[{front}{columns}]}}]\n"
    )?)
}

#[test]
fn a_batchs_transform_has_few_columns_for_keys(rt: HostRuntime) -> Result<(), Fail> {
    let alloc = rt.alloc();
    for (point, policy, front, count, wanted) in FOR_KEYS {
        let file = replacing(alloc, point, policy, front, *count)?;
        assert_eq!(rt;
            answer(alloc, file.as_bytes())?.as_str(),
            *wanted,
            "{point} {policy} {front}{count}"
        );
    }
    Ok(())
}

#[test]
fn a_columns_expression_has_at_most_two_thousand_characters(rt: HostRuntime) -> Result<(), Fail> {
    let alloc = rt.alloc();
    for (kind, front, character, count, wanted) in [
        ("const", "", "x", 2_000, "ok"),
        ("const", "", "x", 2_001, "8 transform[0]"),
        ("const", "", "ä", 2_000, "ok"),
        ("const", "", "ä", 2_001, "8 transform[0]"),
        ("copy", "", "x", 2_000, "ok"),
        ("copy", "", "x", 2_001, "8 transform[0]"),
        ("valueMap", "=", "x", 1_999, "ok"),
        ("valueMap", "=", "x", 2_000, "8 transform[0]"),
    ] {
        let text = character.repeat(alloc, count)?;
        let text = text.as_str();
        let column = format!(in alloc;
            "{{target=\"c\", pk=true, type=\"{kind}\", expression=\"{front}{text}\"}}"
        )?;
        let file = extracting(alloc, column.as_str(), 1, "")?;
        assert_eq!(rt;
            answer(alloc, file.as_bytes())?.as_str(),
            wanted,
            "{count} of {kind}"
        );
    }
    Ok(())
}
