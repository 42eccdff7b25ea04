// What the tests of the configuration share: a configuration with every section, changes of it, and what is answered.
use sds_base::NoMemory;
use sds_config::ReadConfig;
use sds_types::{Config, ConfigRefusal};
use std::alloc::Global;
use std::process::Abort;
use std::test::Fail;

/// A configuration with an entry in each section, each section on a line of its own.
pub const FULL: &str = r#"version = 1
group = [{id="corp"}, {id="store"}]
link = [{source="corp", target="store", action="P"}]
channel = [{id="data", processing_order=1, max_batch_size=10, max_batch_to_send=20, batch_algorithm="default"}]
table = [{id="item", columns=["id INTEGER KEY", "name VARCHAR(40)", "price DECIMAL(2)", "qty INTEGER", "seen TIMESTAMP", "photo VARBINARY(9)"]}, {id="pair", columns=["left INTEGER KEY", "right INTEGER KEY"]}]
trigger = [{id="item", source_table="item", channel="data", sync_on_insert=true, sync_on_update=true, sync_on_delete=true, sync_on_incoming_batch=false}]
router = [{id="down", source_group="corp", target_group="store", type="default", expression=""}]
trigger_router = [{trigger="item", router="down", enabled=true, ping_back_enabled=false}]
transform = [{id="move", source_group="corp", target_group="store", point="LOAD", source_table="item", target_table="item", delete_action="DEL_ROW", column_policy="SPECIFIED", column=[{target="id", source="id", pk=true, include_on="*", type="copy", expression=""}]}]
conflict = [{source_group="corp", target_group="store", target_table="item", detect_type="USE_VERSION", detect_expression="qty", resolve_type="NEWER_WINS", resolve_row_only=true}]
"#;

/// What a file is answered: `ok`, or the refusal's number and path, and then the place of a bad expression.
pub fn answer(alloc: Global, file: &[u8]) -> Result<String, NoMemory> {
    match Config::read(alloc, file) {
        Ok(_) => Ok(String::from_str(alloc, "ok")?),
        Err(ConfigRefusal::NoMemory) => Err(NoMemory),
        Err(refusal) => told(alloc, &refusal),
    }
}

fn told(alloc: Global, refusal: &ConfigRefusal) -> Result<String, NoMemory> {
    let number = refusal.number();
    let Some(path) = refusal.path() else {
        return Ok(format!(in alloc; "{number}")?);
    };
    let path = path.as_str();
    if let ConfigRefusal::BadExpression { place, .. } = refusal {
        return Ok(format!(in alloc; "{number} {path} {place}")?);
    }
    Ok(format!(in alloc; "{number} {path}")?)
}

/// The two parts of a text that the mark divides.
pub fn parted<'a>(
    rt: &impl Abort,
    text: &'a str,
    mark: &str,
) -> Result<(&'a str, &'a str), NoMemory> {
    match text.split_once(mark) {
        Some(parts) => Ok(parts),
        None => {
            assert!(rt; false, "{mark} isn't in {text}");
            Err(NoMemory)
        }
    }
}

/// The file with one text in place of another, where the other stands first after the section's name.
pub fn changed(
    alloc: Global,
    rt: &impl Abort,
    file: &str,
    section: &str,
    old: &str,
    new: &str,
) -> Result<String, NoMemory> {
    let name = format!(in alloc; "\n{section} = ")?;
    let (before, behind) = parted(rt, file, name.as_str())?;
    let (front, back) = parted(rt, behind, old)?;
    Ok(format!(in alloc; "{before}{name}{front}{new}{back}")?)
}

/// Each row is `OLD | NEW | ANSWER`: the file with NEW in place of OLD in that section is answered so.
pub fn expect(
    rt: &impl Abort,
    alloc: Global,
    file: &str,
    section: &str,
    rows: &str,
) -> Result<(), NoMemory> {
    for row in rows.lines() {
        if row.is_empty() {
            continue;
        }
        let (old, rest) = parted(rt, row, " | ")?;
        let (new, wanted) = parted(rt, rest, " | ")?;
        let text = changed(alloc, rt, file, section, old, new)?;
        let got = answer(alloc, text.as_bytes())?;
        assert_eq!(rt; got.as_str(), wanted, "{section}: {old} -> {new}");
    }
    Ok(())
}

/// Each row is `TEXT | ANSWER`: the file with TEXT in place of its mark `<>` is answered so.
pub fn expect_in(rt: &impl Abort, alloc: Global, file: &str, rows: &str) -> Result<(), NoMemory> {
    let (front, back) = parted(rt, file, "<>")?;
    for row in rows.lines() {
        if row.is_empty() {
            continue;
        }
        let (new, wanted) = parted(rt, row, " | ")?;
        let text = format!(in alloc; "{front}{new}{back}")?;
        let got = answer(alloc, text.as_bytes())?;
        assert_eq!(rt; got.as_str(), wanted, "{new}");
    }
    Ok(())
}

/// Each file is answered so.
pub fn expect_files(rt: &impl Abort, alloc: Global, rows: &[(&str, &str)]) -> Result<(), NoMemory> {
    for (file, wanted) in rows {
        let got = answer(alloc, file.as_bytes())?;
        assert_eq!(rt; got.as_str(), *wanted, "{file}");
    }
    Ok(())
}

const TOPS: &[(&str, &str)] = &[
    (FULL, "ok"),
    ("version = 1", "ok"),
    // No TOML.
    ("version", "1"),
    ("version = 1\nversion = 1", "1"),
    ("version = 1\ngroup = [{id=\"a\", id=\"b\"}]", "1"),
    ("version = 1\ngroup = []\n[[group]]\nid=\"a\"", "1"),
    ("version = 9223372036854775808", "1"),
    ("version = -9223372036854775809", "1"),
    ("version = 1\ncolour = 99999999999999999999", "1"),
    ("version = 0x8000000000000000", "1"),
    // The version.
    ("", "2 version"),
    ("# version = 1\n", "2 version"),
    ("group = []", "2 version"),
    ("version = \"1\"", "3 version"),
    ("version = 1.0", "3 version"),
    ("version = [1]", "3 version"),
    ("version = true", "3 version"),
    ("version = 2026-01-01", "3 version"),
    ("version = 2", "8 version"),
    ("version = 0", "8 version"),
    ("version = -1", "8 version"),
    ("version = 9223372036854775807", "8 version"),
    ("version = -9223372036854775808", "8 version"),
    ("version = 0x1", "ok"),
    // Unlisted keys of the top level, the first by bytes.
    ("version = 1\ncolour = 1", "8 colour"),
    ("version = 1\nb = 1\na = 2", "8 a"),
    ("version = 1\na = 1\nZ = 2", "8 Z"),
    ("version = 1\naa = 1\na-b = 2", "8 a-b"),
    ("version = 1\n\"é\" = 1\nz = 2", "8 z"),
    ("version = 1\n\"a b\" = 1", "8 a b"),
    ("version = 1\nGroup = []", "8 Group"),
    ("version = 1\ngroups = []", "8 groups"),
    ("version = 1\n[colour]\nred = 1", "8 colour"),
    // A section that is no array, and an entry that is no table.
    ("version = 1\ngroup = 1", "3 group"),
    ("version = 1\n[group]\nid = \"corp\"", "3 group"),
    ("version = 1\ngroup = \"corp\"", "3 group"),
    ("version = 1\ngroup = [1]", "3 group[0]"),
    ("version = 1\ngroup = [{id=\"a\"}, \"b\"]", "3 group[1]"),
    ("version = 1\ngroup = [[]]", "3 group[0]"),
    // An empty array is as an absent one.
    (
        "version = 1\ngroup = []\nlink = []\nchannel = []\ntable = []\ntrigger = []\nrouter = []\ntrigger_router = []\ntransform = []\nconflict = []",
        "ok",
    ),
];

#[test]
fn the_file_and_its_top_are_judged(rt: HostRuntime) -> Result<(), Fail> {
    let alloc = rt.alloc();
    expect_files(&rt, alloc, TOPS)?;
    assert_eq!(rt; answer(alloc, b"version = 1 # \xff")?.as_str(), "1");
    assert_eq!(rt; answer(alloc, b"\xef\xbb\xbfversion = 1")?.as_str(), "ok");
    assert_eq!(rt; answer(alloc, b"version = 1\n\"\xc3\" = 1")?.as_str(), "1");
    Ok(())
}

/// The file with a comment after it that makes it so long.
fn padded(alloc: Global, file: &str, length: usize) -> Result<Vec<u8>, NoMemory> {
    let mut long = Vec::new(alloc);
    long.extend_from_slice(file.as_bytes())?;
    long.extend_from_slice(b"#")?;
    long.resize(length, b'x')?;
    Ok(long)
}

#[test]
fn a_file_has_at_most_a_mebibyte(rt: HostRuntime) -> Result<(), Fail> {
    let alloc = rt.alloc();
    for (file, length, wanted) in [
        (FULL, 1_048_576, "ok"),
        (FULL, 1_048_577, "9 file"),
        // A file that is too long isn't looked into.
        ("version", 1_048_576, "1"),
        ("version", 1_048_577, "9 file"),
        ("version = 2 ", 1_048_576, "8 version"),
        ("version = 2 ", 1_048_577, "9 file"),
    ] {
        let long = padded(alloc, file, length)?;
        assert_eq!(rt; long.len(), length);
        assert_eq!(rt; answer(alloc, long.as_slice())?.as_str(), wanted, "{file}");
    }
    Ok(())
}

#[test]
fn a_file_that_is_no_toml_is_refused_at_its_place(rt: HostRuntime) {
    let read = Config::read(
        rt.alloc(),
        b"version = 1\n# caf\xc3\xa9\ngroup =".as_slice(),
    );
    assert!(rt; matches!(read, Err(ConfigRefusal::NotToml { line: 3, column: 8 })));
}
