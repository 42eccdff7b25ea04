// Tests of texts and values, of names, of the order, and of exact comparisons and copies.
use crate::{
    Binary, ColumnDef, DocRow, Event, Field, Kind, List, Peer, TableDef, Txt, Value, ValueRefusal,
    base64_reads_what_it_prints, is_name, order_is_total, printed_reads_back, read_value_fits,
    text_reads_as_one_value, too_long_reads_under_more,
};
use sds_base::{NoMemory, Same, Twin};
use std::alloc::Global;
use std::process::Abort;
use std::test::Fail;

const FIFTY: &str = "aaaaaaaaaabbbbbbbbbbccccccccccddddddddddeeeeeeeeee";

/// A value by its number or numbers, its text or its bytes.
fn shown(alloc: Global, value: &Value) -> Result<String, NoMemory> {
    match value {
        Value::Null => Ok(String::new(alloc)),
        Value::Integer(number) => Ok(number.to_string(alloc)?),
        Value::Decimal(units) => Ok(units.to_string(alloc)?),
        Value::Text(text) => Ok(String::from_str(alloc, text.as_str())?),
        Value::Stamp { day, nano } => Ok(format!(in alloc; "{day} {nano}")?),
        Value::Bin(bytes) => {
            let bytes = bytes.inner().as_slice();
            Ok(format!(in alloc; "{bytes:?}")?)
        }
    }
}

/// What a text reads as and its printed text, with a `>` between them, or the name of the refusal.
fn outcome(alloc: Global, kind: Kind, form: Binary, text: &str) -> Result<Vec<u8>, NoMemory> {
    let mut out = Vec::new(alloc);
    match Value::read(alloc, kind, text, form) {
        Ok(value) => {
            out.extend_from_slice(shown(alloc, &value)?.as_bytes())?;
            out.push(b'>')?;
            value.put(kind, form, &mut out)?;
        }
        Err(refusal) => {
            let name = format!(in alloc; "{refusal:?}")?;
            out.extend_from_slice(name.as_bytes())?;
        }
    }
    Ok(out)
}

// The values and printed texts of numbers are those of python's int and decimal, days and times those of its datetime, and
// bytes those of its base64 and binascii. The refusals of texts of another form are by hand.
const CASES: [(Kind, Binary, &[(&str, &str)]); 11] = [
    (
        Kind::Integer,
        Binary::Plain,
        &[
            ("0", "0>0"),
            ("-0", "0>0"),
            ("+0", "0>0"),
            ("+007", "7>7"),
            ("-010", "-10>-10"),
            (
                "9223372036854775807",
                "9223372036854775807>9223372036854775807",
            ),
            (
                "-9223372036854775808",
                "-9223372036854775808>-9223372036854775808",
            ),
            ("0000000000000000000000000000000000000042", "42>42"),
            ("9223372036854775808", "OutOfRange"),
            ("-9223372036854775809", "OutOfRange"),
            ("1000000000000000000000000000000000000000", "OutOfRange"),
        ],
    ),
    (
        Kind::Integer,
        Binary::Base64,
        &[
            ("1000000000000000000000000000000000000000x", "BadText"),
            ("", "BadText"),
            ("-", "BadText"),
            ("+", "BadText"),
            ("+-1", "BadText"),
            ("--1", "BadText"),
            (" 1", "BadText"),
            ("1 ", "BadText"),
            ("1.0", "BadText"),
            ("1x", "BadText"),
            ("0x1", "BadText"),
            ("1_000", "BadText"),
            ("\u{661}", "BadText"),
        ],
    ),
    (
        Kind::Decimal(2),
        Binary::Plain,
        &[
            ("-0.05", "-5>-0.05"),
            ("1.5", "150>1.50"),
            ("1.50", "150>1.50"),
            ("1.5000", "150>1.50"),
            ("1", "100>1.00"),
            ("-1", "-100>-1.00"),
            ("-0", "0>0.00"),
            ("-0.00", "0>0.00"),
            ("+007", "700>7.00"),
            ("+007.1", "710>7.10"),
            ("0.10", "10>0.10"),
            (
                "92233720368547758.07",
                "9223372036854775807>92233720368547758.07",
            ),
            (
                "92233720368547758.0700",
                "9223372036854775807>92233720368547758.07",
            ),
            ("92233720368547758.08", "OutOfRange"),
            (
                "-92233720368547758.08",
                "-9223372036854775808>-92233720368547758.08",
            ),
            ("-92233720368547758.09", "OutOfRange"),
            ("184467440737095516.16", "OutOfRange"),
            ("-184467440737095516.16", "OutOfRange"),
            ("99999999999999999999999", "OutOfRange"),
            ("0000000000000000000000000000001.25", "125>1.25"),
            ("1.005", "BadText"),
            ("1.", "BadText"),
            (".5", "BadText"),
            ("-.5", "BadText"),
            ("1..5", "BadText"),
            ("1.5.", "BadText"),
            ("1.-5", "BadText"),
            ("1,5", "BadText"),
            ("", "BadText"),
            ("-", "BadText"),
            ("+", "BadText"),
            (".", "BadText"),
            ("1e2", "BadText"),
            (" 1.5", "BadText"),
            ("1.5 ", "BadText"),
            ("92233720368547758.071", "BadText"),
            ("99999999999999999999999.001", "BadText"),
            ("1.\u{665}", "BadText"),
        ],
    ),
    (
        Kind::Decimal(0),
        Binary::Plain,
        &[
            ("0", "0>0"),
            ("-0", "0>0"),
            ("1.0", "1>1"),
            ("12.000", "12>12"),
            (
                "9223372036854775807",
                "9223372036854775807>9223372036854775807",
            ),
            (
                "9223372036854775807.0",
                "9223372036854775807>9223372036854775807",
            ),
            ("9223372036854775808", "OutOfRange"),
            (
                "-9223372036854775808",
                "-9223372036854775808>-9223372036854775808",
            ),
            ("-9223372036854775809", "OutOfRange"),
            ("1.5", "BadText"),
            ("1.", "BadText"),
            ("1.01", "BadText"),
        ],
    ),
    (
        Kind::Decimal(9),
        Binary::Plain,
        &[
            ("1.123456789", "1123456789>1.123456789"),
            ("0.1234567890", "123456789>0.123456789"),
            (
                "9223372036.854775807",
                "9223372036854775807>9223372036.854775807",
            ),
            ("9223372036.854775808", "OutOfRange"),
            (
                "-9223372036.854775808",
                "-9223372036854775808>-9223372036.854775808",
            ),
            ("-9223372036.854775809", "OutOfRange"),
            ("-0.000000001", "-1>-0.000000001"),
            ("1", "1000000000>1.000000000"),
            ("9223372037", "OutOfRange"),
            ("0.0000000001", "BadText"),
            ("1.1234567891", "BadText"),
        ],
    ),
    (
        Kind::Varchar(3),
        Binary::Plain,
        &[
            ("abc", "abc>abc"),
            ("", ">"),
            (" a ", " a > a "),
            (
                "\u{1f600}\u{1f601}\u{1f602}",
                "\u{1f600}\u{1f601}\u{1f602}>\u{1f600}\u{1f601}\u{1f602}",
            ),
            ("\u{1}\n\u{7f}", "\u{1}\n\u{7f}>\u{1}\n\u{7f}"),
            ("a\u{e9}\u{20ac}", "a\u{e9}\u{20ac}>a\u{e9}\u{20ac}"),
            (
                "\u{10348}\u{20ac}\u{e9}",
                "\u{10348}\u{20ac}\u{e9}>\u{10348}\u{20ac}\u{e9}",
            ),
            ("1.0", "1.0>1.0"),
            ("abcd", "TooLong"),
            ("\u{e9}\u{e9}\u{e9}\u{e9}", "TooLong"),
            ("a\u{e9}\u{20ac}\u{10348}", "TooLong"),
            ("\u{1f600}\u{1f600}\u{1f600}\u{1f600}", "TooLong"),
            ("a\0", "BadText"),
            ("\0", "BadText"),
            ("abcd\0", "BadText"),
            ("\0bcde", "BadText"),
        ],
    ),
    (
        Kind::Varchar(1),
        Binary::Base64,
        &[("\u{1f600}", "\u{1f600}>\u{1f600}"), ("ab", "TooLong")],
    ),
    (
        Kind::Timestamp,
        Binary::Plain,
        &[
            (
                "2024-02-29 12:00:00.5",
                "19782 43200500000000>2024-02-29 12:00:00.500",
            ),
            (
                "2024-02-29T12:00:00",
                "19782 43200000000000>2024-02-29 12:00:00.000",
            ),
            ("1970-01-01 00:00:00", "0 0>1970-01-01 00:00:00.000"),
            (
                "1969-12-31 23:59:59.999",
                "-1 86399999000000>1969-12-31 23:59:59.999",
            ),
            ("0001-01-01 00:00:00", "-719162 0>0001-01-01 00:00:00.000"),
            (
                "9999-12-31 23:59:59.999999999",
                "2932896 86399999999999>9999-12-31 23:59:59.999999999",
            ),
            (
                "2024-06-30 09:08:07.01",
                "19904 32887010000000>2024-06-30 09:08:07.010",
            ),
            (
                "2023-07-04 01:02:03.1",
                "19542 3723100000000>2023-07-04 01:02:03.100",
            ),
            (
                "2023-07-04 01:02:03.12",
                "19542 3723120000000>2023-07-04 01:02:03.120",
            ),
            (
                "2023-07-04 01:02:03.123",
                "19542 3723123000000>2023-07-04 01:02:03.123",
            ),
            (
                "2023-07-04 01:02:03.1234",
                "19542 3723123400000>2023-07-04 01:02:03.123400",
            ),
            (
                "2023-07-04 01:02:03.12345",
                "19542 3723123450000>2023-07-04 01:02:03.123450",
            ),
            (
                "2023-07-04 01:02:03.123456",
                "19542 3723123456000>2023-07-04 01:02:03.123456",
            ),
            (
                "2023-07-04 01:02:03.1234567",
                "19542 3723123456700>2023-07-04 01:02:03.123456700",
            ),
            (
                "2023-07-04 01:02:03.12345678",
                "19542 3723123456780>2023-07-04 01:02:03.123456780",
            ),
            (
                "2023-07-04 01:02:03.123456789",
                "19542 3723123456789>2023-07-04 01:02:03.123456789",
            ),
            (
                "2023-07-04 01:02:03.100000000",
                "19542 3723100000000>2023-07-04 01:02:03.100",
            ),
            (
                "2023-07-04 01:02:03.000000001",
                "19542 3723000000001>2023-07-04 01:02:03.000000001",
            ),
            (
                "2023-07-04 01:02:03.000000000",
                "19542 3723000000000>2023-07-04 01:02:03.000",
            ),
            (
                "2023-07-04 01:02:03.000001000",
                "19542 3723000001000>2023-07-04 01:02:03.000001",
            ),
            (
                "2023-07-04 01:02:03.001000000",
                "19542 3723001000000>2023-07-04 01:02:03.001",
            ),
            ("1900-02-28 00:00:00", "-25509 0>1900-02-28 00:00:00.000"),
            ("1900-02-29 00:00:00", "BadText"),
            ("1900-02-30 00:00:00", "BadText"),
            ("1900-02-31 00:00:00", "BadText"),
            ("1900-12-28 00:00:00", "-25206 0>1900-12-28 00:00:00.000"),
            ("1900-12-29 00:00:00", "-25205 0>1900-12-29 00:00:00.000"),
            ("1900-12-30 00:00:00", "-25204 0>1900-12-30 00:00:00.000"),
            ("1900-12-31 00:00:00", "-25203 0>1900-12-31 00:00:00.000"),
            ("2000-02-28 00:00:00", "11015 0>2000-02-28 00:00:00.000"),
            ("2000-02-29 00:00:00", "11016 0>2000-02-29 00:00:00.000"),
            ("2000-02-30 00:00:00", "BadText"),
            ("2000-02-31 00:00:00", "BadText"),
            ("2000-12-28 00:00:00", "11319 0>2000-12-28 00:00:00.000"),
            ("2000-12-29 00:00:00", "11320 0>2000-12-29 00:00:00.000"),
            ("2000-12-30 00:00:00", "11321 0>2000-12-30 00:00:00.000"),
            ("2000-12-31 00:00:00", "11322 0>2000-12-31 00:00:00.000"),
            ("2023-02-28 00:00:00", "19416 0>2023-02-28 00:00:00.000"),
            ("2023-02-29 00:00:00", "BadText"),
            ("2023-02-30 00:00:00", "BadText"),
            ("2023-02-31 00:00:00", "BadText"),
            ("2023-12-28 00:00:00", "19719 0>2023-12-28 00:00:00.000"),
            ("2023-12-29 00:00:00", "19720 0>2023-12-29 00:00:00.000"),
            ("2023-12-30 00:00:00", "19721 0>2023-12-30 00:00:00.000"),
            ("2023-12-31 00:00:00", "19722 0>2023-12-31 00:00:00.000"),
            ("2024-02-28 00:00:00", "19781 0>2024-02-28 00:00:00.000"),
            ("2024-02-29 00:00:00", "19782 0>2024-02-29 00:00:00.000"),
            ("2024-02-30 00:00:00", "BadText"),
            ("2024-02-31 00:00:00", "BadText"),
            ("2024-12-28 00:00:00", "20085 0>2024-12-28 00:00:00.000"),
            ("2024-12-29 00:00:00", "20086 0>2024-12-29 00:00:00.000"),
            ("2024-12-30 00:00:00", "20087 0>2024-12-30 00:00:00.000"),
            ("2024-12-31 00:00:00", "20088 0>2024-12-31 00:00:00.000"),
            ("0000-01-01 00:00:00", "OutOfRange"),
            ("0000-02-29 00:00:00", "OutOfRange"),
            ("0000-12-31 23:59:59.999999999", "OutOfRange"),
            ("0000-02-30 00:00:00", "BadText"),
            ("0000-01-01 24:00:00", "BadText"),
            ("10000-01-01 00:00:00", "BadText"),
            ("-0001-01-01 00:00:00", "BadText"),
            ("2023-07-04 01:02:03.1234567890", "BadText"),
            ("2023-07-04 01:02:03.", "BadText"),
            ("2023-07-04 01:02:03,5", "BadText"),
            ("2023-07-04t01:02:03", "BadText"),
            ("2023-07-04  01:02:03", "BadText"),
            ("2023-07-04", "BadText"),
            ("2023-07-04 01:02", "BadText"),
            ("2023-7-04 01:02:03", "BadText"),
            ("2023-07-04 1:02:03", "BadText"),
            ("2023-07-04 24:00:00", "BadText"),
            ("2023-07-04 23:60:00", "BadText"),
            ("2023-07-04 23:59:60", "BadText"),
            ("2023-00-04 01:02:03", "BadText"),
            ("2023-13-04 01:02:03", "BadText"),
            ("2023-07-00 01:02:03", "BadText"),
            ("2023-07-32 01:02:03", "BadText"),
            ("2023-06-31 01:02:03", "BadText"),
            ("2023-07-04 01:02:03Z", "BadText"),
            ("2023-07-04 01:02:03.5+00:00", "BadText"),
            (" 2023-07-04 01:02:03", "BadText"),
            ("2023/07/04 01:02:03", "BadText"),
            ("", "BadText"),
            ("\u{662}023-07-04 01:02:03", "BadText"),
            ("2023-07-04 01:02:03.\u{665}", "BadText"),
        ],
    ),
    (
        Kind::Varbinary(3),
        Binary::Base64,
        &[
            ("", "[]>"),
            ("aA==", "[104]>aA=="),
            ("aGk=", "[104, 105]>aGk="),
            ("aGkK", "[104, 105, 10]>aGkK"),
            ("AA==", "[0]>AA=="),
            ("/+4=", "[255, 238]>/+4="),
            ("+/+/", "[251, 255, 191]>+/+/"),
            ("aGkKaA==", "TooLong"),
            ("aGkKaGkK", "TooLong"),
            ("aA", "BadText"),
            ("aA=", "BadText"),
            ("aGk", "BadText"),
            ("aGkKaA", "BadText"),
            ("aB==", "BadText"),
            ("aGl=", "BadText"),
            ("_-4=", "BadText"),
            ("aG kK", "BadText"),
            ("aGkK\n", "BadText"),
            (" aGkK", "BadText"),
            ("=", "BadText"),
            ("====", "BadText"),
            ("aGkK=", "BadText"),
            ("a===", "BadText"),
            ("\u{e9}", "BadText"),
        ],
    ),
    (
        Kind::Varbinary(3),
        Binary::Hex,
        &[
            ("", "[]>"),
            ("68690a", "[104, 105, 10]>68690a"),
            ("68690A", "[104, 105, 10]>68690a"),
            ("6869", "[104, 105]>6869"),
            ("00ffEE", "[0, 255, 238]>00ffee"),
            ("68690a00", "TooLong"),
            ("0", "BadText"),
            ("686", "BadText"),
            ("6g", "BadText"),
            ("0x68", "BadText"),
            (" 68", "BadText"),
            ("68 ", "BadText"),
            ("\u{e9}", "BadText"),
        ],
    ),
    (
        Kind::Varbinary(3),
        Binary::Plain,
        &[("", "BadText"), ("aGkK", "BadText"), ("68690a", "BadText")],
    ),
];

#[test]
fn texts_read_as_values_or_are_refused(rt: HostRuntime) -> Result<(), Fail> {
    for (kind, form, texts) in &CASES {
        for (text, expected) in *texts {
            let out = outcome(rt.alloc(), *kind, *form, text)?;
            assert_eq!(rt; out.as_slice(), expected.as_bytes(), "{kind:?} {text}");
        }
    }
    Ok(())
}

#[test]
fn refusals_have_messages(rt: HostRuntime) -> Result<(), Fail> {
    let message = format!(in rt.alloc(); "{}", ValueRefusal::TooLong)?;
    assert_eq!(rt; message.as_str(), "the text is longer than the kind allows");
    Ok(())
}

#[test]
fn names_have_one_to_fifty_characters(rt: HostRuntime) -> Result<(), Fail> {
    for (text, is) in [
        ("a", true),
        ("-", true),
        ("Node_1-B", true),
        ("azAZ09_-", true),
        (FIFTY, true),
        ("", false),
        ("a b", false),
        ("a.b", false),
        ("a/b", false),
        ("a:", false),
        ("@a", false),
        ("[a]", false),
        ("`a`", false),
        ("{a}", false),
        ("a\0", false),
        ("caf\u{e9}", false),
    ] {
        assert_eq!(rt; is_name(text), is, "{text}");
    }
    let long = format!(in rt.alloc(); "{FIFTY}f")?;
    assert!(rt; !is_name(&long));
    Ok(())
}

/// Each value compares as below those behind it, above those before it, and as equal to itself.
fn ascends(rt: &impl Abort, values: &[Value]) {
    for (i, a) in values.iter().enumerate() {
        for (j, b) in values.iter().enumerate() {
            assert_eq!(rt; a.order(b), i.cmp(&j), "{a:?} and {b:?}");
        }
    }
}

const NUMBERS: [i64; 7] = [-9223372036854775808, -10, -9, 0, 9, 10, 9223372036854775807];

fn integers(alloc: Global) -> Result<Vec<Value>, NoMemory> {
    let mut values = Vec::new(alloc);
    values.push(Value::Null)?;
    for number in NUMBERS {
        values.push(Value::Integer(number))?;
    }
    Ok(values)
}

fn decimals(alloc: Global) -> Result<Vec<Value>, NoMemory> {
    let mut values = Vec::new(alloc);
    values.push(Value::Null)?;
    for number in NUMBERS {
        values.push(Value::Decimal(number))?;
    }
    Ok(values)
}

/// U+FFFF is below U+10000 in UTF-8, and above it in UTF-16.
fn texts(alloc: Global) -> Result<Vec<Value>, NoMemory> {
    let mut values = Vec::new(alloc);
    values.push(Value::Null)?;
    for text in ["", "A", "AB", "B", "a", "\u{e9}", "\u{ffff}", "\u{10000}"] {
        values.push(Value::Text(Txt::copied(alloc, text)?))?;
    }
    Ok(values)
}

fn stamps(alloc: Global) -> Result<Vec<Value>, NoMemory> {
    let mut values = Vec::new(alloc);
    values.push(Value::Null)?;
    for (day, nano) in [(-719162, 0), (-1, 86399999999999), (0, 0), (0, 1), (1, 0)] {
        values.push(Value::Stamp { day, nano })?;
    }
    Ok(values)
}

fn bytes(alloc: Global) -> Result<Vec<Value>, NoMemory> {
    let mut values = Vec::new(alloc);
    values.push(Value::Null)?;
    for list in ["", "\0", "\0\0", "\u{1}", "\u{7f}", "\u{80}"] {
        values.push(Value::Bin(List::of(list.as_bytes().to_vec(alloc)?)))?;
    }
    Ok(values)
}

#[test]
fn values_of_a_kind_are_ordered(rt: HostRuntime) -> Result<(), Fail> {
    ascends(&rt, &integers(rt.alloc())?);
    ascends(&rt, &decimals(rt.alloc())?);
    ascends(&rt, &texts(rt.alloc())?);
    ascends(&rt, &stamps(rt.alloc())?);
    ascends(&rt, &bytes(rt.alloc())?);
    Ok(())
}

fn names(alloc: Global, texts: &[&str]) -> Result<List<Txt>, NoMemory> {
    let mut list = List::new(alloc);
    for text in texts {
        list.push(Txt::copied(alloc, text)?)?;
    }
    Ok(list)
}

fn fields(alloc: Global, texts: &[&str]) -> Result<List<Field>, NoMemory> {
    let mut list = List::new(alloc);
    list.push(Field::Null)?;
    for text in texts {
        list.push(Field::Text(Txt::copied(alloc, text)?))?;
    }
    Ok(list)
}

/// An update of a row with one column, and with this old value of it.
fn update(alloc: Global, old: Option<List<Field>>) -> Result<DocRow, NoMemory> {
    Ok(DocRow {
        event: Event::Update,
        table: Txt::copied(alloc, "item")?,
        keys: names(alloc, &["id"])?,
        columns: names(alloc, &["id", "name"])?,
        new: fields(alloc, &["1", "pear"])?,
        key: fields(alloc, &["1"])?,
        old,
    })
}

fn column(alloc: Global, name: &str, parent: Option<u32>) -> Result<ColumnDef, NoMemory> {
    Ok(ColumnDef {
        name: Txt::copied(alloc, name)?,
        kind: Kind::Varchar(3),
        not_null: true,
        parent,
    })
}

fn table(alloc: Global, parent: Option<u32>) -> Result<TableDef, NoMemory> {
    let mut columns = List::new(alloc);
    columns.push(column(alloc, "id", None)?)?;
    columns.push(column(alloc, "of", parent)?)?;
    let mut key = List::new(alloc);
    key.push(0u32)?;
    Ok(TableDef {
        name: Txt::copied(alloc, "item")?,
        columns,
        key,
    })
}

/// A value is the same as its copy, and not as the other.
fn is_told_apart<T: Same + Twin>(alloc: Global, value: &T, other: &T) -> Result<bool, NoMemory> {
    let copy = value.twin(alloc)?;
    Ok(value.same(&copy) && !other.same(&copy))
}

fn peer(alloc: Global, external: &str) -> Result<Peer, NoMemory> {
    Ok(Peer {
        id: Txt::copied(alloc, "001")?,
        group: Txt::copied(alloc, "store")?,
        external: Txt::copied(alloc, external)?,
    })
}

#[test]
fn copies_of_rows_are_the_same_and_others_are_not(rt: HostRuntime) -> Result<(), Fail> {
    let alloc = rt.alloc();
    let old = fields(alloc, &["plum"])?;
    let row = update(alloc, Some(old))?;
    let other = update(alloc, None)?;
    assert!(rt; is_told_apart(alloc, &row, &other)?);
    assert!(rt; !Event::Insert.same(&Event::Delete));
    Ok(())
}

#[test]
fn copies_of_tables_are_the_same_and_others_are_not(rt: HostRuntime) -> Result<(), Fail> {
    let alloc = rt.alloc();
    let child = table(alloc, Some(2))?;
    let other = table(alloc, None)?;
    assert!(rt; is_told_apart(alloc, &child, &other)?);
    assert!(rt; !Kind::Varchar(3).same(&Kind::Varchar(4)));
    Ok(())
}

#[test]
fn copies_of_peers_are_the_same_and_others_are_not(rt: HostRuntime) -> Result<(), Fail> {
    let alloc = rt.alloc();
    let north = peer(alloc, "north")?;
    let south = peer(alloc, "south")?;
    assert!(rt; is_told_apart(alloc, &north, &south)?);
    Ok(())
}

/// A copy of each value is the same as that value, and as no other.
fn copies_differ(rt: &impl Abort, alloc: Global, values: &[Value]) -> Result<(), NoMemory> {
    for (i, a) in values.iter().enumerate() {
        let copy = a.twin(alloc)?;
        for (j, b) in values.iter().enumerate() {
            assert_eq!(rt; copy.same(b), i == j, "{a:?} and {b:?}");
        }
    }
    Ok(())
}

#[test]
fn copies_of_values_are_the_same_and_others_are_not(rt: HostRuntime) -> Result<(), Fail> {
    copies_differ(&rt, rt.alloc(), &integers(rt.alloc())?)?;
    copies_differ(&rt, rt.alloc(), &texts(rt.alloc())?)?;
    copies_differ(&rt, rt.alloc(), &stamps(rt.alloc())?)?;
    copies_differ(&rt, rt.alloc(), &bytes(rt.alloc())?)?;
    Ok(())
}

#[test]
fn the_laws_are_called() {
    printed_reads_back();
    read_value_fits();
    order_is_total();
    text_reads_as_one_value();
    base64_reads_what_it_prints();
    too_long_reads_under_more();
}
