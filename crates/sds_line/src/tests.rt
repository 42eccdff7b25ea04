// Tests of lines read alone, of texts fed whole, byte by byte and cut at every place, and of written lines.
ghost use Rattle.std.specs.Prelude.{◌≡◌, ◌<◌, ◌≤◌, ◌^◌, length, false};
ghost use Rattle.sds_line.specs.Splitting.{reach, is_finished};

use crate::{
    Line, LineRefusal, Lines, lines_are_read_alone, put_fields, read_line, refusals_come_first,
    written_reads_back,
};
use sds_base::Txt;
use sds_value::Field;
use std::alloc::{AllocError, Global};
use std::fmt::Write;
use std::test::Fail;

/// A line's fields, each in angle brackets, a null as `-`.
fn shown(out: &mut String, fields: &[Field]) -> Result<(), AllocError> {
    for field in fields {
        match field {
            Field::Null => out.push('-')?,
            Field::Text(text) => {
                let text = text.as_str();
                write!(out, "<{text}>")?;
            }
        }
    }
    Ok(())
}

fn word(refusal: LineRefusal) -> &'static str {
    match refusal {
        LineRefusal::BareQuote => "BareQuote",
        LineRefusal::OpenQuote => "OpenQuote",
        LineRefusal::BadEscape => "BadEscape",
        LineRefusal::LineTooLong => "LineTooLong",
        LineRefusal::NotUtf8 => "NotUtf8",
        LineRefusal::NoMemory => "NoMemory",
    }
}

/// One line read alone.
fn alone(alloc: Global, bytes: &[u8]) -> Result<String, AllocError> {
    let mut out = String::new(alloc);
    match read_line(alloc, bytes) {
        Ok(fields) => shown(&mut out, fields.inner().as_slice())?,
        Err(refusal) => out.push_str(word(refusal))?,
    }
    Ok(out)
}

/// What one more call of `next` gives, behind the number that `number` tells before it. False where it is no line.
fn next_shown(out: &mut String, lines: &mut Lines) -> Result<bool, AllocError>
    ensures phase { is_finished lines.old.phase ≡ false → is_finished lines.new.phase ≡ false }
    ensures reach { is_finished lines.old.phase ≡ false → reach lines.new.split ≡ reach lines.old.split }
{
    let number = lines.number();
    write!(out, "{number}")?;
    match lines.next() {
        Ok(Some(Line { number, fields })) => {
            write!(out, "={number} ")?;
            shown(out, fields.inner().as_slice())?;
            out.push_str("; ")?;
            Ok(true)
        }
        Ok(None) => {
            out.push_str(".")?;
            Ok(false)
        }
        Err(refusal) => {
            out.push_str(word(refusal))?;
            Ok(false)
        }
    }
}

fn all_shown(out: &mut String, lines: &mut Lines) -> Result<(), AllocError> {
    for turn in 0..20 {
        if !next_shown(out, lines)? {
            break;
        }
    }
    Ok(())
}

/// A text in two pieces.
fn cut(alloc: Global, text: &[u8], at: usize) -> Result<String, LineRefusal>
    requires short { length text.now < 2 ^ 30 }
    requires inside { at ≤ length text.now }
{
    let (front, back) = text.split_at(at);
    let mut lines = Lines::new(alloc);
    lines.feed(front)?;
    lines.feed(back)?;
    lines.finish();
    let mut out = String::new(alloc);
    all_shown(&mut out, &mut lines)?;
    Ok(out)
}

/// A text in pieces of one byte, whose lines are taken as soon as they are whole.
fn by_bytes(alloc: Global, text: &[u8]) -> Result<String, LineRefusal>
    requires { length text.now < 2 ^ 30 }
{
    let mut lines = Lines::new(alloc);
    for byte in text {
        lines.feed(&[*byte])?;
    }
    lines.finish();
    let mut out = String::new(alloc);
    all_shown(&mut out, &mut lines)?;
    Ok(out)
}

/// How many bytes were fed, one by one, when a text was first refused, and the refusal.
fn refused_at(alloc: Global, text: &[u8]) -> Result<(usize, &'static str), LineRefusal>
    requires { length text.now < 2 ^ 30 }
{
    let mut lines = Lines::new(alloc);
    for (place, byte) in text.iter().enumerate() {
        lines.feed(&[*byte])?;
        match lines.next() {
            Ok(_) => {}
            Err(refusal) => return Ok((place + 1, word(refusal))),
        }
    }
    Ok((0, "none"))
}

#[test]
fn a_line_alone_has_these_fields(rt: HostRuntime) -> Result<(), Fail> {
    for (line, fields) in [
        ("", ""),
        (" \t\r ", ""),
        ("# a,\"b", ""),
        (" \t# \\", ""),
        (",", "--"),
        (" , \t,", "---"),
        ("a", "<a>"),
        (" a b\t, c \r", "<a b><c>"),
        ("a,", "<a>-"),
        (",#b", "-<#b>"),
        ("a#", "<a#>"),
        ("a\\n", "<a\\n>"),
        ("\"\"", "<>"),
        ("insert,\"8\",\"\",", "<insert><8><>-"),
        ("insert,\"7\",\"a\\\"b\\\\c\",", "<insert><7><a\"b\\c>-"),
        ("\"a\nb\",\"\r\"", "<a\nb><\r>"),
        (" \" a \" , b", "< a ><b>"),
        ("\"#,\"", "<#,>"),
        ("\u{a0}ä,€\u{feff},\"😀\"", "<\u{a0}ä><€\u{feff}><😀>"),
        ("a\"b", "BareQuote"),
        ("\"a\"b", "BareQuote"),
        ("\"a\"\"b\"", "BareQuote"),
        ("a\nb", "BareQuote"),
        ("\n", "BareQuote"),
        ("#a\nb", "BareQuote"),
        ("\"a\" \nb", "BareQuote"),
        ("\"a\\n\"", "BadEscape"),
        ("\"a\\\n\"", "BadEscape"),
        ("\"", "OpenQuote"),
        ("a,\"b\\", "OpenQuote"),
        ("a,\"b\\\"", "OpenQuote"),
    ] {
        assert_eq!(rt;
            alone(rt.alloc(), line.as_bytes())?.as_str(),
            fields,
            "{line:?}"
        );
    }
    Ok(())
}

#[test]
fn a_refusal_tells_its_cause(rt: HostRuntime) -> Result<(), Fail> {
    let text = LineRefusal::OpenQuote.to_string(rt.alloc())?;
    assert_eq!(rt; text.as_str(), "the text ends inside quotes");
    written_reads_back();
    lines_are_read_alone();
    refusals_come_first();
    Ok(())
}

#[test]
fn bytes_that_are_not_utf8_are_refused(rt: HostRuntime) -> Result<(), Fail> {
    for (line, answer) in [
        ([0x80, 0x2C, 0x2C, 0x2C], "NotUtf8"),
        ([0x23, 0x20, 0xFF, 0x2C], "NotUtf8"),
        ([0x22, 0xC3, 0x22, 0x2C], "NotUtf8"),
        ([0x61, 0xC0, 0x80, 0x2C], "NotUtf8"),
        ([0xE0, 0x9F, 0xBF, 0x2C], "NotUtf8"),
        ([0xED, 0xA0, 0x80, 0x2C], "NotUtf8"),
        ([0xF0, 0x8F, 0xBF, 0xBF], "NotUtf8"),
        ([0xF4, 0x90, 0x80, 0x80], "NotUtf8"),
        ([0xF5, 0x80, 0x80, 0x80], "NotUtf8"),
        ([0x2C, 0xF0, 0x9F, 0x98], "NotUtf8"),
        ([0x2C, 0x22, 0xE2, 0x82], "NotUtf8"),
        ([0x22, 0x61, 0x22, 0xFF], "BareQuote"),
        ([0x22, 0x61, 0x5C, 0xC3], "BadEscape"),
        ([0xE0, 0xA0, 0x80, 0x2C], "<\u{800}>-"),
        ([0xED, 0x9F, 0xBF, 0x2C], "<\u{d7ff}>-"),
        ([0xEE, 0x80, 0x80, 0x2C], "<\u{e000}>-"),
        ([0xF0, 0x90, 0x80, 0x80], "<\u{10000}>"),
        ([0xF4, 0x8F, 0xBF, 0xBF], "<\u{10ffff}>"),
    ] {
        assert_eq!(rt;
            alone(rt.alloc(), line.as_slice())?.as_str(),
            answer,
            "{line:?}"
        );
    }
    Ok(())
}

#[test]
fn a_text_has_these_lines_wherever_it_is_cut(rt: HostRuntime) -> Result<(), Fail> {
    for (text, shown) in [
        ("", "1."),
        ("\n", "2."),
        (" ", "2."),
        ("#x", "2."),
        ("a,b", "1=1 <a><b>; 2."),
        ("a,b\n", "1=1 <a><b>; 2."),
        ("a\r\nb\r\n", "1=1 <a>; 2=2 <b>; 3."),
        ("\n \n\u{e4},\n", "3=3 <ä>-; 4."),
        ("# c \"\n\"x\ny\",z\n\nw", "2=2 <x\ny><z>; 5=5 <w>; 6."),
        ("\"\n\n\"\n\"\n\"", "1=1 <\n\n>; 4=4 <\n>; 6."),
        ("a\n\"b\n", "1=1 <a>; 2OpenQuote"),
        ("a\nb\"c\nd", "1=1 <a>; 2BareQuote"),
        ("\"a\nb\"x\n", "1BareQuote"),
        ("\"\n\"\n\"b\\x\"", "1=1 <\n>; 3BadEscape"),
    ] {
        let bytes = text.as_bytes();
        assert_eq!(rt; by_bytes(rt.alloc(), bytes)?.as_str(), shown, "{text:?}");
        for at in 0..bytes.len() + 1 {
            assert_eq!(rt;
                cut(rt.alloc(), bytes, at)?.as_str(),
                shown,
                "{text:?} cut at {at}"
            );
        }
    }
    Ok(())
}

#[test]
fn a_refusal_comes_with_its_byte(rt: HostRuntime) -> Result<(), Fail> {
    for (text, place, refusal) in [
        ("a\n\"b\" c\n", 7, "BareQuote"),
        ("a \"", 3, "BareQuote"),
        ("\"a\"é", 4, "BareQuote"),
        ("\"a\\é", 4, "BadEscape"),
        ("#\"\n\"\\\n", 6, "BadEscape"),
        ("\"a\nb", 0, "none"),
    ] {
        assert_eq!(rt;
            refused_at(rt.alloc(), text.as_bytes())?,
            (place, refusal),
            "{text:?}"
        );
    }
    for (text, place) in [
        ([0x61, 0xC3, 0x28, 0x61], 3),
        ([0x61, 0xC3, 0x0A, 0x61], 3),
        ([0x23, 0xE0, 0x80, 0x80], 3),
        ([0x22, 0xED, 0xA0, 0x80], 3),
        ([0xF4, 0x8F, 0xBF, 0x2C], 4),
        ([0x2C, 0x2C, 0xF4, 0x90], 4),
        ([0x0A, 0xC1, 0x80, 0x80], 2),
    ] {
        assert_eq!(rt;
            refused_at(rt.alloc(), text.as_slice())?,
            (place, "NotUtf8"),
            "{text:?}"
        );
    }
    Ok(())
}

/// What stands behind a first line of so many bytes, whose first are `begin` and whose others are `a`.
fn behind_long_line(
    alloc: Global,
    begin: &[u8],
    count: usize,
    end: &[u8],
) -> Result<String, LineRefusal>
    requires count { count < 2 ^ 24 }
    requires begin { length begin.now ≤ count }
    requires end { length end.now < 2 ^ 24 }
{
    let mut text = begin.to_vec(alloc)?;
    text.resize(count, b'a')?;
    let mut lines = Lines::new(alloc);
    lines.feed(text.as_slice())?;
    lines.feed(end)?;
    lines.finish();
    let mut out = String::new(alloc);
    match lines.next() {
        Ok(Some(Line { number, fields })) => write!(out, "{number}; ")?,
        Ok(None) => out.push_str("none; ")?,
        Err(_) => {}
    }
    all_shown(&mut out, &mut lines)?;
    Ok(out)
}

#[test]
fn a_line_has_at_most_so_many_bytes(rt: HostRuntime) -> Result<(), Fail> {
    for (begin, count, end, shown) in [
        ("", 1_048_576, "", "1; 2."),
        ("", 1_048_576, "\nb", "1; 2=2 <b>; 3."),
        ("", 1_048_576, "a", "1LineTooLong"),
        ("", 1_048_576, "\"", "1LineTooLong"),
        ("#", 1_048_576, "\nb", "2; 3."),
        ("#", 1_048_576, "aa\nb", "1LineTooLong"),
        ("\"\n", 1_048_575, "\"\nb", "1; 3=3 <b>; 4."),
        ("\"\n", 1_048_576, "\n", "1LineTooLong"),
        ("\"\n", 1_048_576, "", "1OpenQuote"),
        ("\"", 1_048_575, "é", "1LineTooLong"),
    ] {
        let out = behind_long_line(rt.alloc(), begin.as_bytes(), count, end.as_bytes())?;
        assert_eq!(rt; out.as_str(), shown, "{begin:?} {count} {end:?}");
    }
    Ok(())
}

#[test]
fn what_is_refused_stays_refused(rt: HostRuntime) -> Result<(), Fail> {
    let alloc = rt.alloc();
    let mut lines = Lines::new(alloc);
    lines.feed(b"a\n\"b\"c\nd\n")?;
    let mut out = String::new(alloc);
    let _ = next_shown(&mut out, &mut lines)?;
    let _ = next_shown(&mut out, &mut lines)?;
    let _ = next_shown(&mut out, &mut lines)?;
    lines.feed(b"e\n")?;
    let _ = next_shown(&mut out, &mut lines)?;
    lines.finish();
    let _ = next_shown(&mut out, &mut lines)?;
    assert_eq!(rt;
        out.as_str(),
        "1=1 <a>; 2BareQuote2BareQuote2BareQuote2BareQuote"
    );
    Ok(())
}

#[test]
fn a_written_line_reads_back(rt: HostRuntime) -> Result<(), Fail> {
    let alloc = rt.alloc();
    let mut fields = Vec::new(alloc);
    let mut out = Vec::new(alloc);
    put_fields(fields.as_slice(), &mut out)?;
    out.extend_from_slice(b"/")?;
    fields.push(Field::Text(Txt::copied(alloc, "7")?))?;
    put_fields(fields.as_slice(), &mut out)?;
    out.extend_from_slice(b"/")?;
    fields.push(Field::Text(Txt::copied(alloc, "a\"b\\c")?))?;
    fields.push(Field::Null)?;
    fields.push(Field::Text(Txt::copied(alloc, "")?))?;
    fields.push(Field::Text(Txt::copied(alloc, "x\n€")?))?;
    fields.push(Field::Null)?;
    put_fields(fields.as_slice(), &mut out)?;
    let written = "/\"7\"/\"7\",\"a\\\"b\\\\c\",,\"\",\"x\n€\",";
    assert_eq!(rt; out.as_slice(), written.as_bytes());
    assert_eq!(rt;
        alone(alloc, &written.as_bytes()[5..])?.as_str(),
        "<7><a\"b\\c>-<><x\n€>-"
    );
    Ok(())
}
