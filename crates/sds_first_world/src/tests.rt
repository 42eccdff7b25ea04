// Tests of what lines say, of where they may stand and of what they make happen.
use crate::{Draft, Line, Place, fits, read_fields, take_line};
use sds_base::{List, NoMemory, Txt};
use sds_first_spec::WorldEvent;
use sds_line::{LineRefusal, read_line};
use sds_types::TxRow;
use sds_value::{Event, Field};
use std::alloc::Global;
use std::test::Fail;

const FIFTY: &str = "aaaaaaaaaabbbbbbbbbbccccccccccddddddddddeeeeeeeeee";

const FORTY: &str = "aaaaaaaaaabbbbbbbbbbccccccccccdddddddddd";

const OPENINGS: &str =
    "node,corp,corp,corp\nnode,s1,store,001\nopen,corp,store,001\nregister,s1,corp\n";

/// What a line says, in words: `skip` where it has no fields, `refused` where it is no line.
fn said(alloc: Global, line: &str) -> Result<String, NoMemory> {
    let fields = match read_line(alloc, line.as_bytes()) {
        Ok(fields) => fields,
        Err(LineRefusal::NoMemory) => return Err(NoMemory),
        Err(_) => return Ok(String::from_str(alloc, "refused")?),
    };
    if fields.inner().is_empty() {
        return Ok(String::from_str(alloc, "skip")?);
    }
    let line = read_fields(alloc, fields.inner().as_slice())?;
    line_words(alloc, line)
}

fn line_words(alloc: Global, line: Line) -> Result<String, NoMemory> {
    let words = match line {
        Line::Opening(which) => format!(in alloc; "{which:?}")?,
        Line::Write { writer, number } => {
            let writer = writer.as_str();
            format!(in alloc; "write {writer} {number}")?
        }
        Line::Row(row) => row_words(alloc, &row)?,
        Line::End => String::from_str(alloc, "end")?,
        Line::Route => String::from_str(alloc, "route")?,
        Line::Push => String::from_str(alloc, "push")?,
        Line::Show { node } => {
            let node = node.as_str();
            format!(in alloc; "show {node}")?
        }
        Line::Other => String::from_str(alloc, "other")?,
    };
    Ok(words)
}

fn row_words(alloc: Global, row: &TxRow) -> Result<String, NoMemory> {
    if row.event != Event::Insert || row.table.as_str() != "pair" {
        return Ok(String::from_str(alloc, "another row")?);
    }
    match row.fields.inner().as_slice() {
        [Field::Text(key), Field::Text(text)] => {
            let key = key.as_str();
            let text = text.as_str();
            Ok(format!(in alloc; "insert {key} {text}")?)
        }
        [Field::Text(key), Field::Null] => {
            let key = key.as_str();
            Ok(format!(in alloc; "insert {key} null")?)
        }
        _ => Ok(String::from_str(alloc, "another row")?),
    }
}

/// Lines, and what each says.
const FORMS: &str = " => skip
 \t\r => skip
# a \"comment\" => skip
\"#\" => other
\t #insert,pair,2,Ink => skip
node,corp,corp,corp => Corp
\tnode , corp\t,corp,  corp \r => Corp
node,s1,store,001 => Store
open,corp,store,001 => Open
register,s1,corp => Register
node,s1,store,1 => other
node,s1,corp,001 => other
register,corp,s1 => other
insert,pair,2,Ink => insert 2 Ink
insert , pair,\t2 , Blue ink \r => insert 2 Blue ink
insert,pair,2, => insert 2 null
insert,pair,2,  => insert 2 null
insert,pair,2,# => insert 2 #
insert,pair,0,Ink => insert 0 Ink
insert,pair,-7,Ink => insert -7 Ink
insert,pair,9223372036854775807,Ink => insert 9223372036854775807 Ink
insert,pair,-9223372036854775808,Ink => insert -9223372036854775808 Ink
insert,pair,9223372036854775808,Ink => other
insert,pair,+7,Ink => other
insert,pair,007,Ink => other
insert,pair,-0,Ink => other
insert,pair,,Ink => other
insert,pair,x,Ink => other
insert,pair,2,I\0k => other
insert,pair,2 => other
insert,pair,2,Ink,Pen => other
insert,pairs,2,Ink => other
insert,,2,Ink => other
update,pair,2,Ink => other
Insert,pair,2,Ink => other
insert,pair,2,\"Ink\" => insert 2 Ink
\"insert\", \"pair\",\"2\"\t,\" Blue, ink \" => insert 2  Blue, ink 
insert,pair,2,\"6\\\" of \\\\\" => insert 2 6\" of \\
insert,pair,2,\"\" => insert 2 
insert,pair,\" 2\",Ink => other
insert,pair,\"\",Ink => other
\"insert \",pair,2,Ink => other
insert,pair,2,6\" nails => refused
insert,pair,2,\"Ink => refused
insert,pair,2,\"Ink\" x => refused
insert,pair,2,\"I\\nk\" => refused
end => end
 end\r => end
\"end\" => end
end, => other
\"\" => other
ends => other
route,corp => route
route,s1 => other
route => other
push,corp,s1 => push
push,s1,corp => other
show,corp => show corp
show,s1 => show s1
show,s2 => other
\u{a0}end => other
\u{b}end => other
, => other
batches,corp => other
";

#[test]
fn lines_say_what_their_forms_say(rt: HostRuntime) -> Result<(), Fail> {
    for row in FORMS.lines() {
        let (line, words) = row.split_once(" => ").ok_or("no words")?;
        assert_eq!(rt; said(rt.alloc(), line)?.as_str(), words, "{line:?}");
    }
    Ok(())
}

/// Lines that begin a write, and others.
const WRITES: &str = "write,corp,office,1 => write office 1
write,corp,office,0007 => write office 7
write,corp,office,0 => write office 0
write,corp,office,9999999999999999999 => write office 9999999999999999999
write,corp,office,00000000000000000001 => other
write,corp,office,10000000000000000000 => other
write,corp,office,+1 => other
write,corp,office,-1 => other
write,corp,office,1x => other
write,corp,office,\u{661} => other
write,corp,office, => other
write,corp,office => other
write,corp,office,1, => other
write,corp,,1 => other
write,corp,of fice,1 => other
write,corp,\"office\",\"1\" => write office 1
write,corp,\"office \",1 => other
write,s1,office,1 => other
";

#[test]
fn a_write_has_a_name_and_a_number_of_1_to_19_digits(rt: HostRuntime) -> Result<(), Fail> {
    for row in WRITES.lines() {
        let (line, words) = row.split_once(" => ").ok_or("no words")?;
        assert_eq!(rt; said(rt.alloc(), line)?.as_str(), words, "{line:?}");
    }
    let longest = format!(in rt.alloc(); "write,corp,{FIFTY},1")?;
    let words = format!(in rt.alloc(); "write {FIFTY} 1")?;
    assert_eq!(rt;
        said(rt.alloc(), longest.as_str())?.as_str(),
        words.as_str()
    );
    let longer = format!(in rt.alloc(); "write,corp,{FIFTY}f,1")?;
    assert_eq!(rt; said(rt.alloc(), longer.as_str())?.as_str(), "other");
    Ok(())
}

#[test]
fn a_text_has_at_most_40_characters(rt: HostRuntime) -> Result<(), Fail> {
    let alloc = rt.alloc();
    let mut wide = String::new(alloc);
    for _ in 0..40 {
        wide.push('\u{1f600}')?;
    }
    let wide = wide.as_str();
    for text in [FORTY, wide] {
        let line = format!(in alloc; "insert,pair,2,{text}")?;
        let words = format!(in alloc; "insert 2 {text}")?;
        assert_eq!(rt; said(alloc, line.as_str())?.as_str(), words.as_str());
        let longer = format!(in alloc; "insert,pair,2,{text}e")?;
        assert_eq!(rt; said(alloc, longer.as_str())?.as_str(), "other", "{text}");
    }
    Ok(())
}

/// What a line says that is a line, where it has fields.
fn line_of(alloc: Global, text: &str) -> Result<Option<Line>, LineRefusal> {
    let fields = read_line(alloc, text.as_bytes())?;
    if fields.inner().is_empty() {
        return Ok(None);
    }
    Ok(Some(read_fields(alloc, fields.inner().as_slice())?))
}

/// How many lines of a text that have fields may stand, one behind the other, up to the first that may not.
fn fitting(alloc: Global, text: &str, last: u64, settled: bool) -> Result<usize, LineRefusal> {
    let mut place = Place::start();
    let mut count = 0;
    for line in text.lines().take(20) {
        let Some(line) = line_of(alloc, line)? else {
            continue;
        };
        if !fits(&place, last, settled, &line) {
            return Ok(count);
        }
        take_line(alloc, &mut place, line)?;
        count = count.saturating_add(1);
    }
    Ok(count)
}

#[test]
fn a_scenario_begins_with_its_four_lines(rt: HostRuntime) -> Result<(), Fail> {
    let alloc = rt.alloc();
    for (text, count) in [
        ("", 0),
        (OPENINGS, 4),
        ("# nothing\n\nnode,corp,corp,corp\n", 1),
        ("node,s1,store,001\n", 0),
        ("node,corp,corp,corp\nnode,corp,corp,corp\n", 1),
        ("node,corp,corp,corp\nopen,corp,store,001\n", 1),
        ("node,corp,corp,corp\nshow,corp\n", 1),
        ("node,corp,corp,corp\nwrite,corp,office,1\n", 1),
        ("end\n", 0),
        ("insert,pair,1,Pen\n", 0),
        ("route,corp\n", 0),
        ("push,corp,s1\n", 0),
    ] {
        assert_eq!(rt; fitting(alloc, text, 0, true)?, count, "{text:?}");
    }
    Ok(())
}

#[test]
fn lines_behind_the_first_four_stand_at_their_places(rt: HostRuntime) -> Result<(), Fail> {
    let alloc = rt.alloc();
    for (text, last, settled, count) in [
        ("node,corp,corp,corp\n", 0, true, 4),
        ("insert,pair,1,Pen\n", 0, true, 4),
        ("end\n", 0, true, 4),
        ("route,corp\npush,corp,s1\nshow,corp\n", 0, true, 7),
        ("route,corp\n", 0, false, 4),
        ("push,corp,s1\nroute,corp\n", 0, false, 5),
        ("write,corp,office,1\ninsert,pair,1,Pen\nend\n", 0, true, 7),
        ("write,corp,office,1\n# nothing\nend\nend\n", 0, true, 6),
        ("write,corp,office,1\nwrite,corp,office,1\n", 0, true, 5),
        ("write,corp,office,1\nroute,corp\n", 0, true, 5),
        ("write,corp,office,1\npush,corp,s1\n", 0, true, 5),
        ("write,corp,office,1\nshow,corp\n", 0, true, 5),
        ("write,corp,office,1\nnothing\n", 0, true, 5),
        ("write,corp,office,0\n", 0, true, 4),
        ("write,corp,office,2\n", 0, true, 4),
        ("write,corp,office,2\n", 1, true, 5),
        ("write,corp,office,2\n", 2, true, 4),
        ("write,corp,office,4\n", 2, true, 4),
        ("write,corp,office,0\n", 18446744073709551615, true, 4),
    ] {
        let whole = format!(in alloc; "{OPENINGS}{text}")?;
        assert_eq!(rt;
            fitting(alloc, whole.as_str(), last, settled)?,
            count,
            "{text:?}"
        );
    }
    Ok(())
}

#[test]
fn the_10_001st_row_may_not_stand(rt: HostRuntime) -> Result<(), Fail> {
    let alloc = rt.alloc();
    let row = line_of(alloc, "insert,pair,1,Pen")?.ok_or("no fields")?;
    for (rows, stands) in [(0, true), (9_999, true), (10_000, false), (10_001, false)] {
        let draft = Draft {
            writer: Txt::copied(alloc, "office")?,
            number: 1,
            rows: List::new(alloc),
        };
        let place = Place {
            openings: 4,
            draft: Some(draft),
            rows,
        };
        assert_eq!(rt; fits(&place, 0, true, &row), stands, "{rows}");
    }
    Ok(())
}

/// Puts what a line made happen, in words and with a `|` behind them.
fn put_event(alloc: Global, event: &WorldEvent, out: &mut String) -> Result<(), NoMemory> {
    let words = match event {
        WorldEvent::Node { peer } => {
            let (id, group) = (peer.id.as_str(), peer.group.as_str());
            let external = peer.external.as_str();
            format!(in alloc; "node {id} {group} {external}|")?
        }
        WorldEvent::Open {
            at,
            group,
            external,
        } => {
            let (at, group, external) = (at.as_str(), group.as_str(), external.as_str());
            format!(in alloc; "open {at} {group} {external}|")?
        }
        WorldEvent::Register { asks, at } => {
            let (asks, at) = (asks.as_str(), at.as_str());
            format!(in alloc; "register {asks} {at}|")?
        }
        WorldEvent::Write {
            node,
            writer,
            number,
            rows,
        } => {
            let (node, writer) = (node.as_str(), writer.as_str());
            let count = rows.inner().len();
            format!(in alloc; "write {node} {writer} {number} {count}|")?
        }
        WorldEvent::Route { node } => format!(in alloc; "route {}|", node.as_str())?,
        WorldEvent::Push { from, to } => {
            let (from, to) = (from.as_str(), to.as_str());
            format!(in alloc; "push {from} {to}|")?
        }
        WorldEvent::Show { node } => format!(in alloc; "show {}|", node.as_str())?,
    };
    out.push_str(words.as_str())?;
    Ok(())
}

#[test]
fn a_line_completes_its_event(rt: HostRuntime) -> Result<(), Fail> {
    let alloc = rt.alloc();
    let mut place = Place::start();
    let mut events = String::new(alloc);
    for line in [
        "node,corp,corp,corp",
        "node,s1,store,001",
        "open,corp,store,001",
        "register,s1,corp",
        "# the first write",
        "write,corp,office,1",
        "insert,pair,2,Ink",
        "insert,pair,1,Pen",
        "end",
        "route,corp",
        "push,corp,s1",
        "show,s1",
        "show,corp",
    ] {
        let Some(line) = line_of(alloc, line)? else {
            continue;
        };
        assert!(rt; fits(&place, 0, true, &line));
        if let Some(event) = take_line(alloc, &mut place, line)? {
            put_event(alloc, &event, &mut events)?;
        }
    }
    let expected =
        "node corp corp corp|node s1 store 001|open corp store 001|register s1 corp|write corp office 1 2|route corp|push corp s1|show s1|show corp|";
    assert_eq!(rt; events.as_str(), expected);
    assert_eq!(rt; place.rows, 2);
    assert!(rt; place.draft.is_none());
    Ok(())
}
