// Tests of what lines say: each form, and lines beside it that say nothing.
use crate::read_line_fields;
use sds_base::{List, NoMemory, Txt};
use sds_line::{LineRefusal, read_line};
use sds_types::{ScenarioLine, TxRow};
use sds_value::{Event, Field};
use std::alloc::Global;
use std::test::Fail;

const FIFTY: &str = "aaaaaaaaaabbbbbbbbbbccccccccccddddddddddeeeeeeeeee";

/// What a line says, in words: `nothing` where it is malformed, `refused` where its quotes are.
fn said(alloc: Global, line: &str) -> Result<String, NoMemory> {
    let fields = match read_line(alloc, line.as_bytes()) {
        Ok(fields) => fields,
        Err(LineRefusal::NoMemory) => return Err(NoMemory),
        Err(_) => return Ok(String::from_str(alloc, "refused")?),
    };
    match read_line_fields(alloc, fields)? {
        None => Ok(String::from_str(alloc, "nothing")?),
        Some(line) => line_words(alloc, &line),
    }
}

fn line_words(alloc: Global, line: &ScenarioLine) -> Result<String, NoMemory> {
    match line {
        ScenarioLine::Row(row) => row_words(alloc, row),
        ScenarioLine::Send { from, to, channels } => {
            let mut out = names_words(alloc, "Send", &[("from", from), ("to", to)])?;
            put_channels(&mut out, channels)?;
            Ok(out)
        }
        ScenarioLine::Deliver { message, channels } => {
            let mut out = format!(in alloc; "Deliver message={message}")?;
            put_channels(&mut out, channels)?;
            Ok(out)
        }
        _ => short_words(alloc, line),
    }
}

/// The words of a line with names alone, or with one number.
fn short_words(alloc: Global, line: &ScenarioLine) -> Result<String, NoMemory> {
    match line {
        ScenarioLine::Node { peer } => {
            let parts = [
                ("id", &peer.id),
                ("group", &peer.group),
                ("external", &peer.external),
            ];
            names_words(alloc, "Node", &parts)
        }
        ScenarioLine::Open {
            at,
            group,
            external,
        } => {
            let parts = [("at", at), ("group", group), ("external", external)];
            names_words(alloc, "Open", &parts)
        }
        ScenarioLine::Register { asks, at } => {
            names_words(alloc, "Register", &[("asks", asks), ("at", at)])
        }
        ScenarioLine::Push { from, to } => {
            names_words(alloc, "Push", &[("from", from), ("to", to)])
        }
        ScenarioLine::Pull { to, from } => {
            names_words(alloc, "Pull", &[("to", to), ("from", from)])
        }
        _ => node_words(alloc, line),
    }
}

/// The words of a line of one node, or of none.
fn node_words(alloc: Global, line: &ScenarioLine) -> Result<String, NoMemory> {
    match line {
        ScenarioLine::Write {
            node,
            writer,
            number,
        } => {
            let node = node.as_str();
            let writer = writer.as_str();
            Ok(format!(in alloc; "Write node={node} writer={writer} number={number}")?)
        }
        ScenarioLine::Fault { node, stands } => {
            let node = node.as_str();
            Ok(format!(in alloc; "Fault node={node} stands={stands}")?)
        }
        ScenarioLine::Route { node } => names_words(alloc, "Route", &[("node", node)]),
        ScenarioLine::Show { node } => names_words(alloc, "Show", &[("node", node)]),
        ScenarioLine::Batches { node } => names_words(alloc, "Batches", &[("node", node)]),
        ScenarioLine::Crash { node } => names_words(alloc, "Crash", &[("node", node)]),
        ScenarioLine::Answer { reply } => Ok(format!(in alloc; "Answer reply={reply}")?),
        ScenarioLine::Wire { message } => Ok(format!(in alloc; "Wire message={message}")?),
        ScenarioLine::End => Ok(String::from_str(alloc, "End")?),
        _ => Ok(String::from_str(alloc, "another line")?),
    }
}

fn names_words(alloc: Global, word: &str, parts: &[(&str, &Txt)]) -> Result<String, NoMemory> {
    let mut out = String::from_str(alloc, word)?;
    for (part, name) in parts {
        out.push(' ')?;
        out.push_str(part)?;
        out.push('=')?;
        out.push_str(name.as_str())?;
    }
    Ok(out)
}

fn put_channels(out: &mut String, channels: &List<Txt>) -> Result<(), NoMemory> {
    for channel in channels.inner() {
        out.push_str(" channel=")?;
        out.push_str(channel.as_str())?;
    }
    Ok(())
}

/// The row's event and table, and its fields, each in angle brackets, a null as `-`.
fn row_words(alloc: Global, row: &TxRow) -> Result<String, NoMemory> {
    let event = match row.event {
        Event::Insert => "Insert",
        Event::Update => "Update",
        Event::Delete => "Delete",
    };
    let mut out = names_words(alloc, event, &[("table", &row.table)])?;
    for field in row.fields.inner() {
        match field {
            Field::Null => out.push_str(" -")?,
            Field::Text(text) => {
                out.push_str(" <")?;
                out.push_str(text.as_str())?;
                out.push('>')?;
            }
        }
    }
    Ok(out)
}

/// Lines of each form, and what each says.
const FORMS: &str = "node,corp,head,001 => Node id=corp group=head external=001
 node , s-1\t,\"store\", A_b \r => Node id=s-1 group=store external=A_b
open,corp,store,001 => Open at=corp group=store external=001
register,s1,corp => Register asks=s1 at=corp
write,corp,office,1 => Write node=corp writer=office number=1
insert,pair,2,Ink => Insert table=pair <2> <Ink>
insert,pair,, 6 , => Insert table=pair - <6> -
insert,pair => Insert table=pair
insert,\"\" => Insert table=
insert,\"no name\",\"\" => Insert table=no name <>
update,pair,2,text,Pen => Update table=pair <2> <text> <Pen>
delete,pair,2 => Delete table=pair <2>
end => End
\"end\" => End
route,corp => Route node=corp
send,corp,s1 => Send from=corp to=s1
send,corp,s1,sale => Send from=corp to=s1 channel=sale
send,corp,s1,b,a,b => Send from=corp to=s1 channel=b channel=a channel=b
deliver,3 => Deliver message=3
deliver,3,sale => Deliver message=3 channel=sale
deliver,3,b,a,b => Deliver message=3 channel=b channel=a channel=b
answer,4 => Answer reply=4
push,corp,s1 => Push from=corp to=s1
pull,s1,corp => Pull to=s1 from=corp
wire,5 => Wire message=5
show,corp => Show node=corp
batches,corp => Batches node=corp
crash,s1 => Crash node=s1
fault,s1,before => Fault node=s1 stands=false
fault,s1,after => Fault node=s1 stands=true
write,write,end,0 => Write node=write writer=end number=0
show,show => Show node=show
";

#[test]
fn each_form_says_what_it_names(rt: HostRuntime) -> Result<(), Fail> {
    for row in FORMS.lines() {
        let (line, words) = row.split_once(" => ").ok_or("no words")?;
        assert_eq!(rt; said(rt.alloc(), line)?.as_str(), words, "{line:?}");
    }
    Ok(())
}

/// Lines that say nothing: no fields, an unknown word, and of each form a field too few and one too
/// many, a null, a text that is no name, number or word, and the word with a capital.
const MALFORMED: &str = "
# node,corp,head,001
,corp
\"\",corp
nodes,corp,head,001
no de,corp,head,001
\u{a0}end
node
node,corp,head
node,corp,head,001,
node,corp,head,001,x
node,corp,,001
node,co rp,head,001
Node,corp,head,001
open,corp,store
open,corp,store,001,x
open,,store,001
open,corp,store,0.1
OPEN,corp,store,001
register,s1
register,s1,corp,x
register,s1,
register,s1,c\u{f6}rp
Register,s1,corp
write,corp,office
write,corp,office,1,x
write,corp,,1
write,corp,office,
write,,office,1
write,co:rp,office,1
write,corp,of fice,1
write,corp,office,one
write,corp,office,+1
write,corp,office,-1
write,corp,office,1.0
write,corp,office,\"\"
write,corp,office,\" 1\"
write,corp,office,\u{661}
Write,corp,office,1
insert
insert,
insert,,2,Ink
INSERT,pair,2,Ink
update
update,,2
Update,pair,2
delete
delete,,2
deLete,pair,2
end,
end,corp
End
\"end \"
route
route,
route,corp,s1
route,co/rp
ROUTE,corp
";

/// The same of messages, and of nodes that are shown, dropped or made to fail.
const MALFORMED_MESSAGES: &str = "send
send,corp
send,,s1
send,corp,
send,corp,s1,
send,corp,s1,,sale
send,corp,s1,sa le
send,corp,s1,sale,\"\"
Send,corp,s1
deliver
deliver,
deliver,x
deliver,corp,s1
deliver,3,
deliver,3,sale,
deliver,3,sa.le
deliver,-3
Deliver,3
answer
answer,
answer,4,sale
answer,four
Answer,4
push
push,corp
push,corp,s1,sale
push,corp,
push,corp,s:1
Push,corp,s1
pull,s1
pull,s1,corp,sale
pull,,corp
pull,s 1,corp
Pull,s1,corp
wire
wire,
wire,5,5
wire,0x5
WIRE,5
show
show,
show,corp,s1
show,\"corp \"
Show,corp
batches
batches,\"\"
batches,corp,sale
batches,corp+
Batches,corp
crash
crash,
crash,s1,corp
crash,s(1)
cRash,s1
fault,s1
fault,s1,
fault,,before
fault,s1,now
fault,s1,Before
fault,s1,before,after
fault,s.1,after
Fault,s1,before
";

#[test]
fn other_lines_say_nothing(rt: HostRuntime) -> Result<(), Fail> {
    for line in MALFORMED.lines() {
        assert_eq!(rt; said(rt.alloc(), line)?.as_str(), "nothing", "{line:?}");
    }
    for line in MALFORMED_MESSAGES.lines() {
        assert_eq!(rt; said(rt.alloc(), line)?.as_str(), "nothing", "{line:?}");
    }
    Ok(())
}

#[test]
fn a_number_has_1_to_19_digits(rt: HostRuntime) -> Result<(), Fail> {
    let alloc = rt.alloc();
    for (number, words) in [
        ("0", "Wire message=0"),
        ("0007", "Wire message=7"),
        ("9999999999999999999", "Wire message=9999999999999999999"),
        ("0000000000000000001", "Wire message=1"),
        ("00000000000000000001", "nothing"),
        ("10000000000000000000", "nothing"),
    ] {
        let line = format!(in alloc; "wire,{number}")?;
        assert_eq!(rt; said(alloc, line.as_str())?.as_str(), words);
    }
    Ok(())
}

#[test]
fn a_name_has_1_to_50_characters(rt: HostRuntime) -> Result<(), Fail> {
    let alloc = rt.alloc();
    let longest = format!(in alloc; "show,{FIFTY}")?;
    let words = format!(in alloc; "Show node={FIFTY}")?;
    assert_eq!(rt; said(alloc, longest.as_str())?.as_str(), words.as_str());
    let longer = format!(in alloc; "show,{FIFTY}f")?;
    assert_eq!(rt; said(alloc, longer.as_str())?.as_str(), "nothing");
    Ok(())
}
