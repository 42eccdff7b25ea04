// Tests of a node's calls: each answer of each call once. The answers are those of the rules of the trade, by hand.
//
// Two answers are not here. A number would have to pass 2^62 before a call answers that the counters have ended, which no
// run reaches; and want of memory doesn't come where there is enough.
ghost use Rattle.std.specs.Prelude.{◌≡◌, IfOk, true};
ghost use Rattle.sds_value.specs.declared.table.ColumnDef.{ColumnDef};
ghost use Rattle.sds_first_spec.specs.Capture.{is_allowed, are_allowed, is_own_insert};
ghost use Rattle.sds_first_spec.specs.One.{one};
ghost use Rattle.sds_first_spec.specs.Places.{columns_of};
ghost use Rattle.sds_first_node.specs.NewRows.{ArePairRows};

use crate::Node;
use sds_base::{List, NoMemory, Same, Txt};
use sds_types::{Ack, TxRow};
use sds_value::{Binary, DocRow, Event, Field, Kind, Peer, Value, ValueRefusal, is_name};
use std::alloc::Global;
use std::process::Abort;
use std::test::Fail;

/// A row of the one table, by the texts of its key and of its text, or null.
type Pair = (&'static str, Option<&'static str>);

/// What is said of a batch: that it is loaded, or the row and the rule that it broke.
type Said = (u64, Option<(u32, u8)>);

const INK_AND_PEN: &[Pair] = &[("2", Some("Ink")), ("1", Some("Pen"))];

const CAP: &[Pair] = &[("3", Some("Cap"))];

fn peer(alloc: Global, id: &str, group: &str, external: &str) -> Result<Peer, NoMemory> {
    Ok(Peer {
        id: Txt::copied(alloc, id)?,
        group: Txt::copied(alloc, group)?,
        external: Txt::copied(alloc, external)?,
    })
}

/// The head office, whose peer is the store.
fn corp(alloc: Global) -> Result<Node, NoMemory> {
    let me = peer(alloc, "corp", "corp", "corp")?;
    Node::new(alloc, me, peer(alloc, "s1", "store", "001")?)
}

/// The store, whose peer is the head office.
fn store(alloc: Global) -> Result<Node, NoMemory> {
    let me = peer(alloc, "s1", "store", "001")?;
    Node::new(alloc, me, peer(alloc, "corp", "corp", "corp")?)
}

/// The field of a text that reads under a kind.
fn field_of(alloc: Global, kind: Kind, text: &str) -> Result<Field, ValueRefusal>
    ensures { IfOk result (λ field. (column : ColumnDef) → column.kind ≡ kind → is_allowed column field ≡ true) }
{
    Value::read(alloc, kind, text, Binary::Base64)?;
    Ok(Field::Text(Txt::copied(alloc, text)?))
}

/// The two fields of a row.
fn fields(alloc: Global, pair: Pair) -> Result<List<Field>, ValueRefusal>
    ensures { IfOk result (λ fields. are_allowed (columns_of one 0) fields ≡ true) }
{
    let (key, text) = pair;
    let key = field_of(alloc, Kind::Integer, key)?;
    let text = match text {
        Some(text) => field_of(alloc, Kind::Varchar(40), text)?,
        None => Field::Null,
    };
    let mut fields = List::new(alloc);
    fields.push(key)?;
    fields.push(text)?;
    Ok(fields)
}

/// A row of an own write.
fn tx_row(alloc: Global, pair: Pair) -> Result<TxRow, ValueRefusal>
    ensures { IfOk result (λ row. is_own_insert one row ≡ true) }
{
    Ok(TxRow {
        event: Event::Insert,
        table: Txt::copied(alloc, "pair")?,
        fields: fields(alloc, pair)?,
    })
}

fn tx_rows(alloc: Global, pairs: &[Pair]) -> Result<List<TxRow>, ValueRefusal>
    ensures { IfOk result (λ rows. ArePairRows rows) }
{
    let mut rows = List::new(alloc);
    for pair in pairs {
        rows.push(tx_row(alloc, *pair)?)?;
    }
    Ok(rows)
}

fn names(alloc: Global, texts: &[&str]) -> Result<List<Txt>, NoMemory> {
    let mut names = List::new(alloc);
    for text in texts {
        names.push(Txt::copied(alloc, text)?)?;
    }
    Ok(names)
}

/// The rows as a document has them.
fn docs(alloc: Global, pairs: &[Pair]) -> Result<List<DocRow>, ValueRefusal> {
    let mut docs = List::new(alloc);
    for pair in pairs {
        docs.push(DocRow {
            event: Event::Insert,
            table: Txt::copied(alloc, "pair")?,
            keys: names(alloc, &["id"])?,
            columns: names(alloc, &["id", "text"])?,
            new: fields(alloc, *pair)?,
            key: List::new(alloc),
            old: None,
        })?;
    }
    Ok(docs)
}

/// What a write is answered.
fn write(
    rt: &impl Abort,
    alloc: Global,
    node: &mut Node,
    writer: &str,
    number: u64,
    pairs: &[Pair],
) -> Result<String, ValueRefusal> {
    assert!(rt; is_name(writer));
    let rows = tx_rows(alloc, pairs)?;
    let answer = node.write(writer, number, rows.inner());
    Ok(format!(in alloc; "{answer:?}")?)
}

/// What a load is answered.
fn load(
    alloc: Global,
    node: &mut Node,
    from: &str,
    batch: u64,
    pairs: &[Pair],
) -> Result<String, ValueRefusal> {
    let docs = docs(alloc, pairs)?;
    let answer = node.load(from, 0, batch, docs.inner());
    Ok(format!(in alloc; "{answer:?}")?)
}

/// What acks are answered, each with its batch and the row and the rule that was broken.
fn take_acks(
    alloc: Global,
    node: &mut Node,
    from: &str,
    said: &[Said],
) -> Result<String, NoMemory> {
    let mut acks = Vec::new(alloc);
    for (batch, error) in said {
        acks.push(Ack {
            batch: *batch,
            error: *error,
        })?;
    }
    let answer = node.take_acks(from, &acks);
    Ok(format!(in alloc; "{answer:?}")?)
}

/// What an offer to a node is answered: the batches in brackets, or the refusal.
fn offer(alloc: Global, node: &Node, to: &str) -> Result<String, NoMemory> {
    match node.offer(to, &[]) {
        Ok(ids) => {
            let ids = ids.inner().as_slice();
            Ok(format!(in alloc; "{ids:?}")?)
        }
        Err(refusal) => Ok(format!(in alloc; "{refusal:?}")?),
    }
}

/// What a routing run is answered.
fn route(alloc: Global, node: &mut Node) -> Result<String, NoMemory> {
    let answer = node.route();
    Ok(format!(in alloc; "{answer:?}")?)
}

/// Whether a batch has these rows.
fn has_rows(alloc: Global, node: &Node, batch: u64, pairs: &[Pair]) -> Result<bool, ValueRefusal> {
    let expected = docs(alloc, pairs)?;
    Ok(node.rows(batch)?.same(&expected))
}

/// Whether the tables are written as this text, behind what stands.
fn shows(alloc: Global, node: &Node, text: &str) -> Result<bool, NoMemory> {
    let mut out = b"> ".to_vec(alloc)?;
    node.put_tables(&mut out)?;
    Ok(out.as_slice() == text.as_bytes())
}

/// What a write of so many rows of one key is answered.
fn write_alike(
    rt: &impl Abort,
    alloc: Global,
    node: &mut Node,
    number: u64,
    count: usize,
) -> Result<String, ValueRefusal> {
    let mut pairs: List<Pair> = List::new(alloc);
    for _ in 0..count {
        pairs.push(("1", None))?;
    }
    write(rt, alloc, node, "office", number, pairs.inner())
}

/// A call of a node, or a question of what it has.
enum Call {
    /// The writer, the number, the rows.
    Write(&'static str, u64, &'static [Pair]),
    /// The number, and how many rows of one key.
    WriteAlike(u64, usize),
    Route,
    Offer(&'static str),
    /// Who says it, and of which batches.
    Acks(&'static str, &'static [Said]),
    /// The sender, the batch, its rows.
    Load(&'static str, u64, &'static [Pair]),
    /// Whether a batch has these rows.
    Has(u64, &'static [Pair]),
    /// Whether the tables are written so.
    Shows(&'static str),
    LastNumber(&'static str),
    IsSettled,
}

/// What it is answered.
fn answer(
    rt: &impl Abort,
    alloc: Global,
    node: &mut Node,
    call: &Call,
) -> Result<String, ValueRefusal> {
    match call {
        Call::Write(writer, number, pairs) => write(rt, alloc, node, writer, *number, pairs),
        Call::WriteAlike(number, count) => write_alike(rt, alloc, node, *number, *count),
        Call::Route => Ok(route(alloc, node)?),
        Call::Offer(to) => Ok(offer(alloc, node, to)?),
        Call::Acks(from, said) => Ok(take_acks(alloc, node, from, said)?),
        Call::Load(from, batch, pairs) => load(alloc, node, from, *batch, pairs),
        Call::Has(batch, pairs) => Ok(word(alloc, has_rows(alloc, node, *batch, pairs)?)?),
        Call::Shows(text) => Ok(word(alloc, shows(alloc, node, text)?)?),
        Call::LastNumber(writer) => Ok(number(alloc, node.last_number(writer))?),
        Call::IsSettled => Ok(word(alloc, node.is_settled())?),
    }
}

fn word(alloc: Global, holds: bool) -> Result<String, NoMemory> {
    Ok(String::from_str(alloc, if holds { "yes" } else { "no" })?)
}

fn number(alloc: Global, number: u64) -> Result<String, NoMemory> {
    Ok(format!(in alloc; "{number}")?)
}

/// Makes the calls one after another, each with its answer.
fn play(
    rt: &impl Abort,
    alloc: Global,
    node: &mut Node,
    calls: &[(Call, &str)],
) -> Result<(), Fail> {
    for (call, expected) in calls {
        let given = answer(rt, alloc, node, call)?;
        assert_eq!(rt; given.as_str(), *expected);
    }
    Ok(())
}

const WRITES: [(Call, &str); 20] = [
    (Call::LastNumber("office"), "0"),
    (Call::Write("office", 0, CAP), "Err(OldNumber(0))"),
    (Call::Write("office", 2, CAP), "Err(GapNumber(0))"),
    (
        Call::Write("office", 1, INK_AND_PEN),
        "Ok(Done { first: 1, count: 2 })",
    ),
    (
        Call::Write("office", 1, CAP),
        "Ok(Again { first: 1, count: 2 })",
    ),
    (Call::Write("office", 3, CAP), "Err(GapNumber(1))"),
    (
        Call::Write("office", 2, &[("3", Some("Cap")), ("2", None)]),
        "Err(Broken { row: 2, rule: DuplicateKey })",
    ),
    (
        Call::Write("office", 2, &[("7", None), ("8", None), ("+07", None)]),
        "Err(Broken { row: 3, rule: DuplicateKey })",
    ),
    (Call::LastNumber("office"), "1"),
    (
        Call::Write("office", 2, &[]),
        "Ok(Done { first: 3, count: 0 })",
    ),
    (Call::LastNumber("office"), "2"),
    (Call::Write("office", 1, CAP), "Err(OldNumber(2))"),
    (Call::Write("office", 0, CAP), "Err(OldNumber(2))"),
    (
        Call::Write("desk", 1, CAP),
        "Ok(Done { first: 3, count: 1 })",
    ),
    (
        Call::Write("office", 2, CAP),
        "Ok(Again { first: 3, count: 0 })",
    ),
    (Call::LastNumber("till"), "0"),
    (Call::WriteAlike(0, 10_001), "Err(TooManyRows)"),
    (Call::WriteAlike(0, 10_000), "Err(OldNumber(2))"),
    (
        Call::WriteAlike(3, 10_000),
        "Err(Broken { row: 1, rule: DuplicateKey })",
    ),
    (
        Call::Shows("> table pair\n\"1\",\"Pen\"\n\"2\",\"Ink\"\n\"3\",\"Cap\"\n"),
        "yes",
    ),
];

#[test]
fn a_write_is_judged_by_its_size_its_number_and_its_keys(rt: HostRuntime) -> Result<(), Fail> {
    let alloc = rt.alloc();
    play(&rt, alloc, &mut corp(alloc)?, &WRITES)
}

const OWN_WRITES: [(Call, &str); 3] = [
    (
        Call::Write("desk", 1, CAP),
        "Ok(Done { first: 1, count: 0 })",
    ),
    (Call::Route, "Ok(0)"),
    (Call::IsSettled, "yes"),
];

#[test]
fn the_store_captures_nothing(rt: HostRuntime) -> Result<(), Fail> {
    let alloc = rt.alloc();
    play(&rt, alloc, &mut store(alloc)?, &OWN_WRITES)
}

const THREE: &[Pair] = &[("+07", Some("a\"b\\c")), ("8", None), ("9", Some(""))];

const PRINTED_THREE: &[Pair] = &[("7", Some("a\"b\\c")), ("8", None), ("9", Some(""))];

const BATCHES: [(Call, &str); 15] = [
    (Call::Route, "Ok(0)"),
    (
        Call::Write("office", 1, INK_AND_PEN),
        "Ok(Done { first: 1, count: 2 })",
    ),
    (Call::IsSettled, "yes"),
    (Call::Route, "Ok(1)"),
    (Call::IsSettled, "no"),
    (Call::Route, "Ok(0)"),
    (
        Call::Write("office", 2, THREE),
        "Ok(Done { first: 3, count: 3 })",
    ),
    (Call::Route, "Ok(1)"),
    (Call::Has(1, INK_AND_PEN), "yes"),
    (Call::Has(2, PRINTED_THREE), "yes"),
    (Call::Has(2, THREE), "no"),
    (Call::Has(0, &[]), "yes"),
    (Call::Has(3, &[]), "yes"),
    (
        Call::Shows(
            "> table pair\n\"1\",\"Pen\"\n\"2\",\"Ink\"\n\"7\",\"a\\\"b\\\\c\"\n\"8\",\n\"9\",\"\"\n",
        ),
        "yes",
    ),
    (Call::Offer("s1"), "[1, 2]"),
];

#[test]
fn a_routing_run_takes_what_waits_once(rt: HostRuntime) -> Result<(), Fail> {
    let alloc = rt.alloc();
    play(&rt, alloc, &mut corp(alloc)?, &BATCHES)
}

/// Four batches, and what their peer says of them.
const ACKS: [(Call, &str); 33] = [
    (Call::Offer("s1"), "[]"),
    (
        Call::Write("office", 1, INK_AND_PEN),
        "Ok(Done { first: 1, count: 2 })",
    ),
    (Call::Route, "Ok(1)"),
    (
        Call::Write("office", 2, THREE),
        "Ok(Done { first: 3, count: 3 })",
    ),
    (Call::Route, "Ok(1)"),
    (
        Call::Write("desk", 1, CAP),
        "Ok(Done { first: 6, count: 1 })",
    ),
    (Call::Route, "Ok(1)"),
    (
        Call::Write("desk", 2, &[("4", None)]),
        "Ok(Done { first: 7, count: 1 })",
    ),
    (Call::Route, "Ok(1)"),
    (Call::Offer("s2"), "UnknownNode"),
    (Call::Acks("s2", &[(1, None)]), "Err(UnknownNode)"),
    (
        Call::Acks("s1", &[(1, None), (99, None), (98, None)]),
        "Err(UnknownBatch(99))",
    ),
    (Call::Acks("s1", &[]), "Ok(0)"),
    (Call::Offer("s1"), "[1, 2, 3, 4]"),
    (Call::Acks("s1", &[(1, None), (2, Some((1, 9)))]), "Ok(2)"),
    (Call::Offer("s1"), "[2]"),
    (Call::Acks("s1", &[(2, Some((1, 9)))]), "Ok(0)"),
    (Call::Acks("s1", &[(2, Some((1, 7)))]), "Ok(1)"),
    (Call::Offer("s1"), "[2]"),
    (Call::Acks("s1", &[(3, Some((2, 7)))]), "Ok(1)"),
    (Call::Offer("s1"), "[2]"),
    (Call::Acks("s1", &[(2, Some((1, 9))), (3, None)]), "Ok(2)"),
    (Call::Offer("s1"), "[4]"),
    (
        Call::Acks("s1", &[(1, Some((1, 9))), (3, Some((2, 7)))]),
        "Ok(0)",
    ),
    (Call::Offer("s1"), "[4]"),
    (Call::IsSettled, "no"),
    (Call::Acks("s1", &[(4, None)]), "Ok(1)"),
    (Call::IsSettled, "yes"),
    (Call::Offer("s1"), "[]"),
    (Call::Acks("s1", &[(4, Some((1, 9)))]), "Ok(0)"),
    (Call::Offer("s1"), "[]"),
    (Call::IsSettled, "yes"),
    (Call::Route, "Ok(0)"),
];

#[test]
fn acks_lead_the_next_offer(rt: HostRuntime) -> Result<(), Fail> {
    let alloc = rt.alloc();
    play(&rt, alloc, &mut corp(alloc)?, &ACKS)
}

const FOUR: &[Pair] = &[
    ("1", Some("Cap")),
    ("10", Some("")),
    ("2", None),
    ("-5", None),
];

const LOADS: [(Call, &str); 13] = [
    (Call::Load("s2", 1, INK_AND_PEN), "Err(UnknownNode)"),
    (Call::Shows("> table pair\n"), "yes"),
    (
        Call::Load("corp", 1, INK_AND_PEN),
        "Ok(Loaded { place: 1 })",
    ),
    (Call::Load("corp", 1, INK_AND_PEN), "Ok(Again)"),
    (Call::Load("corp", 1, CAP), "Ok(Again)"),
    (
        Call::Shows("> table pair\n\"1\",\"Pen\"\n\"2\",\"Ink\"\n"),
        "yes",
    ),
    (Call::Load("corp", 3, FOUR), "Ok(Loaded { place: 2 })"),
    (
        Call::Shows("> table pair\n\"-5\",\n\"1\",\"Cap\"\n\"2\",\n\"10\",\"\"\n"),
        "yes",
    ),
    (Call::Load("corp", 2, CAP), "Ok(Again)"),
    (Call::Load("corp", 4, &[]), "Ok(Loaded { place: 3 })"),
    (
        Call::Shows("> table pair\n\"-5\",\n\"1\",\"Cap\"\n\"2\",\n\"10\",\"\"\n"),
        "yes",
    ),
    (Call::Route, "Ok(0)"),
    (Call::IsSettled, "yes"),
];

#[test]
fn a_batch_is_loaded_once(rt: HostRuntime) -> Result<(), Fail> {
    let alloc = rt.alloc();
    play(&rt, alloc, &mut store(alloc)?, &LOADS)
}
