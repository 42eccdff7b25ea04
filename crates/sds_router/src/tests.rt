//! Whom the expressions of routers name, each expression with changes of each event.
ghost use Rattle.std.specs.Prelude.{IfSome};
ghost use Rattle.sds_trade.specs.rules.Fitting.{FitsRow};
ghost use Rattle.sds_router.specs.Standing.{AreRowsOf};

use crate::names;
use crate::tests_rows::{Given, change_of, nothing, peer, standing, tables};
use sds_base::{List, NoMemory, Txt};
use sds_expressions::{column_tests, lookup_text, subselect_text};
use sds_types::{Change, Config, RouterDef, RouterExpression, RouterKind, TableRow};
use sds_value::{Event, Peer};
use std::alloc::Global;
use std::test::Fail;

/// A purchase that is put, one that goes from one store to another, one that is taken away, one
/// without values, and one whose texts are empty.
pub(crate) const PUT: Given = Given {
    event: Event::Insert,
    new: [Some("7"), Some("001"), Some("store"), Some("2.50")],
    old: [None, None, None, None],
};

pub(crate) const MOVED: Given = Given {
    event: Event::Update,
    new: [Some("7"), Some("002"), None, Some("2.50")],
    old: [Some("7"), Some("001"), Some("x"), None],
};

pub(crate) const TAKEN: Given = Given {
    event: Event::Delete,
    new: [None, None, None, None],
    old: [Some("7"), Some("001"), Some(""), Some("2.50")],
};

pub(crate) const BARE: Given = Given {
    event: Event::Insert,
    new: [Some("7"), None, None, None],
    old: [None, None, None, None],
};

const EMPTY: Given = Given {
    event: Event::Insert,
    new: [Some("7"), Some(""), Some(""), Some("0")],
    old: [None, None, None, None],
};

/// What a router's expression says, by its kind and its text. Where the text isn't one of the kind
/// there is nothing, and the test fails.
pub(crate) fn parsed(
    alloc: Global,
    kind: RouterKind,
    text: &str,
) -> Result<RouterExpression, NoMemory> {
    match kind {
        RouterKind::Default => Ok(RouterExpression::Everything),
        RouterKind::Column => match column_tests(alloc, text)? {
            Ok(tests) => Ok(RouterExpression::Tests(tests)),
            Err(_place) => Err(NoMemory),
        },
        RouterKind::LookupTable => match lookup_text(alloc, text)? {
            Ok(lookup) => Ok(RouterExpression::Finds(lookup)),
            Err(_place) => Err(NoMemory),
        },
        RouterKind::Subselect => match subselect_text(alloc, text)? {
            Ok(choice) => Ok(RouterExpression::Chooses(choice)),
            Err(_place) => Err(NoMemory),
        },
    }
}

/// The tables, and one router.
fn config(alloc: Global, kind: RouterKind, text: &str) -> Result<Config, NoMemory> {
    let mut routers = List::new(alloc);
    routers.push(RouterDef {
        id: Txt::copied(alloc, "router")?,
        source_group: 0,
        target_group: 1,
        kind,
        expression: Txt::copied(alloc, text)?,
        parsed: parsed(alloc, kind, text)?,
    })?;
    Ok(Config {
        groups: List::new(alloc),
        links: List::new(alloc),
        channels: List::new(alloc),
        tables: tables(alloc)?,
        triggers: List::new(alloc),
        routers,
        trigger_routers: List::new(alloc),
        transforms: List::new(alloc),
        conflicts: List::new(alloc),
    })
}

/// Two stores; a node whose id is the first one's external id, and whose external id is the second
/// one's id; and one whose external id is the empty text.
fn peers(alloc: Global) -> Result<Vec<Peer>, NoMemory> {
    let mut peers = Vec::new(alloc);
    peers.push(peer(alloc, "s1", "store", "001")?)?;
    peers.push(peer(alloc, "s2", "store", "002")?)?;
    peers.push(peer(alloc, "001", "corp", "s2")?)?;
    peers.push(peer(alloc, "s4", "store", "")?)?;
    Ok(peers)
}

/// Adds the letters of the nodes that a router names for a change, from `a` on, or `-` for none.
fn put_named(
    alloc: Global,
    out: &mut String,
    config: &Config,
    rows: &List<TableRow>,
    change: &Change,
    router: u32,
) -> Result<(), NoMemory>
    requires tables { AreRowsOf config.now.tables rows.now }
    requires new { IfSome change.now.new (FitsRow config.now.tables change.now.table) }
    requires old { IfSome change.now.old (FitsRow config.now.tables change.now.table) }
{
    let mut any = false;
    let peers = peers(alloc)?;
    for (place, peer) in peers.iter().enumerate() {
        if names(alloc, config, rows, change, router, peer)? {
            out.push(match place {
                0 => 'a',
                1 => 'b',
                2 => 'c',
                _ => 'd',
            })?;
            any = true;
        }
    }
    if !any {
        out.push('-')?;
    }
    Ok(())
}

/// Whom a router names for each of the five changes.
fn named(
    alloc: Global,
    config: &Config,
    rows: &List<TableRow>,
    router: u32,
) -> Result<String, NoMemory>
    requires { AreRowsOf config.now.tables rows.now }
{
    let mut out = String::new(alloc);
    for (place, given) in [PUT, MOVED, TAKEN, BARE, EMPTY].iter().enumerate() {
        if place > 0 {
            out.push(' ')?;
        }
        let change = change_of(alloc, config.tables.inner(), *given)?;
        put_named(alloc, &mut out, config, rows, &change, router)?;
    }
    Ok(out)
}

/// Whom an expression names where the rows stand.
fn named_by(alloc: Global, kind: RouterKind, text: &str) -> Result<String, NoMemory> {
    let config = config(alloc, kind, text)?;
    let rows = standing(alloc, config.tables.inner())?;
    named(alloc, &config, &rows, 0)
}

#[test]
fn tests_of_columns(rt: HostRuntime) -> Result<(), Fail> {
    for (text, due) in [
        // The three texts of a node, and a null that is none of them.
        ("STORE_ID=:EXTERNAL_ID", "a b a - d"),
        ("STORE_ID=:EXTERNAL_ID\n", "a b a - d"),
        ("STORE_ID=:NODE_ID", "c - c - -"),
        ("note=:NODE_GROUP_ID", "abd - - - -"),
        ("STORE_ID!=:EXTERNAL_ID", "bcd acd bcd abcd abc"),
        // Old values, which an insert lacks.
        ("OLD_STORE_ID=:EXTERNAL_ID", "- a a - -"),
        ("OLD_STORE_ID!=:EXTERNAL_ID", "abcd bcd bcd abcd abcd"),
        ("OLD_STORE_ID=NULL", "abcd - - abcd abcd"),
        ("OLD_price=NULL", "abcd abcd - abcd abcd"),
        ("OLD_note=x", "- abcd - - -"),
        // Null is not the empty text.
        ("note=NULL", "- abcd - abcd -"),
        ("note!=NULL", "abcd - abcd - abcd"),
        ("note=''", "- - abcd - abcd"),
        ("note!=''", "abcd abcd - abcd -"),
        // Texts, and numbers as they are printed.
        ("STORE_ID=001", "abcd - abcd - -"),
        ("STORE_ID!=001", "- abcd - abcd abcd"),
        ("id='7'", "abcd abcd abcd abcd abcd"),
        ("price=2.50", "abcd abcd abcd - -"),
        ("price=2.5", "- - - - -"),
        ("price=0.00", "- - - - abcd"),
        // One of several tests.
        ("STORE_ID=001 or STORE_ID=002", "abcd abcd abcd - -"),
        (
            "STORE_ID=:EXTERNAL_ID or OLD_STORE_ID = :EXTERNAL_ID",
            "a ab a - d",
        ),
        ("STORE_ID=:EXTERNAL_ID\nSTORE_ID=:NODE_ID", "ac b ac - d"),
        ("STORE_ID=:NODE_ID or note=NULL", "c abcd c abcd -"),
        // A column that the table lacks is null.
        ("shade=NULL", "abcd abcd abcd abcd abcd"),
        ("OLD_shade=NULL", "abcd abcd abcd abcd abcd"),
        ("shade!=NULL", "- - - - -"),
        ("shade=:EXTERNAL_ID", "- - - - -"),
        ("shade!=''", "abcd abcd abcd abcd abcd"),
    ] {
        let got = named_by(rt.alloc(), RouterKind::Column, text)?;
        assert_eq!(rt; got.as_str(), due, "{text}");
    }
    Ok(())
}

#[test]
fn lookups(rt: HostRuntime) -> Result<(), Fail> {
    for (table, column, lookup_column, external, due) in [
        // The routed row's text, of a delete the old one. A row of no store names nobody, a null is
        // looked up nowhere, and the empty text is one.
        ("stocked", "STORE_ID", "place", "store", "b a b - c"),
        ("stocked", "note", "place", "store", "- - c - c"),
        // Columns of different kinds, by what is printed of them.
        ("stocked", "price", "code", "store", "b b b - c"),
        ("stocked", "id", "id", "store", "- - - - -"),
        // Rows of the table that is named alone.
        ("purchase", "STORE_ID", "STORE_ID", "note", "a - a - -"),
        // What isn't there names nobody.
        ("stocked", "shade", "place", "store", "- - - - -"),
        ("stocked", "STORE_ID", "shade", "store", "- - - - -"),
        ("stocked", "STORE_ID", "place", "shade", "- - - - -"),
        ("nothing", "STORE_ID", "place", "store", "- - - - -"),
    ] {
        let alloc = rt.alloc();
        let first = format!(in alloc; "LOOKUP_TABLE={table}\nKEY_COLUMN={column}\n")?;
        let second = format!(in alloc; "LOOKUP_KEY_COLUMN={lookup_column}\n")?;
        let third = format!(in alloc; "EXTERNAL_ID_COLUMN={external}")?;
        let text = format!(in alloc; "{first}{second}{third}")?;
        let got = named_by(alloc, RouterKind::LookupTable, text.as_str())?;
        assert_eq!(rt; got.as_str(), due, "{text}");
    }
    Ok(())
}

#[test]
fn choices(rt: HostRuntime) -> Result<(), Fail> {
    for (word, column, conditions, due) in [
        // By the external id and by the id.
        ("external_id", "store", "place=:STORE_ID", "b a b - c"),
        ("node_id", "store", "place=:STORE_ID", "- c - - b"),
        // Every condition is met, and null meets none.
        (
            "external_id",
            "store",
            "place=:STORE_ID and code='2.50'",
            "b - b - -",
        ),
        (
            "external_id",
            "store",
            "place=:STORE_ID and code=:price",
            "b - b - c",
        ),
        ("external_id", "store", "code='2.50'", "b b b b b"),
        ("external_id", "store", "code=''", "b b b b b"),
        ("external_id", "store", "place=''", "c c c c c"),
        ("external_id", "store", "place=:note", "- - c - c"),
        ("external_id", "store", "id='3'", "a a a a a"),
        // What isn't there names nobody.
        ("external_id", "store", "place=:shade", "- - - - -"),
        ("external_id", "store", "shade=''", "- - - - -"),
        ("external_id", "shade", "code=''", "- - - - -"),
    ] {
        let alloc = rt.alloc();
        let from = format!(in alloc; "c.{word} in (select {column} from stocked where ")?;
        let text = format!(in alloc; "{from}{conditions})")?;
        let got = named_by(alloc, RouterKind::Subselect, text.as_str())?;
        assert_eq!(rt; got.as_str(), due, "{text}");
    }
    Ok(())
}

/// Whom an expression names where no row stands.
fn named_by_none(
    alloc: Global,
    kind: RouterKind,
    text: &str,
    router: u32,
) -> Result<String, NoMemory> {
    let config = config(alloc, kind, text)?;
    let rows = nothing(alloc, config.tables.inner());
    named(alloc, &config, &rows, router)
}

pub(crate) const LOOKUP: &str =
    "LOOKUP_TABLE=stocked\nKEY_COLUMN=STORE_ID\nLOOKUP_KEY_COLUMN=place\n\
EXTERNAL_ID_COLUMN=store";

const CHOICE: &str = "c.external_id in (select store from stocked where place=:STORE_ID)";

#[test]
fn rows_that_stand_decide(rt: HostRuntime) -> Result<(), Fail> {
    for (kind, text, router, due) in [
        (RouterKind::Default, "", 0, "abcd abcd abcd abcd abcd"),
        (RouterKind::Default, "", 1, "- - - - -"),
        (RouterKind::Column, "STORE_ID=:EXTERNAL_ID", 0, "a b a - d"),
        (RouterKind::LookupTable, LOOKUP, 0, "- - - - -"),
        (RouterKind::Subselect, CHOICE, 0, "- - - - -"),
    ] {
        let got = named_by_none(rt.alloc(), kind, text, router)?;
        assert_eq!(rt; got.as_str(), due, "{text}");
    }
    Ok(())
}
