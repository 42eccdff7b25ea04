//! Rows that transforms make, each case in a table with what is due.
use crate::at_load;
use crate::tests_parts::{Column, Given, Part, config, row_of, told, transform, way};
use sds_base::{List, NoMemory, Txt};
use sds_types::{ColumnPolicy, DeleteAction, NodeWord, Point};
use sds_value::Event;
use std::alloc::Global;
use std::test::Fail;

const INSERT: Given = Given {
    event: Event::Insert,
    key: "1",
    new: [Some("1"), Some("abcdef"), None],
    old: [None, None, None],
    has_old: false,
};

const UPDATE: Given = Given {
    event: Event::Update,
    key: "1",
    new: [Some("2"), Some("abcdef"), Some("x")],
    old: [Some("1"), Some("zyx"), None],
    has_old: true,
};

const DELETE: Given = Given {
    event: Event::Delete,
    key: "1",
    new: [None, None, None],
    old: [Some("1"), Some("zyx"), None],
    has_old: true,
};

fn without_old(given: Given) -> Given {
    Given {
        has_old: false,
        ..given
    }
}

fn with_a(a: Option<&'static str>) -> Given {
    Given {
        new: [Some("1"), a, None],
        ..INSERT
    }
}

/// What one transform makes of a row as it is loaded.
fn loaded(
    alloc: Global,
    policy: ColumnPolicy,
    action: DeleteAction,
    columns: &[Column],
    given: Given,
) -> Result<String, NoMemory> {
    let mut transforms = List::new(alloc);
    transforms.push(transform(alloc, Point::Load, policy, action, columns)?)?;
    let config = config(alloc, transforms)?;
    let rows = at_load(alloc, &config, &way(alloc)?, &row_of(alloc, given)?)?;
    told(alloc, rows.inner().as_slice())
}

/// Adds a line: what one transform makes of a row as it is loaded.
fn tell(
    alloc: Global,
    out: &mut String,
    policy: ColumnPolicy,
    action: DeleteAction,
    columns: &[Column],
    given: Given,
) -> Result<(), NoMemory> {
    let made = loaded(alloc, policy, action, columns, given)?;
    out.push_str(made.as_str())?;
    out.push('\n')?;
    Ok(())
}

#[test]
fn each_kind_of_column(rt: HostRuntime) -> Result<(), Fail> {
    let alloc = rt.alloc();
    let text = Some("abcdef");
    let exact = Part::Map("a", "1", "*", "9");
    let star = Part::Map("*", "9", "a", "1");
    let twice = Part::Map("a", "1", "a", "2");
    for (source, part, a, wanted) in [
        ("a", Part::Copy, text, "'abcdef'"),
        ("a", Part::Copy, Some(""), "''"),
        ("a", Part::Copy, None, "null"),
        ("none", Part::Copy, text, "null"),
        ("", Part::Const("k"), text, "'k'"),
        ("b", Part::Const("k"), None, "'k'"),
        ("b", Part::Const(""), None, "''"),
        ("a", Part::Left(2), text, "'ab'"),
        ("a", Part::Left(0), text, "''"),
        ("a", Part::Left(9), text, "'abcdef'"),
        ("a", Part::Left(2), Some("äöü"), "'äö'"),
        ("a", Part::Left(2), None, "null"),
        ("a", Part::Substr(2, Some(4)), text, "'cd'"),
        ("a", Part::Substr(4, Some(9)), text, "'ef'"),
        ("a", Part::Substr(4, Some(2)), text, "''"),
        ("a", Part::Substr(9, None), text, "''"),
        ("a", Part::Substr(9, Some(12)), text, "''"),
        ("a", Part::Substr(4, None), text, "'ef'"),
        ("a", Part::Substr(1, Some(2)), Some("äöü"), "'ö'"),
        ("a", Part::Substr(0, None), None, "null"),
        ("a", exact, Some("a"), "'1'"),
        ("a", exact, Some("z"), "'9'"),
        ("a", star, Some("a"), "'1'"),
        ("a", star, Some("*"), "'9'"),
        ("a", twice, Some("a"), "'1'"),
        ("a", twice, Some("z"), "null"),
        ("a", exact, None, "null"),
        ("", Part::Variable(NodeWord::SourceNode), text, "'s1'"),
        ("b", Part::Variable(NodeWord::TargetNode), None, "'corp'"),
    ] {
        let columns = [("o", source, true, "*", part)];
        let policy = ColumnPolicy::Specified;
        let got = loaded(alloc, policy, DeleteAction::DelRow, &columns, with_a(a))?;
        let due = format!(in alloc; "insert u keys o; columns o {wanted}")?;
        assert_eq!(rt; got.as_str(), due.as_str(), "{source} {a:?}");
    }
    Ok(())
}

/// The key, a column under another name, and a constant of inserts alone.
pub(crate) const THREE: [Column; 3] = [
    ("id", "id", true, "*", Part::Copy),
    ("o", "a", false, "*", Part::Left(2)),
    ("k", "", false, "I", Part::Const("new")),
];

/// A column in the place of one of the source's, one that is taken away, and a further one.
pub(crate) const OTHERS: [Column; 3] = [
    ("z", "", false, "UI", Part::Const("new")),
    ("a", "b", false, "*", Part::Copy),
    ("b", "", false, "I", Part::Remove),
];

/// Another key, for which the source's is taken away, and a mark of deletes.
pub(crate) const OTHER_KEY: [Column; 3] = [
    ("n", "id", true, "*", Part::Copy),
    ("id", "", false, "*", Part::Remove),
    ("gone", "", false, "D", Part::Const("yes")),
];

/// A mark of deletes alone.
pub(crate) const MARK: [Column; 1] = [("gone", "", false, "D", Part::Const("yes"))];

/// The same, the key beside it being another one.
pub(crate) const BOTH_KEYS: [Column; 2] = [
    ("n", "a", true, "*", Part::Copy),
    ("gone", "", false, "D", Part::Const("yes")),
];

/// A number that is added, of which there is none at a delete.
const SUM: [Column; 2] = [
    ("id", "id", true, "*", Part::Copy),
    ("b", "b", false, "*", Part::Additive(-2)),
];

/// The listed columns alone, in their order.
const LISTED_COLUMNS_ARE_MADE: &str = "\
insert u keys id; columns id o k '1' 'ab' 'new'
update u keys id '1'; columns id o '2' 'ab'; old '1' 'zy'
update u keys id '1'; columns id o '2' 'ab'
delete u keys id '1'; columns id o; old '1' 'zy'
delete u keys id '1'; columns id o

update u keys id '1'; columns id o '2' 'ab'; old '1' 'zy'
update u keys id '1'; columns id o '1' 'zy'; old '1' 'zy'
update u keys id '1'; columns id o '1' null
insert u keys id; columns id o k '1' 'ab' 'new'
";

#[test]
fn listed_columns_are_made(rt: HostRuntime) -> Result<(), Fail> {
    let alloc = rt.alloc();
    let row = DeleteAction::DelRow;
    let mark = DeleteAction::UpdateCol;
    let nothing = DeleteAction::Nothing;
    let listed = ColumnPolicy::Specified;
    let lone = without_old(UPDATE);
    let gone = without_old(DELETE);
    let mut out = String::new(alloc);
    tell(alloc, &mut out, listed, row, &THREE, INSERT)?;
    tell(alloc, &mut out, listed, row, &THREE, UPDATE)?;
    tell(alloc, &mut out, listed, row, &THREE, lone)?;
    tell(alloc, &mut out, listed, row, &THREE, DELETE)?;
    tell(alloc, &mut out, listed, row, &THREE, gone)?;
    tell(alloc, &mut out, listed, nothing, &THREE, DELETE)?;
    tell(alloc, &mut out, listed, nothing, &THREE, UPDATE)?;
    tell(alloc, &mut out, listed, mark, &THREE, DELETE)?;
    tell(alloc, &mut out, listed, mark, &THREE, gone)?;
    tell(alloc, &mut out, listed, mark, &THREE, INSERT)?;
    assert_eq!(rt; out.as_str(), LISTED_COLUMNS_ARE_MADE);
    Ok(())
}

/// The source's columns in their places, and then the further ones.
const COLUMNS_OF_THE_SOURCE_STAY: &str = "\
insert u keys id; columns id a z '1' null 'new'
update u keys id '1'; columns id a b z '2' 'x' 'x' 'new'; old '1' null null 'new'
update u keys id '1'; columns id a b z '2' 'x' 'x' 'new'
delete u keys id '1'; columns id a b; old '1' null null
delete u keys id '1'; columns id a b
";

#[test]
fn columns_of_the_source_stay(rt: HostRuntime) -> Result<(), Fail> {
    let alloc = rt.alloc();
    let row = DeleteAction::DelRow;
    let all = ColumnPolicy::Implied;
    let lone = without_old(UPDATE);
    let gone = without_old(DELETE);
    let mut out = String::new(alloc);
    tell(alloc, &mut out, all, row, &OTHERS, INSERT)?;
    tell(alloc, &mut out, all, row, &OTHERS, UPDATE)?;
    tell(alloc, &mut out, all, row, &OTHERS, lone)?;
    tell(alloc, &mut out, all, row, &OTHERS, DELETE)?;
    tell(alloc, &mut out, all, row, &OTHERS, gone)?;
    assert_eq!(rt; out.as_str(), COLUMNS_OF_THE_SOURCE_STAY);
    Ok(())
}

/// Keys: the listed ones, and then those of the source that remain.
const KEYS_ARE_MADE: &str = "\
insert u keys n; columns a b n 'abcdef' null '1'
update u keys n '1'; columns a b n 'abcdef' 'x' '2'; old 'zyx' null '1'
update u keys n id 'zyx' '1'; columns id a b n '2' 'abcdef' 'x' 'abcdef'; old '1' 'zyx' null 'zyx'
delete u keys n id null '1'; columns id a b n gone
update u keys; columns; old
";

#[test]
fn keys_are_made(rt: HostRuntime) -> Result<(), Fail> {
    let alloc = rt.alloc();
    let row = DeleteAction::DelRow;
    let listed = ColumnPolicy::Specified;
    let all = ColumnPolicy::Implied;
    let gone = without_old(DELETE);
    let mut out = String::new(alloc);
    tell(alloc, &mut out, all, row, &OTHER_KEY, INSERT)?;
    tell(alloc, &mut out, all, row, &OTHER_KEY, UPDATE)?;
    tell(alloc, &mut out, all, row, &BOTH_KEYS, UPDATE)?;
    tell(alloc, &mut out, all, row, &BOTH_KEYS, gone)?;
    tell(alloc, &mut out, listed, row, &MARK, UPDATE)?;
    assert_eq!(rt; out.as_str(), KEYS_ARE_MADE);
    Ok(())
}

/// A delete that becomes an update: the listed columns, and the source's keys that remain.
const DELETES_BECOME_UPDATES: &str = "\
update u keys id '1'; columns gone id 'yes' '1'; old 'yes' '1'
update u keys id '1'; columns gone id 'yes' '1'
update u keys n '1'; columns n gone '1' 'yes'; old '1' 'yes'
update u keys n id 'zyx' '1'; columns n gone id 'zyx' 'yes' '1'; old 'zyx' 'yes' '1'
";

#[test]
fn deletes_become_updates(rt: HostRuntime) -> Result<(), Fail> {
    let alloc = rt.alloc();
    let mark = DeleteAction::UpdateCol;
    let all = ColumnPolicy::Implied;
    let gone = without_old(DELETE);
    let mut out = String::new(alloc);
    tell(alloc, &mut out, all, mark, &MARK, DELETE)?;
    tell(alloc, &mut out, all, mark, &MARK, gone)?;
    tell(alloc, &mut out, all, mark, &OTHER_KEY, DELETE)?;
    tell(alloc, &mut out, all, mark, &BOTH_KEYS, DELETE)?;
    assert_eq!(rt; out.as_str(), DELETES_BECOME_UPDATES);
    Ok(())
}

/// A column that is added to; of a delete nothing is.
const NUMBERS_ARE_ADDED: &str = "\
insert u keys id; columns id b '1' null; adds 2 by -2
update u keys id '1'; columns id b '2' 'x'; old '1' null; adds 2 by -2
delete u keys id '1'; columns id; old '1'
delete u keys id '1'; columns id a b; old '1' 'zyx' null
";

#[test]
fn numbers_are_added(rt: HostRuntime) -> Result<(), Fail> {
    let alloc = rt.alloc();
    let row = DeleteAction::DelRow;
    let listed = ColumnPolicy::Specified;
    let all = ColumnPolicy::Implied;
    let mut out = String::new(alloc);
    tell(alloc, &mut out, listed, row, &SUM, INSERT)?;
    tell(alloc, &mut out, listed, row, &SUM, UPDATE)?;
    tell(alloc, &mut out, listed, row, &SUM, DELETE)?;
    tell(alloc, &mut out, all, row, &SUM, DELETE)?;
    assert_eq!(rt; out.as_str(), NUMBERS_ARE_ADDED);
    Ok(())
}

const SEVERAL_INSERTS: &str = "\
insert u keys id; columns id o k '1' 'ab' 'new' | insert u keys id; columns id o k '1' 'ab' 'new' | \
insert u keys id; columns id b '1' null; adds 2 by -2";

#[test]
fn several_transforms_of_one_table(rt: HostRuntime) -> Result<(), Fail> {
    let alloc = rt.alloc();
    let policy = ColumnPolicy::Specified;
    let mut transforms = List::new(alloc);
    let nothing = DeleteAction::Nothing;
    let row = DeleteAction::DelRow;
    let undeleted = transform(alloc, Point::Load, policy, nothing, &THREE)?;
    transforms.push(undeleted)?;
    let whole = transform(alloc, Point::Load, policy, row, &THREE)?;
    transforms.push(whole)?;
    let added = transform(alloc, Point::Load, policy, row, &SUM)?;
    transforms.push(added)?;
    let written = transform(alloc, Point::Extract, policy, row, &THREE)?;
    transforms.push(written)?;
    let mut back = transform(alloc, Point::Load, policy, row, &THREE)?;
    back.source_group = 0;
    transforms.push(back)?;
    let config = config(alloc, transforms)?;
    let way = way(alloc)?;
    let rows = at_load(alloc, &config, &way, &row_of(alloc, INSERT)?)?;
    let got = told(alloc, rows.inner().as_slice())?;
    assert_eq!(rt; got.as_str(), SEVERAL_INSERTS);
    let delete = row_of(alloc, without_old(DELETE))?;
    let rows = at_load(alloc, &config, &way, &delete)?;
    let got = told(alloc, rows.inner().as_slice())?;
    assert_eq!(rt;
        got.as_str(),
        "delete u keys id '1'; columns id o | delete u keys id '1'; columns id"
    );
    let mut other = row_of(alloc, INSERT)?;
    other.table = Txt::copied(alloc, "other")?;
    let rows = at_load(alloc, &config, &way, &other)?;
    let got = told(alloc, rows.inner().as_slice())?;
    assert_eq!(rt;
        got.as_str(),
        "insert other keys id; columns id a b '1' 'abcdef' null"
    );
    Ok(())
}
