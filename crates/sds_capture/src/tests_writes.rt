//! Own writes: the rule that each breaks, rows one after another, and what a refused one leaves.
ghost use Rattle.std.specs.Prelude.{◌≡◌};

use crate::tests_shop::{due, put_row, rows_of, shop, told};
use crate::{Broken, run_write};
use sds_base::NoMemory;
use sds_rows::Tables;
use sds_types::Config;
use std::alloc::Global;
use std::test::Fail;

/// Each line is a write, whose rows stand each after a slash, and how it ends. A line begins on
/// the tables that the lines before it left.
const RULES: [&str; 67] = [
    "/insert,item,1,Pen,2.50/insert,item,2,Ink, -> done, insert 1 Pen 250, insert 2 Ink -",
    "/insert,sale,a,1,/insert,sale,b,1,a -> done, insert a 1 -, insert b 1 a",
    // Each rule by itself.
    "/insert,nix,1 -> 1 UnknownTable",
    "/insert,,1 -> 1 UnknownTable",
    "/insert,item,1 -> 1 UnknownColumn",
    "/insert,item,3,Cap,1,1 -> 1 UnknownColumn",
    "/update,item -> 1 UnknownColumn",
    "/update,item,1,name -> 1 UnknownColumn",
    "/update,item,1,nix,2 -> 1 UnknownColumn",
    "/update,item,1,,2 -> 1 UnknownColumn",
    "/update,item,1,name,Cap,name,Cup -> 1 UnknownColumn",
    "/delete,item -> 1 UnknownColumn",
    "/delete,item,1,2 -> 1 UnknownColumn",
    "/insert,item,,Pen,2 -> 1 MissingKey",
    "/update,item,,name,Cap -> 1 MissingKey",
    "/delete,item, -> 1 MissingKey",
    "/insert,item,x,Pen,2 -> 1 BadValue",
    "/update,item,1,price,2.505 -> 1 BadValue",
    "/delete,item,x -> 1 BadValue",
    "/insert,item,3,Pencil,2 -> 1 TooLong",
    "/insert,item,3,,2 -> 1 NullNotAllowed",
    "/update,item,1,name, -> 1 NullNotAllowed",
    "/update,item,1,id, -> 1 NullNotAllowed",
    "/insert,item,1,Cap,2 -> 1 DuplicateKey",
    "/update,item,2,id,1 -> 1 DuplicateKey",
    "/update,item,99,price,2 -> 1 RowMissing",
    "/delete,item,99 -> 1 RowMissing",
    "/insert,sale,c,99, -> 1 MissingParent",
    "/update,sale,a,follows,z -> 1 MissingParent",
    "/delete,item,1 -> 1 HasChildren",
    "/update,item,1,id,3 -> 1 HasChildren",
    "/delete,sale,a -> 1 HasChildren",
    // Two rules: that of the smaller number is told.
    "/insert,nix -> 1 UnknownTable",
    "/insert,item,,Pen -> 1 UnknownColumn",
    "/insert,item,x,Pen -> 1 UnknownColumn",
    "/insert,item,3,Pencil -> 1 UnknownColumn",
    "/insert,item,1, -> 1 UnknownColumn",
    "/delete,item,99,1 -> 1 UnknownColumn",
    "/insert,item,,Pen,x -> 1 MissingKey",
    "/insert,item,,Pencil,2 -> 1 MissingKey",
    "/insert,item,,,2 -> 1 MissingKey",
    "/insert,item,3,Pencil,x -> 1 BadValue",
    "/insert,item,x,,2 -> 1 BadValue",
    "/insert,item,1,Pen,x -> 1 BadValue",
    "/insert,sale,c,x,Pencil -> 1 BadValue",
    "/insert,sale,Pencil,, -> 1 TooLong",
    "/insert,item,1,Pencil,2 -> 1 TooLong",
    "/update,item,99,name,Pencil -> 1 TooLong",
    "/insert,sale,c,99,Pencil -> 1 TooLong",
    "/update,item,1,id,3,name,Pencil -> 1 TooLong",
    "/insert,item,1,,2 -> 1 NullNotAllowed",
    "/update,item,99,name, -> 1 NullNotAllowed",
    "/update,item,99,id, -> 1 NullNotAllowed",
    "/insert,sale,c,,z -> 1 NullNotAllowed",
    "/update,item,1,id,3,name, -> 1 NullNotAllowed",
    "/update,item,99,id,1 -> 1 DuplicateKey",
    "/insert,sale,a,99, -> 1 DuplicateKey",
    "/update,item,1,id,2 -> 1 DuplicateKey",
    "/update,sale,z,item,99 -> 1 RowMissing",
    "/update,sale,a,id,c,item,99 -> 1 MissingParent",
    // What breaks none after all.
    "/update,item,1,id,1,price, -> done, update 1 Pen - for 1 Pen 250",
    "/update,item,2,name,Cap -> done, update 2 Cap - for 2 Ink -",
    "/update,item,2,id,4 -> done, update 4 Cap - for 2 Cap -",
    "/delete,sale,b -> done, delete for b 1 a",
    "/delete,sale,a/delete,item,1 -> done, delete for a 1 -, delete for 1 Pen -",
    "/update,item,4 -> done, update 4 Cap - for 4 Cap -",
    " -> done",
];

#[test]
fn the_first_rule_that_a_row_breaks_is_told(rt: HostRuntime) -> Result<(), Fail> {
    let alloc = rt.alloc();
    let config = shop(alloc)?;
    let mut tables = Tables::new(alloc, &config.tables)?;
    let out = told(alloc, &config, &mut tables, 0, &RULES)?;
    assert_eq!(rt; out, due(alloc, &RULES)?);
    Ok(())
}

/// Writes of several rows, on the tables that the rows before left.
const LISTS: [&str; 17] = [
    "/insert,sale,a,1,/insert,item,1,Pen, -> 1 MissingParent",
    "/insert,item,1,Pen,/insert,sale,a,1, -> done, insert 1 Pen -, insert a 1 -",
    // A refused write leaves none of its rows.
    "/insert,item,2,Ink,/insert,item,2,Ink, -> 2 DuplicateKey",
    "/delete,item,2 -> 1 RowMissing",
    "/delete,sale,a/delete,item,1/insert,item,x,Pen, -> 3 BadValue",
    "/update,sale,a,item,1 -> done, update a 1 - for a 1 -",
    "/delete,sale,a/delete,item,1/insert,item,1,Cap,2 -> done, delete for a 1 -, \
     delete for 1 Pen -, insert 1 Cap 200",
    // A row may refer to itself, at its insert and when its key changes.
    "/insert,sale,c,1,c -> done, insert c 1 c",
    "/update,sale,c,id,d -> 1 MissingParent",
    "/update,sale,c,id,d,follows,d -> done, update d 1 d for c 1 c",
    "/delete,sale,d -> done, delete for d 1 d",
    // The key's columns stand in the key's order and not in that of the table.
    "/insert,lot,7,1,x -> done, insert 7 1 x",
    "/update,lot,7,1,no,8 -> 1 RowMissing",
    "/update,lot,1,7,no,8 -> done, update 8 1 x for 7 1 x",
    "/insert,lot,8,1, -> 1 DuplicateKey",
    "/delete,item,1 -> 1 HasChildren",
    "/delete,lot,1,8/delete,item,1 -> done, delete for 8 1 x, delete for 1 Cap 200",
];

#[test]
fn rows_are_taken_one_after_another(rt: HostRuntime) -> Result<(), Fail> {
    let alloc = rt.alloc();
    let config = shop(alloc)?;
    let mut tables = Tables::new(alloc, &config.tables)?;
    let out = told(alloc, &config, &mut tables, 0, &LISTS)?;
    assert_eq!(rt; out, due(alloc, &LISTS)?);
    Ok(())
}

/// Writes where as many changes wait as may, so that no step may be captured.
const FULL: [&str; 10] = [
    "/insert,item,1,Pen, -> 1 CaptureFull",
    "/insert,lot,1,1, -> 1 MissingParent",
    "/insert,item,1,, -> 1 NullNotAllowed",
    "/insert,item,1,Pencil, -> 1 TooLong",
    "/update,item,9,name,Cap -> 1 RowMissing",
    // The later row of a write, which is captured; the rows before it are none that are captured.
    "/delete,item,9/insert,item,1,Pen, -> 1 RowMissing",
    "/insert,nix/insert,item,1,Pen, -> 1 UnknownTable",
    "/insert,item,x,Pen,/insert,item,1,Pen, -> 1 BadValue",
    "/insert,item,1 -> 1 UnknownColumn",
    "/insert,item,,Pen, -> 1 MissingKey",
];

/// The same where one fewer waits: the changes of the write itself aren't counted.
const ROOM: [&str; 2] = [
    "/insert,item,1,Pen,/insert,item,2,Ink,/insert,item,3,Cap, -> done, insert 1 Pen -, \
     insert 2 Ink -, insert 3 Cap -",
    "/insert,sale,a,1,/insert,sale,b,2,a -> done, insert a 1 -, insert b 2 a",
];

/// Where items and sales stand and no further change may wait.
const FULL_LATER: [&str; 7] = [
    "/update,item,1,name,Cup -> 1 CaptureFull",
    "/insert,item,1,Cup, -> 1 DuplicateKey",
    "/update,item,1,id,9 -> 1 HasChildren",
    // What isn't captured isn't refused.
    "/insert,sale,c,3, -> done, insert c 3 -",
    "/delete,sale,c/delete,item,3 -> done, delete for c 3 -, delete for 3 Cap -",
    "/insert,sale,d,2,/insert,item,4,Cup, -> 2 CaptureFull",
    "/delete,sale,d -> 1 RowMissing",
];

#[test]
fn too_many_waiting_changes_refuse_what_is_captured(rt: HostRuntime) -> Result<(), Fail> {
    let alloc = rt.alloc();
    let config = shop(alloc)?;
    let mut tables = Tables::new(alloc, &config.tables)?;
    let full = told(alloc, &config, &mut tables, 100_000, &FULL)?;
    assert_eq!(rt; full, due(alloc, &FULL)?);
    let room = told(alloc, &config, &mut tables, 99_999, &ROOM)?;
    assert_eq!(rt; room, due(alloc, &ROOM)?);
    let later = told(alloc, &config, &mut tables, 100_000, &FULL_LATER)?;
    assert_eq!(rt; later, due(alloc, &FULL_LATER)?);
    Ok(())
}

/// The rows of all tables.
fn dump(alloc: Global, tables: &Tables) -> Result<String, NoMemory> {
    let mut out = String::new(alloc);
    for table in 0..3 {
        for row in tables.rows(alloc, table)? {
            put_row(alloc, &mut out, row)?;
            out.push('\n')?;
        }
    }
    Ok(out)
}

/// A long write, in which rows of all tables are inserted, moved and deleted.
const LONG: &str = "/insert,item,5,Pen,/insert,item,3,Ink,/insert,sale,m,5,/insert,item,4,Cap,1\
                    /update,sale,m,id,a,item,3/insert,sale,k,4,a/update,item,5,id,1\
                    /update,item,3,price,7/insert,sale,z,1,z/delete,sale,k/insert,lot,1,4,x\
                    /update,lot,4,1,no,2,item,3/delete,item,4/update,sale,z,id,b,follows,b,item,3\
                    /delete,item,1/insert,item,9,Mug,/delete,lot,3,2";

/// Whether a write of the first rows of the long one and then a bad one is refused at that one, and
/// leaves the rows as before.
fn is_undone(
    alloc: Global,
    config: &Config,
    tables: &mut Tables,
    most: usize,
) -> Result<bool, NoMemory>
    requires { tables.old.defs ≡ config.now.tables }
    ensures { tables.new.defs ≡ config.now.tables }
{
    let before = dump(alloc, tables)?;
    let mut tx = rows_of(alloc, LONG)?;
    tx.truncate(most);
    tx.append(&mut rows_of(alloc, "/delete,item,99")?)?;
    if tx.len() > 10_000 {
        return Err(NoMemory);
    }
    let number = tx.len() as u32;
    match run_write(alloc, config, "corp", tables, &tx, 0) {
        Err(Broken::Rule { row, .. }) => Ok(row == number && dump(alloc, tables)? == before),
        _ => Ok(false),
    }
}

#[test]
fn a_refused_write_leaves_the_rows_after_each_number_of_steps(rt: HostRuntime) -> Result<(), Fail> {
    let alloc = rt.alloc();
    let config = shop(alloc)?;
    let mut tables = Tables::new(alloc, &config.tables)?;
    let begun = [
        "/insert,item,7,Bag,2/insert,sale,s,7,s/insert,lot,1,7,x -> done, insert 7 Bag 200, \
         insert s 7 s, insert 1 7 x",
    ];
    let out = told(alloc, &config, &mut tables, 0, &begun)?;
    assert_eq!(rt; out, due(alloc, &begun)?);
    let rows = rows_of(alloc, LONG)?.len();
    assert_eq!(rt; rows, 17);
    for most in 0..18 {
        assert!(rt; is_undone(alloc, &config, &mut tables, most)?);
    }
    Ok(())
}
