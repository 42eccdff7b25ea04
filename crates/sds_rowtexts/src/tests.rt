//! Rows of texts with what they are read as: each line of a table is a row of words and what is
//! due.
use crate::tests_parts::told;
use sds_types::Add;
use sds_value::Binary;
use std::test::Fail;

/// Each event: the key in its table's order, whatever the order of its names, and the columns in
/// the row's order.
const READ: &str = "\
insert s id id 1 . none => 7 insert 0 key 1; columns 0; new 1
insert t area,id id,area,name,price 1,n,Tea,2.5 . none \
    => 7 insert 1 key 'n' 1; columns 0 1 2 3; new 1 'n' 'Tea' units 250
insert t id,area price,area,id +2,n,01 . none \
    => 7 insert 1 key 'n' 1; columns 3 1 0; new units 200 'n' 1
insert t id,area id,area,name 1,,~ . 1,n,~ \
    => 7 insert 1 key '' 1; columns 0 1 2; new 1 '' null; old 1 'n' null
update t id,area name,price Tea,~ 1,n Ink,1 \
    => 7 update 1 key 'n' 1; columns 2 3; new 'Tea' null; old 'Ink' units 100
update t area,id name Tea n,1 none => 7 update 1 key 'n' 1; columns 2; new 'Tea'
update t id,area id,area 2,~ 1,n 1,n => 7 update 1 key 'n' 1; columns 0 1; new 2 null; old 1 'n'
delete t id,area id,name . 1,n 1,Tea => 7 delete 1 key 'n' 1; columns 0 2; new; old 1 'Tea'
delete t area,id name . n,1 none => 7 delete 1 key 'n' 1; columns 2; new
delete t area,id . . n,1 . => 7 delete 1 key 'n' 1; columns; new; old
insert t id,area id,area,code 1,n,AQI= . none \
    => 7 insert 1 key 'n' 1; columns 0 1 4; new 1 'n' bytes.1.2
";

/// Each rule broken in one way and another.
const BROKEN: &str = "\
insert x id id 1 . none => UnknownTable
delete T id . . 1 none => UnknownTable
insert t id,area id,area,colour 1,n,red . none => UnknownColumn
insert t id,Area id,area 1,n . none => UnknownColumn
insert t id,area id,area,id 1,n,1 . none => UnknownColumn
update t id,area name,name Tea,Tea 1,n none => UnknownColumn
insert t id,area,id id,area 1,n . none => UnknownColumn
insert t id,area id,area 1 . none => UnknownColumn
insert t id,area id,area 1,n,Tea . none => UnknownColumn
insert t id,area id,area 1,n 1,n none => UnknownColumn
update t id,area name . 1,n none => UnknownColumn
update t id,area name Tea 1 none => UnknownColumn
update t id,area name Tea 1,n,x none => UnknownColumn
delete t id,area name Tea 1,n none => UnknownColumn
delete t id,area name . . none => UnknownColumn
delete t id,area name . 1,n . => UnknownColumn
update t id,area name Tea 1,n Tea,Ink => UnknownColumn
insert t id id,area 1,n . none => MissingKey
insert t id,area,name id,area,name 1,n,Tea . none => MissingKey
insert t id,name id,area,name 1,n,Tea . none => MissingKey
insert t id,area id,area 1,~ . none => MissingKey
insert t id,area id,name 1,Tea . none => MissingKey
update t id,area name Tea 1,~ none => MissingKey
delete t id,area id,area . ~,n 1,n => MissingKey
insert t id,area id,area x,n . none => BadValue
insert t id,area id,area 9223372036854775808,n . none => BadValue
insert t id,area id,area,price 1,n,1.005 . none => BadValue
insert t id,area id,area,name 1,n,Tea\0cup . none => BadValue
insert t id,area id,area,code 1,n,AQI . none => BadValue
update t id,area name Tea x,n none => BadValue
update t id,area id 2 1,n x => BadValue
delete t id,area price . 1,n x => BadValue
insert t id,area id,area,name 1,n,Green . none => TooLong
insert t id,area id,area,code 1,n,AQID . none => TooLong
update t id,area name Tea 1,north none => TooLong
update t id,area name Tea 1,n Green => TooLong
";

/// Two rules broken at once: the one of the lesser number is told, whatever their order in the row.
const BOTH_BROKEN: &str = "\
insert x id colour 1 . none => UnknownTable
insert x id,id id ~ . none => UnknownTable
insert x id id x . none => UnknownTable
insert x name name Green . none => UnknownTable
insert t id,area id,colour ~,n . none => UnknownColumn
update t id,area name,name x,x x,n none => UnknownColumn
update t id,area name,colour Green,n 1,north none => UnknownColumn
insert t id,area id,area,name 1,n . none => UnknownColumn
insert t id,area id,area x,~ . none => MissingKey
update t id,area price x 1,~ none => MissingKey
update t id,area name Green 1,~ none => MissingKey
insert t id id,area x,north . none => MissingKey
insert t id,area name,area,id Green,n,x . none => BadValue
insert t id,area id,area,name x,n,Green . none => BadValue
update t area,id id 2 north,1 x => BadValue
update t area,id price x north,1 none => BadValue
update t id,area name Green x,n Green => BadValue
";

#[test]
fn rows_are_read(rt: HostRuntime) -> Result<(), Fail> {
    for line in READ.lines() {
        let (row, due) = line.split_once(" => ").ok_or("nothing is due")?;
        let got = told(rt.alloc(), Binary::Base64, row, &[])?;
        assert_eq!(rt; got.as_str(), due, "{row}");
    }
    Ok(())
}

#[test]
fn the_first_broken_rule_is_told(rt: HostRuntime) -> Result<(), Fail> {
    for rows in [BROKEN, BOTH_BROKEN] {
        for line in rows.lines() {
            let (row, due) = line.split_once(" => ").ok_or("nothing is due")?;
            let got = told(rt.alloc(), Binary::Base64, row, &[])?;
            assert_eq!(rt; got.as_str(), due, "{row}");
        }
    }
    Ok(())
}

#[test]
fn bytes_are_read_by_their_form(rt: HostRuntime) -> Result<(), Fail> {
    let alloc = rt.alloc();
    let row = "insert t id,area id,area,code 1,n,AbCd . none";
    for (form, due) in [
        (Binary::Base64, "TooLong"),
        (
            Binary::Hex,
            "7 insert 1 key 'n' 1; columns 0 1 4; new 1 'n' bytes.171.205",
        ),
        (Binary::Plain, "BadValue"),
    ] {
        let got = told(alloc, form, row, &[])?;
        assert_eq!(rt; got.as_str(), due);
    }
    Ok(())
}

/// Twice the price is added, and the number is taken away once.
const ADDED: &str = "\
insert t id,area id,area,price 1,n,2.5 . none \
    => 7 insert 1 key 'n' 1; columns 0 1 3; new 1 'n' units 250; to 3 500; to 0 -1
insert t id,area id,area,price 1,n,2.5 . 4,n,2 \
    => 7 insert 1 key 'n' 1; columns 0 1 3; new 1 'n' units 250; old 4 'n' units 200; \
    to 3 500; to 0 -1
insert t id,area id,area,price 0,n,~ . none \
    => 7 insert 1 key 'n' 0; columns 0 1 3; new 0 'n' null; to 3 0; to 0 0
update t id,area price 2.5 1,n 1 \
    => 7 update 1 key 'n' 1; columns 3; new units 250; old units 100; to 3 300; to 0 0
update t id,area price,id ~,4 1,n 1,3 \
    => 7 update 1 key 'n' 1; columns 3 0; new null 4; old units 100 3; to 3 -200; to 0 -1
update t id,area price,id 1,4 1,n ~,9 \
    => 7 update 1 key 'n' 1; columns 3 0; new units 100 4; old null 9; to 3 200; to 0 5
update t id,area price 2.5 1,n none \
    => 7 update 1 key 'n' 1; columns 3; new units 250; to 3 unknown; to 0 unknown
delete t id,area price . 1,n 1 \
    => 7 delete 1 key 'n' 1; columns 3; new; old units 100; to 3 -200; to 0 0
delete t id,area price . 1,n none \
    => 7 delete 1 key 'n' 1; columns 3; new; to 3 unknown; to 0 unknown
update t id,area price x 1,n 1 => BadValue
";

#[test]
fn differences_are_added(rt: HostRuntime) -> Result<(), Fail> {
    let adds = [
        Add {
            column: 3,
            multiplier: 2,
        },
        Add {
            column: 0,
            multiplier: -1,
        },
    ];
    for line in ADDED.lines() {
        let (row, due) = line.split_once(" => ").ok_or("nothing is due")?;
        let got = told(rt.alloc(), Binary::Base64, row, &adds)?;
        assert_eq!(rt; got.as_str(), due, "{row}");
    }
    Ok(())
}

#[test]
fn the_widest_difference_has_room(rt: HostRuntime) -> Result<(), Fail> {
    let adds = [Add {
        column: 0,
        multiplier: i64::MIN,
    }];
    let row = "update t id,area id 9223372036854775807 1,n -9223372036854775808";
    let got = told(rt.alloc(), Binary::Base64, row, &adds)?;
    assert!(rt;
        got.as_str()
            .ends_with("to 0 -170141183460469231722463931679029329920")
    );
    Ok(())
}
