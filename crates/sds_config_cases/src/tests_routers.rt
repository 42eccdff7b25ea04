// Routers: their fields, their groups and their expressions.
use crate::tests::{FULL, expect, expect_in, parted};
use sds_base::NoMemory;
use std::alloc::Global;
use std::process::Abort;
use std::test::Fail;

const FIELDS: &str = r#"
id="down",  |  | 2 router[0].id
id="down" | id=1 | 3 router[0].id
id="down" | id="a b" | 8 router[0].id
expression=""} | expression=""}, {id="down", source_group="corp", target_group="store", type="default"} | 5 router[1].id
expression=""} | expression=""}, {id="more", source_group="corp", target_group="store", type="default"} | ok
source_group="corp",  |  | 2 router[0].source_group
source_group="corp" | source_group=0 | 3 router[0].source_group
source_group="corp" | source_group="a b" | 8 router[0].source_group
source_group="corp" | source_group="nix" | 4 router[0].source_group
target_group="store",  |  | 2 router[0].target_group
target_group="store" | target_group=0 | 3 router[0].target_group
target_group="store" | target_group="a b" | 8 router[0].target_group
target_group="store" | target_group="nix" | 4 router[0].target_group
type="default",  |  | 2 router[0].type
type="default" | type=0 | 3 router[0].type
type="default" | type="other" | 8 router[0].type
type="default" | type="" | 8 router[0].type
type="default" | type="LookupTable" | 8 router[0].type
, expression="" |  | ok
expression="" | expression=1 | 3 router[0].expression
expression="" | expression=[] | 3 router[0].expression
expression="" | expression="x" | 8 router[0]
expression="" | expression=" " | 8 router[0]
expression="" | expression="", router_type="default" | 8 router[0].router_type
source_group="corp", target_group="store" | source_group="store", target_group="corp" | 6 router[0]
source_group="corp", target_group="store" | source_group="corp", target_group="corp" | 6 router[0]
[ | ["down",  | 3 router[0]
"#;

/// Expressions of a `column` router. In a file `\n` is a line feed.
const COLUMN: &str = r#"
id=1 | ok
id = 1 | ok
  id  !=  1   | ok
id=:NODE_ID | ok
id=:EXTERNAL_ID | ok
id=:NODE_GROUP_ID | ok
id=NULL | ok
id!=NULL | ok
OLD_id=a.b_c-9 | ok
name='käse' | ok
name='' | ok
name='it''s' | ok
name='a\nb or c' | ok
id=1 or name=2 | ok
id=1  or  name=2 or qty=3 | ok
id=1\nname=2 | ok
id=1\nname=2\n | ok
left=1 | ok
 | 7 down 0
  | 7 down 1
id | 7 down 2
id  | 7 down 3
id= | 7 down 3
id=  | 7 down 4
id ~ 1 | 7 down 3
id == 1 | 7 down 4
id !1 | 7 down 4
id ! = 1 | 7 down 4
id < 1 | 7 down 3
id=ä | 7 down 3
id=\"1\" | 7 down 3
id=: | 7 down 4
id=:NODE | 7 down 8
id=:NODE_X | 7 down 9
id=:node_id | 7 down 4
id=:EXTERNAL_IDS | 7 down 15
id='x | 7 down 5
name='ä' ~ | 7 down 9
id=1 or | 7 down 7
id=1 or  | 7 down 8
id=1 or or | 7 down 10
id=1 OR name=2 | 7 down 5
id=1 and name=2 | 7 down 5
id=1or name=2 | 7 down 7
id='x'or name=2 | 7 down 6
id=1 orname=2 | 7 down 7
id=1\n\n | 7 down 5
\nid=1 | 7 down 0
OLD_=1 | 7 down 4
=1 | 7 down 0
i.d=1 | 7 down 1
a234567890b234567890c234567890d234567890e234567890f=1 | 7 down 50
nix=1 | 4 router[0]
OLD_nix=1 | 4 router[0]
OLD_OLD_id=1 | 4 router[0]
ID=1 | 4 router[0]
id=1 or nix=2 | 4 router[0]
nix=1 or name=2 | 4 router[0]
nix ~ 1 | 7 down 4
nix=1 or name~2 | 7 down 13
"#;

const LOOKUP: &str = r#"
LOOKUP_TABLE=pair\nKEY_COLUMN=id\nLOOKUP_KEY_COLUMN=left\nEXTERNAL_ID_COLUMN=right | ok
EXTERNAL_ID_COLUMN=right\nLOOKUP_KEY_COLUMN=left\nKEY_COLUMN=id\nLOOKUP_TABLE=pair\n | ok
LOOKUP_TABLE=item\nKEY_COLUMN=left\nLOOKUP_KEY_COLUMN=id\nEXTERNAL_ID_COLUMN=id | ok
 | 7 down 0
lookup_table=pair | 7 down 0
LOOKUP_TABLE | 7 down 12
LOOKUP_TABLE = pair | 7 down 12
LOOKUP_TABLE= pair | 7 down 13
LOOKUP_TABLE=\nKEY_COLUMN=id | 7 down 13
LOOKUP_TABLE=pair | 7 down 17
LOOKUP_TABLE=pair  | 7 down 17
LOOKUP_TABLE=pair\n\n | 7 down 18
KEY_COLUMNS=id | 7 down 10
LOOKUP_TABLE=pair\nLOOKUP_TABLE=pair | 7 down 25
LOOKUP_TABLE=pair\nKEY_COLUMN=id\nLOOKUP_KEY_COLUMN=left | 7 down 54
LOOKUP_TABLE=pair\nKEY_COLUMN=id\nLOOKUP_KEY_COLUMN=left\nEXTERNAL_ID_COLUMN= | 7 down 74
LOOKUP_TABLE=pair\nKEY_COLUMN=id\nLOOKUP_KEY_COLUMN=left\nEXTERNAL_ID_COLUMN=right\n\n | 7 down 80
LOOKUP_TABLE=pair\nKEY_COLUMN=id\nLOOKUP_KEY_COLUMN=left\nEXTERNAL_ID_COLUMN=right\nKEY_COLUMN=id | 7 down 80
LOOKUP_TABLE=nix\nKEY_COLUMN=id\nLOOKUP_KEY_COLUMN=left\nEXTERNAL_ID_COLUMN=right | 4 router[0]
LOOKUP_TABLE=pair\nKEY_COLUMN=nix\nLOOKUP_KEY_COLUMN=left\nEXTERNAL_ID_COLUMN=right | 4 router[0]
LOOKUP_TABLE=pair\nKEY_COLUMN=id\nLOOKUP_KEY_COLUMN=id\nEXTERNAL_ID_COLUMN=right | 4 router[0]
LOOKUP_TABLE=pair\nKEY_COLUMN=id\nLOOKUP_KEY_COLUMN=left\nEXTERNAL_ID_COLUMN=id | 4 router[0]
LOOKUP_TABLE=nix\nKEY_COLUMN=nix | 7 down 31
"#;

const SUBSELECT: &str = r#"
c.external_id in (select left from pair where right=:id) | ok
c.node_id in (select left from pair where right='x') | ok
C.Node_Id In(SELECT left FROM pair WHERE right = :id AND left = 'it''s') | ok
\t c\r\n. external_id in ( select left from pair where right=: id )  | ok
c.external_id in (select id from item where id=:left and name='a''b'and qty=:id) | ok
c.external_id in (select left from pair where right='nix') | ok
 | 7 down 0
d.external_id | 7 down 0
c.id | 7 down 2
c external_id | 7 down 2
c.external_idin | 7 down 13
c.external_id=1 | 7 down 13
c.external_id in (select left from pair) | 7 down 39
c.external_id in (select left from pair where | 7 down 45
c.external_id in (select left from pair where right=:id | 7 down 55
c.external_id in (select left from pair where right=:id) x | 7 down 57
c.external_id in (select left from pair where right=id) | 7 down 52
c.external_id in (select left from pair where right!=:id) | 7 down 51
c.external_id in (select left from pair where right=:id or left=:id) | 7 down 56
c.external_id in (select left from pair where right=:idand left=:id) | 7 down 59
c.external_id in (select * from pair where right=:id) | 7 down 25
c.external_id in (select left from nix where right=:id) | 4 router[0]
c.external_id in (select id from pair where right=:id) | 4 router[0]
c.external_id in (select left from pair where id=:id) | 4 router[0]
c.external_id in (select left from pair where right=:nix) | 4 router[0]
c.external_id in (select left from pair where right=:OLD_id) | 4 router[0]
c.external_id in (select left from pair where right=:id and id='x') | 4 router[0]
c.external_id in (select nix from nix where nix=:nix | 7 down 52
"#;

/// A file whose router is of this type and has the mark `<>` for its expression.
fn routing(alloc: Global, rt: &impl Abort, kind: &str) -> Result<String, NoMemory> {
    let (front, back) = parted(rt, FULL, "type=\"default\", expression=\"\"")?;
    Ok(format!(in alloc; "{front}type=\"{kind}\", expression=\"<>\"{back}")?)
}

#[test]
fn fields_of_routers_are_judged(rt: HostRuntime) -> Result<(), Fail> {
    expect(&rt, rt.alloc(), FULL, "router", FIELDS)?;
    Ok(())
}

#[test]
fn expressions_of_routers_are_judged(rt: HostRuntime) -> Result<(), Fail> {
    let alloc = rt.alloc();
    for (kind, rows) in [
        ("column", COLUMN),
        ("lookuptable", LOOKUP),
        ("subselect", SUBSELECT),
    ] {
        let file = routing(alloc, &rt, kind)?;
        expect_in(&rt, alloc, file.as_str(), rows)?;
    }
    Ok(())
}

const FORMLESS: &str = r#"
type="default", expression="" | type="column" | 7 down 0
type="default", expression="" | type="lookuptable" | 7 down 0
type="default", expression="" | type="subselect" | 7 down 0
"#;

#[test]
fn an_absent_expression_is_empty(rt: HostRuntime) -> Result<(), Fail> {
    expect(&rt, rt.alloc(), FULL, "router", FORMLESS)?;
    Ok(())
}
