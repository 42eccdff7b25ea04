// Transforms: their fields, their tables and the rules on their columns.
use crate::tests::{FULL, expect, expect_in, parted};
use sds_base::NoMemory;
use std::alloc::Global;
use std::process::Abort;
use std::test::Fail;

const FIELDS: &str = r#"
id="move",  |  | 2 transform[0].id
id="move" | id=1 | 3 transform[0].id
id="move" | id="a b" | 8 transform[0].id
[ | [{id="move", source_group="corp", target_group="store", point="LOAD", source_table="item", target_table="item"},  | 5 transform[1].id
[ | [{id="more", source_group="corp", target_group="store", point="LOAD", source_table="item", target_table="item"},  | ok
source_group="corp",  |  | 2 transform[0].source_group
source_group="corp" | source_group=0 | 3 transform[0].source_group
source_group="corp" | source_group="a b" | 8 transform[0].source_group
source_group="corp" | source_group="nix" | 4 transform[0].source_group
target_group="store",  |  | 2 transform[0].target_group
target_group="store" | target_group=0 | 3 transform[0].target_group
target_group="store" | target_group="a b" | 8 transform[0].target_group
target_group="store" | target_group="nix" | 4 transform[0].target_group
point="LOAD",  |  | 2 transform[0].point
point="LOAD" | point=1 | 3 transform[0].point
point="LOAD" | point="LATE" | 8 transform[0].point
point="LOAD" | point="load" | 8 transform[0].point
source_table="item",  |  | 2 transform[0].source_table
source_table="item" | source_table=0 | 3 transform[0].source_table
source_table="item" | source_table="a b" | 8 transform[0].source_table
source_table="item" | source_table="" | 8 transform[0].source_table
target_table="item",  |  | 2 transform[0].target_table
target_table="item" | target_table=0 | 3 transform[0].target_table
target_table="item" | target_table="a b" | 8 transform[0].target_table
delete_action="DEL_ROW",  |  | ok
delete_action="DEL_ROW" | delete_action=0 | 3 transform[0].delete_action
delete_action="DEL_ROW" | delete_action="NO" | 8 transform[0].delete_action
delete_action="DEL_ROW" | delete_action="none" | 8 transform[0].delete_action
delete_action="DEL_ROW" | delete_action="NONE" | ok
delete_action="DEL_ROW" | delete_action="UPDATE_COL" | ok
column_policy="SPECIFIED",  |  | ok
column_policy="SPECIFIED" | column_policy=0 | 3 transform[0].column_policy
column_policy="SPECIFIED" | column_policy="" | 8 transform[0].column_policy
column_policy="SPECIFIED" | column_policy="IMPLIED" | ok
column=[{ | column=[1, { | 3 transform[0].column[0]
, column=[ | , columns=[ | 8 transform[0].columns
id="move" | id="move", update_first=true | 8 transform[0].update_first
[ | [1,  | 3 transform[0]
target="id",  |  | 2 transform[0].column[0].target
target="id" | target=1 | 3 transform[0].column[0].target
target="id" | target="a b" | 8 transform[0].column[0].target
target="id" | target="" | 8 transform[0].column[0].target
source="id",  |  | ok
source="id" | source="" | ok
source="id" | source=1 | 3 transform[0].column[0].source
source="id" | source="a b" | 8 transform[0].column[0].source
pk=true,  |  | ok
pk=true | pk=1 | 3 transform[0].column[0].pk
include_on="*",  |  | ok
include_on="*" | include_on=1 | 3 transform[0].column[0].include_on
include_on="*" | include_on=["I"] | 3 transform[0].column[0].include_on
, type="copy" |  | 2 transform[0].column[0].type
type="copy" | type=1 | 3 transform[0].column[0].type
type="copy" | type="other" | 8 transform[0].column[0].type
type="copy" | type="lookup" | 8 transform[0].column[0].type
type="copy" | type="valuemap" | 8 transform[0].column[0].type
, expression="" |  | ok
expression="" | expression=1 | 3 transform[0].column[0].expression
expression="" | expression="", id="x" | 8 transform[0].column[0].id
{target="id", source="id", pk=true, include_on="*", type="copy", expression=""} | {target="id", type="copy"}, {target="name", type="other"} | 8 transform[0].column[1].type
"#;

/// Groups, tables and points.
const WAYS: &str = r#"
source_group="corp", target_group="store" | source_group="store", target_group="corp" | 6 transform[0]
source_group="corp", target_group="store" | source_group="corp", target_group="corp" | 6 transform[0]
source_table="item" | source_table="any" | ok
target_table="item" | target_table="nix" | 4 transform[0]
target_table="item" | target_table="ITEM" | 4 transform[0]
target_table="item" | target_table="pair" | 4 transform[0]
point="LOAD", source_table="item", target_table="item" | point="EXTRACT", source_table="item", target_table="any" | ok
point="LOAD", source_table="item", target_table="item" | point="EXTRACT", source_table="nix", target_table="item" | 4 transform[0]
point="LOAD", source_table="item", target_table="item" | point="EXTRACT", source_table="pair", target_table="item" | 4 transform[0]
"#;

/// Columns at LOAD under SPECIFIED.
const LOADED: &str = r#"
 | ok
{target="id", type="copy"} | ok
{target="nix", type="copy"} | 4 transform[0]
{target="id", type="copy"}, {target="nix", type="const"} | 4 transform[0]
{target="id", source="any", type="copy"} | ok
{target="id", type="remove"} | 8 transform[0]
{target="any", type="remove"} | 8 transform[0]
{target="id", type="copy", include_on="I"} | ok
{target="id", type="copy", include_on="U"} | ok
{target="id", type="copy", include_on="D"} | ok
{target="id", type="copy", include_on="DUI"} | ok
{target="id", type="copy", include_on=""} | 8 transform[0]
{target="id", type="copy", include_on="II"} | 8 transform[0]
{target="id", type="copy", include_on="IUDI"} | 8 transform[0]
{target="id", type="copy", include_on="*I"} | 8 transform[0]
{target="id", type="copy", include_on="**"} | 8 transform[0]
{target="id", type="copy", include_on="i"} | 8 transform[0]
{target="id", type="copy", include_on="X"} | 8 transform[0]
{target="id", type="copy", include_on="I U"} | 8 transform[0]
{target="id", pk=true, type="copy", include_on="*"} | ok
{target="id", pk=true, type="copy", include_on="I"} | 8 transform[0]
{target="id", pk=true, type="copy", include_on="IUD"} | 8 transform[0]
{target="id", type="copy", expression="any text"} | ok
{target="id", type="const", expression="any text"} | ok
{target="id", type="const"} | ok
{target="id", type="left", expression="0"} | ok
{target="id", type="left", expression="2000"} | ok
{target="id", type="left", expression="2001"} | 8 transform[0]
{target="id", type="left"} | 8 transform[0]
{target="id", type="left", expression="00"} | 8 transform[0]
{target="id", type="left", expression="01"} | 8 transform[0]
{target="id", type="left", expression="+1"} | 8 transform[0]
{target="id", type="left", expression="-1"} | 8 transform[0]
{target="id", type="left", expression=" 1"} | 8 transform[0]
{target="id", type="left", expression="1.0"} | 8 transform[0]
{target="id", type="left", expression="x"} | 8 transform[0]
{target="id", type="left", expression="1,2"} | 8 transform[0]
{target="id", type="left", expression="4294967297"} | 8 transform[0]
{target="id", type="left", expression="99999999999999999999"} | 8 transform[0]
{target="id", type="substr", expression="0"} | ok
{target="id", type="substr", expression="2000"} | ok
{target="id", type="substr", expression="1,5"} | ok
{target="id", type="substr", expression="5,1"} | ok
{target="id", type="substr", expression="0,2000"} | ok
{target="id", type="substr", expression="2001"} | 8 transform[0]
{target="id", type="substr", expression="0,2001"} | 8 transform[0]
{target="id", type="substr", expression="2001,0"} | 8 transform[0]
{target="id", type="substr"} | 8 transform[0]
{target="id", type="substr", expression=","} | 8 transform[0]
{target="id", type="substr", expression="1,"} | 8 transform[0]
{target="id", type="substr", expression=",1"} | 8 transform[0]
{target="id", type="substr", expression="1,5,6"} | 8 transform[0]
{target="id", type="substr", expression="1, 5"} | 8 transform[0]
{target="id", type="substr", expression="1,05"} | 8 transform[0]
{target="id", type="substr", expression="01"} | 8 transform[0]
{target="id", type="substr", expression="-1"} | 8 transform[0]
{target="id", type="substr", expression="1;5"} | 8 transform[0]
{target="id", type="valueMap", expression="a=b"} | ok
{target="id", type="valueMap", expression="="} | ok
{target="id", type="valueMap", expression="a= =c a=d *=="} | ok
{target="id", type="valueMap"} | 8 transform[0]
{target="id", type="valueMap", expression="a"} | 8 transform[0]
{target="id", type="valueMap", expression="a=b c"} | 8 transform[0]
{target="id", type="valueMap", expression=" a=b"} | 8 transform[0]
{target="id", type="valueMap", expression="a=b "} | 8 transform[0]
{target="id", type="valueMap", expression="a=b  c=d"} | 8 transform[0]
{target="id", type="variable", expression="source_node_id"} | ok
{target="id", type="variable", expression="target_node_id"} | ok
{target="id", type="variable"} | 8 transform[0]
{target="id", type="variable", expression="node"} | 8 transform[0]
{target="id", type="variable", expression="SOURCE_NODE_ID"} | 8 transform[0]
{target="id", type="variable", expression="source_node_id "} | 8 transform[0]
{target="qty", type="additive"} | ok
{target="price", type="additive"} | ok
{target="name", type="additive"} | 8 transform[0]
{target="seen", type="additive"} | 8 transform[0]
{target="photo", type="additive"} | 8 transform[0]
{target="id", type="additive"} | 8 transform[0]
{target="qty", pk=true, type="additive"} | 8 transform[0]
{target="qty", type="additive", include_on="IU"} | ok
{target="qty", type="additive", expression="0"} | ok
{target="qty", type="additive", expression="1000000"} | ok
{target="qty", type="additive", expression="-1000000"} | ok
{target="qty", type="additive", expression="1000001"} | 8 transform[0]
{target="qty", type="additive", expression="-1000001"} | 8 transform[0]
{target="qty", type="additive", expression="-"} | 8 transform[0]
{target="qty", type="additive", expression="-0"} | 8 transform[0]
{target="qty", type="additive", expression="+1"} | 8 transform[0]
{target="qty", type="additive", expression="01"} | 8 transform[0]
{target="qty", type="additive", expression="-01"} | 8 transform[0]
{target="qty", type="additive", expression="1.5"} | 8 transform[0]
{target="qty", type="additive", expression=" 1"} | 8 transform[0]
{target="qty", type="additive", expression="x"} | 8 transform[0]
{target="qty", type="additive", expression="99999999999999999999"} | 8 transform[0]
{target="qty", type="copy", include_on="I"}, {target="qty", type="const", include_on="UD"} | ok
{target="qty", type="copy", include_on="U"}, {target="id", type="copy"}, {target="qty", type="copy", include_on="I"}, {target="qty", type="copy", include_on="D"} | ok
{target="qty", type="copy", include_on="IU"}, {target="qty", type="const", include_on="UD"} | 8 transform[0]
{target="qty", type="copy"}, {target="qty", type="const", include_on="D"} | 8 transform[0]
{target="qty", type="copy", include_on="D"}, {target="qty", type="const"} | 8 transform[0]
{target="qty", type="copy"}, {target="id", type="copy"}, {target="qty", type="copy"} | 8 transform[0]
"#;

/// Columns at LOAD under IMPLIED.
const LOADED_IMPLIED: &str = r#"
 | ok
{target="id", type="remove"} | ok
{target="any", type="remove"} | ok
{target="any", source="any", type="remove", include_on="D"} | ok
{target="id", pk=true, type="remove"} | 8 transform[0]
{target="any", pk=true, type="remove"} | 8 transform[0]
{target="qty", type="remove"}, {target="qty", type="const"} | 8 transform[0]
{target="qty", type="remove", include_on="I"}, {target="qty", type="const", include_on="U"} | ok
{target="nix", type="const"} | 4 transform[0]
{target="qty", type="additive"} | ok
"#;

/// Columns at EXTRACT under SPECIFIED.
const EXTRACTED: &str = r#"
 | 8 transform[0]
{target="any", source="id", pk=true, type="copy"} | ok
{target="any", pk=true, type="const", expression="1"} | ok
{target="any", source="nix", pk=true, type="copy"} | 4 transform[0]
{target="any", source="id", pk=true, type="copy"}, {target="more", source="nix", type="left", expression="1"} | 4 transform[0]
{target="id", source="id", type="copy"} | 8 transform[0]
{target="any", source="id", pk=true, type="copy"}, {target="qty", source="qty", type="additive"} | 8 transform[0]
{target="any", source="id", pk=true, type="copy"}, {target="qty", type="remove"} | 8 transform[0]
"#;

/// Columns at EXTRACT under IMPLIED, of a table with one key column.
const EXTRACTED_IMPLIED: &str = r#"
 | ok
{target="any", source="name", type="copy"} | ok
{target="name", type="remove"} | ok
{target="any", type="remove"} | ok
{target="id", type="remove"} | 8 transform[0]
{target="id", type="remove", include_on="I"} | 8 transform[0]
{target="id", type="remove"}, {target="code", source="id", pk=true, type="copy"} | ok
{target="qty", source="qty", type="additive"} | 8 transform[0]
"#;

/// The same of a table with two key columns.
const EXTRACTED_PAIR: &str = r#"
{target="left", type="remove"} | ok
{target="right", type="remove"} | ok
{target="left", type="remove"}, {target="right", type="remove"} | 8 transform[0]
"#;

#[test]
fn fields_of_transforms_are_judged(rt: HostRuntime) -> Result<(), Fail> {
    let alloc = rt.alloc();
    expect(&rt, alloc, FULL, "transform", FIELDS)?;
    expect(&rt, alloc, FULL, "transform", WAYS)?;
    Ok(())
}

/// A file whose transform has the mark `<>` for its columns.
fn transforming(
    alloc: Global,
    rt: &impl Abort,
    point: &str,
    policy: &str,
    table: &str,
) -> Result<String, NoMemory> {
    let (front, _) = parted(rt, FULL, "transform = ")?;
    Ok(format!(in alloc;
        "{front}transform = [{{id=\"move\", source_group=\"corp\", target_group=\"store\", point=\"{point}\", source_table=\"{table}\", target_table=\"{table}\", column_policy=\"{policy}\", column=[<>]}}]\n"
    )?)
}

#[test]
fn columns_of_transforms_are_judged(rt: HostRuntime) -> Result<(), Fail> {
    let alloc = rt.alloc();
    for (point, policy, table, rows) in [
        ("LOAD", "SPECIFIED", "item", LOADED),
        ("LOAD", "IMPLIED", "item", LOADED_IMPLIED),
        ("EXTRACT", "SPECIFIED", "item", EXTRACTED),
        ("EXTRACT", "IMPLIED", "item", EXTRACTED_IMPLIED),
        ("EXTRACT", "IMPLIED", "pair", EXTRACTED_PAIR),
    ] {
        let file = transforming(alloc, &rt, point, policy, table)?;
        expect_in(&rt, alloc, file.as_str(), rows)?;
    }
    Ok(())
}
