// Conflict settings: their fields, and each as a whole.
use crate::tests::{FULL, expect, expect_in};
use std::test::Fail;

const FIELDS: &str = r#"
source_group="corp",  |  | 2 conflict[0].source_group
source_group="corp" | source_group=0 | 3 conflict[0].source_group
source_group="corp" | source_group="a b" | 8 conflict[0].source_group
source_group="corp" | source_group="nix" | 4 conflict[0].source_group
target_group="store",  |  | 2 conflict[0].target_group
target_group="store" | target_group=0 | 3 conflict[0].target_group
target_group="store" | target_group="a b" | 8 conflict[0].target_group
target_group="store" | target_group="nix" | 4 conflict[0].target_group
target_table="item",  |  | 2 conflict[0].target_table
target_table="item" | target_table=0 | 3 conflict[0].target_table
target_table="item" | target_table="a b" | 8 conflict[0].target_table
target_table="item" | target_table="nix" | 4 conflict[0].target_table
detect_type="USE_VERSION",  |  | 2 conflict[0].detect_type
detect_type="USE_VERSION" | detect_type=0 | 3 conflict[0].detect_type
detect_type="USE_VERSION" | detect_type="OTHER" | 8 conflict[0].detect_type
detect_type="USE_VERSION" | detect_type="use_version" | 8 conflict[0].detect_type
detect_expression="qty" | detect_expression=0 | 3 conflict[0].detect_expression
detect_expression="qty" | detect_expression=["qty"] | 3 conflict[0].detect_expression
detect_expression="qty" | detect_expression="a b" | 8 conflict[0]
resolve_type="NEWER_WINS",  |  | 2 conflict[0].resolve_type
resolve_type="NEWER_WINS" | resolve_type=0 | 3 conflict[0].resolve_type
resolve_type="NEWER_WINS" | resolve_type="OLDER_WINS" | 8 conflict[0].resolve_type
, resolve_row_only=true |  | ok
resolve_row_only=true | resolve_row_only=false | ok
resolve_row_only=true | resolve_row_only="true" | 3 conflict[0].resolve_row_only
resolve_row_only=true | resolve_row_only=true, id="x" | 8 conflict[0].id
[ | [1,  | 3 conflict[0]
source_group="corp", target_group="store" | source_group="store", target_group="corp" | 6 conflict[0]
source_group="corp", target_group="store" | source_group="store", target_group="store" | 6 conflict[0]
[ | [{source_group="corp", target_group="store", target_table="item", detect_type="USE_PK_DATA", resolve_type="FALLBACK"},  | 5 conflict[1]
[ | [{source_group="corp", target_group="store", target_table="pair", detect_type="USE_PK_DATA", resolve_type="FALLBACK"},  | ok
"#;

/// A conflict setting's types, for a table whose columns are id and qty (INTEGER), name (VARCHAR), price (DECIMAL),
/// seen (TIMESTAMP) and photo (VARBINARY).
const TYPES: &str = r#"
detect_type="USE_PK_DATA", resolve_type="FALLBACK" | ok
detect_type="USE_PK_DATA", resolve_type="IGNORE" | ok
detect_type="USE_PK_DATA", resolve_type="MANUAL" | ok
detect_type="USE_PK_DATA", resolve_type="NEWER_WINS" | 8 conflict[0]
detect_type="USE_PK_DATA", detect_expression="", resolve_type="FALLBACK" | ok
detect_type="USE_PK_DATA", detect_expression="qty", resolve_type="FALLBACK" | 8 conflict[0]
detect_type="USE_OLD_DATA", resolve_type="IGNORE" | ok
detect_type="USE_OLD_DATA", resolve_type="NEWER_WINS" | 8 conflict[0]
detect_type="USE_OLD_DATA", detect_expression="qty", resolve_type="IGNORE" | 8 conflict[0]
detect_type="USE_CHANGED_DATA", resolve_type="MANUAL" | ok
detect_type="USE_CHANGED_DATA", resolve_type="NEWER_WINS" | 8 conflict[0]
detect_type="USE_CHANGED_DATA", detect_expression="seen", resolve_type="MANUAL" | 8 conflict[0]
detect_type="USE_VERSION", detect_expression="qty", resolve_type="NEWER_WINS" | ok
detect_type="USE_VERSION", detect_expression="qty", resolve_type="FALLBACK" | ok
detect_type="USE_VERSION", detect_expression="qty", resolve_type="IGNORE" | ok
detect_type="USE_VERSION", detect_expression="qty", resolve_type="MANUAL" | ok
detect_type="USE_VERSION", detect_expression="id", resolve_type="NEWER_WINS" | ok
detect_type="USE_VERSION", resolve_type="NEWER_WINS" | 8 conflict[0]
detect_type="USE_VERSION", resolve_type="FALLBACK" | 8 conflict[0]
detect_type="USE_VERSION", detect_expression="nix", resolve_type="NEWER_WINS" | 8 conflict[0]
detect_type="USE_VERSION", detect_expression="QTY", resolve_type="NEWER_WINS" | 8 conflict[0]
detect_type="USE_VERSION", detect_expression="left", resolve_type="NEWER_WINS" | 8 conflict[0]
detect_type="USE_VERSION", detect_expression="name", resolve_type="NEWER_WINS" | 8 conflict[0]
detect_type="USE_VERSION", detect_expression="price", resolve_type="NEWER_WINS" | 8 conflict[0]
detect_type="USE_VERSION", detect_expression="seen", resolve_type="NEWER_WINS" | 8 conflict[0]
detect_type="USE_VERSION", detect_expression="photo", resolve_type="NEWER_WINS" | 8 conflict[0]
detect_type="USE_TIMESTAMP", detect_expression="seen", resolve_type="NEWER_WINS" | ok
detect_type="USE_TIMESTAMP", detect_expression="seen", resolve_type="FALLBACK" | ok
detect_type="USE_TIMESTAMP", resolve_type="NEWER_WINS" | 8 conflict[0]
detect_type="USE_TIMESTAMP", detect_expression="qty", resolve_type="NEWER_WINS" | 8 conflict[0]
detect_type="USE_TIMESTAMP", detect_expression="photo", resolve_type="NEWER_WINS" | 8 conflict[0]
detect_type="USE_TIMESTAMP", detect_expression="name", resolve_type="FALLBACK" | 8 conflict[0]
"#;

const TYPED: &str = r#"version = 1
group = [{id="corp"}, {id="store"}]
link = [{source="corp", target="store", action="P"}]
table = [{id="item", columns=["id INTEGER KEY", "name VARCHAR(40)", "price DECIMAL(2)", "qty INTEGER", "seen TIMESTAMP", "photo VARBINARY(9)"]}, {id="pair", columns=["left INTEGER KEY"]}]
conflict = [{source_group="corp", target_group="store", target_table="item", <>}]
"#;

#[test]
fn conflicts_are_judged(rt: HostRuntime) -> Result<(), Fail> {
    let alloc = rt.alloc();
    expect(&rt, alloc, FULL, "conflict", FIELDS)?;
    expect_in(&rt, alloc, TYPED, TYPES)?;
    Ok(())
}
