// Two faults in one section: fields before the entry as a whole, entries before those after them, and the rules on an entry
// as a whole in their order.
use crate::tests::{FULL, expect};
use std::test::Fail;

const LINKS: &str = r#"
source="corp", target="store" | source="nix", target=1 | 4 link[0].source
action="P"} | action="P"}, {source="corp", target="store", action="R"} | 8 link[1].action
action="P"} | action="P"}, {source="corp", target="store", action="W"}, 1 | 5 link[1]
"#;

const CHANNELS: &str = r#"
id="data", processing_order=1 | id="a b", processing_order="" | 8 channel[0].id
max_batch_size=10, max_batch_to_send=20 | max_batch_size=0, max_batch_to_send=0 | 8 channel[0].max_batch_size
[ | [{id="data", processing_order=1, max_batch_size=1, max_batch_to_send=1, batch_algorithm="default"}, {id="data"}, 1,  | 5 channel[1].id
"#;

const TABLES: &str = r#"
[ | [{id="a b", columns=7},  | 8 table[0].id
[ | [{id="a", columns=["x", 7]},  | 3 table[0].columns
[ | [{id="a", columns=[]}, 1,  | 8 table[0]
[ | [{id="a", columns=["id INTEGER KEY"]}, {id="a", columns=["x"]},  | 5 table[1].id
"#;

const TRIGGERS: &str = r#"
id="item", source_table="item" | id="a b", source_table=0 | 8 trigger[0].id
source_table="item", channel="data" | source_table="nix", channel=0 | 4 trigger[0].source_table
[ | [{id="a", source_table="pair", channel="data"}, {id="b", source_table="pair", channel="data", sync_on_incoming_batch=0},  | 3 trigger[1].sync_on_incoming_batch
[ | [{id="a", source_table="pair", channel="data"}, {id="b", source_table="pair", channel="data"}, 1,  | 5 trigger[1]
[ | [{id="a", source_table="pair", channel="data"}, {id="a", source_table="pair", channel="data"},  | 5 trigger[1].id
"#;

const ROUTERS: &str = r#"
source_group="corp", target_group="store" | source_group="nix", target_group=0 | 4 router[0].source_group
source_group="corp", target_group="store", type="default", expression="" | source_group="store", target_group="corp", type="default", expression=0 | 3 router[0].expression
source_group="corp", target_group="store", type="default", expression="" | source_group="store", target_group="corp", type="default", expression="x" | 6 router[0]
source_group="corp", target_group="store", type="default", expression="" | source_group="store", target_group="corp", type="column", expression="id ~ 1" | 6 router[0]
source_group="corp", target_group="store", type="default", expression="" | source_group="store", target_group="corp", type="column", expression="nix=1" | 6 router[0]
source_group="corp", target_group="store", type="default", expression="" | source_group="store", target_group="corp", type="lookuptable", expression="x" | 6 router[0]
source_group="corp", target_group="store", type="default", expression="" | source_group="store", target_group="corp", type="subselect", expression="x" | 6 router[0]
type="default", expression="" | type="column", expression="nix=1 or id~" | 7 down 11
[ | [{id="a", source_group="store", target_group="corp", type="default"}, 1,  | 6 router[0]
[ | [{id="a", source_group="corp", target_group="store", type="column"}, 1,  | 7 a 0
[ | [{id="a", source_group="corp", target_group="store", type="column", expression="nix=1"}, {id="a"},  | 4 router[0]
"#;

const PAIRS: &str = r#"
trigger="item", router="down" | trigger="nix", router=0 | 4 trigger_router[0].trigger
ping_back_enabled=false} | ping_back_enabled=false}, {trigger="item", router="down", ping_back_enabled=0} | 3 trigger_router[1].ping_back_enabled
ping_back_enabled=false} | ping_back_enabled=false}, {trigger="item", router="down"}, 1 | 5 trigger_router[1]
"#;

const TRANSFORMS: &str = r#"
id="move", source_group="corp" | id="a b", source_group=0 | 8 transform[0].id
source_group="corp", target_group="store" | source_group="nix", target_group=0 | 4 transform[0].source_group
column_policy="SPECIFIED", column=[ | column_policy="x", column=[1,  | 8 transform[0].column_policy
column=[ | column=[{zz=1, z=1, target=1},  | 8 transform[0].column[0].z
column=[ | column=[{target="id", type=1}, {target=1},  | 3 transform[0].column[0].type
column=[ | column=[{target="id", type="copy", include_on=""}, {target="id"},  | 2 transform[0].column[1].type
[ | [{id="a", source_group="store", target_group="corp", point="LOAD", source_table="item", target_table="nix", column=[{target="id", type="x"}]},  | 8 transform[0].column[0].type
[ | [{id="a", source_group="corp", target_group="store", point="LOAD", source_table="item", target_table="item", column=[{}]}, 1,  | 2 transform[0].column[0].target
[ | [{id="a", source_group="corp", target_group="store", point="LOAD", source_table="item", target_table="item", column=[{target="id", type="remove"}]}, 1,  | 8 transform[0]
[ | [{id="a", source_group="store", target_group="corp", point="LOAD", source_table="item", target_table="item"}, {id="a"},  | 6 transform[0]
[ | [{id="a", source_group="store", target_group="corp", point="LOAD", source_table="item", target_table="nix"},  | 6 transform[0]
[ | [{id="a", source_group="store", target_group="corp", point="LOAD", source_table="item", target_table="item", column=[{target="id", type="remove"}]},  | 6 transform[0]
[ | [{id="a", source_group="corp", target_group="store", point="LOAD", source_table="item", target_table="nix", column=[{target="id", type="copy", include_on=""}]},  | 4 transform[0]
[ | [{id="a", source_group="corp", target_group="store", point="LOAD", source_table="item", target_table="item", column=[{target="id", type="left"}, {target="nix", type="copy"}]},  | 4 transform[0]
[ | [{id="a", source_group="corp", target_group="store", point="EXTRACT", source_table="item", target_table="item", column=[{target="id", source="nix", type="copy"}]},  | 4 transform[0]
"#;

const CONFLICTS: &str = r#"
source_group="corp", target_group="store" | source_group="nix", target_group=0 | 4 conflict[0].source_group
[ | [{source_group="store", target_group="corp", target_table="item", detect_type="USE_PK_DATA", resolve_type="NEWER_WINS", resolve_row_only=0},  | 3 conflict[0].resolve_row_only
[ | [{source_group="store", target_group="corp", target_table="item", detect_type="USE_PK_DATA", resolve_type="NEWER_WINS"}, 1,  | 6 conflict[0]
[ | [{source_group="corp", target_group="store", target_table="item", detect_type="USE_PK_DATA", resolve_type="NEWER_WINS"}, 1,  | 8 conflict[0]
resolve_row_only=true} | resolve_row_only=true}, {source_group="corp", target_group="store", target_table="item", detect_type="USE_PK_DATA", resolve_type="IGNORE", resolve_row_only=0} | 3 conflict[1].resolve_row_only
resolve_row_only=true} | resolve_row_only=true}, {source_group="corp", target_group="store", target_table="item", detect_type="USE_PK_DATA", resolve_type="NEWER_WINS"}, 1 | 5 conflict[1]
"#;

#[test]
fn the_first_of_two_faults_of_a_section_is_answered(rt: HostRuntime) -> Result<(), Fail> {
    let alloc = rt.alloc();
    for (section, rows) in [
        ("link", LINKS),
        ("channel", CHANNELS),
        ("table", TABLES),
        ("trigger", TRIGGERS),
        ("router", ROUTERS),
        ("trigger_router", PAIRS),
        ("transform", TRANSFORMS),
        ("conflict", CONFLICTS),
    ] {
        expect(&rt, alloc, FULL, section, rows)?;
    }
    Ok(())
}
