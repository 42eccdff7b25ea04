// The fields of each section: for each way in which a field can be refused a configuration, and some that are not.
use crate::tests::{FULL, expect};
use std::test::Fail;

const GROUPS: &str = r#"
{id="store"} | {} | 2 group[1].id
{id="store"} | {id=7} | 3 group[1].id
{id="store"} | {id=["store"]} | 3 group[1].id
{id="store"} | {id=""} | 8 group[1].id
{id="store"} | {id="a b"} | 8 group[1].id
{id="store"} | {id="läden"} | 8 group[1].id
{id="store"} | {id="store."} | 8 group[1].id
{id="store"} | {id="corp"} | 5 group[1].id
{id="corp"} | {id="corp"}, {id="corp"} | 5 group[1].id
{id="store"} | {id="store"}, {id="Store"} | ok
{id="store"} | {id="store"}, {id="-_9"} | ok
{id="store"} | {id="store"}, {id="a234567890b234567890c234567890d234567890e234567890"} | ok
{id="store"} | {id="store"}, {id="a234567890b234567890c234567890d234567890e234567890f"} | 8 group[2].id
{id="store"} | {id="store", z=1, y=2} | 8 group[1].y
{id="store"} | {id="store", Id="store"} | 8 group[1].Id
{id="store"} | "store" | 3 group[1]
"#;

const LINKS: &str = r#"
source="corp",  |  | 2 link[0].source
source="corp" | source=0 | 3 link[0].source
source="corp" | source="a b" | 8 link[0].source
source="corp" | source="" | 8 link[0].source
source="corp" | source="nix" | 4 link[0].source
source="corp" | source="CORP" | 4 link[0].source
target="store",  |  | 2 link[0].target
target="store" | target=true | 3 link[0].target
target="store" | target="a b" | 8 link[0].target
target="store" | target="nix" | 4 link[0].target
, action="P" |  | 2 link[0].action
action="P" | action=1 | 3 link[0].action
action="P" | action="R" | 8 link[0].action
action="P" | action="p" | 8 link[0].action
action="P" | action="" | 8 link[0].action
action="P" | action="W" | ok
action="P" | action="P", id="down" | 8 link[0].id
{source="corp", target="store", action="P"} | {source="corp", target="store", action="P"}, 1 | 3 link[1]
action="P"} | action="P"}, {source="corp", target="store", action="W"} | 5 link[1]
action="P"} | action="P"}, {source="store", target="corp", action="W"} | ok
action="P"} | action="P"}, {source="corp", target="corp", action="W"} | ok
action="P"} | action="P"}, {source="corp", target="corp", action="W"}, {source="corp", target="corp", action="P"} | 5 link[2]
"#;

const CHANNELS: &str = r#"
id="data",  |  | 2 channel[0].id
id="data" | id=1 | 3 channel[0].id
id="data" | id="a b" | 8 channel[0].id
batch_algorithm="default"} | batch_algorithm="default"}, {id="data", processing_order=1, max_batch_size=10, max_batch_to_send=20, batch_algorithm="default"} | 5 channel[1].id
batch_algorithm="default"} | batch_algorithm="default"}, {id="more", processing_order=1, max_batch_size=10, max_batch_to_send=20, batch_algorithm="default"} | ok
processing_order=1,  |  | 2 channel[0].processing_order
processing_order=1, | processing_order="1", | 3 channel[0].processing_order
processing_order=1, | processing_order=1.0, | 3 channel[0].processing_order
processing_order=1, | processing_order=-1, | 8 channel[0].processing_order
processing_order=1, | processing_order=0, | ok
processing_order=1, | processing_order=1000000, | ok
processing_order=1, | processing_order=1000001, | 8 channel[0].processing_order
processing_order=1, | processing_order=4294967297, | 8 channel[0].processing_order
processing_order=1, | processing_order=9223372036854775807, | 8 channel[0].processing_order
processing_order=1, | processing_order=9223372036854775808, | 1
max_batch_size=10,  |  | 2 channel[0].max_batch_size
max_batch_size=10, | max_batch_size=[10], | 3 channel[0].max_batch_size
max_batch_size=10, | max_batch_size=0, | 8 channel[0].max_batch_size
max_batch_size=10, | max_batch_size=-9223372036854775808, | 8 channel[0].max_batch_size
max_batch_size=10, | max_batch_size=1, | ok
max_batch_size=10, | max_batch_size=10_000, | ok
max_batch_size=10, | max_batch_size=10001, | 8 channel[0].max_batch_size
max_batch_to_send=20,  |  | 2 channel[0].max_batch_to_send
max_batch_to_send=20, | max_batch_to_send=false, | 3 channel[0].max_batch_to_send
max_batch_to_send=20, | max_batch_to_send=0, | 8 channel[0].max_batch_to_send
max_batch_to_send=20, | max_batch_to_send=1, | ok
max_batch_to_send=20, | max_batch_to_send=10000, | ok
max_batch_to_send=20, | max_batch_to_send=10001, | 8 channel[0].max_batch_to_send
, batch_algorithm="default" |  | 2 channel[0].batch_algorithm
batch_algorithm="default" | batch_algorithm=1 | 3 channel[0].batch_algorithm
batch_algorithm="default" | batch_algorithm="other" | 8 channel[0].batch_algorithm
batch_algorithm="default" | batch_algorithm="Default" | 8 channel[0].batch_algorithm
batch_algorithm="default" | batch_algorithm="transactional" | ok
batch_algorithm="default" | batch_algorithm="nontransactional" | ok
id="data" | id="data", max_data_to_route=1 | 8 channel[0].max_data_to_route
"#;

const TABLES: &str = r#"
id="item",  |  | 2 table[0].id
id="item" | id=1 | 3 table[0].id
id="item" | id="a b" | 8 table[0].id
[ | [{id="item", columns=["id INTEGER KEY"]},  | 5 table[1].id
[ | [{id="more", columns=["id INTEGER KEY"]},  | ok
[ | [{id="more"},  | 2 table[0].columns
[ | [{id="more", columns="id INTEGER KEY"},  | 3 table[0].columns
[ | [{id="more", columns={}},  | 3 table[0].columns
[ | [{id="more", columns=["id INTEGER KEY", 7]},  | 3 table[0].columns
[ | [{id="more", columns=[["id INTEGER KEY"]]},  | 3 table[0].columns
[ | [{id="more", columns=["id INTEGER KEY"], key="id"},  | 8 table[0].key
[ | [7,  | 3 table[0]
"#;

const TRIGGERS: &str = r#"
id="item",  |  | 2 trigger[0].id
id="item" | id=1 | 3 trigger[0].id
id="item" | id="a b" | 8 trigger[0].id
sync_on_incoming_batch=false} | sync_on_incoming_batch=false}, {id="item", source_table="item", channel="data"} | 5 trigger[1].id
sync_on_incoming_batch=false} | sync_on_incoming_batch=false}, {id="more", source_table="item", channel="data"} | 5 trigger[1]
source_table="item",  |  | 2 trigger[0].source_table
source_table="item" | source_table=0 | 3 trigger[0].source_table
source_table="item" | source_table="a b" | 8 trigger[0].source_table
source_table="item" | source_table="nix" | 4 trigger[0].source_table
source_table="item" | source_table="*" | 8 trigger[0].source_table
channel="data",  |  | 2 trigger[0].channel
channel="data" | channel=0 | 3 trigger[0].channel
channel="data" | channel="a b" | 8 trigger[0].channel
channel="data" | channel="nix" | 4 trigger[0].channel
channel="data" | channel="item" | 4 trigger[0].channel
sync_on_insert=true,  |  | ok
sync_on_insert=true | sync_on_insert=1 | 3 trigger[0].sync_on_insert
sync_on_insert=true | sync_on_insert="true" | 3 trigger[0].sync_on_insert
sync_on_update=true,  |  | ok
sync_on_update=true | sync_on_update=0 | 3 trigger[0].sync_on_update
sync_on_delete=true,  |  | ok
sync_on_delete=true | sync_on_delete="no" | 3 trigger[0].sync_on_delete
, sync_on_incoming_batch=false |  | ok
sync_on_incoming_batch=false | sync_on_incoming_batch=[] | 3 trigger[0].sync_on_incoming_batch
sync_on_incoming_batch=false | sync_on_incoming_batch=true, router="down" | 8 trigger[0].router
[ | [true,  | 3 trigger[0]
"#;

const PAIRS: &str = r#"
trigger="item",  |  | 2 trigger_router[0].trigger
trigger="item" | trigger=0 | 3 trigger_router[0].trigger
trigger="item" | trigger="a b" | 8 trigger_router[0].trigger
trigger="item" | trigger="nix" | 4 trigger_router[0].trigger
trigger="item" | trigger="down" | 4 trigger_router[0].trigger
router="down",  |  | 2 trigger_router[0].router
router="down" | router=0 | 3 trigger_router[0].router
router="down" | router="a b" | 8 trigger_router[0].router
router="down" | router="nix" | 4 trigger_router[0].router
router="down" | router="item" | 4 trigger_router[0].router
enabled=true,  |  | ok
enabled=true | enabled=1 | 3 trigger_router[0].enabled
, ping_back_enabled=false |  | ok
ping_back_enabled=false | ping_back_enabled="false" | 3 trigger_router[0].ping_back_enabled
enabled=true | enabled=true, id="down" | 8 trigger_router[0].id
ping_back_enabled=false} | ping_back_enabled=false}, {trigger="item", router="down", enabled=false} | 5 trigger_router[1]
[ | ["item",  | 3 trigger_router[0]
"#;

#[test]
fn groups_links_and_channels_are_judged(rt: HostRuntime) -> Result<(), Fail> {
    let alloc = rt.alloc();
    expect(&rt, alloc, FULL, "group", GROUPS)?;
    expect(&rt, alloc, FULL, "link", LINKS)?;
    expect(&rt, alloc, FULL, "channel", CHANNELS)?;
    Ok(())
}

#[test]
fn tables_triggers_and_pairs_are_judged(rt: HostRuntime) -> Result<(), Fail> {
    let alloc = rt.alloc();
    expect(&rt, alloc, FULL, "table", TABLES)?;
    expect(&rt, alloc, FULL, "trigger", TRIGGERS)?;
    expect(&rt, alloc, FULL, "trigger_router", PAIRS)?;
    Ok(())
}
