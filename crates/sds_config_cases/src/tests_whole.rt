//! The whole values of configurations, each written out by hand.
use crate::tests_printed::print;
use sds_base::{NoMemory, Same};
use sds_config::ReadConfig;
use sds_types::Config;
use std::alloc::Global;
use std::process::Abort;
use std::test::Fail;

/// The configuration of examples/tiers.
const TIERS: &str = r#"version = 1
[[group]]
id = "corp"
[[group]]
id = "region"
[[group]]
id = "store"
[[link]]
source = "store"
target = "region"
action = "P"
[[link]]
source = "region"
target = "corp"
action = "P"
[[link]]
source = "corp"
target = "region"
action = "W"
[[link]]
source = "region"
target = "store"
action = "W"
[[channel]]
id = "data"
processing_order = 10
max_batch_size = 100
max_batch_to_send = 10
batch_algorithm = "default"
[[table]]
id = "stock"
columns = [
  "item INTEGER KEY",
  "qty INTEGER",
]
[[trigger]]
id = "stock"
source_table = "stock"
channel = "data"
sync_on_incoming_batch = true
[[router]]
id = "su"
source_group = "store"
target_group = "region"
type = "default"
[[router]]
id = "rc"
source_group = "region"
target_group = "corp"
type = "default"
[[router]]
id = "cr"
source_group = "corp"
target_group = "region"
type = "default"
[[router]]
id = "rs"
source_group = "region"
target_group = "store"
type = "default"
[[trigger_router]]
trigger = "stock"
router = "su"
[[trigger_router]]
trigger = "stock"
router = "rc"
[[trigger_router]]
trigger = "stock"
router = "cr"
[[trigger_router]]
trigger = "stock"
router = "rs"
"#;

/// The configuration of examples/two-nodes.
const TWO_NODES: &str = r#"version = 1
group = [{id="corp"}, {id="store"}]
link = [{source="corp", target="store", action="P"}]
channel = [{id="data", processing_order=1, max_batch_size=10000, max_batch_to_send=10000, batch_algorithm="default"}]
table = [{id="pair", columns=["id INTEGER KEY", "text VARCHAR(40)"]}]
trigger = [{id="pair", source_table="pair", channel="data"}]
router = [{id="down", source_group="corp", target_group="store", type="default"}]
trigger_router = [{trigger="pair", router="down"}]
"#;

const TWO_NODES_WHOLE: &str = r#"group corp
group store
link 0 to 1 by P
channel data order 1 size 10000 send 10000 Default
table pair key [0]
  id Integer not null true parent None
  text Varchar(40) not null false parent None
trigger pair table 0 channel 0 insert true update true delete true incoming false
router down 0 to 1 Default ""
trigger 0 with router 0 enabled true ping back false
"#;

/// The configuration of examples/shop.
const SHOP: &str = r#"version = 1
group = [{id="corp"}, {id="store"}]
link = [{source="corp", target="store", action="W"}, {source="store", target="corp", action="P"}]
channel = [
 {id="item", processing_order=10, max_batch_size=100, max_batch_to_send=10, batch_algorithm="default"},
 {id="stock", processing_order=20, max_batch_size=100, max_batch_to_send=10, batch_algorithm="default"},
 {id="sale", processing_order=30, max_batch_size=100, max_batch_to_send=10, batch_algorithm="default"}]
table = [
 {id="item", columns=["id INTEGER KEY", "name VARCHAR(40) NOT NULL", "price DECIMAL(2)"]},
 {id="stock", columns=["item_id INTEGER KEY REF item", "qty INTEGER"]},
 {id="sale", columns=["id VARCHAR(20) KEY", "store VARCHAR(10) NOT NULL", "item_id INTEGER NOT NULL REF item", "qty INTEGER NOT NULL"]}]
trigger = [{id="item", source_table="item", channel="item"}, {id="stock", source_table="stock", channel="stock"}, {id="sale", source_table="sale", channel="sale"}]
router = [{id="down", source_group="corp", target_group="store", type="default"}, {id="up", source_group="store", target_group="corp", type="default"}]
trigger_router = [{trigger="item", router="down"}, {trigger="stock", router="up"}, {trigger="sale", router="up"}]
[[transform]]
id = "sum"
source_group = "store"
target_group = "corp"
point = "LOAD"
source_table = "stock"
target_table = "stock"
column_policy = "IMPLIED"
column = [{target="qty", source="qty", type="additive"}]
"#;

const SHOP_WHOLE: &str = r#"group corp
group store
link 0 to 1 by W
link 1 to 0 by P
channel item order 10 size 100 send 10 Default
channel stock order 20 size 100 send 10 Default
channel sale order 30 size 100 send 10 Default
table item key [0]
  id Integer not null true parent None
  name Varchar(40) not null true parent None
  price Decimal(2) not null false parent None
table stock key [0]
  item_id Integer not null true parent Some(0)
  qty Integer not null false parent None
table sale key [0]
  id Varchar(20) not null true parent None
  store Varchar(10) not null true parent None
  item_id Integer not null true parent Some(0)
  qty Integer not null true parent None
trigger item table 0 channel 0 insert true update true delete true incoming false
trigger stock table 1 channel 1 insert true update true delete true incoming false
trigger sale table 2 channel 2 insert true update true delete true incoming false
router down 0 to 1 Default ""
router up 1 to 0 Default ""
trigger 0 with router 0 enabled true ping back false
trigger 1 with router 1 enabled true ping back false
trigger 2 with router 1 enabled true ping back false
transform sum 1 to 0 Load stock to stock DelRow Implied
  "qty" of "qty" pk false on * Additive ""
"#;

const TIERS_WHOLE: &str = r#"group corp
group region
group store
link 2 to 1 by P
link 1 to 0 by P
link 0 to 1 by W
link 1 to 2 by W
channel data order 10 size 100 send 10 Default
table stock key [0]
  item Integer not null true parent None
  qty Integer not null false parent None
trigger stock table 0 channel 0 insert true update true delete true incoming true
router su 2 to 1 Default ""
router rc 1 to 0 Default ""
router cr 0 to 1 Default ""
router rs 1 to 2 Default ""
trigger 0 with router 0 enabled true ping back false
trigger 0 with router 1 enabled true ping back false
trigger 0 with router 2 enabled true ping back false
trigger 0 with router 3 enabled true ping back false
"#;

pub fn read(alloc: Global, rt: &impl Abort, file: &str) -> Result<Config, NoMemory> {
    match Config::read(alloc, file.as_bytes()) {
        Ok(config) => Ok(config),
        Err(_) => {
            assert!(rt; false, "it is refused: {file}");
            Err(NoMemory)
        }
    }
}

#[test]
fn a_configuration_is_what_the_file_says(rt: HostRuntime) -> Result<(), Fail> {
    let alloc = rt.alloc();
    for (file, whole) in [
        (TWO_NODES, TWO_NODES_WHOLE),
        (SHOP, SHOP_WHOLE),
        (TIERS, TIERS_WHOLE),
    ] {
        let config = read(alloc, &rt, file)?;
        assert_eq!(rt; print(alloc, &config)?.as_str(), whole);
    }
    Ok(())
}

#[test]
fn a_copy_is_the_same_configuration(rt: HostRuntime) -> Result<(), Fail> {
    let alloc = rt.alloc();
    let shop = read(alloc, &rt, SHOP)?;
    let copy = shop.copy(alloc)?;
    assert_eq!(rt; print(alloc, &copy)?.as_str(), SHOP_WHOLE);
    assert!(rt; copy.same(&shop));
    let tiers = read(alloc, &rt, TIERS)?;
    assert!(rt; !copy.same(&tiers));
    Ok(())
}
