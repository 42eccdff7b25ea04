// Each word of the file as its setting, and what the expressions of routers and of transforms' columns say.
use crate::tests_printed::print;
use crate::tests_whole::read;
use sds_base::NoMemory;
use sds_types::{ColumnExpression, RouterDef, RouterExpression, TransformColumn};
use std::alloc::Global;
use std::process::Abort;
use std::test::Fail;

/// A configuration with every word of the file.
const EVERY_WORD: &str = r#"version = 1
group = [{id="corp"}, {id="store"}]
link = [{source="corp", target="store", action="P"}, {source="store", target="corp", action="W"}, {source="store", target="store", action="P"}]
channel = [
 {id="one", processing_order=0, max_batch_size=1, max_batch_to_send=10000, batch_algorithm="default"},
 {id="two", processing_order=1000000, max_batch_size=10000, max_batch_to_send=1, batch_algorithm="transactional"},
 {id="three", processing_order=7, max_batch_size=8, max_batch_to_send=9, batch_algorithm="nontransactional"}]
table = [
 {id="item", columns=["id INTEGER KEY", "name VARCHAR(2000) NOT NULL", "price DECIMAL(0)", "seen TIMESTAMP", "photo VARBINARY(4000)", "up INTEGER REF item"]},
 {id="line", columns=["note VARCHAR(1)", "number INTEGER NOT NULL KEY", "item_id INTEGER KEY REF item", "price DECIMAL(9) NOT NULL", "photo VARBINARY(1)"]}]
trigger = [
 {id="item", source_table="item", channel="two", sync_on_insert=false, sync_on_update=true, sync_on_delete=false, sync_on_incoming_batch=true},
 {id="line", source_table="line", channel="three", sync_on_update=false}]
router = [
 {id="all", source_group="corp", target_group="store", type="default"},
 {id="some", source_group="store", target_group="corp", type="column", expression="OLD_name != 'it''s' or price = :EXTERNAL_ID"},
 {id="found", source_group="store", target_group="store", type="lookuptable", expression="LOOKUP_TABLE=line\nKEY_COLUMN=id\nLOOKUP_KEY_COLUMN=item_id\nEXTERNAL_ID_COLUMN=note"},
 {id="chosen", source_group="corp", target_group="store", type="subselect", expression="c.node_id in (select note from line where item_id=:id and number='7')"}]
trigger_router = [
 {trigger="line", router="chosen", enabled=false, ping_back_enabled=true},
 {trigger="item", router="some", enabled=true, ping_back_enabled=false}]
transform = [
 {id="out", source_group="corp", target_group="store", point="EXTRACT", source_table="item", target_table="article", delete_action="NONE", column_policy="IMPLIED", column=[
  {target="price", type="remove"},
  {target="code", source="id", pk=true, include_on="*", type="copy"}]},
 {id="in", source_group="store", target_group="corp", point="LOAD", source_table="article", target_table="item", delete_action="UPDATE_COL", column_policy="SPECIFIED", column=[
  {target="id", source="code", pk=true, type="copy"},
  {target="name", include_on="I", type="const", expression="new"},
  {target="name", source="label", include_on="U", type="left", expression="20"},
  {target="name", source="label", include_on="D", type="substr", expression="0,9"},
  {target="seen", source="when", include_on="DI", type="valueMap", expression="a=b *="},
  {target="photo", include_on="UD", type="variable", expression="target_node_id"},
  {target="price", source="sum", type="additive", expression="-2"}]},
 {id="more", source_group="store", target_group="store", point="LOAD", source_table="x", target_table="line", delete_action="DEL_ROW"}]
conflict = [
 {source_group="corp", target_group="store", target_table="item", detect_type="USE_PK_DATA", resolve_type="FALLBACK"},
 {source_group="corp", target_group="store", target_table="line", detect_type="USE_OLD_DATA", resolve_type="IGNORE", resolve_row_only=false},
 {source_group="store", target_group="corp", target_table="item", detect_type="USE_CHANGED_DATA", resolve_type="MANUAL", resolve_row_only=true},
 {source_group="store", target_group="corp", target_table="line", detect_type="USE_VERSION", detect_expression="number", resolve_type="NEWER_WINS"},
 {source_group="store", target_group="store", target_table="item", detect_type="USE_TIMESTAMP", detect_expression="seen", resolve_type="NEWER_WINS"}]
"#;

const EVERY_WORD_WHOLE: &str = r#"group corp
group store
link 0 to 1 by P
link 1 to 0 by W
link 1 to 1 by P
channel one order 0 size 1 send 10000 Default
channel two order 1000000 size 10000 send 1 Transactional
channel three order 7 size 8 send 9 Nontransactional
table item key [0]
  id Integer not null true parent None
  name Varchar(2000) not null true parent None
  price Decimal(0) not null false parent None
  seen Timestamp not null false parent None
  photo Varbinary(4000) not null false parent None
  up Integer not null false parent Some(0)
table line key [1, 2]
  note Varchar(1) not null false parent None
  number Integer not null true parent None
  item_id Integer not null true parent Some(0)
  price Decimal(9) not null true parent None
  photo Varbinary(1) not null false parent None
trigger item table 0 channel 1 insert false update true delete false incoming true
trigger line table 1 channel 2 insert true update false delete true incoming false
router all 0 to 1 Default ""
router some 1 to 0 Column "OLD_name != 'it''s' or price = :EXTERNAL_ID"
router found 1 to 1 LookupTable "LOOKUP_TABLE=line\nKEY_COLUMN=id\nLOOKUP_KEY_COLUMN=item_id\nEXTERNAL_ID_COLUMN=note"
router chosen 0 to 1 Subselect "c.node_id in (select note from line where item_id=:id and number='7')"
trigger 1 with router 3 enabled false ping back true
trigger 0 with router 1 enabled true ping back false
transform out 0 to 1 Extract item to article Nothing Implied
  "price" of "" pk false on * Remove ""
  "code" of "id" pk true on * Copy ""
transform in 1 to 0 Load article to item UpdateCol Specified
  "id" of "code" pk true on * Copy ""
  "name" of "" pk false on I Const "new"
  "name" of "label" pk false on U Left "20"
  "name" of "label" pk false on D Substr "0,9"
  "seen" of "when" pk false on DI ValueMap "a=b *="
  "photo" of "" pk false on UD Variable "target_node_id"
  "price" of "sum" pk false on * Additive "-2"
transform more 1 to 1 Load x to line DelRow Specified
conflict 0 to 1 table 0 UsePkData None Fallback row only true
conflict 0 to 1 table 1 UseOldData None Ignore row only false
conflict 1 to 0 table 0 UseChangedData None Manual row only true
conflict 1 to 0 table 1 UseVersion Some(1) NewerWins row only true
conflict 1 to 1 table 0 UseTimestamp Some(3) NewerWins row only true
"#;

#[test]
fn each_word_is_its_setting(rt: HostRuntime) -> Result<(), Fail> {
    let alloc = rt.alloc();
    let config = read(alloc, &rt, EVERY_WORD)?;
    assert_eq!(rt; print(alloc, &config)?.as_str(), EVERY_WORD_WHOLE);
    Ok(())
}

fn judge(rt: &impl Abort, router: &RouterDef) {
    match &router.parsed {
        RouterExpression::Everything => assert!(rt; router.id.is("all")),
        RouterExpression::Tests(tests) => {
            assert!(rt; router.id.is("some"));
            assert_eq!(rt; tests.inner().as_slice().len(), 2);
        }
        RouterExpression::Finds(lookup) => {
            assert!(rt; router.id.is("found"));
            assert!(rt; lookup.table.is("line") && lookup.external_id.is("note"));
        }
        RouterExpression::Chooses(choice) => {
            assert!(rt; router.id.is("chosen"));
            assert!(rt; choice.table.is("line") && choice.column.is("note"));
        }
    }
}

#[test]
fn a_router_has_its_expression_parsed(rt: HostRuntime) -> Result<(), Fail> {
    let config = read(rt.alloc(), &rt, EVERY_WORD)?;
    let routers = config.routers.inner().as_slice();
    assert_eq!(rt; routers.len(), 4);
    for router in routers {
        judge(&rt, router);
    }
    Ok(())
}

/// What the expression of a transform's column says, in words.
fn computed(alloc: Global, column: &TransformColumn) -> Result<String, NoMemory> {
    let words = match &column.parsed {
        ColumnExpression::Unused => String::from_str(alloc, "unused")?,
        ColumnExpression::Const(text) => format!(in alloc; "const {}", text.as_str())?,
        ColumnExpression::Left(count) => format!(in alloc; "left {count}")?,
        ColumnExpression::Substr(piece) => {
            let (first, end) = (piece.first, piece.end);
            format!(in alloc; "substr {first} {end:?}")?
        }
        ColumnExpression::ValueMap(pairs) => {
            let count = pairs.inner().len();
            match pairs.inner().first() {
                None => format!(in alloc; "map {count}")?,
                Some(pair) => {
                    let (source, target) = (pair.source.as_str(), pair.target.as_str());
                    format!(in alloc; "map {count} {source} {target}")?
                }
            }
        }
        ColumnExpression::Variable(word) => format!(in alloc; "variable {word:?}")?,
        ColumnExpression::Additive(number) => format!(in alloc; "additive {number}")?,
    };
    Ok(words)
}

/// What the expressions of the first two transforms' columns say.
const COMPUTED: &[&[&str]] = &[
    &["unused", "unused"],
    &[
        "unused",
        "const new",
        "left 20",
        "substr 0 Some(9)",
        "map 2 a b",
        "variable TargetNode",
        "additive -2",
    ],
];

#[test]
fn a_transforms_column_has_its_expression_parsed(rt: HostRuntime) -> Result<(), Fail> {
    let alloc = rt.alloc();
    let config = read(alloc, &rt, EVERY_WORD)?;
    assert_eq!(rt; config.transforms.inner().len(), 3);
    for (transform, words) in config.transforms.inner().iter().zip(COMPUTED) {
        let columns = transform.columns.inner().as_slice();
        assert_eq!(rt; columns.len(), words.len());
        for (column, word) in columns.iter().zip(*words) {
            assert_eq!(rt; computed(alloc, column)?.as_str(), *word);
        }
    }
    Ok(())
}
