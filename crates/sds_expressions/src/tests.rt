//! Expressions that read, and the place at which the others leave their form.
use crate::{
    behind, column_tests, left_of, lookup_text, multiplier_of, plain_number, split_at,
    subselect_text, substr_of, value_map_of, variable_of,
};
use sds_base::{Same, Twin, Txt};
use sds_types::{Compared, MapPair, NodeColumn, NodeWord, Operand, Substring};
use std::test::Fail;

#[test]
fn column_expressions_and_their_places(rt: HostRuntime) -> Result<(), Fail> {
    let alloc = rt.alloc();
    for (text, wanted) in [
        ("id = 1", None),
        ("id=1", None),
        (" id  !=  NULL ", None),
        ("OLD_id = :NODE_ID or x=''''", None),
        ("a=:EXTERNAL_ID\nb=:NODE_GROUP_ID\n", None),
        ("a=1.5-x_ or b=2", None),
        ("a='käse\nor' or  b=2", None),
        ("a=1\n", None),
        ("", Some(0)),
        (" ", Some(1)),
        ("id", Some(2)),
        ("id ~ 1", Some(3)),
        ("id !1", Some(4)),
        ("id = ", Some(5)),
        ("OLD_ = 1", Some(4)),
        ("a=1 or", Some(6)),
        ("a=1 or ", Some(7)),
        ("a=1or b=2", Some(6)),
        ("a='x'or b=2", Some(5)),
        ("a=1 xor b=2", Some(4)),
        ("a=1\n\n", Some(4)),
        ("\na=1", Some(0)),
        ("a=:NODE_", Some(8)),
        ("a=:NODE_X", Some(8)),
        ("a=:NODE_IDX", Some(10)),
        ("a='x", Some(4)),
        ("a=1 OR b=2", Some(4)),
        ("a==1", Some(2)),
        ("a = != 1", Some(4)),
        ("ä=1", Some(0)),
        ("a='ä' ~", Some(6)),
        ("aaaaaaaaaabbbbbbbbbbccccccccccddddddddddeeeeeeeeee=1", None),
        (
            "aaaaaaaaaabbbbbbbbbbccccccccccddddddddddeeeeeeeeeef=1",
            Some(50),
        ),
        (
            "OLD_aaaaaaaaaabbbbbbbbbbccccccccccddddddddddeeeeeeeeee=1",
            None,
        ),
    ] {
        let got = column_tests(alloc, text)?;
        assert_eq!(rt; got.err(), wanted, "{text}");
    }
    Ok(())
}

#[test]
fn column_tests_say_what_is_compared(rt: HostRuntime) -> Result<(), Fail> {
    let alloc = rt.alloc();
    for (text, differs, operand) in [
        ("a=:NODE_ID", false, Operand::NodeId),
        ("a!=:EXTERNAL_ID", true, Operand::ExternalId),
        ("a = :NODE_GROUP_ID", false, Operand::NodeGroupId),
        ("a != NULL", true, Operand::Null),
        (
            "a='NULL'",
            false,
            Operand::Text(Txt::copied(alloc, "NULL")?),
        ),
        (
            "a=1.5-x_",
            false,
            Operand::Text(Txt::copied(alloc, "1.5-x_")?),
        ),
    ] {
        let tests = column_tests(alloc, text)?.map_err(|_| Fail::from("no tests"))?;
        let test = &tests.inner().as_slice()[0];
        assert!(rt;
            test.differs == differs && test.operand.same(&operand),
            "{text}"
        );
    }
    let tests = match column_tests(alloc, "OLD_a != 'it''s' or b = NULL")? {
        Ok(tests) => tests,
        Err(_) => return Err(Fail::from("no tests")),
    };
    let items = tests.inner().as_slice();
    assert_eq!(rt; items.len(), 2);
    let quoted = Operand::Text(Txt::copied(alloc, "it's")?);
    assert!(rt;
        items[0].name.is("a") && items[0].old && items[0].differs && items[0].operand.same(&quoted)
    );
    assert!(rt;
        items[1].name.is("b")
            && !items[1].old
            && !items[1].differs
            && items[1].operand.same(&Operand::Null)
    );
    assert!(rt; tests.twin(alloc)?.same(&tests));
    Ok(())
}

#[test]
fn lookup_expressions_and_their_places(rt: HostRuntime) -> Result<(), Fail> {
    let alloc = rt.alloc();
    for (text, wanted) in [
        (
            "LOOKUP_TABLE=t\nKEY_COLUMN=k\nLOOKUP_KEY_COLUMN=l\nEXTERNAL_ID_COLUMN=e",
            None,
        ),
        (
            "EXTERNAL_ID_COLUMN=e\nLOOKUP_KEY_COLUMN=l\nKEY_COLUMN=k\nLOOKUP_TABLE=t\n",
            None,
        ),
        ("", Some(0)),
        ("lookup_table=t", Some(0)),
        ("LOOKUP_TABLE =t", Some(12)),
        ("LOOKUP_TABLE=\n", Some(13)),
        ("LOOKUP_TABLE=t\nLOOKUP_TABLE=t", Some(22)),
        (
            "LOOKUP_TABLE=t\nKEY_COLUMN=k\nLOOKUP_KEY_COLUMN=l\nEXTERNAL_ID_COLUMN=",
            Some(67),
        ),
        (
            "LOOKUP_TABLE=t\nKEY_COLUMN=k\nLOOKUP_KEY_COLUMN=l\nEXTERNAL_ID_COLUMN=e\n\n",
            Some(69),
        ),
        (
            "LOOKUP_TABLE=t\nKEY_COLUMN=k\nLOOKUP_KEY_COLUMN=l",
            Some(47),
        ),
    ] {
        let got = lookup_text(alloc, text)?;
        assert_eq!(rt; got.err(), wanted, "{text}");
    }
    let lookup = match lookup_text(
        alloc,
        "KEY_COLUMN=k\nLOOKUP_TABLE=t\nLOOKUP_KEY_COLUMN=l\nEXTERNAL_ID_COLUMN=e",
    )? {
        Ok(lookup) => lookup,
        Err(_) => return Err(Fail::from("no lookup")),
    };
    assert!(rt;
        lookup.table.is("t")
            && lookup.column.is("k")
            && lookup.lookup_column.is("l")
            && lookup.external_id.is("e")
    );
    assert!(rt; lookup.twin(alloc)?.same(&lookup));
    Ok(())
}

#[test]
fn subselect_expressions_and_their_places(rt: HostRuntime) -> Result<(), Fail> {
    let alloc = rt.alloc();
    for (text, wanted) in [
        ("c.external_id in (select a from t where b=:x)", None),
        (
            "C.Node_ID IN(SELECT a FROM t WHERE b = 'it''s'AND c = : x)",
            None,
        ),
        (
            " c . node_id\tin\r\n( select from from from where where=:in ) ",
            None,
        ),
        (
            "c.external_id in (select a from t where b='x'and c='y')",
            None,
        ),
        ("", Some(0)),
        ("d", Some(0)),
        ("c.id", Some(2)),
        ("c.external_idin", Some(13)),
        ("c.external_id in (select a from t)", Some(33)),
        (
            "c.external_id in (select a from t where b=:xand c=:y)",
            Some(48),
        ),
        ("c.external_id in (select a from t where b=:x", Some(44)),
        ("c.external_id in (select a from t where b=:x) y", Some(46)),
        ("c.external_id in (select a from t where b=x)", Some(42)),
        ("c.external_id in (selecta", Some(24)),
    ] {
        let got = subselect_text(alloc, text)?;
        assert_eq!(rt; got.err(), wanted, "{text}");
    }
    let choice = match subselect_text(
        alloc,
        "c.node_id in (select a from t where b=:x and d='y')",
    )? {
        Ok(choice) => choice,
        Err(_) => return Err(Fail::from("no choice")),
    };
    assert_eq!(rt; choice.by, NodeColumn::NodeId);
    assert!(rt; choice.column.is("a") && choice.table.is("t"));
    let conditions = choice.conditions.inner().as_slice();
    assert_eq!(rt; conditions.len(), 2);
    assert!(rt;
        conditions[0].column.is("b")
            && conditions[0]
                .value
                .same(&Compared::Routed(Txt::copied(alloc, "x")?))
    );
    assert!(rt;
        conditions[1].column.is("d")
            && conditions[1]
                .value
                .same(&Compared::Text(Txt::copied(alloc, "y")?))
    );
    assert!(rt; choice.twin(alloc)?.same(&choice));
    Ok(())
}

#[test]
fn the_expressions_of_columns_read(rt: HostRuntime) -> Result<(), Fail> {
    let alloc = rt.alloc();
    assert_eq!(rt; left_of("2000"), Some(2000));
    assert_eq!(rt; left_of("2001"), None);
    assert_eq!(rt; left_of("01"), None);
    assert_eq!(rt;
        substr_of("3"),
        Some(Substring {
            first: 3,
            end: None
        })
    );
    assert_eq!(rt;
        substr_of("3,0"),
        Some(Substring {
            first: 3,
            end: Some(0)
        })
    );
    assert_eq!(rt; substr_of("3,"), None);
    assert_eq!(rt; variable_of("target_node_id"), Some(NodeWord::TargetNode));
    assert_eq!(rt; variable_of("source_node_id"), Some(NodeWord::SourceNode));
    assert_eq!(rt; variable_of("node_id"), None);
    assert_eq!(rt; multiplier_of(""), Some(1));
    assert_eq!(rt; multiplier_of("-1000000"), Some(-1_000_000));
    assert_eq!(rt; multiplier_of("1000001"), None);
    assert_eq!(rt; multiplier_of("-0"), None);
    assert_eq!(rt; multiplier_of("0"), Some(0));
    assert_eq!(rt; plain_number(b"0", 5), Some(0));
    assert_eq!(rt; split_at("a=b=c", '='), Some(("a", "b=c")));
    assert_eq!(rt; behind("REF x", "REF "), Some("x"));
    let pairs = value_map_of(alloc, "a=b =c *==")?.ok_or("no pairs")?;
    let items = pairs.inner().as_slice();
    assert_eq!(rt; items.len(), 3);
    let last = MapPair {
        source: Txt::copied(alloc, "*")?,
        target: Txt::copied(alloc, "=")?,
    };
    assert!(rt; items[1].source.is_empty() && items[1].target.is("c") && items[2].same(&last));
    assert!(rt; value_map_of(alloc, "")?.is_none() && value_map_of(alloc, "a=b c")?.is_none());
    Ok(())
}
