//! The rules on steps in their order, and steps undone.
ghost use Rattle.std.specs.Prelude.{◌≡◌, ◌+◌, ◌≤◌, length, OnOk};

use crate::step_rules::overfills;
use crate::tests_shop::{Act, dump, shop_tables, step_of};
use crate::{Tables, Undo};
use sds_base::{List, NoMemory};
use sds_types::{Row, Rule, TableRow};
use std::alloc::Global;
use std::test::Fail;

/// Tests a step, and makes it where it breaks no rule.
fn made(alloc: Global, tables: &mut Tables, act: &Act) -> Result<Result<Undo, Rule>, NoMemory> {
    let step = step_of(alloc, act)?;
    if let Some(rule) = tables.test(&step) {
        return Ok(Err(rule));
    }
    tables.reserve(1)?;
    Ok(Ok(tables.apply(step)))
}

/// Makes steps one after another and undoes them again, and tells whether the rows were, after each
/// undo, those before its step.
fn comes_back(alloc: Global, tables: &mut Tables, acts: &[Act]) -> Result<bool, NoMemory>
    ensures rows { OnOk result (tables.new.rows ≡ tables.old.rows) }
    ensures defs { tables.new.defs ≡ tables.old.defs }
    ensures room { length tables.old.rows + tables.old.spare
        ≤ length tables.new.rows + tables.new.spare }
{
    let [act, later @ ..] = acts else {
        return Ok(true);
    };
    let step = step_of(alloc, act)?;
    if tables.test(&step).is_some() {
        return Ok(false);
    }
    let before = dump(alloc, tables)?;
    tables.reserve(1)?;
    let undo = tables.apply(step);
    let all = comes_back(alloc, tables, later)?;
    tables.revert(undo);
    Ok(all && dump(alloc, tables)? == before)
}

#[test]
fn the_first_rule_that_a_step_breaks_is_told(rt: HostRuntime) -> Result<(), Fail> {
    let alloc = rt.alloc();
    let mut tables = shop_tables(alloc)?;
    let cases = [
        (Act::Item(1, "Pen"), None),
        (Act::Item(2, "Ink"), None),
        (Act::Sale("a", 1, ""), None),
        (Act::Sale("b", 1, "a"), None),
        // A sale may follow itself, at its insert and when its key changes.
        (Act::Sale("c", 2, "c"), None),
        (Act::MoveSale("c", "d", 2, "d"), None),
        // One rule by itself.
        (Act::Item(3, ""), Some(Rule::NullNotAllowed)),
        (Act::Item(1, "Cap"), Some(Rule::DuplicateKey)),
        (Act::MoveItem(2, 1, "Ink"), Some(Rule::DuplicateKey)),
        (Act::MoveItem(9, 9, "Cap"), Some(Rule::RowMissing)),
        (Act::DropItem(9), Some(Rule::RowMissing)),
        (Act::Sale("e", 9, ""), Some(Rule::MissingParent)),
        (Act::MoveSale("a", "a", 1, "z"), Some(Rule::MissingParent)),
        // A reference to its own old key isn't one after the step.
        (Act::MoveSale("d", "e", 2, "d"), Some(Rule::MissingParent)),
        (Act::DropItem(1), Some(Rule::HasChildren)),
        (Act::MoveItem(1, 3, "Pen"), Some(Rule::HasChildren)),
        (Act::DropSale("a"), Some(Rule::HasChildren)),
        // Pairs of rules, the earlier told.
        (Act::Item(1, ""), Some(Rule::NullNotAllowed)),
        (Act::MoveItem(9, 9, ""), Some(Rule::NullNotAllowed)),
        (Act::Sale("", 9, ""), Some(Rule::NullNotAllowed)),
        (Act::MoveItem(1, 3, ""), Some(Rule::NullNotAllowed)),
        (Act::MoveItem(9, 1, "Cap"), Some(Rule::DuplicateKey)),
        (Act::Sale("a", 9, ""), Some(Rule::DuplicateKey)),
        (Act::MoveItem(1, 2, "Pen"), Some(Rule::DuplicateKey)),
        (Act::MoveSale("z", "z", 9, ""), Some(Rule::RowMissing)),
        (Act::MoveSale("a", "z", 9, ""), Some(Rule::MissingParent)),
        // What breaks none after all.
        (Act::MoveItem(1, 1, "Cap"), None),
        (Act::MoveItem(2, 2, "Ink"), None),
        (Act::DropSale("d"), None),
        (Act::MoveItem(2, 5, "Ink"), None),
        (Act::DropSale("b"), None),
        (Act::DropSale("a"), None),
        (Act::DropItem(1), None),
    ];
    for (act, expected) in &cases {
        assert_eq!(rt; made(alloc, &mut tables, act)?.err(), *expected);
    }
    assert_eq!(rt; tables.count(), 1);
    Ok(())
}

#[test]
fn steps_are_undone_after_each_number_of_them(rt: HostRuntime) -> Result<(), Fail> {
    let alloc = rt.alloc();
    let acts = [
        Act::Item(5, "Pen"),
        Act::Item(3, "Ink"),
        Act::Sale("m", 5, ""),
        Act::Item(4, "Cap"),
        Act::MoveSale("m", "a", 3, ""),
        Act::Sale("k", 4, "a"),
        Act::MoveItem(5, 1, "Pen"),
        Act::MoveItem(3, 3, "Ink"),
        Act::Sale("z", 1, "z"),
        Act::DropSale("k"),
        Act::DropItem(4),
        Act::MoveSale("z", "b", 3, "b"),
        Act::DropItem(1),
        Act::Item(9, "Mug"),
    ];
    for most in 0..acts.len() + 1 {
        let mut tables = shop_tables(alloc)?;
        assert!(rt; comes_back(alloc, &mut tables, &acts[..most])?);
        assert_eq!(rt; tables.count(), 0);
    }
    Ok(())
}

#[test]
fn no_more_rows_are_inserted_than_a_node_may_have(rt: HostRuntime) -> Result<(), Fail> {
    let alloc = rt.alloc();
    let mut rows = Vec::with_capacity(alloc, 200_000)?;
    for _ in 0..199_999 {
        rows.push(TableRow {
            table: 0,
            row: Row(List::new(alloc)),
        })?;
    }
    let insert = step_of(alloc, &Act::Item(7, "Pen"))?;
    let delete = step_of(alloc, &Act::DropItem(7))?;
    assert!(rt; !overfills(&rows, &insert));
    rows.push(TableRow {
        table: 0,
        row: Row(List::new(alloc)),
    })?;
    assert!(rt; overfills(&rows, &insert));
    assert!(rt; !overfills(&rows, &delete));
    Ok(())
}
