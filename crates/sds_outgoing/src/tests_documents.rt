//! Batches as documents.
ghost use Rattle.std.specs.Prelude.{None, IfOk, IsSome, List};
ghost use Rattle.std.specs.List.{All};
ghost use Rattle.sds_value.specs.declared.table.TableDef.{TableDef};
ghost use Rattle.sds_outgoing.specs.Batches.{HasFitRows, batch_of_number};

use crate::doc;
use crate::tests_parts::{config, node};
use sds_base::{List, NoMemory, Txt};
use sds_image::State;
use sds_types::{BatchDoc, Change, OutBatch, Standing};
use sds_value::Event;
use std::alloc::Global;
use std::test::Fail;

/// A delete in the table at a place, of which no row is told.
fn change(id: u64, table: u32) -> Change
    ensures { (defs : List TableDef) → HasFitRows defs result }
{
    Change {
        id,
        tx: 1,
        table,
        event: Event::Delete,
        new: None,
        old: None,
        channel: 1,
        source: None,
    }
}

/// These changes and one more.
fn joined(mut changes: List<Change>, id: u64, table: u32) -> Result<List<Change>, NoMemory>
    ensures { (defs : List TableDef) → All (HasFitRows defs) changes
        → IfOk result (λ all. All (HasFitRows defs) all) }
{
    changes.push(change(id, table))?;
    Ok(changes)
}

/// The changes 1 in `u`, 2 in `t` and 3 in `u`.
fn kept_changes(alloc: Global) -> Result<List<Change>, NoMemory>
    ensures { (defs : List TableDef) → IfOk result (λ all. All (HasFitRows defs) all) }
{
    let first = joined(List::new(alloc), 1, 1)?;
    let second = joined(first, 2, 0)?;
    joined(second, 3, 1)
}

/// A node with these changes, and with a batch of the changes 2 and 1 to a peer.
fn sender(alloc: Global, to: &str) -> Result<State, NoMemory>
    ensures batch { IfOk result (λ state. IsSome (batch_of_number state.batches 5)) }
    ensures rows { IfOk result (λ state. (defs : List TableDef)
        → All (HasFitRows defs) state.changes) }
{
    let mut changes = List::new(alloc);
    changes.push(2)?;
    changes.push(1)?;
    let mut batches = Vec::new(alloc);
    batches.push(OutBatch {
        id: 5,
        peer: Txt::copied(alloc, to)?,
        channel: 1,
        standing: Standing::New,
        changes,
    })?;
    let mut state = node(alloc, batches)?;
    state.changes = kept_changes(alloc)?;
    Ok(state)
}

/// A batch, its channel and the tables of its rows.
fn told(alloc: Global, doc: &BatchDoc) -> Result<String, NoMemory> {
    let mut text = String::new(alloc);
    text.push_str(doc.channel.as_str())?;
    for row in doc.rows.inner() {
        text.push_str(" ")?;
        text.push_str(row.table.as_str())?;
    }
    Ok(text)
}

#[test]
fn a_batch_has_its_changes_as_the_transforms_of_its_way_make_them(
    rt: HostRuntime,
) -> Result<(), Fail> {
    let alloc = rt.alloc();
    let config = config(alloc)?;
    for (to, due) in &[("s1", "b v u"), ("s2", "b t u"), ("s3", "b t u")] {
        let doc = doc(alloc, &config, &sender(alloc, *to)?, 5)?;
        assert_eq!(rt; doc.batch, 5);
        let said = told(alloc, &doc)?;
        assert_eq!(rt; said.as_str(), *due);
    }
    Ok(())
}
