//! A batch read for the tables of the node that it goes to.
ghost use Rattle.std.specs.Prelude.{◌≡◌, ◌<◌, ◌^◌, IfOk, length};
ghost use Rattle.sds_trade.specs.rules.Outcomes as outcome;

use crate::bodies::body_of;
use crate::settings::{channel_place, settings_of};
use sds_base::{NoMemory, Twin};
use sds_types::{BatchDoc, Config, Prepared, Way};
use std::alloc::Global;

/// A batch on its way to a node, read for that node's tables: its sender, its channel's place, or
/// none where no channel has that name, its number, the place of each table's conflict setting
/// between the two groups, and its body.
///
/// The body has the rows that the transforms at LOAD make of the batch's rows, in their order, each
/// read as values under the batch's form of bytes and numbered, from 1, by the row of the document
/// that it comes from. Where some of them break one of the first five rules, it is instead the
/// number of the first that does, with the first rule that this one breaks (the SymmetricDS guide's
/// chapters on loading and on conflicts; the rules are symds' own).
///
/// A batch has fewer than 2^32 rows.
pub fn prepare(
    alloc: Global,
    config: &Config,
    way: &Way,
    batch: &BatchDoc,
) -> Result<Prepared, NoMemory>
    requires { length batch.now.rows < 2 ^ 32 }
    ensures { IfOk result (λ made. made
        ≡ outcome.prepared_batch config.now way.now batch.now) }
{
    let body = body_of(alloc, config, way, batch)?;
    let settings = settings_of(alloc, config, way)?;
    Ok(Prepared {
        from: way.source.twin(alloc)?,
        from_group: way.source_group.twin(alloc)?,
        channel: channel_place(config, &batch.channel)?,
        batch: batch.batch,
        body,
        settings,
    })
}
