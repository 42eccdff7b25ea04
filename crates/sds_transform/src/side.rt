//! The sides of a row of texts: the values after its event, and those before it.
ghost use Rattle.std.specs.Prelude.{◌≡◌, IfOk};
ghost use Rattle.sds_trade.specs.rules.Sides as sides;

use crate::fields::{looked_up, zipped};
use sds_base::{NoMemory, Txt};
use sds_value::{DocRow, Field};
use std::alloc::Global;
use std::marker::Model;

/// A side: the columns that it lists with their fields, and the fields that transforms look up in
/// it.
#[derive(Debug, Drop)]
pub(crate) struct Side {
    pub(crate) listed: Vec<(Txt, Field)>,
    pub(crate) sources: Vec<(Txt, Field)>,
}

impl Model for Side {
    ghost use Rattle.sds_trade.specs.rules.Sides as sides;

    ghost Value = { sides.Side };

    ghost view = { λ it. record { listed = it.listed.items; sources = it.sources.items } };
}

impl Side {
    /// The side after the event.
    pub(crate) fn new(alloc: Global, row: &DocRow) -> Result<Side, NoMemory>
        ensures { IfOk result (λ side. side ≡ sides.new_side row.now) }
    {
        given_side(
            alloc,
            row.columns.inner().as_slice(),
            row.new.inner().as_slice(),
        )
    }

    /// The side before the event. Where the old values aren't given, it is made of the key's.
    pub(crate) fn old(alloc: Global, row: &DocRow) -> Result<Side, NoMemory>
        ensures { IfOk result (λ side. side ≡ sides.old_side row.now) }
    {
        match &row.old {
            None => key_side(alloc, row),
            Some(old) => given_side(
                alloc,
                row.columns.inner().as_slice(),
                old.inner().as_slice(),
            ),
        }
    }
}

/// A side that is given.
fn given_side(alloc: Global, columns: &[Txt], fields: &[Field]) -> Result<Side, NoMemory>
    ensures { IfOk result (λ side. side ≡ sides.given_side columns.now fields.now) }
{
    Ok(Side {
        listed: zipped(alloc, columns, fields)?,
        sources: zipped(alloc, columns, fields)?,
    })
}

/// The side that is made of the key's values: all else is null.
fn key_side(alloc: Global, row: &DocRow) -> Result<Side, NoMemory>
    ensures { IfOk result (λ side. side ≡ sides.key_side row.now) }
{
    let sources = zipped(
        alloc,
        row.keys.inner().as_slice(),
        row.key.inner().as_slice(),
    )?;
    let listed = looked_up(alloc, sources.as_slice(), row.columns.inner().as_slice())?;
    Ok(Side { listed, sources })
}
