//! The entries of a transform's columns.
ghost use Rattle.std.specs.Prelude.{◌≡◌};
ghost use Rattle.toml.specs.View.{table_view};
ghost use Rattle.sds_config.specs.Refusals.{Answers};
ghost use Rattle.sds_config.specs.TransformColumns as wanted;

use crate::fields::{
    field, field_path, flag_at, name_at, only_keys, text_at, text_or_empty, word_at,
};
use crate::sections::Entry;
use crate::{ColumnKind, Config, ConfigRefusal};
use sds_base::Txt;
use sds_value::is_name;
use std::alloc::Global;
use toml::Table;

/// What a transform's column makes of what.
#[derive(Debug, Drop)]
pub struct Making {
    pub target: Txt,
    pub source: Txt,
    pub pk: bool,
}

/// At which events a transform's column takes part, and by what it is made.
#[derive(Debug, Drop)]
pub struct Formula {
    pub include_on: Txt,
    pub kind: ColumnKind,
    pub expression: Txt,
}

/// A column of a transform as its entry writes it. What its expression says is read once the transform is known as a whole.
#[derive(Debug, Drop)]
pub struct ColumnEntry {
    pub target: Txt,
    pub source: Txt,
    pub pk: bool,
    pub include_on: Txt,
    pub kind: ColumnKind,
    pub expression: Txt,
}

impl Entry for ColumnEntry {
    ghost use Rattle.sds_config.specs.TransformColumns.{column_entry_of};

    ghost entry_of = { column_entry_of };

    fn read(
        alloc: Global,
        _config: &Config,
        _earlier: &[ColumnEntry],
        table: &Table,
        at: &str,
    ) -> Result<ColumnEntry, ConfigRefusal> {
        only_keys(
            alloc,
            table,
            at,
            &["target", "source", "pk", "include_on", "type", "expression"],
        )?;
        let making = making_at(alloc, table, at)?;
        let formula = formula_at(alloc, table, at)?;
        Ok(ColumnEntry {
            target: making.target,
            source: making.source,
            pk: making.pk,
            include_on: formula.include_on,
            kind: formula.kind,
            expression: formula.expression,
        })
    }
}

fn making_at(alloc: Global, table: &Table, at: &str) -> Result<Making, ConfigRefusal>
    ensures { Answers result (wanted.making_at (table_view table.now) at.now) }
{
    let target = name_at(alloc, table, at, "target")?;
    let source = name_or_empty(alloc, table, at, "source")?;
    let pk = flag_at(alloc, table, at, "pk", false)?;
    Ok(Making { target, source, pk })
}

fn formula_at(alloc: Global, table: &Table, at: &str) -> Result<Formula, ConfigRefusal>
    ensures { Answers result (wanted.formula_at (table_view table.now) at.now) }
{
    let include_on = events_at(alloc, table, at, "include_on")?;
    let kind = word_at(alloc, table, at, "type")?;
    let expression = text_or_empty(alloc, table, at, "expression")?;
    Ok(Formula {
        include_on,
        kind,
        expression,
    })
}

fn name_or_empty(alloc: Global, table: &Table, at: &str, key: &str) -> Result<Txt, ConfigRefusal>
    ensures { Answers result (wanted.name_or_empty (table_view table.now) at.now key.now) }
{
    let name = text_or_empty(alloc, table, at, key)?;
    if !is_name_or_empty(&name) {
        return Err(ConfigRefusal::BadSetting(field_path(alloc, at, key)?));
    }
    Ok(name)
}

fn is_name_or_empty(text: &Txt) -> bool
    ensures { result ≡ wanted.is_name_or_empty text.now }
{
    if text.is_empty() {
        return true;
    }
    is_name(text.as_str())
}

fn events_at(alloc: Global, table: &Table, at: &str, key: &str) -> Result<Txt, ConfigRefusal>
    ensures { Answers result (wanted.events_at (table_view table.now) at.now key.now) }
{
    match field(table, key) {
        None => Ok(Txt::copied(alloc, "*")?),
        Some(_) => text_at(alloc, table, at, key),
    }
}
