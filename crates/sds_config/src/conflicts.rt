//! The section `conflict`.
ghost use Rattle.std.specs.Prelude.{◌≡◌, ◌≤◌, take, length};
ghost use Rattle.std.specs.List.{list_any};
ghost use Rattle.toml.specs.View.{table_view};
ghost use Rattle.sds_config.specs.Conflicts as wanted;
ghost use Rattle.sds_config.specs.Refusals.{Answers};

use crate::ends::ends_at;
use crate::fields::{flag_at, only_keys, place_at, text_or_empty, word_at};
use crate::links::leads;
use crate::named::place_of;
use crate::sections::Entry;
use crate::{Config, ConfigRefusal, ConflictDef, DetectType, ResolveType};
use sds_base::Txt;
use sds_value::{ColumnDef, Kind, TableDef};
use std::alloc::Global;
use toml::Table;

impl Entry for ConflictDef {
    ghost use Rattle.sds_config.specs.Conflicts.{conflict_of};

    ghost entry_of = { conflict_of };

    fn read(
        alloc: Global,
        config: &Config,
        earlier: &[ConflictDef],
        table: &Table,
        at: &str,
    ) -> Result<ConflictDef, ConfigRefusal> {
        only_keys(
            alloc,
            table,
            at,
            &[
                "source_group",
                "target_group",
                "target_table",
                "detect_type",
                "detect_expression",
                "resolve_type",
                "resolve_row_only",
            ],
        )?;
        let ends = ends_at(alloc, &config.groups, table, at)?;
        let target_table = place_at(alloc, table, at, "target_table", &config.tables)?;
        let detect = detect_at(alloc, table, at)?;
        let resolve = resolve_at(alloc, table, at)?;
        let conflict = ConflictDef {
            source_group: ends.source,
            target_group: ends.target,
            target_table,
            detect_type: detect.detect_type,
            detect_expression: None,
            resolve_type: resolve.resolve_type,
            resolve_row_only: resolve.row_only,
        };
        whole_conflict(alloc, config, earlier, at, &detect.text, conflict)
    }
}

/// How a conflict is seen: the type, and the text of the expression.
#[derive(Debug, Drop)]
pub struct Detect {
    pub detect_type: DetectType,
    pub text: Txt,
}

/// How a conflict is resolved.
#[derive(Clone, Copy, Debug)]
pub struct Resolve {
    pub resolve_type: ResolveType,
    pub row_only: bool,
}

fn detect_at(alloc: Global, table: &Table, at: &str) -> Result<Detect, ConfigRefusal>
    ensures { Answers result (wanted.detect_at (table_view table.now) at.now) }
{
    let detect_type = word_at(alloc, table, at, "detect_type")?;
    let text = text_or_empty(alloc, table, at, "detect_expression")?;
    Ok(Detect { detect_type, text })
}

fn resolve_at(alloc: Global, table: &Table, at: &str) -> Result<Resolve, ConfigRefusal>
    ensures { Answers result (wanted.resolve_at (table_view table.now) at.now) }
{
    let resolve_type = word_at(alloc, table, at, "resolve_type")?;
    let row_only = flag_at(alloc, table, at, "resolve_row_only", true)?;
    Ok(Resolve {
        resolve_type,
        row_only,
    })
}

fn whole_conflict(
    alloc: Global,
    config: &Config,
    earlier: &[ConflictDef],
    at: &str,
    text: &Txt,
    conflict: ConflictDef,
) -> Result<ConflictDef, ConfigRefusal>
    ensures { Answers result (wanted.whole_conflict config.now earlier.now at.now text.now conflict) }
{
    let (source, target) = (conflict.source_group, conflict.target_group);
    if stands(earlier, source, target, conflict.target_table) {
        return Err(ConfigRefusal::Duplicate(Txt::copied(alloc, at)?));
    }
    if !leads(config.links.inner().as_slice(), source, target) {
        return Err(ConfigRefusal::NoLink(Txt::copied(alloc, at)?));
    }
    if !resolves(conflict.detect_type, conflict.resolve_type) {
        return Err(ConfigRefusal::BadSetting(Txt::copied(alloc, at)?));
    }
    match named_column(
        conflict.detect_type,
        text,
        config.tables.inner().as_slice(),
        conflict.target_table,
    ) {
        None => Err(ConfigRefusal::BadSetting(Txt::copied(alloc, at)?)),
        Some(column) => Ok(ConflictDef {
            detect_expression: column,
            ..conflict
        }),
    }
}

fn stands(earlier: &[ConflictDef], source: u32, target: u32, table: u32) -> bool
    ensures { result ≡ list_any (wanted.same_three source target table) earlier.now }
{
    earlier.iter().any(|other| {
        other.source_group == source && other.target_group == target && other.target_table == table
    })
}

fn names_column(detect: DetectType) -> bool
    ensures { result ≡ wanted.names_column detect }
{
    match detect {
        DetectType::UseTimestamp | DetectType::UseVersion => true,
        DetectType::UsePkData | DetectType::UseOldData | DetectType::UseChangedData => false,
    }
}

fn suits(detect: DetectType, kind: Kind) -> bool
    ensures { result ≡ wanted.suits detect kind }
{
    match (detect, kind) {
        (DetectType::UseTimestamp, Kind::Timestamp) | (DetectType::UseVersion, Kind::Integer) => {
            true
        }
        _ => false,
    }
}

fn resolves(detect: DetectType, resolve: ResolveType) -> bool
    ensures { result ≡ wanted.resolves detect resolve }
{
    match resolve {
        ResolveType::NewerWins => names_column(detect),
        ResolveType::Fallback | ResolveType::Ignore | ResolveType::Manual => true,
    }
}

/// What the detect expression names: nothing, where it is to be empty.
fn named_column(
    detect: DetectType,
    text: &Txt,
    tables: &[TableDef],
    table: u32,
) -> Option<Option<u32>>
    ensures { result ≡ wanted.named_column detect text.now tables.now table }
{
    if names_column(detect) {
        return match suited(detect, text, tables, table) {
            None => None,
            Some(place) => Some(Some(place)),
        };
    }
    nothing_named(text)
}

fn nothing_named(text: &Txt) -> Option<Option<u32>>
    ensures { result ≡ wanted.nothing_named text.now }
{
    if text.is_empty() { Some(None) } else { None }
}

fn suited(detect: DetectType, text: &Txt, tables: &[TableDef], table: u32) -> Option<u32>
    ensures { result ≡ wanted.suited detect text.now tables.now table }
{
    match tables.get(table as usize) {
        None => None,
        Some(def) => suited_column(detect, text, first_columns(def.columns.inner().as_slice())),
    }
}

fn first_columns(columns: &[ColumnDef]) -> &[ColumnDef]
    ensures columns { result.now ≡ take 64 columns.now }
    ensures bound { length result.now ≤ 64 }
{
    if columns.len() <= 64 {
        return columns;
    }
    &columns[..64]
}

fn suited_column(detect: DetectType, text: &Txt, columns: &[ColumnDef]) -> Option<u32>
    requires { length columns.now ≤ 64 }
    ensures { result ≡ wanted.suited_column detect text.now columns.now }
{
    let place = match place_of(columns, text.as_str()) {
        None => return None,
        Some(place) => place,
    };
    match columns.get(place) {
        Some(column) if suits(detect, column.kind) => Some(place as u32),
        _ => None,
    }
}
