//! The section `transform`.
ghost use Rattle.std.specs.Prelude.{◌≡◌, option_copied};
ghost use Rattle.toml.specs.View.{table_view};
ghost use Rattle.sds_config.specs.Limits.{IsWithinLimits};
ghost use Rattle.sds_config.specs.Links.{leads};
ghost use Rattle.sds_config.specs.Refusals.{Answers};
ghost use Rattle.sds_config.specs.Transforms as wanted;

use crate::computed::columns_of;
use crate::ends::{Ends, ends_at};
use crate::fields::{field, field_text, id_at, name_at, only_keys, word_at, word_or};
use crate::formulas::ColumnEntry;
use crate::links::leads;
use crate::named::place_of;
use crate::rules::{is_known, is_sound};
use crate::sections::{Entry, items_at, read_entries};
use crate::{
    ColumnPolicy, Config, ConfigRefusal, DeleteAction, Point, TransformColumn, TransformDef,
};
use sds_base::{List, Txt};
use sds_value::TableDef;
use std::alloc::Global;
use toml::Table;

/// When a transform is made, and of which table it makes rows of which.
#[derive(Debug, Drop)]
pub struct TablePair {
    pub point: Point,
    pub source_table: Txt,
    pub target_table: Txt,
}

/// What a transform makes of deletes and of columns that it doesn't list.
#[derive(Clone, Copy, Debug)]
pub struct Policies {
    pub delete_action: DeleteAction,
    pub column_policy: ColumnPolicy,
}

impl Entry for TransformDef {
    ghost use Rattle.sds_config.specs.Transforms.{transform_of};

    ghost entry_of = { transform_of };

    fn read(
        alloc: Global,
        config: &Config,
        earlier: &[TransformDef],
        table: &Table,
        at: &str,
    ) -> Result<TransformDef, ConfigRefusal> {
        only_keys(
            alloc,
            table,
            at,
            &[
                "id",
                "source_group",
                "target_group",
                "point",
                "source_table",
                "target_table",
                "delete_action",
                "column_policy",
                "column",
            ],
        )?;
        let id = id_at(alloc, table, at, "id", earlier)?;
        let ends = ends_at(alloc, &config.groups, table, at)?;
        let way = table_pair_at(alloc, table, at)?;
        let policies = policies_at(alloc, table, at)?;
        let entries = columns_at(alloc, config, table, at, "column")?;
        let columns = whole_transform(alloc, config, at, &ends, &way, policies, entries)?;
        Ok(TransformDef {
            id,
            source_group: ends.source,
            target_group: ends.target,
            point: way.point,
            source_table: way.source_table,
            target_table: way.target_table,
            delete_action: policies.delete_action,
            column_policy: policies.column_policy,
            columns,
        })
    }
}

fn table_pair_at(alloc: Global, table: &Table, at: &str) -> Result<TablePair, ConfigRefusal>
    ensures { Answers result (wanted.table_pair_at (table_view table.now) at.now) }
{
    let point = word_at(alloc, table, at, "point")?;
    let source_table = name_at(alloc, table, at, "source_table")?;
    let target_table = name_at(alloc, table, at, "target_table")?;
    Ok(TablePair {
        point,
        source_table,
        target_table,
    })
}

fn policies_at(alloc: Global, table: &Table, at: &str) -> Result<Policies, ConfigRefusal>
    ensures { Answers result (wanted.policies_at (table_view table.now) at.now) }
{
    let delete_action = word_or(alloc, table, at, "delete_action", DeleteAction::DelRow)?;
    let column_policy = word_or(alloc, table, at, "column_policy", ColumnPolicy::Specified)?;
    Ok(Policies {
        delete_action,
        column_policy,
    })
}

fn columns_at(
    alloc: Global,
    config: &Config,
    table: &Table,
    at: &str,
    key: &str,
) -> Result<List<ColumnEntry>, ConfigRefusal>
    requires { IsWithinLimits config.now }
    ensures { Answers result (wanted.columns_at config.now (table_view table.now) at.now key.now) }
{
    match field(table, key) {
        None => Ok(List::new(alloc)),
        Some(value) => {
            let section = field_text(alloc, at, key)?;
            let items = items_at(alloc, value, at, key, "transform.column", 64)?;
            let columns = read_entries(alloc, config, items, section.as_str())?;
            Ok(List::of(columns))
        }
    }
}

/// The columns of a transform, which is judged as a whole.
fn whole_transform(
    alloc: Global,
    config: &Config,
    at: &str,
    ends: &Ends,
    way: &TablePair,
    policies: Policies,
    entries: List<ColumnEntry>,
) -> Result<List<TransformColumn>, ConfigRefusal>
    ensures { Answers result (wanted.whole_transform config.now at.now ends.now way.now policies entries) }
{
    let links = config.links.inner().as_slice();
    if !leads(links, ends.source, ends.target) {
        return Err(ConfigRefusal::NoLink(Txt::copied(alloc, at)?));
    }
    let table = known_table(config, way);
    judged(alloc, at, table, way.point, policies.column_policy, entries)
}

/// The table of the configuration that the transform makes rows of or for.
fn known_table<'a>(config: &'a Config, way: &TablePair) -> Option<&'a TableDef>
    ensures { option_copied result ≡ wanted.known_table config.now way.now }
{
    table_named(config.tables.inner().as_slice(), own_table(way))
}

fn judged(
    alloc: Global,
    at: &str,
    table: Option<&TableDef>,
    point: Point,
    policy: ColumnPolicy,
    entries: List<ColumnEntry>,
) -> Result<List<TransformColumn>, ConfigRefusal>
    ensures { Answers result (wanted.judged at.now (option_copied table.entry) point policy entries) }
{
    let Some(table) = table else {
        return Err(ConfigRefusal::UnknownName(Txt::copied(alloc, at)?));
    };
    if !is_known(point, table, entries.inner().as_slice()) {
        return Err(ConfigRefusal::UnknownName(Txt::copied(alloc, at)?));
    }
    if !is_sound(point, policy, table, entries.inner().as_slice()) {
        return Err(ConfigRefusal::BadSetting(Txt::copied(alloc, at)?));
    }
    match columns_of(alloc, entries)? {
        None => Err(ConfigRefusal::BadSetting(Txt::copied(alloc, at)?)),
        Some(columns) => Ok(columns),
    }
}

fn own_table(way: &TablePair) -> &Txt
    ensures { result.now ≡ wanted.own_table way.now }
{
    match way.point {
        Point::Extract => &way.source_table,
        Point::Load => &way.target_table,
    }
}

/// The table of this name.
pub fn table_named<'a>(tables: &'a [TableDef], name: &Txt) -> Option<&'a TableDef>
    ensures { option_copied result ≡ wanted.table_named tables.now name.now }
{
    match place_of(tables, name.as_str()) {
        None => None,
        Some(place) => tables.get(place),
    }
}
