//! The section `router`.
ghost use Rattle.std.specs.Prelude.{◌≡◌, IfOk, option_copied};
ghost use Rattle.std.specs.List.{list_all};
ghost use Rattle.sds_types.specs.declared.config_refusal.ConfigRefusal.TheVariants.{BadExpression};
ghost use Rattle.sds_config.specs.Refusals.{Answers};
ghost use Rattle.sds_config.specs.Routers as wanted;
ghost use Rattle.sds_config.specs.Transforms.{table_named};

use crate::ends::ends_at;
use crate::fields::{id_at, only_keys, text_or_empty, word_at};
use crate::links::leads;
use crate::rules::has_column;
use crate::sections::Entry;
use crate::transforms::table_named;
use crate::{Config, ConfigRefusal, RouterDef, RouterExpression, RouterKind};
use sds_base::{List, NoMemory, Twin, Txt};
use sds_expressions::{column_tests, lookup_text, subselect_text};
use sds_types::{ColumnTest, Compared, Condition, Lookup, Subselect};
use sds_value::TableDef;
use std::alloc::Global;
use toml::Table;

impl Entry for RouterDef {
    ghost use Rattle.sds_config.specs.Routers.{router_of};

    ghost entry_of = { router_of };

    fn read(
        alloc: Global,
        config: &Config,
        earlier: &[RouterDef],
        table: &Table,
        at: &str,
    ) -> Result<RouterDef, ConfigRefusal> {
        only_keys(
            alloc,
            table,
            at,
            &["id", "source_group", "target_group", "type", "expression"],
        )?;
        let id = id_at(alloc, table, at, "id", earlier)?;
        let ends = ends_at(alloc, &config.groups, table, at)?;
        let kind = word_at(alloc, table, at, "type")?;
        let expression = text_or_empty(alloc, table, at, "expression")?;
        let router = RouterDef {
            id,
            source_group: ends.source,
            target_group: ends.target,
            kind,
            expression,
            parsed: RouterExpression::Everything,
        };
        whole_router(alloc, config, at, router)
    }
}

fn whole_router(
    alloc: Global,
    config: &Config,
    at: &str,
    router: RouterDef,
) -> Result<RouterDef, ConfigRefusal>
    ensures { Answers result (wanted.whole_router config.now at.now router) }
{
    let links = config.links.inner().as_slice();
    if !leads(links, router.source_group, router.target_group) {
        return Err(ConfigRefusal::NoLink(Txt::copied(alloc, at)?));
    }
    let expression = judge(alloc, config, at, &router)?;
    let mut router = router;
    router.parsed = expression;
    Ok(router)
}

fn judge(
    alloc: Global,
    config: &Config,
    at: &str,
    router: &RouterDef,
) -> Result<RouterExpression, ConfigRefusal>
    ensures { Answers result (wanted.judged config.now at.now router.now router.now.kind) }
{
    let text = &router.expression;
    match router.kind {
        RouterKind::Default => empty_expression(alloc, at, text),
        RouterKind::Column => {
            let tests = column_tests(alloc, text.as_str())?;
            judge_tests(alloc, at, &router.id, &config.tables, tests)
        }
        RouterKind::LookupTable => {
            let lookup = lookup_text(alloc, text.as_str())?;
            judge_lookup(alloc, at, &router.id, &config.tables, lookup)
        }
        RouterKind::Subselect => {
            let choice = subselect_text(alloc, text.as_str())?;
            judge_choice(alloc, at, &router.id, &config.tables, choice)
        }
    }
}

/// An expression, where its names are known.
fn known(
    alloc: Global,
    at: &str,
    known: bool,
    expression: RouterExpression,
) -> Result<RouterExpression, ConfigRefusal>
    ensures { Answers result (wanted.known at.now known expression) }
{
    if !known {
        return Err(ConfigRefusal::UnknownName(Txt::copied(alloc, at)?));
    }
    Ok(expression)
}

fn judge_tests(
    alloc: Global,
    at: &str,
    id: &Txt,
    tables: &List<TableDef>,
    tests: Result<List<ColumnTest>, usize>,
) -> Result<RouterExpression, ConfigRefusal>
    ensures { Answers result (wanted.judged_tests at.now id.now tables.now tests) }
{
    match tests {
        Ok(tests) => {
            let stand = are_somewhere(tables, &tests);
            known(alloc, at, stand, RouterExpression::Tests(tests))
        }
        Err(place) => Err(bad_expression(alloc, id, place)?),
    }
}

fn judge_lookup(
    alloc: Global,
    at: &str,
    id: &Txt,
    tables: &List<TableDef>,
    lookup: Result<Lookup, usize>,
) -> Result<RouterExpression, ConfigRefusal>
    ensures { Answers result (wanted.judged_lookup at.now id.now tables.now lookup) }
{
    match lookup {
        Ok(lookup) => {
            let stand = lookup_known(tables, &lookup);
            known(alloc, at, stand, RouterExpression::Finds(lookup))
        }
        Err(place) => Err(bad_expression(alloc, id, place)?),
    }
}

fn judge_choice(
    alloc: Global,
    at: &str,
    id: &Txt,
    tables: &List<TableDef>,
    choice: Result<Subselect, usize>,
) -> Result<RouterExpression, ConfigRefusal>
    ensures { Answers result (wanted.judged_choice at.now id.now tables.now choice) }
{
    match choice {
        Ok(choice) => {
            let stand = choice_known(tables, &choice);
            known(alloc, at, stand, RouterExpression::Chooses(choice))
        }
        Err(place) => Err(bad_expression(alloc, id, place)?),
    }
}

/// The refusal of a router's expression at this place. No text in memory is so long that its place is out of range.
fn bad_expression(alloc: Global, id: &Txt, place: usize) -> Result<ConfigRefusal, NoMemory>
    ensures { IfOk result (λ refusal. refusal ≡ BadExpression id.now place) }
{
    let Ok(place) = u32::try_from(place) else {
        return Err(NoMemory);
    };
    Ok(ConfigRefusal::BadExpression {
        router: id.twin(alloc)?,
        place,
    })
}

fn are_somewhere(tables: &List<TableDef>, tests: &List<ColumnTest>) -> bool
    ensures { result ≡ list_all (λ test. wanted.is_somewhere tables.now test.name) tests.now }
{
    tests
        .inner()
        .iter()
        .all(|test| is_somewhere(tables, &test.name))
}

fn lookup_known(tables: &List<TableDef>, lookup: &Lookup) -> bool
    ensures { result ≡ wanted.lookup_known tables.now lookup.now }
{
    let table = table_named(tables.inner().as_slice(), &lookup.table);
    has_both(table, &lookup.lookup_column, &lookup.external_id)
        && is_somewhere(tables, &lookup.column)
}

fn has_both(table: Option<&TableDef>, first: &Txt, second: &Txt) -> bool
    ensures { result ≡ wanted.has_both (option_copied table.entry) first.now second.now }
{
    match table {
        None => false,
        Some(table) => has_column(table, first) && has_column(table, second),
    }
}

fn choice_known(tables: &List<TableDef>, choice: &Subselect) -> bool
    ensures { result ≡ wanted.has_choice tables.now (table_named tables.now choice.now.table) choice.now }
{
    let table = table_named(tables.inner().as_slice(), &choice.table);
    has_choice(tables, table, choice)
}

fn has_choice(tables: &List<TableDef>, table: Option<&TableDef>, choice: &Subselect) -> bool
    ensures { result ≡ wanted.has_choice tables.now (option_copied table.entry) choice.now }
{
    match table {
        None => false,
        Some(table) => {
            has_column(table, &choice.column) && has_conditions(tables, table, &choice.conditions)
        }
    }
}

fn has_conditions(tables: &List<TableDef>, table: &TableDef, conditions: &List<Condition>) -> bool
    ensures { result ≡ wanted.has_conditions tables.now table.now conditions.now }
{
    conditions.inner().iter().all(|condition| {
        has_column(table, &condition.column) && is_value_known(tables, &condition.value)
    })
}

fn is_value_known(tables: &List<TableDef>, value: &Compared) -> bool
    ensures { result ≡ wanted.is_value_known tables.now value.now }
{
    match value {
        Compared::Routed(name) => is_somewhere(tables, name),
        Compared::Text(_) => true,
    }
}

fn is_somewhere(tables: &List<TableDef>, name: &Txt) -> bool
    ensures { result ≡ wanted.is_somewhere tables.now name.now }
{
    tables.inner().iter().any(|table| has_column(table, name))
}

fn empty_expression(
    alloc: Global,
    at: &str,
    expression: &Txt,
) -> Result<RouterExpression, ConfigRefusal>
    ensures { Answers result (wanted.empty_expression at.now expression.now) }
{
    if !expression.is_empty() {
        return Err(ConfigRefusal::BadSetting(Txt::copied(alloc, at)?));
    }
    Ok(RouterExpression::Everything)
}
