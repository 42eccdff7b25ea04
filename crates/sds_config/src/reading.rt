//! The reading of a whole file, section after section.
ghost use Rattle.std.specs.Prelude.{◌≡◌, ◌≢◌, ◌≤◌, ◌^◌, IfOk, IfErr, OnOk, length};
ghost use Rattle.toml.specs.View.{table_view};
ghost use Rattle.sds_config.specs.Configuration as wanted;
ghost use Rattle.sds_config.specs.Limits.{IsWithinLimits};
ghost use Rattle.sds_config.specs.Refusals.{Answers};

use crate::fields::{number_at, only_keys};
use crate::sections::read_section;
use crate::{Config, ConfigRefusal};
use sds_base::{List, Txt};
use std::alloc::Global;
use toml::Table;

/// The configuration of a tree.
pub fn read_file(alloc: Global, file: &Table) -> Result<Config, ConfigRefusal>
    ensures { Answers result (wanted.config_of (table_view file.now)) }
{
    number_at(alloc, file, "", "version", 1, 1)?;
    only_keys(
        alloc,
        file,
        "",
        &[
            "version",
            "group",
            "link",
            "channel",
            "table",
            "trigger",
            "router",
            "trigger_router",
            "transform",
            "conflict",
        ],
    )?;
    all_sections(alloc, file)
}

fn all_sections(alloc: Global, file: &Table) -> Result<Config, ConfigRefusal>
    ensures { Answers result (wanted.all_sections (table_view file.now)) }
{
    let config = up_to_pairs(alloc, file)?;
    let config = with_transforms(alloc, file, config)?;
    with_conflicts(alloc, file, config)
}

fn up_to_pairs(alloc: Global, file: &Table) -> Result<Config, ConfigRefusal>
    ensures answer { Answers result (wanted.up_to_pairs (table_view file.now)) }
    ensures limits { IfOk result IsWithinLimits }
{
    let config = up_to_tables(alloc, file)?;
    let config = with_triggers(alloc, file, config)?;
    let config = with_routers(alloc, file, config)?;
    with_trigger_routers(alloc, file, config)
}

fn up_to_tables(alloc: Global, file: &Table) -> Result<Config, ConfigRefusal>
    ensures answer { Answers result (wanted.up_to_tables (table_view file.now)) }
    ensures limits { IfOk result IsWithinLimits }
{
    let config = with_groups(alloc, file, empty(alloc))?;
    let config = with_links(alloc, file, config)?;
    let config = with_channels(alloc, file, config)?;
    with_tables(alloc, file, config)
}

fn empty(alloc: Global) -> Config
    ensures config { result ≡ wanted.empty }
    ensures limits { IsWithinLimits result }
{
    Config {
        groups: List::new(alloc),
        links: List::new(alloc),
        channels: List::new(alloc),
        tables: List::new(alloc),
        triggers: List::new(alloc),
        routers: List::new(alloc),
        trigger_routers: List::new(alloc),
        transforms: List::new(alloc),
        conflicts: List::new(alloc),
    }
}

fn with_groups(alloc: Global, file: &Table, mut config: Config) -> Result<Config, ConfigRefusal>
    requires { IsWithinLimits config }
    ensures answer { Answers result (wanted.with_groups (table_view file.now) config) }
    ensures limits { IfOk result IsWithinLimits }
{
    let entries = read_section(alloc, &config, file, "group", 32)?;
    config.groups = List::of(entries);
    Ok(config)
}

fn with_links(alloc: Global, file: &Table, mut config: Config) -> Result<Config, ConfigRefusal>
    requires { IsWithinLimits config }
    ensures answer { Answers result (wanted.with_links (table_view file.now) config) }
    ensures limits { IfOk result IsWithinLimits }
{
    let entries = read_section(alloc, &config, file, "link", 64)?;
    config.links = List::of(entries);
    Ok(config)
}

fn with_channels(alloc: Global, file: &Table, mut config: Config) -> Result<Config, ConfigRefusal>
    requires { IsWithinLimits config }
    ensures answer { Answers result (wanted.with_channels (table_view file.now) config) }
    ensures limits { IfOk result IsWithinLimits }
{
    let entries = read_section(alloc, &config, file, "channel", 32)?;
    config.channels = List::of(entries);
    Ok(config)
}

fn with_tables(alloc: Global, file: &Table, mut config: Config) -> Result<Config, ConfigRefusal>
    requires { IsWithinLimits config }
    ensures answer { Answers result (wanted.with_tables (table_view file.now) config) }
    ensures limits { IfOk result IsWithinLimits }
{
    let entries = read_section(alloc, &config, file, "table", 64)?;
    config.tables = List::of(entries);
    Ok(config)
}

fn with_triggers(alloc: Global, file: &Table, mut config: Config) -> Result<Config, ConfigRefusal>
    requires { IsWithinLimits config }
    ensures answer { Answers result (wanted.with_triggers (table_view file.now) config) }
    ensures limits { IfOk result IsWithinLimits }
{
    let entries = read_section(alloc, &config, file, "trigger", 64)?;
    config.triggers = List::of(entries);
    Ok(config)
}

fn with_routers(alloc: Global, file: &Table, mut config: Config) -> Result<Config, ConfigRefusal>
    requires { IsWithinLimits config }
    ensures answer { Answers result (wanted.with_routers (table_view file.now) config) }
    ensures limits { IfOk result IsWithinLimits }
{
    let entries = read_section(alloc, &config, file, "router", 256)?;
    config.routers = List::of(entries);
    Ok(config)
}

fn with_trigger_routers(
    alloc: Global,
    file: &Table,
    mut config: Config,
) -> Result<Config, ConfigRefusal>
    requires { IsWithinLimits config }
    ensures answer { Answers result (wanted.with_trigger_routers (table_view file.now) config) }
    ensures limits { IfOk result IsWithinLimits }
{
    let entries = read_section(alloc, &config, file, "trigger_router", 1_024)?;
    config.trigger_routers = List::of(entries);
    Ok(config)
}

fn with_transforms(alloc: Global, file: &Table, mut config: Config) -> Result<Config, ConfigRefusal>
    requires { IsWithinLimits config }
    ensures answer { Answers result (wanted.with_transforms (table_view file.now) config) }
    ensures limits { IfOk result IsWithinLimits }
{
    let entries = read_section(alloc, &config, file, "transform", 256)?;
    config.transforms = List::of(entries);
    Ok(config)
}

fn with_conflicts(alloc: Global, file: &Table, mut config: Config) -> Result<Config, ConfigRefusal>
    requires { IsWithinLimits config }
    ensures answer { Answers result (wanted.with_conflicts (table_view file.now) config) }
    ensures limits { IfOk result IsWithinLimits }
{
    let entries = read_section(alloc, &config, file, "conflict", 256)?;
    config.conflicts = List::of(entries);
    Ok(config)
}
