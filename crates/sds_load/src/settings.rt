//! Where a batch's channel stands in the configuration, and the conflict settings of the tables.
ghost use Rattle.std.specs.Prelude.{◌≡◌, IfOk, length, map};
ghost use Rattle.std.specs.List.{range_with_len};
ghost use Rattle.std.specs.Str.{bytes_eq};
ghost use Rattle.sds_trade.specs.rules.Outcomes as outcome;
ghost use Rattle.sds_trade.specs.rules.Places.{group_name};

use sds_base::{List, NoMemory, Txt};
use sds_types::{Config, ConflictDef, Way};
use std::alloc::Global;

/// The place of the channel of a name. A place past 32 bits, where no channel of a configuration
/// stands, is out of memory.
pub(crate) fn channel_place(config: &Config, name: &Txt) -> Result<Option<u32>, NoMemory>
    ensures { IfOk result (λ place. place ≡ outcome.channel_place config.now name.now) }
{
    narrow(find_channel(config, name))
}

fn find_channel(config: &Config, name: &Txt) -> Option<usize>
    ensures { result ≡ outcome.channel_place config.now name.now }
{
    let channels = config.channels.inner().as_slice();
    channels.iter().position(|channel| channel.id == *name)
}

/// For each table the place of the conflict setting that holds for it on a way, or none.
pub(crate) fn settings_of(
    alloc: Global,
    config: &Config,
    way: &Way,
) -> Result<List<Option<u32>>, NoMemory>
    ensures { IfOk result (λ settings. settings
        ≡ map (outcome.setting_place config.now way.now)
        (range_with_len 0 (length config.now.tables))) }
{
    let count = config.tables.inner().len();
    let mut settings = Vec::with_capacity(alloc, count)?;
    for table in 0..count {
        settings.push(setting_place(config, way, table)?)?;
    }
    Ok(List::of(settings))
}

/// The place of the conflict setting of a table for a way. A place past 32 bits, where no setting
/// of a configuration stands, is out of memory.
fn setting_place(config: &Config, way: &Way, table: usize) -> Result<Option<u32>, NoMemory>
    ensures { IfOk result (λ place. place ≡ outcome.setting_place config.now way.now table) }
{
    narrow(find_setting(config, way, table))
}

fn find_setting(config: &Config, way: &Way, table: usize) -> Option<usize>
    ensures { result ≡ outcome.setting_place config.now way.now table }
{
    let settings = config.conflicts.inner().as_slice();
    settings
        .iter()
        .position(|def| is_for_way(config, way, table, def))
}

/// Whether a conflict setting is that of a table for a way.
fn is_for_way(config: &Config, way: &Way, table: usize, def: &ConflictDef) -> bool
    ensures { result ≡ outcome.is_for_way config.now way.now table def.now }
{
    let groups = config.groups.inner().as_slice();
    def.target_table as usize == table
        && is_group(groups, def.source_group, &way.source_group)
        && is_group(groups, def.target_group, &way.target_group)
}

/// Whether the group at a place has this name.
fn is_group(groups: &[Txt], group: u32, name: &Txt) -> bool
    ensures { result ≡ bytes_eq (group_name groups.now group) name.now }
{
    match groups.get(group as usize) {
        None => name.is_empty(),
        Some(group) => *group == *name,
    }
}

/// A place in 32 bits.
fn narrow(place: Option<usize>) -> Result<Option<u32>, NoMemory>
    ensures { IfOk result (λ narrow. narrow ≡ place) }
{
    match place {
        None => Ok(None),
        Some(place) => match u32::try_from(place) {
            Ok(place) => Ok(Some(place)),
            Err(_) => Err(NoMemory),
        },
    }
}
