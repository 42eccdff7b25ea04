//! Which steps are captured.
ghost use Rattle.std.specs.Prelude.{◌≡◌, ◌==◌, ◌&&◌, ℕ, option_map};
ghost use Rattle.std.specs.List.{enumerate_from, find};
ghost use Rattle.std.specs.Str.{bytes_eq, chars};
ghost use Rattle.sds_types.specs.declared.trigger.TriggerDef.{TriggerDef};
ghost use Rattle.sds_trade.specs.rules.Captured as rules;
ghost use Rattle.sds_trade.specs.rules.Places.{group_name};
ghost use Rattle.sds_trade.specs.rules.Steps as stepped;

use sds_base::Txt;
use sds_rows::Done;
use sds_types::{Config, RowStep, TriggerDef, TriggerRouterDef};

/// The place of the channel that the change of a step goes in, at a node of a group, or none where
/// the step isn't captured: no trigger stands on its table, the trigger doesn't capture the event
/// that really happened, or no enabled trigger-router joins it to a router that leads from the
/// group; and where a batch brought the step, also where the trigger doesn't capture incoming rows.
pub fn captured(config: &Config, group: &str, done: &Done, incoming: bool) -> Option<u32>
    ensures { result ≡ rules.captured_channel config.now (chars group.now) incoming done.now.step }
{
    channel_of(config, group, incoming, &done.step)
}

/// The channel of the change that a step becomes, or none where it becomes none.
pub(crate) fn channel_of(
    config: &Config,
    group: &str,
    incoming: bool,
    step: &RowStep,
) -> Option<u32>
    ensures { result ≡ rules.captured_channel config.now (chars group.now) incoming step.now }
{
    let (place, trigger) = trigger_on(config.triggers.inner().as_slice(), table_of(step))?;
    if captures(config, group, incoming, step, place, trigger) {
        return Some(trigger.channel);
    }
    None
}

/// The place of a step's table.
fn table_of(step: &RowStep) -> u32
    ensures { result ≡ stepped.table_of step.now }
{
    match step {
        RowStep::Insert { table, .. } => *table,
        RowStep::Update { table, .. } => *table,
        RowStep::Delete { table, .. } => *table,
    }
}

/// The trigger that stands on a table, with its place.
fn trigger_on(triggers: &[TriggerDef], table: u32) -> Option<(usize, &TriggerDef)>
    ensures { option_map (λ at. (at.0, at.1.now)) result
        ≡ find (λ (at : ℕ × TriggerDef). at.1.source_table == table)
        (enumerate_from 0 triggers.now) }
{
    for (place, trigger) in triggers.iter().enumerate() {
        if trigger.source_table == table {
            return Some((place, trigger));
        }
    }
    None
}

/// Whether the trigger at a place captures a step at a node of a group.
fn captures(
    config: &Config,
    group: &str,
    incoming: bool,
    step: &RowStep,
    place: usize,
    trigger: &TriggerDef,
) -> bool
    ensures { result ≡ rules.captures config.now (chars group.now) incoming step.now
        (place, trigger.now) }
{
    syncs_on(trigger, step)
        && (!incoming || trigger.sync_on_incoming_batch)
        && is_joined(config, group, place)
}

/// Whether a trigger captures the event of a step.
fn syncs_on(trigger: &TriggerDef, step: &RowStep) -> bool
    ensures { result ≡ rules.syncs_on trigger.now (stepped.event_of step.now) }
{
    match step {
        RowStep::Insert { .. } => trigger.sync_on_insert,
        RowStep::Update { .. } => trigger.sync_on_update,
        RowStep::Delete { .. } => trigger.sync_on_delete,
    }
}

/// Whether an enabled trigger-router joins a trigger to a router that leads from a group.
fn is_joined(config: &Config, group: &str, trigger: usize) -> bool
    ensures { result ≡ rules.is_joined config.now (chars group.now) trigger }
{
    let joins = config.trigger_routers.inner().as_slice();
    for join in joins {
        if joins_from(config, group, trigger, join) {
            return true;
        }
    }
    false
}

/// Whether a trigger-router is enabled and joins a trigger to a router that leads from a group.
fn joins_from(config: &Config, group: &str, trigger: usize, join: &TriggerRouterDef) -> bool
    ensures { result ≡ (join.now.enabled && (join.now.trigger == trigger
        && rules.leads_from config.now (chars group.now) join.now.router)) }
{
    join.enabled && (join.trigger as usize == trigger && leads_from(config, group, join.router))
}

/// Whether the router at a place leads from a group.
fn leads_from(config: &Config, group: &str, router: u32) -> bool
    ensures { result ≡ rules.leads_from config.now (chars group.now) router }
{
    match config.routers.inner().get(router as usize) {
        Some(def) => is_group(config.groups.inner().as_slice(), def.source_group, group),
        None => false,
    }
}

/// Whether the group at a place has this name. Past the last group it is the empty text.
fn is_group(groups: &[Txt], place: u32, name: &str) -> bool
    ensures { result ≡ bytes_eq (group_name groups.now place) (chars name.now) }
{
    match groups.get(place as usize) {
        Some(group) => group.is(name),
        None => "" == name,
    }
}
