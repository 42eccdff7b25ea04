//! What a line makes happen, and the write that is being read after it.
ghost use Rattle.std.specs.Prelude.{◌≡◌, ℕ, ◌++◌, List, IfOk, None, OnOk, Some, option_map};
ghost use Rattle.std.specs.List.{cons_option};
ghost use Rattle.sds_types.specs.declared.scenario.ScenarioLine.TheVariants as line;
ghost use Rattle.sds_trade.specs.rules.Outcomes as outcome;
ghost use Rattle.sds_screen.specs.Scenes.{channel_places, draft_after, event_at, write_event};
ghost use Rattle.sds_world.specs.Scening.{draft_of};

use crate::judging::channel_place;
use crate::play::Draft;
use sds_base::{List, NoMemory, Txt};
use sds_types::{Config, ScenarioLine, TxRow, WorldEvent};
use std::alloc::Global;

/// What comes of a line: the write that is being read after it, and what happens at it.
#[derive(Drop)]
pub(crate) struct Step {
    pub(crate) draft: Option<Draft>,
    pub(crate) event: Option<WorldEvent>,
}

/// What comes of a line after a write that is being read, if there is one. A write happens at its
/// end.
pub(crate) fn step_at(
    alloc: Global,
    config: &Config,
    draft: Option<Draft>,
    line: ScenarioLine,
) -> Result<Step, NoMemory>
    ensures draft { IfOk result (λ step. option_map draft_of step.draft
        ≡ draft_after (option_map draft_of draft) line) }
    ensures event { IfOk result (λ step. step.event
        ≡ event_at config.now (option_map draft_of draft) line) }
{
    match line {
        ScenarioLine::Write {
            node,
            writer,
            number,
        } => Ok(Step {
            draft: Some(begun(alloc, node, writer, number)),
            event: None,
        }),
        ScenarioLine::Row(row) => Ok(Step {
            draft: with_row(draft, row)?,
            event: None,
        }),
        ScenarioLine::End => Ok(Step {
            draft: None,
            event: ended(draft),
        }),
        other => Ok(Step {
            draft: None,
            event: event_of(alloc, config, other)?,
        }),
    }
}

/// A write without rows.
fn begun(alloc: Global, node: Txt, writer: Txt, number: u64) -> Draft
    ensures { Some (draft_of result) ≡ draft_after None (line.Write node writer number) }
{
    Draft {
        node,
        writer,
        number,
        rows: List::new(alloc),
    }
}

/// The write that is being read, with one more row.
fn with_row(draft: Option<Draft>, row: TxRow) -> Result<Option<Draft>, NoMemory>
    ensures { IfOk result (λ with. option_map draft_of with
        ≡ draft_after (option_map draft_of draft) (line.Row row)) }
{
    let Some(mut draft) = draft else {
        return Ok(None);
    };
    draft.rows.push(row)?;
    Ok(Some(draft))
}

/// The write that has been read happens.
fn ended(draft: Option<Draft>) -> Option<WorldEvent>
    ensures { result ≡ option_map write_event (option_map draft_of draft) }
{
    let Draft {
        node,
        writer,
        number,
        rows,
    } = draft?;
    Some(WorldEvent::Write {
        node,
        writer,
        number,
        rows,
    })
}

/// What happens at a line that stands outside a write.
fn event_of(
    alloc: Global,
    config: &Config,
    line: ScenarioLine,
) -> Result<Option<WorldEvent>, NoMemory>
    ensures { IfOk result (λ event. event ≡ event_at config.now None line) }
{
    let event = match line {
        ScenarioLine::Node { peer } => WorldEvent::Node { peer },
        ScenarioLine::Open {
            at,
            group,
            external,
        } => WorldEvent::Open {
            at,
            group,
            external,
        },
        ScenarioLine::Register { asks, at } => WorldEvent::Register { asks, at },
        ScenarioLine::Write { .. } | ScenarioLine::Row(_) | ScenarioLine::End => return Ok(None),
        ScenarioLine::Route { node } => WorldEvent::Route { node },
        ScenarioLine::Send { from, to, channels } => WorldEvent::Send {
            from,
            to,
            channels: channel_places(alloc, config, channels.inner().as_slice())?,
        },
        ScenarioLine::Deliver { message, channels } => WorldEvent::Deliver {
            message,
            channels: channel_places(alloc, config, channels.inner().as_slice())?,
        },
        ScenarioLine::Answer { reply } => WorldEvent::Answer { reply },
        ScenarioLine::Push { from, to } => WorldEvent::Push { from, to },
        ScenarioLine::Pull { to, from } => WorldEvent::Pull { to, from },
        ScenarioLine::Wire { message } => WorldEvent::Wire { message },
        ScenarioLine::Show { node } => WorldEvent::Show { node },
        ScenarioLine::Batches { node } => WorldEvent::Batches { node },
        ScenarioLine::Crash { node } => WorldEvent::Crash { node },
        ScenarioLine::Fault { node, stands } => WorldEvent::Fault { node, stands },
    };
    Ok(Some(event))
}

/// The places of channels by their names; a name that no channel has is left out.
fn channel_places(alloc: Global, config: &Config, names: &[Txt]) -> Result<List<u32>, NoMemory>
    ensures { IfOk result (λ places. places ≡ channel_places config.now names.now) }
{
    let mut places = List::new(alloc);
    for name in names {
        put_place(config, name, &mut places)?;
    }
    Ok(places)
}

/// Puts the place of the channel of a name at the end, if there is one. A place past 32 bits, where
/// no channel of a configuration stands, is out of memory.
fn put_place(config: &Config, name: &Txt, places: &mut List<u32>) -> Result<(), NoMemory>
    ensures { OnOk result ((rest : List ℕ) → places.new ++ rest
        ≡ places.old ++ cons_option (outcome.channel_place config.now name.now) rest) }
{
    let Some(place) = channel_place(config, name) else {
        return Ok(());
    };
    let Ok(place) = u32::try_from(place) else {
        return Err(NoMemory);
    };
    places.push(place)
}
