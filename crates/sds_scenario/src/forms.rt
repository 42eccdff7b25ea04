//! Lines that take more than one name or one number, each by the fields after its word.
ghost use Rattle.std.specs.Prelude.{◌≡◌, ◌∷◌, IfOk, codes, option_map};
ghost use Rattle.std.specs.Str.{chars};
ghost use Rattle.sds_value.specs.declared.row.Field.{Field};
ghost use Rattle.sds_value.specs.declared.row.Field.TheVariants.{Text};
ghost use Rattle.sds_types.specs.declared.tx_row.TxRow.{TxRow};
ghost use Rattle.sds_types.specs.declared.scenario.ScenarioLine.TheVariants as line;
ghost use Rattle.sds_scenario.specs.Lines as stated;
ghost use Rattle.sds_scenario.specs.Rows.{row_line, event_named};

use crate::fields::{number_in, one_number, take_name, take_names, three_names, two_names};
use sds_base::{List, NoMemory, Txt};
use sds_types::{ScenarioLine, TxRow};
use sds_value::{Event, Field, Peer};
use std::alloc::Global;

/// `node,ID,GROUP,EXTERNAL`.
#[tactic(auto, using(crate::proofs::WordLines::node_names))]
pub(crate) fn read_node(fields: &mut [Field]) -> Option<ScenarioLine>
    ensures { result ≡ stated.line_of_word (Text (codes "node") ∷ fields.old) }
{
    let (id, group, external) = three_names(fields)?;
    Some(ScenarioLine::Node {
        peer: Peer {
            id,
            group,
            external,
        },
    })
}

/// `open,NODE,GROUP,EXTERNAL`.
#[tactic(auto, using(crate::proofs::WordLines::open_names))]
pub(crate) fn read_open(fields: &mut [Field]) -> Option<ScenarioLine>
    ensures { result ≡ stated.line_of_word (Text (codes "open") ∷ fields.old) }
{
    let (at, group, external) = three_names(fields)?;
    Some(ScenarioLine::Open {
        at,
        group,
        external,
    })
}

/// `register,NODE,AT`.
#[tactic(auto, using(crate::proofs::WordLines::register_names))]
pub(crate) fn read_register(fields: &mut [Field]) -> Option<ScenarioLine>
    ensures { result ≡ stated.line_of_word (Text (codes "register") ∷ fields.old) }
{
    let (asks, at) = two_names(fields)?;
    Some(ScenarioLine::Register { asks, at })
}

/// `push,FROM,TO`.
#[tactic(auto, using(crate::proofs::WordLines::push_names))]
pub(crate) fn read_push(fields: &mut [Field]) -> Option<ScenarioLine>
    ensures { result ≡ stated.line_of_word (Text (codes "push") ∷ fields.old) }
{
    let (from, to) = two_names(fields)?;
    Some(ScenarioLine::Push { from, to })
}

/// `pull,TO,FROM`.
#[tactic(auto, using(crate::proofs::WordLines::pull_names))]
pub(crate) fn read_pull(fields: &mut [Field]) -> Option<ScenarioLine>
    ensures { result ≡ stated.line_of_word (Text (codes "pull") ∷ fields.old) }
{
    let (to, from) = two_names(fields)?;
    Some(ScenarioLine::Pull { to, from })
}

/// `insert,TABLE,..`, `update,TABLE,..` or `delete,TABLE,..`: a row of the write, with its fields.
pub(crate) fn read_row(event: Event, mut fields: Vec<Field>) -> Option<ScenarioLine>
    ensures { (word : Field) → event_named word ≡ Some event
        → result ≡ option_map line.Row (row_line (word ∷ fields.items)) }
{
    if fields.is_empty() {
        return None;
    }
    let Field::Text(table) = fields.remove(0) else {
        return None;
    };
    Some(ScenarioLine::Row(TxRow {
        event,
        table,
        fields: List::of(fields),
    }))
}

/// `write,NODE,WRITER,NUMBER`.
pub(crate) fn read_write(fields: &mut [Field]) -> Option<ScenarioLine>
    ensures { result ≡ stated.line_of_fields (Text (codes "write") ∷ fields.old) }
{
    let (node, others) = fields.split_first_mut()?;
    let node = take_name(node)?;
    let (writer, others) = others.split_first_mut()?;
    let writer = take_name(writer)?;
    let number = one_number(others)?;
    Some(ScenarioLine::Write {
        node,
        writer,
        number,
    })
}

/// `end` alone.
pub(crate) fn read_end(fields: &[Field]) -> Option<ScenarioLine>
    ensures { result ≡ stated.line_of_fields (Text (codes "end") ∷ fields.now) }
{
    if fields.is_empty() {
        Some(ScenarioLine::End)
    } else {
        None
    }
}

/// `fault,NODE,before` or `fault,NODE,after`.
pub(crate) fn read_fault(fields: &mut [Field]) -> Option<ScenarioLine>
    ensures { result ≡ stated.line_of_fields (Text (codes "fault") ∷ fields.old) }
{
    let (node, others) = fields.split_first_mut()?;
    let node = take_name(node)?;
    let [stands] = others else {
        return None;
    };
    let stands = stands_in(stands)?;
    Some(ScenarioLine::Fault { node, stands })
}

/// Whether the commit that fails stands all the same: `after` or `before`.
fn stands_in(field: &Field) -> Option<bool>
    ensures { result ≡ stated.stands_of field.now }
{
    match field {
        Field::Null => None,
        Field::Text(word) => stands_named(word.as_str()),
    }
}

fn stands_named(word: &str) -> Option<bool>
    ensures { result ≡ stated.stands_of (Text (chars word.now)) }
{
    match word {
        "after" => Some(true),
        "before" => Some(false),
        _ => None,
    }
}

/// `send,FROM,TO,..`, with any number of channels.
pub(crate) fn read_send(
    alloc: Global,
    fields: &mut [Field],
) -> Result<Option<ScenarioLine>, NoMemory>
    ensures { IfOk result (λ said.
        said ≡ stated.line_of_channels (Text (codes "send") ∷ fields.old)) }
{
    let Some((from, others)) = fields.split_first_mut() else {
        return Ok(None);
    };
    let Some(from) = take_name(from) else {
        return Ok(None);
    };
    let Some((to, channels)) = others.split_first_mut() else {
        return Ok(None);
    };
    let Some(to) = take_name(to) else {
        return Ok(None);
    };
    let Some(channels) = take_names(alloc, channels)? else {
        return Ok(None);
    };
    Ok(Some(ScenarioLine::Send { from, to, channels }))
}

/// `deliver,MESSAGE,..`, with any number of channels.
pub(crate) fn read_deliver(
    alloc: Global,
    fields: &mut [Field],
) -> Result<Option<ScenarioLine>, NoMemory>
    ensures { IfOk result (λ said.
        said ≡ stated.line_of_channels (Text (codes "deliver") ∷ fields.old)) }
{
    let Some((message, channels)) = fields.split_first_mut() else {
        return Ok(None);
    };
    let Some(message) = number_in(message) else {
        return Ok(None);
    };
    let Some(channels) = take_names(alloc, channels)? else {
        return Ok(None);
    };
    Ok(Some(ScenarioLine::Deliver { message, channels }))
}
