//! What the fields of a line say.
ghost use Rattle.std.specs.Prelude.{◌≡◌, ◌∷◌, IfOk};
ghost use Rattle.std.specs.Str.{chars};
ghost use Rattle.sds_value.specs.declared.row.Field.TheVariants.{Text};
ghost use Rattle.sds_scenario.specs.Lines.{line_of};

use crate::fields::{one_name, one_number};
use crate::forms::{
    read_deliver, read_end, read_fault, read_node, read_open, read_pull, read_push, read_register,
    read_row, read_send, read_write,
};
use sds_base::{List, NoMemory};
use sds_types::ScenarioLine;
use sds_value::{Event, Field};
use std::alloc::Global;

/// What the fields of a scenario's line say by themselves, wherever it stands; none where the line
/// is malformed. The texts move out of the fields.
///
/// The first field is one of these words, in lower case, and exactly the fields given here follow:
///
/// - `node,ID,GROUP,EXTERNAL`: a node is made.
/// - `open,NODE,GROUP,EXTERNAL`: a node opens registration.
/// - `register,NODE,AT`: a node registers at another.
/// - `write,NODE,WRITER,NUMBER`: a write begins. Its rows follow, and then `end`.
/// - `insert,TABLE,..`, `update,TABLE,..`, `delete,TABLE,..`: a row of the write. The table is any
///   text but null, and any fields follow it: whether they are a row is judged where it is done.
/// - `route,NODE`: a routing run.
/// - `send,FROM,TO,..`: a message is made, of the channels that follow, or of all where none does.
/// - `deliver,MESSAGE,..`: it is delivered, its batches in the order of the channels that follow.
/// - `answer,REPLY`: a reply is taken.
/// - `push,FROM,TO`, `pull,TO,FROM`: a message is sent, delivered and answered.
/// - `wire,MESSAGE`: the bytes of a message are shown.
/// - `show,NODE`, `batches,NODE`: a node's tables are shown, or its batches.
/// - `crash,NODE`: a node is dropped and opened again.
/// - `fault,NODE,before`, `fault,NODE,after`: a commit will fail, and its records are then those
///   before it, or those after it.
///
/// Nodes, groups, external ids, writers and channels are names: 1 to 50 ASCII letters, ASCII digits,
/// `_` or `-`. Numbers are 1 to 19 decimal digits, which may begin with zeros. A line without fields
/// is malformed too. `NoMemory` comes where memory runs out, and nowhere else. The forms are symds'
/// own.
pub fn read_line_fields(
    alloc: Global,
    fields: List<Field>,
) -> Result<Option<ScenarioLine>, NoMemory>
    ensures { IfOk result (λ said. said ≡ line_of fields) }
{
    let mut fields = fields.into_inner();
    if fields.is_empty() {
        return Ok(None);
    }
    let Field::Text(word) = fields.remove(0) else {
        return Ok(None);
    };
    read_after(alloc, word.as_str(), fields)
}

/// What a line says that begins with this word, by the fields after it.
fn read_after(
    alloc: Global,
    word: &str,
    mut fields: Vec<Field>,
) -> Result<Option<ScenarioLine>, NoMemory>
    ensures { IfOk result (λ said. said ≡ line_of (Text (chars word.now) ∷ fields.items)) }
{
    match word {
        "node" => Ok(read_node(&mut fields)),
        "open" => Ok(read_open(&mut fields)),
        "register" => Ok(read_register(&mut fields)),
        "write" => Ok(read_write(&mut fields)),
        "insert" => Ok(read_row(Event::Insert, fields)),
        "update" => Ok(read_row(Event::Update, fields)),
        "delete" => Ok(read_row(Event::Delete, fields)),
        "end" => Ok(read_end(&fields)),
        "route" => Ok(one_name(&mut fields).map(|node| ScenarioLine::Route { node })),
        "send" => read_send(alloc, &mut fields),
        "deliver" => read_deliver(alloc, &mut fields),
        "answer" => Ok(one_number(&fields).map(|reply| ScenarioLine::Answer { reply })),
        "push" => Ok(read_push(&mut fields)),
        "pull" => Ok(read_pull(&mut fields)),
        "wire" => Ok(one_number(&fields).map(|message| ScenarioLine::Wire { message })),
        "show" => Ok(one_name(&mut fields).map(|node| ScenarioLine::Show { node })),
        "batches" => Ok(one_name(&mut fields).map(|node| ScenarioLine::Batches { node })),
        "crash" => Ok(one_name(&mut fields).map(|node| ScenarioLine::Crash { node })),
        "fault" => Ok(read_fault(&mut fields)),
        _ => Ok(None),
    }
}
