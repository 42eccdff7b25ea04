//! The bodies of records: their fields as a line.
ghost use Rattle.std.specs.Prelude.{◌≡◌, ◌++◌, ◌∷◌, [], IfOk, IsTrue, OnOk, map};
ghost use Rattle.std.specs.Char.{is_ascii};
ghost use Rattle.std.specs.List.{list_all};
ghost use Rattle.sds_line.specs.Written.{written_line};
ghost use Rattle.sds_value.specs.declared.row.Field.TheVariants as field;
ghost use Rattle.sds_types.specs.Standings.{name_of};
ghost use Rattle.sds_history.specs.history.Records as records;
ghost use Rattle.sds_records.specs.Parts.{FitsPart, record_of_part};

use crate::Part;
use crate::names::channel_name;
use crate::rows::{change_fields, row_fields};
use sds_base::{Bytes, NoMemory, Twin, Txt};
use sds_line::put_fields;
use sds_types::{
    Config, Counts, KeptPeer, LaneError, LaneIn, Opening, OutBatch, Stage, Standing, WriterLast,
};
use sds_value::{Field, Peer};
use std::alloc::Global;

/// The field of a number: its decimal text.
#[tactic(auto, using(crate::proofs::Texts::number_text))]
pub(crate) fn number_field(alloc: Global, number: u64) -> Result<Field, NoMemory>
    ensures { IfOk result (λ made. made ≡ records.number_field number) }
{
    Ok(Field::Text(Txt::of(number.to_string(alloc)?)))
}

/// The field of a text.
fn text_field(alloc: Global, text: &Txt) -> Result<Field, NoMemory>
    ensures { IfOk result (λ made. made ≡ field.Text text.now) }
{
    Ok(Field::Text(text.twin(alloc)?))
}

/// The field of a word, which is in ASCII.
#[tactic(auto, using(crate::proofs::Texts::word_text))]
pub(crate) fn word_field(alloc: Global, word: &str) -> Result<Field, NoMemory>
    requires { IsTrue (list_all is_ascii word.now) }
    ensures { IfOk result (λ made. made ≡ field.Text word.now) }
{
    Ok(Field::Text(Txt::copied(alloc, word)?))
}

/// The fields of the node itself.
fn me_fields(alloc: Global, me: &Peer) -> Result<Vec<Field>, NoMemory>
    ensures { IfOk result (λ made. written_line made.items ≡ (records.me_record me.now).body) }
{
    let id = text_field(alloc, &me.id)?;
    let group = text_field(alloc, &me.group)?;
    let external = text_field(alloc, &me.external)?;
    Ok(vec![in alloc; id, group, external]?)
}

/// The fields of the counters.
fn count_fields(alloc: Global, counts: &Counts) -> Result<Vec<Field>, NoMemory>
    ensures { IfOk result (λ made. written_line made.items
        ≡ (records.count_record counts.now).body) }
{
    let acts = number_field(alloc, counts.acts)?;
    let last_change = number_field(alloc, counts.last_change)?;
    let last_batch = number_field(alloc, counts.last_batch)?;
    let last_tx = number_field(alloc, counts.last_tx)?;
    let routed = number_field(alloc, counts.routed)?;
    Ok(vec![in alloc; acts, last_change, last_batch, last_tx, routed]?)
}

/// The field that says at which side a peer registered.
fn side_field(alloc: Global, child: bool) -> Result<Field, NoMemory>
    ensures { IfOk result (λ made. made ≡ field.Text (records.side_word child)) }
{
    if child {
        word_field(alloc, "child")
    } else {
        word_field(alloc, "parent")
    }
}

/// The fields of a peer.
fn peer_fields(alloc: Global, kept: &KeptPeer) -> Result<Vec<Field>, NoMemory>
    ensures { IfOk result (λ made. written_line made.items
        ≡ (records.peer_record kept.now).body) }
{
    let group = text_field(alloc, &kept.peer.group)?;
    let external = text_field(alloc, &kept.peer.external)?;
    let token = text_field(alloc, &kept.token)?;
    let side = side_field(alloc, kept.child)?;
    Ok(vec![in alloc; group, external, token, side]?)
}

/// The fields of an opening whose stage has this word, in ASCII, and this node that it went to.
fn staged_fields(
    alloc: Global,
    opening: &Opening,
    word: &str,
    node: Field,
) -> Result<Vec<Field>, NoMemory>
    requires { IsTrue (list_all is_ascii word.now) }
    ensures { IfOk result (λ made. made.items
        ≡ field.Text opening.now.token ∷ (field.Text word.now ∷ (node ∷ []))) }
{
    let token = text_field(alloc, &opening.token)?;
    let word = word_field(alloc, word)?;
    Ok(vec![in alloc; token, word, node]?)
}

/// The fields of an opening.
fn opening_fields(alloc: Global, opening: &Opening) -> Result<Vec<Field>, NoMemory>
    ensures { IfOk result (λ made. written_line made.items
        ≡ (records.opening_record opening.now).body) }
{
    match &opening.stage {
        Stage::Waiting => staged_fields(alloc, opening, "waiting", Field::Null),
        Stage::Given(node) => staged_fields(alloc, opening, "given", text_field(alloc, node)?),
        Stage::Closed(node) => staged_fields(alloc, opening, "closed", text_field(alloc, node)?),
    }
}

/// The fields of a writer's last write.
fn writer_fields(alloc: Global, last: &WriterLast) -> Result<Vec<Field>, NoMemory>
    ensures { IfOk result (λ made. written_line made.items
        ≡ (records.writer_record last.now).body) }
{
    let number = number_field(alloc, last.number)?;
    let first = number_field(alloc, last.first)?;
    let count = number_field(alloc, last.count as u64)?;
    Ok(vec![in alloc; number, first, count]?)
}

/// Puts a field for each of these numbers.
fn put_numbers(alloc: Global, numbers: &[u64], out: &mut Vec<Field>) -> Result<(), NoMemory>
    ensures { OnOk result (out.new.items
        ≡ out.old.items ++ map records.number_field numbers.now) }
{
    for number in numbers {
        out.push(number_field(alloc, *number)?)?;
    }
    Ok(())
}

/// Puts the row and the rule of a batch in error, or two nulls.
fn put_error(alloc: Global, standing: Standing, out: &mut Vec<Field>) -> Result<(), NoMemory>
    ensures { OnOk result (out.new.items ≡ out.old.items ++ records.error_fields standing) }
{
    match standing {
        Standing::Erred { row, rule } => put_numbers(alloc, &[row as u64, rule as u64], out),
        Standing::New | Standing::Acked => {
            out.push(Field::Null)?;
            out.push(Field::Null)?;
            Ok(())
        }
    }
}

/// The field of a batch's status.
fn standing_field(alloc: Global, standing: Standing) -> Result<Field, NoMemory>
    ensures { IfOk result (λ made. made ≡ field.Text (name_of standing)) }
{
    match standing {
        Standing::New => word_field(alloc, "NE"),
        Standing::Erred { .. } => word_field(alloc, "ER"),
        Standing::Acked => word_field(alloc, "OK"),
    }
}

/// The fields of a batch.
fn batch_fields(alloc: Global, config: &Config, batch: &OutBatch) -> Result<Vec<Field>, NoMemory>
    ensures { IfOk result (λ made. written_line made.items
        ≡ (records.batch_record config.now batch.now).body) }
{
    let peer = text_field(alloc, &batch.peer)?;
    let channel = Field::Text(Txt::copied(alloc, channel_name(config, batch.channel))?);
    let status = standing_field(alloc, batch.standing)?;
    let mut fields = vec![in alloc; peer, channel, status]?;
    put_error(alloc, batch.standing, &mut fields)?;
    put_numbers(alloc, batch.changes.inner(), &mut fields)?;
    Ok(fields)
}

/// The field of the status that a lane's highest batch has.
fn status_field(alloc: Global, ignored: Option<bool>) -> Result<Field, NoMemory>
    ensures { IfOk result (λ made. made ≡ records.status_field ignored) }
{
    match ignored {
        None => Ok(Field::Null),
        Some(true) => word_field(alloc, "IG"),
        Some(false) => word_field(alloc, "OK"),
    }
}

/// Puts the batch in error with its row and its rule, or three nulls.
fn put_held(alloc: Global, error: Option<LaneError>, out: &mut Vec<Field>) -> Result<(), NoMemory>
    ensures { OnOk result (out.new.items ≡ out.old.items ++ records.held_fields error) }
{
    match error {
        None => {
            out.push(Field::Null)?;
            out.push(Field::Null)?;
            out.push(Field::Null)?;
            Ok(())
        }
        Some(error) => {
            let numbers = [error.batch, error.row as u64, error.rule.number() as u64];
            put_numbers(alloc, &numbers, out)
        }
    }
}

/// The fields of a lane.
fn lane_fields(alloc: Global, lane: &LaneIn) -> Result<Vec<Field>, NoMemory>
    ensures { IfOk result (λ made. made.items ≡ records.number_field lane.now.highest
        ∷ (records.status_field lane.now.ignored ∷ records.held_fields lane.now.error)) }
{
    let highest = number_field(alloc, lane.highest)?;
    let status = status_field(alloc, lane.ignored)?;
    let mut fields = vec![in alloc; highest, status]?;
    put_held(alloc, lane.error, &mut fields)?;
    Ok(fields)
}

/// The fields of a part's record.
fn fields_of(alloc: Global, config: &Config, part: &Part) -> Result<Vec<Field>, NoMemory>
    requires { FitsPart config.now part.now }
    ensures { IfOk result (λ made. written_line made.items
        ≡ (record_of_part config.now part.now).body) }
{
    match part {
        Part::Me(me) => me_fields(alloc, me),
        Part::Counts(counts) => count_fields(alloc, counts),
        Part::Peer(kept) => peer_fields(alloc, kept),
        Part::Opening(opening) => opening_fields(alloc, opening),
        Part::Writer(last) => writer_fields(alloc, last),
        Part::Row(table, row) => row_fields(alloc, config, *table, row),
        Part::Change(change) => change_fields(alloc, config, change),
        Part::Batch(batch) => batch_fields(alloc, config, batch),
        Part::Lane(lane) => lane_fields(alloc, lane),
    }
}

/// The body of a part's record.
pub(crate) fn body_of(alloc: Global, config: &Config, part: &Part) -> Result<Bytes, NoMemory>
    requires { FitsPart config.now part.now }
    ensures { IfOk result (λ body. body ≡ (record_of_part config.now part.now).body) }
{
    let fields = fields_of(alloc, config, part)?;
    let mut body = Vec::new(alloc);
    put_fields(&fields, &mut body)?;
    Ok(Bytes::of(body))
}
