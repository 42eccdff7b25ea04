//! The parts that records tell, but rows and changes. Each reading finds the part that a record
//! tells; whether the record is that part's is seen after it.
ghost use Rattle.std.specs.Prelude.{◌≡◌, ◌<◌, ◌∷◌, [], ℕ, Bool, List, Option, Some};
ghost use Rattle.std.specs.Prelude.{IfOk, IfSome, map, true};
ghost use Rattle.std.specs.List.{All};
ghost use Rattle.sds_value.specs.Names.{is_name_text};
ghost use Rattle.sds_value.specs.declared.row.Field.{Field};
ghost use Rattle.sds_value.specs.declared.row.Field.TheVariants as field;
ghost use Rattle.sds_value.specs.declared.row.Peer.{Peer};
ghost use Rattle.sds_types.specs.Rules.{number_of};
ghost use Rattle.sds_types.specs.Standings.{name_of};
ghost use Rattle.sds_types.specs.declared.batch.OutBatch.{OutBatch};
ghost use Rattle.sds_types.specs.declared.batch.Standing.{Standing};
ghost use Rattle.sds_types.specs.declared.batch.Standing.TheVariants as standing;
ghost use Rattle.sds_types.specs.declared.counts.Counts.{Counts};
ghost use Rattle.sds_types.specs.declared.counts.WriterLast.{WriterLast};
ghost use Rattle.sds_types.specs.declared.lane.LaneError.{LaneError};
ghost use Rattle.sds_types.specs.declared.lane.LaneIn.{LaneIn};
ghost use Rattle.sds_types.specs.declared.peer.KeptPeer.{KeptPeer};
ghost use Rattle.sds_types.specs.declared.registration.Opening.{Opening};
ghost use Rattle.sds_types.specs.declared.registration.Stage.{Stage};
ghost use Rattle.sds_trade.specs.rules.Outcomes as outcomes;
ghost use Rattle.sds_history.specs.history.Lanes as lanes;
ghost use Rattle.sds_history.specs.history.Openings as openings;
ghost use Rattle.sds_history.specs.history.Peers as peers;
ghost use Rattle.sds_history.specs.history.Records as records;
ghost use Rattle.sds_history.specs.history.Writers as writers;
ghost use Rattle.sds_records.specs.Fields as written;
ghost use Rattle.sds_records.specs.Told as told;
ghost use Rattle.sds_records.specs.Told.{HasChannel, stage_node, stage_word};

use crate::pieces::{
    Pair, name_of, narrow, number_in, number_of_key, pair_of, rule_in, small_in, tiny_in,
};
use sds_base::{List, NoMemory, Twin, Txt};
use sds_types::{
    Config, Counts, KeptPeer, LaneError, LaneIn, Opening, OutBatch, Stage, Standing, WriterLast,
};
use sds_value::{Field, Peer};
use std::alloc::Global;

/// The node itself.
pub(crate) fn told_me(alloc: Global, fields: &[Field]) -> Result<Option<Peer>, NoMemory>
    ensures { (me : Peer) → fields.now ≡ written.me_fields me
        → IfOk result (λ found. found ≡ Some me) }
{
    match fields {
        [Field::Text(id), Field::Text(group), Field::Text(external)] => Ok(Some(Peer {
            id: id.twin(alloc)?,
            group: group.twin(alloc)?,
            external: external.twin(alloc)?,
        })),
        _ => Ok(None),
    }
}

/// The node's counters.
pub(crate) fn told_counts(fields: &[Field]) -> Option<Counts>
    ensures { (counts : Counts) → told.AreWide counts → fields.now ≡ written.count_fields counts
        → result ≡ Some counts }
{
    match fields {
        [acts, last_change, last_batch, last_tx, routed] => Some(Counts {
            acts: number_in(acts)?,
            last_change: number_in(last_change)?,
            last_batch: number_in(last_batch)?,
            last_tx: number_in(last_tx)?,
            routed: number_in(routed)?,
        }),
        _ => None,
    }
}

/// Whether a peer registered at this node, by its word.
fn side_of(word: &Txt) -> bool
    ensures { (child : Bool) → word.now ≡ records.side_word child → result ≡ child }
{
    word.is("child")
}

/// The peer whose id a key ends with.
pub(crate) fn told_peer(
    alloc: Global,
    id: &[u8],
    fields: &[Field],
) -> Result<Option<KeptPeer>, NoMemory>
    ensures { (kept : KeptPeer) → is_name_text kept.peer.id ≡ true
        → id.now ≡ peers.peer_key kept → fields.now ≡ written.peer_fields kept
        → IfOk result (λ found. found ≡ Some kept) }
{
    match fields {
        [
            Field::Text(group),
            Field::Text(external),
            Field::Text(token),
            Field::Text(side),
        ] => {
            let Some(id) = name_of(alloc, id)? else {
                return Ok(None);
            };
            Ok(Some(KeptPeer {
                peer: Peer {
                    id,
                    group: group.twin(alloc)?,
                    external: external.twin(alloc)?,
                },
                token: token.twin(alloc)?,
                child: side_of(side),
            }))
        }
        _ => Ok(None),
    }
}

/// The stage of an opening, of its word and the node that has it.
fn told_stage(alloc: Global, word: &Txt, node: &Field) -> Result<Stage, NoMemory>
    ensures { (stage : Stage) → word.now ≡ stage_word stage → node.now ≡ stage_node stage
        → IfOk result (λ found. found ≡ stage) }
{
    match node {
        Field::Null => Ok(Stage::Waiting),
        Field::Text(node) => {
            let node = node.twin(alloc)?;
            if word.is("given") {
                Ok(Stage::Given(node))
            } else {
                Ok(Stage::Closed(node))
            }
        }
    }
}

/// The opening of this group and this external id.
fn opening_of(alloc: Global, pair: Pair, fields: &[Field]) -> Result<Option<Opening>, NoMemory>
    ensures { (opening : Opening) → opening.group ≡ pair.first → opening.external ≡ pair.second
        → fields.now ≡ written.opening_fields opening
        → IfOk result (λ found. found ≡ Some opening) }
{
    match fields {
        [Field::Text(token), Field::Text(word), node] => Ok(Some(Opening {
            group: pair.first,
            external: pair.second,
            token: token.twin(alloc)?,
            stage: told_stage(alloc, word, node)?,
        })),
        _ => Ok(None),
    }
}

/// The opening of the group and the external id that a key ends with.
pub(crate) fn told_opening(
    alloc: Global,
    pair: &[u8],
    fields: &[Field],
) -> Result<Option<Opening>, NoMemory>
    ensures { (opening : Opening) → is_name_text opening.group ≡ true
        → is_name_text opening.external ≡ true → pair.now ≡ openings.opening_key opening
        → fields.now ≡ written.opening_fields opening
        → IfOk result (λ found. found ≡ Some opening) }
{
    match pair_of(alloc, pair)? {
        Some(pair) => opening_of(alloc, pair, fields),
        None => Ok(None),
    }
}

/// The last write of the writer whose name a key ends with.
pub(crate) fn told_writer(
    alloc: Global,
    name: &[u8],
    fields: &[Field],
) -> Result<Option<WriterLast>, NoMemory>
    ensures { (last : WriterLast) → is_name_text last.writer ≡ true → told.IsHeldWriter last
        → name.now ≡ writers.writer_key last → fields.now ≡ written.writer_fields last
        → IfOk result (λ found. found ≡ Some last) }
{
    match fields {
        [number, first, count] => {
            let (Some(writer), Some(number), Some(first), Some(count)) = (
                name_of(alloc, name)?,
                number_in(number),
                number_in(first),
                small_in(count),
            ) else {
                return Ok(None);
            };
            Ok(Some(WriterLast {
                writer,
                number,
                first,
                count,
            }))
        }
        _ => Ok(None),
    }
}

/// The place of the channel of a name.
fn channel_place(config: &Config, name: &Txt) -> Option<usize>
    ensures { result ≡ outcomes.channel_place config.now name.now }
{
    let channels = config.channels.inner();
    channels.iter().position(|channel| channel.id == *name)
}

/// The place of the channel of a name, where 32 bits hold it.
pub(crate) fn channel_of(config: &Config, name: &Txt) -> Option<u32>
    ensures { (place : ℕ) → told.IsNarrow place
        → outcomes.channel_place config.now name.now ≡ Some place → result ≡ Some place }
{
    match channel_place(config, name) {
        Some(place) => narrow(place),
        None => None,
    }
}

/// The standing of a batch in error, of the row and the rule.
fn erred_of(row: &Field, rule: &Field) -> Option<Standing>
    ensures { (at because : ℕ) → told.IsNarrow at → because < 256
        → row.now ≡ records.number_field at → rule.now ≡ records.number_field because
        → result ≡ Some (standing.Erred at because) }
{
    match (small_in(row), tiny_in(rule)) {
        (Some(row), Some(rule)) => Some(Standing::Erred { row, rule }),
        _ => None,
    }
}

/// The standing of a batch, of its word and the row and rule of an error.
fn told_standing(word: &Txt, row: &Field, rule: &Field) -> Option<Standing>
    ensures { (now : Standing) → told.IsHeldStanding now → word.now ≡ name_of now
        → row.now ∷ (rule.now ∷ []) ≡ records.error_fields now → result ≡ Some now }
{
    if word.is("NE") {
        return Some(Standing::New);
    }
    if word.is("OK") {
        return Some(Standing::Acked);
    }
    erred_of(row, rule)
}

/// The numbers that fields write.
fn told_numbers(alloc: Global, fields: &[Field]) -> Result<Option<List<u64>>, NoMemory>
    ensures { (numbers : List ℕ) → All told.IsWide numbers
        → fields.now ≡ map records.number_field numbers
        → IfOk result (λ found. found ≡ Some numbers) }
{
    let mut numbers = List::new(alloc);
    for field in fields {
        let Some(number) = number_in(field) else {
            return Ok(None);
        };
        numbers.push(number)?;
    }
    Ok(Some(numbers))
}

/// The batch of this number.
fn batch_of(
    alloc: Global,
    config: &Config,
    id: u64,
    fields: &[Field],
) -> Result<Option<OutBatch>, NoMemory>
    ensures { (batch : OutBatch) → batch.id ≡ id → told.IsHeldBatch batch
        → HasChannel config.now batch.channel → fields.now ≡ written.batch_fields config.now batch
        → IfOk result (λ found. found ≡ Some batch) }
{
    match fields {
        [
            Field::Text(peer),
            Field::Text(channel),
            Field::Text(status),
            row,
            rule,
            changes @ ..,
        ] => {
            let (Some(channel), Some(standing), Some(changes)) = (
                channel_of(config, channel),
                told_standing(status, row, rule),
                told_numbers(alloc, changes)?,
            ) else {
                return Ok(None);
            };
            Ok(Some(OutBatch {
                id,
                peer: peer.twin(alloc)?,
                channel,
                standing,
                changes,
            }))
        }
        _ => Ok(None),
    }
}

/// The batch of the number that a key ends with.
pub(crate) fn told_batch(
    alloc: Global,
    config: &Config,
    id: &[u8],
    fields: &[Field],
) -> Result<Option<OutBatch>, NoMemory>
    ensures { (batch : OutBatch) → told.IsHeldBatch batch → HasChannel config.now batch.channel
        → id.now ≡ records.id_text batch.id → fields.now ≡ written.batch_fields config.now batch
        → IfOk result (λ found. found ≡ Some batch) }
{
    match number_of_key(alloc, id)? {
        Some(id) => batch_of(alloc, config, id, fields),
        None => Ok(None),
    }
}

/// Whether a lane's highest batch was skipped, where its status is one.
fn told_status(status: &Field) -> Option<bool>
    ensures { (ignored : Option Bool) → status.now ≡ records.status_field ignored
        → result ≡ ignored }
{
    match status {
        Field::Null => None,
        Field::Text(word) => Some(word.is("IG")),
    }
}

/// The error of a lane, of its batch, its row and its rule.
fn error_of(batch: &Field, row: &Field, rule: &Field) -> Option<LaneError>
    ensures { (error : LaneError) → told.IsHeldError error
        → batch.now ≡ records.number_field error.batch → row.now ≡ records.number_field error.row
        → rule.now ≡ records.number_field (number_of error.rule) → result ≡ Some error }
{
    match (number_in(batch), small_in(row), rule_in(rule)) {
        (Some(batch), Some(row), Some(rule)) => Some(LaneError { batch, row, rule }),
        _ => None,
    }
}

/// The error of a lane, where it has one; none is told where there is none.
fn told_error(batch: &Field, row: &Field, rule: &Field) -> Option<LaneError>
    ensures { (error : Option LaneError) → IfSome error told.IsHeldError
        → batch.now ∷ (row.now ∷ (rule.now ∷ [])) ≡ records.held_fields error
        → result ≡ error }
{
    match batch {
        Field::Null => None,
        Field::Text(_) => error_of(batch, row, rule),
    }
}

/// What is loaded in a lane of this peer and this channel.
fn lane_of(peer: Txt, channel: u32, fields: &[Field]) -> Option<LaneIn>
    ensures { (lane : LaneIn) → lane.peer ≡ peer → lane.channel ≡ channel → told.IsHeldLane lane
        → fields.now ≡ written.lane_fields lane → result ≡ Some lane }
{
    match fields {
        [highest, status, batch, row, rule] => match number_in(highest) {
            Some(highest) => Some(LaneIn {
                peer,
                channel,
                highest,
                ignored: told_status(status),
                error: told_error(batch, row, rule),
            }),
            None => None,
        },
        _ => None,
    }
}

/// What is loaded in the lane whose peer and channel a key ends with.
pub(crate) fn told_lane(
    alloc: Global,
    config: &Config,
    pair: &[u8],
    fields: &[Field],
) -> Result<Option<LaneIn>, NoMemory>
    ensures { (lane : LaneIn) → is_name_text lane.peer ≡ true → told.IsHeldLane lane
        → HasChannel config.now lane.channel → pair.now ≡ lanes.lane_key config.now lane
        → fields.now ≡ written.lane_fields lane → IfOk result (λ found. found ≡ Some lane) }
{
    let Some(Pair { first, second }) = pair_of(alloc, pair)? else {
        return Ok(None);
    };
    match channel_of(config, &second) {
        Some(channel) => Ok(lane_of(first, channel, fields)),
        None => Ok(None),
    }
}
