//! The lines of a node's batches and lanes.
ghost use Rattle.std.specs.Prelude.{◌≡◌, ◌∷◌, ◌++◌, ℕ, List, IfOk, codes, string_bytes};
ghost use Rattle.std.specs.Str.{encode_utf8_all};
ghost use Rattle.sds_history.specs.history.Lanes as lanes;
ghost use Rattle.sds_screen.specs.Listed as stated;
ghost use Rattle.sds_screen.specs.Words.{line_of_words};

use sds_base::NoMemory;
use sds_types::{Config, LaneError, LaneIn, OutBatch, Standing};
use std::alloc::Global;

/// The line of an outgoing batch: its number, peer, channel, count of changes and status, and for
/// an error its row and rule.
pub(crate) fn out_line(alloc: Global, config: &Config, batch: &OutBatch) -> Result<String, NoMemory>
    ensures { IfOk result (λ line. string_bytes line ≡ stated.out_line config.now batch.now) }
{
    let id = batch.id;
    let peer = batch.peer.as_str();
    let channel = channel_name(config, batch.channel);
    let count = batch.changes.inner().len();
    let status = batch.standing.name();
    let error = error_words(alloc, batch.standing)?;
    let error = error.as_str();
    Ok(format!(in alloc; "out {id} {peer} {channel} {count} {status}{error}\n")?)
}

/// The words after the status of an outgoing batch, each with a space before it: the row and the
/// rule of its error, if it has one.
fn error_words(alloc: Global, standing: Standing) -> Result<String, NoMemory>
    ensures { IfOk result (λ text. (word : List ℕ)
        → line_of_words (word ∷ stated.error_of standing)
        ≡ word ++ (string_bytes text ++ codes "\n")) }
{
    match standing {
        Standing::Erred { row, rule } => Ok(format!(in alloc; " {row} {rule}")?),
        Standing::New => Ok(String::new(alloc)),
        Standing::Acked => Ok(String::new(alloc)),
    }
}

/// The line of a lane that was loaded from: its peer, channel, highest batch and status, and the
/// batch in error with its row and rule.
pub(crate) fn in_line(alloc: Global, config: &Config, lane: &LaneIn) -> Result<String, NoMemory>
    ensures { IfOk result (λ line. string_bytes line ≡ stated.in_line config.now lane.now) }
{
    let peer = lane.peer.as_str();
    let channel = channel_name(config, lane.channel);
    let highest = lane.highest;
    let status = lane_status(lane.ignored);
    let held = held_words(alloc, lane.error)?;
    let held = held.as_str();
    Ok(format!(in alloc; "in {peer} {channel} {highest} {status}{held}\n")?)
}

/// The words after the status of a lane, each with a space before it: `held`, the batch in error,
/// its row and the rule, if there is one.
fn held_words(alloc: Global, error: Option<LaneError>) -> Result<String, NoMemory>
    ensures { IfOk result (λ text. (word : List ℕ)
        → line_of_words (word ∷ stated.held_words error)
        ≡ word ++ (string_bytes text ++ codes "\n")) }
{
    match error {
        None => Ok(String::new(alloc)),
        Some(LaneError { batch, row, rule }) => {
            let rule = rule.number();
            Ok(format!(in alloc; " held {batch} {row} {rule}")?)
        }
    }
}

/// The status of a lane, by whether its highest batch was ignored: `OK` or `IG`, and a dash before
/// a batch was loaded.
fn lane_status(ignored: Option<bool>) -> &'static str
    ensures { result.now ≡ stated.lane_status ignored }
{
    match ignored {
        None => "-",
        Some(true) => "IG",
        Some(false) => "OK",
    }
}

/// The name of the channel at a place, which is empty past the last one.
fn channel_name(config: &Config, channel: u32) -> &str
    ensures { result.now ≡ encode_utf8_all (lanes.channel_name config.now channel) }
{
    match config.channels.inner().get(channel as usize) {
        Some(channel) => channel.id.as_str(),
        None => "",
    }
}
