//! What a node's peers and lanes decide of a batch that is to be loaded.
ghost use Rattle.std.specs.Prelude.{◌≡◌, None, option_copied, unwrap_or};
ghost use Rattle.std.specs.Option.{option_map_or};
ghost use Rattle.std.specs.Str.{chars};
ghost use Rattle.sds_types.specs.declared.config.Config.{Config};
ghost use Rattle.sds_types.specs.declared.lane.LaneIn.{LaneIn};
ghost use Rattle.sds_history.specs.history.Acts as acts;
ghost use Rattle.sds_history.specs.history.Lanes.{lane_of};
ghost use Rattle.sds_history.specs.history.Loads as loads;
ghost use Rattle.sds_history.specs.history.Loads.{channel_answer, lane_answer, outcome_answer};
ghost use Rattle.sds_image.specs.Meaning.{meaning_of};

use crate::finding::{kept_lane, kept_peer};
use sds_image::State;
use sds_types::{LaneError, LaneIn, LoadAnswer, Prepared, Rule};

/// Whether a batch's sender is a peer of the batch's sender group.
pub fn knows_sender(state: &State, from: &str, batch: &Prepared) -> bool
    ensures { result ≡ loads.knows_sender (meaning_of state.now) (chars from.now) batch.now }
{
    match kept_peer(state.peers.inner(), from) {
        Some(kept) => kept.peer.group == batch.from_group,
        None => false,
    }
}

/// The answer to a batch whose channel and lane alone decide, and none where the outcome of its
/// rows does.
///
/// `Erred` where the configuration hasn't its channel, `Again` where it was loaded before, and
/// `Held` where an earlier batch of its lane is in error.
pub fn judge_lane(state: &State, from: &str, batch: &Prepared) -> Option<LoadAnswer>
    ensures { (config : Config)
        → channel_answer config (meaning_of state.now) (chars from.now) batch.now batch.now.channel
        ≡ unwrap_or result (outcome_answer config (meaning_of state.now) batch.now) }
{
    let Some(channel) = batch.channel else {
        return Some(LoadAnswer::Erred {
            row: 0,
            rule: Rule::UnknownChannel,
        });
    };
    let lane = kept_lane(state.lanes.inner(), from, channel);
    judge_place(highest_of(lane), error_of(lane), batch)
}

/// The answer to a batch where the highest loaded batch of its lane or the lane's error decides.
fn judge_place(highest: u64, error: Option<LaneError>, batch: &Prepared) -> Option<LoadAnswer>
    ensures { (config : Config) → (state : acts.State) → (lane : LaneIn)
        → lane.highest ≡ highest → lane.error ≡ error
        → lane_answer config state batch.now lane
        ≡ unwrap_or result (outcome_answer config state batch.now) }
{
    if batch.batch <= highest {
        return Some(LoadAnswer::Again);
    }
    match error {
        Some(error) if error.batch < batch.batch => Some(LoadAnswer::Held {
            batch: error.batch,
            row: error.row,
            rule: error.rule,
        }),
        _ => None,
    }
}

/// The highest number among the batches loaded in a lane, or 0.
fn highest_of(lane: Option<&LaneIn>) -> u64
    ensures { result
        ≡ option_map_or (λ (kept : LaneIn). kept.highest) (option_copied lane.entry) 0 }
{
    match lane {
        Some(kept) => kept.highest,
        None => 0,
    }
}

/// The error of a lane, if it has one.
fn error_of(lane: Option<&LaneIn>) -> Option<LaneError>
    ensures { result
        ≡ option_map_or (λ (kept : LaneIn). kept.error) (option_copied lane.entry) None }
{
    match lane {
        Some(kept) => kept.error,
        None => None,
    }
}

/// Whether a lane has this error already, so that nothing is to be kept.
pub fn keeps_error(state: &State, from: &str, channel: u32, error: LaneError) -> bool
    ensures { result
        ≡ loads.keeps_error (lane_of state.now.lanes (chars from.now) channel) error }
{
    match error_of(kept_lane(state.lanes.inner(), from, channel)) {
        Some(kept) => is_same(kept, error),
        None => false,
    }
}

/// Whether two errors of a lane are one.
fn is_same(a: LaneError, b: LaneError) -> bool
    ensures { result ≡ loads.same_error a b }
{
    a.batch == b.batch && a.row == b.row && a.rule.number() == b.rule.number()
}
