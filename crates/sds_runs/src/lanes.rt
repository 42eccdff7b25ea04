//! What is kept of a lane after a batch of it.
ghost use Rattle.std.specs.Prelude.{◌≡◌, Some, false, IfOk, IfSome, IsTrue, unwrap_or};
ghost use Rattle.std.specs.Str.{chars};
ghost use Rattle.sds_types.specs.declared.config.Config.{Config};
ghost use Rattle.sds_history.specs.history.Lanes.{lane_of};
ghost use Rattle.sds_history.specs.history.Loads.{lane_answer, outcome_answer};
ghost use Rattle.sds_image.specs.Meaning.{meaning_of};
ghost use Rattle.sds_runs.specs.Lanes as lanes;

use sds_base::{NoMemory, Twin, Txt};
use sds_image::State;
use sds_registry::{judge_lane, kept_lane};
use sds_types::{LaneError, LaneIn, LoadAnswer, Prepared};
use std::alloc::Global;

/// What is kept of a lane whose highest batch is this one, which is loaded and not ignored.
pub(crate) fn loaded_lane(alloc: Global, channel: u32, batch: &Prepared) -> Result<LaneIn, NoMemory>
    ensures { IfOk result (λ lane. lane ≡ lanes.loaded_lane channel batch.now false) }
{
    Ok(LaneIn {
        peer: batch.from.twin(alloc)?,
        channel,
        highest: batch.batch,
        ignored: Some(false),
        error: None,
    })
}

/// What is kept of a lane in which a batch broke a rule: what was kept of it, with this error.
pub(crate) fn erred_lane(
    alloc: Global,
    state: &State,
    from: &str,
    channel: u32,
    error: LaneError,
) -> Result<LaneIn, NoMemory>
    ensures { IfOk result (λ lane. lane
        ≡ record (lane_of state.now.lanes (chars from.now) channel) { error = Some error }) }
{
    match kept_lane(state.lanes.inner(), from, channel) {
        Some(kept) => Ok(LaneIn {
            peer: kept.peer.twin(alloc)?,
            channel: kept.channel,
            highest: kept.highest,
            ignored: kept.ignored,
            error: Some(error),
        }),
        None => Ok(LaneIn {
            peer: Txt::copied(alloc, from)?,
            channel,
            highest: 0,
            ignored: None,
            error: Some(error),
        }),
    }
}

/// Whether an answer is one that a lane alone gives.
fn is_of_lane(answer: LoadAnswer) -> bool
    ensures { result ≡ lanes.is_of_lane answer }
{
    match answer {
        LoadAnswer::Again | LoadAnswer::Held { .. } => true,
        LoadAnswer::Loaded { .. } | LoadAnswer::Ignored { .. } | LoadAnswer::Erred { .. } => false,
    }
}

/// The answer to a batch of a known channel where its lane alone decides: that it was loaded
/// before, or that an earlier batch holds it. None where the outcome of its rows decides.
pub(crate) fn answer_of_lane(
    state: &State,
    from: &str,
    channel: u32,
    batch: &Prepared,
) -> Option<LoadAnswer>
    requires { batch.now.channel ≡ Some channel }
    ensures lane { IfSome result (λ answer. IsTrue (lanes.is_of_lane answer)) }
    ensures answer { (config : Config) → lane_answer config (meaning_of state.now) batch.now
        (lane_of state.now.lanes (chars from.now) channel)
        ≡ unwrap_or result (outcome_answer config (meaning_of state.now) batch.now) }
{
    match judge_lane(state, from, batch) {
        Some(answer) if is_of_lane(answer) => Some(answer),
        _ => None,
    }
}
