//! How far an opened registration has come, and to which node it went.
ghost use Rattle.std.specs.Prelude.{◌≡◌};
ghost use Rattle.std.specs.Str.{chars};
ghost use Rattle.sds_history.specs.history.Openings.{closed_stage, is_given_to, went_to};
ghost use Rattle.sds_history.specs.history.Registrations.{is_closed, may_have};

use sds_types::Stage;

/// Whether an opening was given to a node and is not closed yet.
pub(crate) fn is_given_to(stage: &Stage, node: &str) -> bool
    ensures { result ≡ is_given_to (chars node.now) stage.now }
{
    match stage {
        Stage::Given(given) => given.is(node),
        Stage::Waiting | Stage::Closed(_) => false,
    }
}

/// Whether an opening was given to a node, closed or not.
pub(crate) fn went_to(stage: &Stage, node: &str) -> bool
    ensures { result ≡ went_to (chars node.now) stage.now }
{
    match stage {
        Stage::Waiting => false,
        Stage::Given(given) | Stage::Closed(given) => given.is(node),
    }
}

/// Whether an opening may be given to a node: it waits, or was given to this node.
pub(crate) fn may_have(stage: &Stage, node: &str) -> bool
    ensures { result ≡ may_have (chars node.now) stage.now }
{
    match stage {
        Stage::Waiting => true,
        Stage::Given(given) | Stage::Closed(given) => given.is(node),
    }
}

/// Whether an opening is closed.
pub(crate) fn is_closed(stage: &Stage) -> bool
    ensures { result ≡ is_closed stage.now }
{
    matches!(stage, Stage::Closed(_))
}

/// The stage of an opening after a node was confirmed: closed where it was given to the node.
pub(crate) fn closed_stage(stage: Stage, node: &str) -> Stage
    ensures { result ≡ closed_stage (chars node.now) stage }
{
    match stage {
        Stage::Given(given) => {
            if given.is(node) {
                return Stage::Closed(given);
            }
            Stage::Given(given)
        }
        other => other,
    }
}
