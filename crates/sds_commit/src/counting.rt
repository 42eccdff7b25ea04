//! Counters that don't pass their end.
ghost use Rattle.std.specs.Prelude.{◌≡◌};
ghost use Rattle.sds_history.specs.history.Counters.{is_past};
ghost use Rattle.sds_commit.specs.Counting.{within_end};

use sds_types::Counts;
use sds_types::limits::MOST_COUNT;

/// The counters after an act, or none where one of them is past 2^62.
pub fn counted(counts: Counts) -> Option<Counts>
    ensures { result ≡ within_end counts }
{
    if is_past(counts) { None } else { Some(counts) }
}

/// Whether a counter is past its end.
fn is_past(counts: Counts) -> bool
    ensures { result ≡ is_past counts }
{
    MOST_COUNT < counts.acts
        || MOST_COUNT < counts.last_change
        || MOST_COUNT < counts.last_batch
        || MOST_COUNT < counts.last_tx
}
