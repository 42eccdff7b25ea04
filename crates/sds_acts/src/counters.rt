//! The counters after an act.
ghost use Rattle.std.specs.Prelude.{◌≡◌, ◌≤◌};
ghost use Rattle.sds_types.specs.Limits.{most_count};
ghost use Rattle.sds_acts.specs.Counting.{after_act, after_route};
ghost use Rattle.sds_commit.specs.Counting.{within_end};

use sds_commit::counted;
use sds_types::Counts;

/// The counters after an act that makes no batch, or none where one of them would pass its end.
pub(crate) fn next_counts(counts: Counts) -> Option<Counts>
    requires { counts.acts ≤ most_count }
    ensures { result ≡ within_end (after_act counts) }
{
    counted(Counts {
        acts: counts.acts + 1,
        ..counts
    })
}

/// The counters after a routing run that makes so many batches, or none where one of them would
/// pass its end.
pub(crate) fn routed_counts(counts: Counts, made: u64) -> Option<Counts>
    requires { counts.acts ≤ most_count }
    ensures { result ≡ within_end (after_route counts made) }
{
    let last_batch = counts.last_batch.checked_add(made)?;
    counted(Counts {
        acts: counts.acts + 1,
        last_batch,
        routed: counts.last_change,
        ..counts
    })
}
