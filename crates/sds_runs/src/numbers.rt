//! A node's counters after an act, and how many of its changes wait to be routed.
ghost use Rattle.std.specs.Prelude.{◌≡◌, ◌+◌, ◌-◌, ◌<◌, ◌≤◌, ◌^◌};
ghost use Rattle.sds_history.specs.history.SoundParts.{AreCounts};
ghost use Rattle.sds_runs.specs.Fitting.{is_full};
ghost use Rattle.sds_runs.specs.Made as made;

use sds_types::Counts;
use sds_types::limits::MOST_UNROUTED_CHANGES;

/// How many changes wait to be routed, as far as that decides what may be captured: 100,000 stands
/// for any number from there on.
pub(crate) fn waiting_in(counts: Counts) -> u32
    requires { AreCounts counts }
    ensures { is_full result ≡ is_full (counts.last_change - counts.routed) }
{
    let waiting = counts.last_change - counts.routed;
    if waiting < MOST_UNROUTED_CHANGES as u64 {
        waiting as u32
    } else {
        MOST_UNROUTED_CHANGES
    }
}

/// The counters after an act that ran rows and captured so many changes.
pub(crate) fn ran_counts(counts: Counts, captured: usize) -> Counts
    requires counts { AreCounts counts }
    requires captured { captured < 2 ^ 32 }
    ensures { result ≡ made.ran_counts counts captured }
{
    Counts {
        acts: counts.acts + 1,
        last_change: counts.last_change + captured as u64,
        last_batch: counts.last_batch,
        last_tx: counts.last_tx + 1,
        routed: counts.routed,
    }
}

/// The counters after an act of a batch that broke a rule.
pub(crate) fn erred_counts(counts: Counts) -> Counts
    requires { AreCounts counts }
    ensures { result ≡ made.erred_counts counts }
{
    Counts {
        acts: counts.acts + 1,
        last_change: counts.last_change,
        last_batch: counts.last_batch,
        last_tx: counts.last_tx,
        routed: counts.routed,
    }
}
