//! Scenarios whose screens are written down.
ghost use Rattle.sds_examples.specs.Conflicts.{FallbackTakes, IgnoreSkipsTheRow};
ghost use Rattle.sds_examples.specs.Conflicts.{IgnoreSkipsTheBatch, ManualWaits};
ghost use Rattle.sds_examples.specs.Conflicts.{GreaterVersionStands};
ghost use Rattle.sds_examples.specs.Day.{DayPrints};
ghost use Rattle.sds_examples.specs.Faults.{FaultsLoseNothing};
ghost use Rattle.sds_examples.specs.HeldLanes.{ErrorsHoldLanes};
ghost use Rattle.sds_examples.specs.Repeats.{RepeatsLoadOnce};
ghost use Rattle.sds_examples.specs.Tiers.{NothingComesBack, PingBackComesBack};

/// A day of a head office and two stores, from the scenario's text to the last line of its screen.
pub fn a_day_prints()
    ensures prints { DayPrints }
{}

/// A message that is delivered three times is loaded once, and the stock that it brings is added up
/// once.
pub fn a_repeat_is_loaded_once()
    ensures prints { RepeatsLoadOnce }
{}

/// A commit that fails at the receiver loses nothing and repeats nothing, whether it stands or not.
pub fn faults_lose_nothing()
    ensures prints { FaultsLoseNothing }
{}

/// A batch in error holds its lane: what was made after it comes after it.
pub fn errors_hold_lanes()
    ensures prints { ErrorsHoldLanes }
{}

/// What each resolution makes of a sale that both sides wrote.
pub fn conflicts_are_resolved()
    ensures fallback { FallbackTakes }
    ensures ignore_row { IgnoreSkipsTheRow }
    ensures ignore_batch { IgnoreSkipsTheBatch }
    ensures manual { ManualWaits }
    ensures newer { GreaterVersionStands }
{}

/// A change that came from a store goes to the others, and back to it only where ping back is
/// enabled.
pub fn changes_do_not_come_back()
    ensures stays { NothingComesBack }
    ensures comes_back { PingBackComesBack }
{}
