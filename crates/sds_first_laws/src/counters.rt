ghost use Rattle.sds_first_laws.specs.Counters.{CountersNeverFall, NumbersStayWithin};

/// No act leaves a counter of a node lower than it was.
pub fn counters_never_fall()
    ensures { CountersNeverFall }
{}

/// At every node that began with nothing, the numbers of changes are at most the last change, those of batches rise up
/// to the last batch, and each change in a batch is one that was made.
pub fn numbers_stay_within()
    ensures { NumbersStayWithin }
{}
