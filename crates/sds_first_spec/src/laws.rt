ghost use Rattle.sds_first_spec.specs.Cuts.{CutIsTheCut, CutIsTheOnly};

/// The law of the cut into batches, for every list of changes and each size of 1 or more at which a batch is full: the
/// pieces join to the changes; none is empty; each ends where a transaction ends; each but the last is full; and no
/// piece was full at an earlier end of a transaction.
pub fn cut_is_the_cut()
    ensures { CutIsTheCut }
{}

/// The law that changes have one cut only: pieces of which all this holds, and that join to the same list, are the same.
pub fn changes_have_one_cut()
    ensures { CutIsTheOnly }
{}
