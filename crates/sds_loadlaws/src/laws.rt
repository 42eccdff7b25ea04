//! Laws of batches that are read from documents.
ghost use Rattle.sds_loadlaws.specs.ReadBatches.{ReadBatchesAreAsked, ReadBatchesAreHeld};
ghost use Rattle.sds_loadlaws.specs.ReadBatches.{NamedWaysAreSpelt, ReadBatchesAreSpelt};

/// The ids of a way's two nodes are of characters, where they are names, as the ids of all nodes
/// are that a node knows.
pub fn named_ways_are_spelt()
    ensures spelt { NamedWaysAreSpelt }
{}

/// The rows of a batch that is read from a document have texts of characters, where the document's
/// values have, the ids of the two nodes of its way have, and the constants and the targets of
/// value maps in the configuration's transforms have: a load transform makes its texts of these
/// alone.
pub fn read_batches_are_spelt()
    ensures spelt { ReadBatchesAreSpelt }
{}

/// The rows of a batch that is read from a document of fewer than 2^32 rows have numbers of 32
/// bits, and so has a row that breaks a rule: each has the number of its document's row, from 1.
pub fn read_batches_are_held()
    ensures held { ReadBatchesAreHeld }
{}

/// So whoever reads a batch from a document that a node sent asks rightly for its load, whatever
/// his node has: the document's id is 1 to 2^62, it has fewer than 2^32 rows, and its values, the
/// ids of the two nodes and the texts of the configuration's transforms are of characters.
pub fn read_batches_are_asked()
    ensures asked { ReadBatchesAreAsked }
{}
