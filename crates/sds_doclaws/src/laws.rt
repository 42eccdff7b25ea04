//! Laws of the documents that a node sends.
ghost use Rattle.sds_doclaws.specs.Writable.{DocumentsAreWritable};

/// The document of each batch that a sound node has can be written, and what is written reads back:
/// its rows have the names and the values that their events ask for, no line is longer than a
/// reader takes, and every value is made of characters.
///
/// This holds under each sound configuration of which two more things hold. The expressions of its
/// transforms are made of characters, as all texts of a file are. And a transform of the implied
/// policy that is made as a batch is written has at most 61 columns for keys of the made row, which
/// are its key columns and those in place of a key column of the source: with 62 of 64 columns an
/// update of very long values can become a line that no reader takes.
pub fn documents_are_writable()
    ensures writable { DocumentsAreWritable }
{}
