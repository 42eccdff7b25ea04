//! A batch document whose text is written down.
ghost use Rattle.sds_examples.specs.Documents.{DocumentIsWritten};

/// A batch of sales and an item is written byte for byte as the format has it: the heading only
/// where it changes, the old row before its row, null as nothing and a text in quotes.
pub fn a_document_is_written()
    ensures written { DocumentIsWritten }
{}
