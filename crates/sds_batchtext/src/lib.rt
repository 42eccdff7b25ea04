//! Batch documents: what a document in the CSV data format gives, read from pieces of any size, and
//! how batches are written.
#![tactic(auto)]

mod directive;
mod doc_line;
mod heading;
mod laws;
mod line_reading;
mod position;
mod reader;
mod reading;
mod table_names;
#[cfg(test)]
mod tests;
#[cfg(test)]
mod tests_table;
mod words;
mod writing;

pub use directive::Directive;
use directive::directive_of;
pub use doc_line::{DocLine, NodeLine};
pub use heading::Heading;
pub use laws::{batches_go_on, documents_are_written_in_order, written_documents_read_back};
use position::Position;
pub use reader::Reader;
pub use writing::{put_batch, put_head};
