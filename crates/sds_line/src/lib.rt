//! Quoted lines: what a line's fields are, lines from pieces of a text of any size, and the written form of a line.
#![tactic(auto)]

mod draft;
mod laws;
mod line;
mod lines;
mod partial;
mod place;
mod reading;
mod refusal;
mod splitter;
#[cfg(test)]
mod tests;
mod writing;

use draft::Draft;
pub use laws::{
    lines_are_of_characters, lines_are_read_alone, lines_go_on, refusals_come_first,
    written_lines_read_back, written_reads_back,
};
pub use line::Line;
pub use lines::Lines;
use partial::Partial;
use place::{Act, Place};
pub use reading::read_line;
pub use refusal::LineRefusal;
use splitter::Splitter;
pub use writing::put_fields;
