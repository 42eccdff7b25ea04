//! What a program meets outside itself: sources, sinks, keepers of records and links, each with a meaning
//! and a count of its faults. Beside the traits stand fakes in memory, which fail at the calls of a list,
//! and adapters over std's readers, writers and files.
#![tactic(auto)]

mod calls;
mod failing;
mod file_source;
mod keeping;
mod linking;
mod mem_keeper;
mod mem_link;
mod mem_streams;
mod sorted;
mod std_streams;
mod streams;
#[cfg(test)]
mod tests;
mod transfer;

pub use failing::{Fail, Failed};
pub use file_source::FileSource;
pub use keeping::{Edit, KeepFail, Keeper};
pub use linking::{Exchange, Link, REPLY_LIMIT};
pub use mem_keeper::{FailAt, MemKeeper};
pub use mem_link::MemLink;
pub use mem_streams::{MemSink, MemSource};
pub use sorted::are_distinct;
pub use std_streams::{StdSink, StdSource};
pub use streams::{Sink, Source};
pub use transfer::{ReadStop, Whole, read_all, write_all};
