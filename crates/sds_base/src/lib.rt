//! Lists, texts and bytes that contracts see as lists, exact equality and exact copies, and want of memory.
#![tactic(auto)]

mod bytes;
mod list;
mod memory;
mod same;
#[cfg(test)]
mod tests;
mod twin;
mod txt;

pub use bytes::Bytes;
pub use list::List;
pub use memory::NoMemory;
pub use same::Same;
pub use twin::Twin;
pub use txt::Txt;
