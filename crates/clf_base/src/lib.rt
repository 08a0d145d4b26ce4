//! What every layer of the program shares: lists, places and refusals, the ways in which a run ends, and the outside,
//! a source of bytes and a sink for bytes.
#![tactic(auto)]

mod fault;
mod list;
mod memory;
mod sink;
mod source;
mod standard;
mod status;
#[cfg(test)]
mod tests;

pub use fault::{Failed, Fault, NoMemory, Refusal, Span};
pub use list::List;
pub use memory::{MemorySink, MemorySource};
pub use sink::Sink;
pub use source::Source;
pub use standard::{StdSink, StdSource};
pub use status::Status;
