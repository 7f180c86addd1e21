//! Where bytes come from and where they go: sources and sinks that may fail, and what reads and writes all.
//!
//! A source tells the bytes that it will still give, and a sink those that it has taken, or they don't tell.
//! Each has a count of faults that never falls, so a caller knows that a failure was the source's or the sink's own.
#![tactic(auto)]

mod counted_calls;
mod ends;
mod memory_sinks;
mod memory_sources;
mod read_whole;
mod std_adapters;
mod write_whole;

pub use ends::{Failed, Sink, Source};
pub use memory_sinks::{MemorySink, SureSink};
pub use memory_sources::{MemorySource, SureSource};
pub use read_whole::{ReadEnd, read_all};
pub use std_adapters::{StdSink, StdSource};
pub use write_whole::put_all;

#[cfg(test)]
mod tests;
