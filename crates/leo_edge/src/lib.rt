//! The outside of the provers: command words, the files and the source that they read, and the sink that they write to,
//! each with a form in memory and a form over the host.
#![tactic(auto)]

mod host_files;
mod host_in;
mod host_out;
mod memory_files;
mod memory_sink;
mod memory_source;
mod outside;
#[cfg(test)]
mod tests;
mod words;

pub use host_files::HostFiles;
pub use host_in::HostIn;
pub use host_out::HostOut;
pub use memory_files::{MemFile, MemFiles};
pub use memory_sink::MemSink;
pub use memory_source::MemSource;
pub use outside::{Fetched, Files, Next, Put, Sink, Source};
pub use words::Words;
