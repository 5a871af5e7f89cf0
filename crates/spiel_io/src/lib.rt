//! The outside: shelves that files are read from, sinks that bytes are written to, and calls over
//! any of them.
#![tactic(auto)]

mod calls;
mod host;
mod mem_shelf;
mod mem_sink;
mod numbers;
mod outside;

pub use calls::{FetchFault, fetch, send};
pub use host::{HostShelf, HostSink};
pub use mem_shelf::MemShelf;
pub use mem_sink::MemSink;
pub use outside::{Failed, Shelf, Sink, Slot};
