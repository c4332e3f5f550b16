//! Serves lines: reads them from a source, and writes their replies to a sink.
//!
//! ```
//! // The answers to an input in memory, by a single worker. Its crowds are gathered by threads.
//! let mut reader = MemorySource::new(input, input.len().max(1), Failing::Never);
//! let mut writer = MemorySink::new(Vec::new(alloc), 65_536, Failing::Never, Failing::Never);
//! match serve(alloc, &mut reader, &mut writer, &mut Alone, &OnThreads::new(&rt), RandomState::new(&rt)?) {
//!     Ok(served) => println!(&rt; "{} lines were answered", served.lines),
//!     Err(fault) => println!(&rt; "{fault} after {} bytes of replies", writer.bytes().len()),
//! }
//! ```
#![tactic(auto)]

mod arguments;
mod dialogue;
mod faults;
mod held_line;
pub mod laws;
mod memory;
mod reply_buffer;
mod running;
mod serving;
mod std_streams;
mod streams;

pub use dialogue::Dialogue;
pub use faults::{EarlyEnd, ReadFailed, ServeFault, WriteFailed};
pub use memory::{Failing, MemorySink, MemorySource};
pub use running::{Ended, run, run_by};
pub use serving::{Served, serve, serve_within};
pub use std_streams::{StdSink, StdSource};
pub use streams::{Sink, Source};
