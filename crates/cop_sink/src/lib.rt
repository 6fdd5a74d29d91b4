//! Where the output is written: bytes in memory, or a writer of the runtime.
#![tactic(auto)]

mod record;
mod sink;
mod writer;

pub use record::PutRecord;
pub use sink::{MemSink, PutFault, Sink};
pub use writer::{Output, WriteSink};
