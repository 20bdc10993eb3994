//! Bytes in and bytes out: sources and sinks that may fail, over memory and over the standard reader and writer.
#![tactic(auto)]

mod byte_sink;
mod byte_source;
mod counts;
mod sink;
mod source;
mod standard;

pub use byte_sink::ByteSink;
pub use byte_source::ByteSource;
pub use sink::{Sink, SinkFault};
pub use source::{Source, SourceFault};
pub use standard::{StdSink, StdSource};
