//! Files of a host as inputs, and its streams as sinks. Two small traits stand for them.
#![tactic(auto)]

mod memory_source;
mod memory_stream;
mod source;
mod source_inputs;
mod stream;
mod stream_sink;

pub use memory_source::MemorySource;
pub use memory_stream::MemoryStream;
pub use source::Source;
pub use source_inputs::SourceInputs;
pub use stream::Stream;
pub use stream_sink::StreamSink;
