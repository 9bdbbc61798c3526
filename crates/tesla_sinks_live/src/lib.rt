//! Sinks of the running system: files, standard output, named pipes, sockets and descriptors that were given.
#![tactic(auto)]

mod datagrams;
mod descriptor;
mod name;
mod pipe;
mod sink;
mod stream;
mod target;

pub use datagrams::{Datagrams, aim};
pub use descriptor::{Descriptor, given};
pub use name::{SinkName, sink_name};
pub use pipe::{KeptPipe, is_pipe, keep};
pub use sink::LiveSink;
pub use stream::{Stream, stream_to};
pub use target::Target;
