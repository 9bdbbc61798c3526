//! The streams of the epochs that were closed last.

ghost use Rattle.std.specs.Prelude.{◌≡◌, ◌++◌, ◌∷◌, [], IfOk};
ghost use Rattle.std.specs.List.{list_any};
ghost use Rattle.tesla_early.specs.Learnt.{last_of};
ghost use Rattle.tesla_follow.specs.Kept.{is_stream};

use circular_buffer::HeapCircularBuffer;
use std::alloc::Global;
use std::marker::Model;
use tesla_base::{NoMemory, StreamId};

/// The last 64 streams that were noted, in order.
#[derive(Drop)]
pub struct Known {
    streams: HeapCircularBuffer<StreamId>,
}

impl Model for Known {
    ghost use Rattle.std.specs.Prelude.{◌≡◌, List};
    ghost use Rattle.tesla_base.specs.declared.names.StreamId.{StreamId};

    ghost Value = { List StreamId };

    ghost view = { λ k. k.streams.items };

    ghost invariant = { λ k. k.streams.capacity ≡ 64 };
}

impl Known {
    /// None is noted. All memory is taken here.
    pub fn open(alloc: Global) -> Result<Known, NoMemory>
        ensures { IfOk result (λ k. k ≡ []) }
    {
        Ok(Known {
            streams: HeapCircularBuffer::with_capacity(alloc, 64)?,
        })
    }

    /// Notes a stream; the first of 64 is forgotten. It takes no memory.
    pub fn note(&mut self, stream: StreamId)
        ensures { self.new ≡ last_of 64 (self.old ++ stream ∷ []) }
    {
        self.streams.push_back(stream);
    }

    /// Whether a stream is noted.
    pub fn has(&self, stream: StreamId) -> bool
        ensures { result ≡ list_any (is_stream stream) self.now }
    {
        for place in 0..self.streams.len() {
            let Some(other) = self.streams.get(place) else {
                return false;
            };
            if other.0 == stream.0 {
                return true;
            }
        }
        false
    }
}
