//! When the end of a stream is near.

use std::sync::atomic::AtomicU64;
use std::sync::atomic::Ordering::SeqCst;

/// How many microseconds before its end a stream is near it at most: an hour.
const HOUR: u64 = 3_600_000_000;
/// Which part of a shorter stream is its last one: an eighth.
const PART: u64 = 8;
/// How many microseconds a stream has at least of which that is told: ten minutes.
const LEAST: u64 = 600_000_000;

/// The last stream of a run, the microseconds since 1970 at which its last interval has ended, and those at which the run's first
/// stream begins, which is mostly the same.
#[derive(Clone, Copy, Debug)]
pub struct StreamEnd {
    /// The number of the stream.
    pub stream: u64,
    /// When the first stream of the run begins.
    pub begin: u64,
    /// When it ends.
    pub end: u64,
}

impl StreamEnd {
    /// How many seconds are left at a reading in its last hour, or in its last eighth where that is shorter. `None` before that and
    /// behind its end, and of a stream of less than ten minutes.
    pub(crate) fn left_at(&self, reading: u64) -> Option<u64> {
        let whole = self.end.saturating_sub(self.begin);
        let left = self.end.saturating_sub(reading);
        if whole < LEAST || left == 0 || (whole / PART).min(HOUR) < left {
            return None;
        }
        Some(left / 1_000_000)
    }
}

/// What the clocks of one run tell of the end of its stream, once.
#[derive(Drop)]
pub(crate) struct EndNotice {
    stream: Option<StreamEnd>,
    // 1 once it was told.
    told: AtomicU64,
}

impl EndNotice {
    /// Of this stream; of none nothing is told.
    pub(crate) fn of(stream: Option<StreamEnd>) -> EndNotice {
        EndNotice {
            stream,
            told: AtomicU64::new(0),
        }
    }

    /// The number of the stream and how many seconds are left, where that is to be told at this reading. Of several clocks that ask at
    /// once one is answered so.
    pub(crate) fn due_at(&self, reading: u64) -> Option<(u64, u64)> {
        let stream = self.stream?;
        let left = stream.left_at(reading)?;
        if self.told.load(SeqCst) != 0 || self.told.swap(1, SeqCst) != 0 {
            return None;
        }
        Some((stream.stream, left))
    }
}
