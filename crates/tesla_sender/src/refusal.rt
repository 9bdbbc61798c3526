//! Why a sender is not opened, and why a call is not accepted.

ghost use Rattle.std.specs.Prelude.{◌≡◌, Some};
ghost use Rattle.tesla_sender.specs.declared.refusal.SenderRefusal.TheVariants as refusals;

use std::alloc::{AllocError, AllocFailed};
use tesla_base::{ChainNo, Key, NoMemory};

/// Why a sender is not opened.
#[derive(Clone, Copy, Debug, PartialEq, Eq)]
pub enum SenderRefusal {
    /// The seed of this chain, the first such one, gives `made` and not the key of the setup.
    WrongSeed {
        /// The chain.
        chain: ChainNo,
        /// The key of the setup's index that the seed gives.
        made: Key,
    },
    /// The allocator had no memory.
    NoMemory,
}

impl From<NoMemory> for SenderRefusal {
    ghost from_gives = { λ _ e. e ≡ refusals.NoMemory };

    fn from(_: NoMemory) -> SenderRefusal {
        SenderRefusal::NoMemory
    }
}

impl From<AllocError> for SenderRefusal {
    ghost from_gives = { λ _ e. e ≡ refusals.NoMemory };

    fn from(_: AllocError) -> SenderRefusal {
        SenderRefusal::NoMemory
    }
}

impl<T: Drop> From<AllocFailed<T>> for SenderRefusal {
    ghost from_gives = { λ _ e. e ≡ refusals.NoMemory };

    fn from(_: AllocFailed<T>) -> SenderRefusal {
        SenderRefusal::NoMemory
    }
}

/// Why a message is not accepted: the first of these that holds, in this order.
#[derive(Clone, Copy, Debug, PartialEq, Eq)]
pub enum SendRefusal {
    /// The payload has this many bytes, more than 1,200.
    TooLong(usize),
    /// This reading is before the start, or in interval 0.
    Early(u64),
    /// The reading is in this interval, after the last one.
    Over(u64),
    /// The last accepted call was of this interval, which is after that of the reading.
    Backward(u64),
    /// The 65,536 numbers of this interval are used.
    IntervalFull(u32),
}

/// Why a disclosure is not accepted: the first of these that holds, in this order.
#[derive(Clone, Copy, Debug, PartialEq, Eq)]
pub enum DiscloseRefusal {
    /// The last accepted call was of this interval, which is after that of the reading.
    Backward(u64),
    /// No chain has a key to disclose yet.
    NothingDue,
}
