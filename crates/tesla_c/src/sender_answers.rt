//! What calls of a sender tell, in numbers.

ghost use Rattle.std.specs.Prelude.{◌≡◌, ◌+◌, ◌<◌, ◌^◌};
ghost use Rattle.tesla_c.specs.Senders.{disclosure_cause, message_cause, seeds_code};

use tesla_base::MOST_DATAGRAM;
use tesla_seeds::SeedsKind;
use tesla_sender::{DiscloseRefusal, SendRefusal};

/// Why no sender is opened, or no setup is made: which text, 1 for that of the setup and 2 for that of the seeds, its first
/// refused line, counted from 1, or 0 for the whole text, its kind, and the chain of a wrong seed.
#[repr(C)]
#[derive(Drop)]
pub struct CSenderRefusal {
    pub text: u32,
    pub line: u32,
    pub kind: u32,
    pub chain: u32,
}

/// Why a message or a disclosure isn't accepted: its kind, and the number of that.
#[repr(C)]
#[derive(Drop)]
pub struct CCause {
    pub kind: u32,
    pub number: u64,
}

/// Room for a frame.
#[repr(C)]
#[derive(Drop)]
pub struct CDatagram {
    pub bytes: [u8; MOST_DATAGRAM],
}

/// The number of a kind of refused seeds.
pub(crate) fn seeds_code_of(kind: SeedsKind) -> u32
    ensures { result ≡ seeds_code kind }
{
    match kind {
        SeedsKind::BadLine => 16,
        SeedsKind::BadHex => 17,
        SeedsKind::WrongCount => 18,
        SeedsKind::TooLong => 19,
    }
}

/// Why a message isn't accepted, in numbers.
pub(crate) fn message_cause_of(refusal: SendRefusal) -> CCause
    ensures { result ≡ message_cause refusal }
{
    match refusal {
        SendRefusal::TooLong(length) => cause_of(1, length as u64),
        SendRefusal::Early(reading) => cause_of(2, reading),
        SendRefusal::Over(interval) => cause_of(3, interval),
        SendRefusal::Backward(interval) => cause_of(4, interval),
        SendRefusal::IntervalFull(interval) => cause_of(5, u64::from(interval)),
    }
}

/// Why a disclosure isn't accepted, in numbers.
pub(crate) fn disclosure_cause_of(refusal: DiscloseRefusal) -> CCause
    ensures { result ≡ disclosure_cause refusal }
{
    match refusal {
        DiscloseRefusal::Backward(interval) => cause_of(4, interval),
        DiscloseRefusal::NothingDue => cause_of(6, 0),
    }
}

fn cause_of(kind: u32, number: u64) -> CCause
    ensures { result ≡ record { kind = kind; number = number } }
{
    CCause { kind, number }
}
