//! The rule by which a run reads the time (RFC 4082, section 3.3: the receiver's bound on the sender's clock).

ghost use Rattle.std.specs.Prelude.{◌≡◌};
ghost use Rattle.tesla_live.specs.Rule as rule;

/// What the system's clocks read at one moment, each in microseconds, and `None` where it can't be read.
#[derive(Clone, Copy, Debug, PartialEq, Eq)]
pub struct Times {
    /// Since 1970. `None` before that too. This clock can be set, and then it steps.
    pub since_1970: Option<u64>,
    /// Since the machine was started, also while it was suspended. This clock can't be set.
    pub since_boot: Option<u64>,
}

/// What both clocks read when a run began.
#[derive(Clone, Copy, Debug, PartialEq, Eq)]
pub struct Anchor {
    pub since_1970: u64,
    pub since_boot: u64,
}

impl Anchor {
    /// An anchor at these times. `None` where one of them can't be read.
    pub fn at(times: Times) -> Option<Anchor>
        ensures { result ≡ rule.anchor_of times.since_1970 times.since_boot }
    {
        let Some(since_1970) = times.since_1970 else {
            return None;
        };
        let Some(since_boot) = times.since_boot else {
            return None;
        };
        Some(Anchor {
            since_1970,
            since_boot,
        })
    }

    /// The reading of the steady clock, which goes on with the time since the machine's start and isn't set with the
    /// system's clock. It stands still at 2^64 - 1.
    pub fn steady(&self, since_boot: u64) -> u64
        ensures { result ≡ rule.steady self.now since_boot }
    {
        self.since_1970
            .saturating_add(since_boot.saturating_sub(self.since_boot))
    }
}

/// What a sender reads: the smaller of the system's reading and the steady one, so that no step of the system's clock
/// makes it tell a key earlier than the clock that the run began with says. 2^64 - 1 where a clock can't be read.
pub fn sender_reading(anchor: &Anchor, now: Times) -> u64
    ensures { result ≡ rule.sender_reading anchor.now now }
{
    match now {
        Times {
            since_1970: Some(since_1970),
            since_boot: Some(since_boot),
        } => since_1970.min(anchor.steady(since_boot)),
        _ => u64::MAX,
    }
}

/// What a receiver reads: the greater of the system's reading and the steady one, so that no step of the system's clock
/// makes it take a packet for earlier than the clock that the run began with says. 2^64 - 1 where a clock can't be read:
/// no packet is safe then.
pub fn receiver_reading(anchor: &Anchor, now: Times) -> u64
    ensures { result ≡ rule.receiver_reading anchor.now now }
{
    match now {
        Times {
            since_1970: Some(since_1970),
            since_boot: Some(since_boot),
        } => since_1970.max(anchor.steady(since_boot)),
        _ => u64::MAX,
    }
}
