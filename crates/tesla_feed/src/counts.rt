//! What a feed counts.

ghost use Rattle.std.specs.Prelude.{◌≡◌};
ghost use Rattle.tesla_feed.specs.Steps.{after_refusal};

use tesla_sender::SendRefusal;

/// How many calls a feed made of its sender, and how many messages it refused, by the cause. Each count stands still at
/// 2^64 - 1.
#[derive(Clone, Copy, Debug, PartialEq, Eq)]
pub struct FeedCounts {
    /// Messages that were sent.
    pub messages: u64,
    /// Disclosures that were sent.
    pub disclosures: u64,
    /// Messages of more than 1,200 bytes.
    pub too_long: u64,
    /// Messages in interval 0, or before the start.
    pub early: u64,
    /// Messages after the last interval.
    pub over: u64,
    /// Messages in an interval before that of the last call, or not after that of the opening.
    pub backward: u64,
    /// Messages in an interval whose 65,536 numbers were used.
    pub full: u64,
    /// Messages that came while the clock couldn't be read.
    pub unread: u64,
}

impl FeedCounts {
    /// Nothing was counted yet.
    pub fn new() -> FeedCounts
        ensures { result ≡ record { messages = 0; disclosures = 0; too_long = 0; early = 0; over = 0; backward = 0; full = 0; unread = 0 } }
    {
        FeedCounts {
            messages: 0,
            disclosures: 0,
            too_long: 0,
            early: 0,
            over: 0,
            backward: 0,
            full: 0,
            unread: 0,
        }
    }

    /// Counts a message that is refused.
    pub fn refuse(&mut self, refusal: SendRefusal)
        ensures { self.new ≡ after_refusal self.old refusal }
    {
        match refusal {
            SendRefusal::TooLong(_) => self.too_long = self.too_long.saturating_add(1),
            SendRefusal::Early(_) => self.early = self.early.saturating_add(1),
            SendRefusal::Over(_) => self.over = self.over.saturating_add(1),
            SendRefusal::Backward(_) => self.backward = self.backward.saturating_add(1),
            SendRefusal::IntervalFull(_) => self.full = self.full.saturating_add(1),
        }
    }
}
