//! What the parts of one run share.

ghost use Rattle.std.specs.Prelude.{◌≡◌, ◌↔◌, IsTrue};

use crate::ending::Ending;
use crate::incidents::{Tallies, Tally};

/// What a run does where its sinks of records fail.
#[derive(Clone, Copy, Debug, PartialEq, Eq)]
pub enum FailurePolicy {
    /// A sink that failed gets nothing more, and the run goes on.
    GoOn,
    /// The same, and the links of the run end once all of its sinks have failed.
    EndLinks,
    /// A sink is tried again. One that this can't help gets nothing more, and the links end once that holds of all.
    TryAgain,
}

/// Counts of what no answer tells, and when the links end.
#[derive(Drop)]
pub struct Events {
    pub tallies: Tallies,
    pub ending: Ending,
    // How many of the first outputs are sinks of records, what is done where they fail, and how many have failed for good.
    sinks: u64,
    policy: FailurePolicy,
    lost: Tally,
}

impl Events {
    /// Of a run whose links end where something comes to stand at this path, and which does this where its sinks of records fail,
    /// of which it has so many.
    pub fn new(path: Option<String>, sinks: u64, policy: FailurePolicy) -> Events
        ensures sinks { result.sinks ≡ sinks }
        ensures policy { result.policy ≡ policy }
    {
        Events {
            tallies: Tallies::new(),
            ending: Ending::at(path),
            sinks,
            policy,
            lost: Tally::new(),
        }
    }

    /// How many of the first outputs are sinks of records.
    pub fn sinks(&self) -> u64
        ensures { result ≡ self.now.sinks }
    {
        self.sinks
    }

    /// Whether a sink of records that fails is tried again.
    pub fn is_tried_again(&self) -> bool
        ensures { IsTrue result ↔ (self.now.policy ≡ FailurePolicy.TryAgain) }
    {
        self.policy == FailurePolicy::TryAgain
    }

    /// Counts a sink of records that fails from now on.
    pub fn count_failed_sink(&self) {
        self.tallies.failed_sinks.raise();
    }

    /// Takes a sink of records that is written again from the count of those that fail.
    pub fn count_written_sink(&self) {
        self.tallies.failed_sinks.lower();
    }

    /// Counts a sink of records that gets nothing more, and lets the links end where that is told of all sinks.
    pub fn count_lost_sink(&self) {
        self.lost.raise();
        if self.policy != FailurePolicy::GoOn && self.sinks <= self.lost.so_far() {
            self.ending.begin();
        }
    }
}
