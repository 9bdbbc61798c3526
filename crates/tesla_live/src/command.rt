//! The command that a desk is for.

ghost use Rattle.std.specs.Prelude.{◌≡◌, ◌≢◌, ◌↔◌, ◌%◌, IsTrue, codes};
ghost use Rattle.tesla_live.specs.Rule as rule;

use crate::rule::{Anchor, Times, receiver_reading, sender_reading};
use tesla_files_live::Making;
use tesla_reports::FailurePolicy;

/// A command that runs over live links, posts and clocks, or another one.
#[derive(Clone, Copy, Debug, PartialEq, Eq)]
pub enum Command {
    Capture,
    Chain,
    Feed,
    Follow,
    Play,
    Receive,
    Record,
    Relay,
    Seeds,
    Send,
    Watch,
    /// One that runs over files alone.
    Other,
}

impl Command {
    /// The command of this name.
    pub fn named(name: &str) -> Command
        ensures feeds { name.now ≡ codes "feed" → result ≡ Command.Feed }
        ensures plays { name.now ≡ codes "play" → result ≡ Command.Play }
        ensures only { (result ≡ Command.Feed → name.now ≡ codes "feed") × (result ≡ Command.Play → name.now ≡ codes "play") }
    {
        if name == "feed" {
            return Command::Feed;
        }
        if name == "play" {
            return Command::Play;
        }
        receiving(name)
    }

    /// Its name, as lines on standard error begin with it.
    pub fn name(self) -> &'static str {
        match self {
            Command::Capture => "capture",
            Command::Chain => "chain",
            Command::Feed => "feed",
            Command::Follow => "follow",
            Command::Play => "play",
            Command::Receive => "receive",
            Command::Record => "record",
            Command::Relay => "relay",
            Command::Seeds => "seeds",
            Command::Send => "send",
            Command::Watch => "watch",
            Command::Other => "run",
        }
    }

    /// Whether a source that it opens has seeds, counted from 0: of a feed, which opens the seeds of each stream behind its setup,
    /// every second one.
    pub fn is_secret(self, source: u64) -> bool
        ensures feeds { self ≡ Command.Feed → IsTrue result ↔ (source % 2 ≡ 1) }
    {
        match self {
            Command::Chain => source == 0,
            Command::Feed => source % 2 == 1,
            Command::Send => source == 1,
            _ => false,
        }
    }

    /// Whether one of the sources that it opens has seeds.
    pub fn reads_seeds(self) -> bool {
        matches!(self, Command::Chain | Command::Feed | Command::Send)
    }

    /// How its outputs are made.
    pub fn making(self) -> Making {
        match self {
            Command::Seeds => Making::NewSecret,
            Command::Send => Making::Secret,
            _ => Making::Usual,
        }
    }

    /// What its run does where a sink of records fails.
    pub fn failure_policy(self) -> FailurePolicy
        ensures again { (result ≡ FailurePolicy.TryAgain) ↔ (self ≡ Command.Follow) }
        ensures ends { (result ≡ FailurePolicy.EndLinks) ↔ (self ≡ Command.Watch) }
    {
        match self {
            Command::Follow => FailurePolicy::TryAgain,
            Command::Watch => FailurePolicy::EndLinks,
            _ => FailurePolicy::GoOn,
        }
    }

    /// What its clock gives at these times. Where a clock can't be read a play gives 0, at which nothing is due; a feed
    /// gives 2^64 - 1, at which it sends nothing; and all others give 2^64 - 1, at which no packet is safe.
    pub fn reading(self, anchor: &Anchor, now: Times) -> u64
        ensures { result ≡ rule.reading_for self anchor.now now }
    {
        match self {
            Command::Feed => sender_reading(anchor, now),
            Command::Play => match sender_reading(anchor, now) {
                u64::MAX => 0,
                reading => reading,
            },
            _ => receiver_reading(anchor, now),
        }
    }
}

// The command of this name, where it sends nothing of its own.
fn receiving(name: &str) -> Command
    ensures { (result ≢ Command.Feed) × (result ≢ Command.Play) }
{
    match name {
        "capture" => Command::Capture,
        "chain" | "chain2" => Command::Chain,
        "follow" => Command::Follow,
        "receive" => Command::Receive,
        "record" => Command::Record,
        "relay" | "watch-relay" => Command::Relay,
        "seeds" => Command::Seeds,
        "send" => Command::Send,
        "watch" => Command::Watch,
        _ => Command::Other,
    }
}
