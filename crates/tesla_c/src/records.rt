//! What calls of a follower tell, in numbers.

ghost use Rattle.std.specs.Prelude.{◌≡◌, List};
ghost use Rattle.tesla_follow.specs.History.{FollowEntry, followed};
ghost use Rattle.tesla_follow.specs.Stands.{FollowStands};
ghost use Rattle.tesla_c.specs.Followers.{acceptance_code, follow_report_told, follow_verdict_told, record_told};

use crate::answers::{CReport, counts_of, told};
use tesla_base::Head;
use tesla_follow::{Acceptance, FollowVerdict, Follower};

/// A verdict: the epoch to which the datagram went, its kind, the chain or the set of chains that it names, what becomes of
/// the message before its key is disclosed, and the stream or the bound.
#[repr(C)]
#[derive(Drop)]
pub struct CFollowVerdict {
    pub epoch: u32,
    pub kind: u32,
    pub chains: u32,
    pub acceptance: u32,
    pub number: u64,
}

/// A record that is given: 0 for a released packet or 1 for a message that was accepted on arrival, its epoch, and its head.
#[repr(C)]
#[derive(Drop)]
pub struct CRecord {
    pub kind: u32,
    pub epoch: u32,
    pub position: u64,
    pub interval: u32,
    pub number: u16,
    pub length: u16,
    pub chain: u32,
}

/// The counts of a history, over all epochs.
#[repr(C)]
#[derive(Drop)]
pub struct CFollowReport {
    pub counts: CReport,
    pub epochs: u64,
    pub open_epochs: u64,
    pub early: u64,
    pub unqueued: u64,
    pub dropped: u64,
    pub records: u64,
}

// The number of what becomes of a message.
fn acceptance_of(acceptance: Acceptance) -> u32
    ensures { result ≡ acceptance_code acceptance }
{
    match acceptance {
        Acceptance::Unpromised => 0,
        Acceptance::Queued => 1,
        Acceptance::Unqueued => 2,
    }
}

/// A verdict in numbers.
pub(crate) fn follow_told(it: FollowVerdict) -> CFollowVerdict
    ensures { result ≡ follow_verdict_told it }
{
    let verdict = told(it.verdict);
    CFollowVerdict {
        epoch: it.epoch,
        kind: verdict.kind,
        chains: verdict.chains,
        acceptance: acceptance_of(it.acceptance),
        number: verdict.number,
    }
}

/// A record in numbers.
pub(crate) fn record_of(kind: u32, epoch: u32, head: &Head) -> CRecord
    ensures { result ≡ record_told kind epoch head.now }
{
    CRecord {
        kind,
        epoch,
        position: head.position,
        interval: head.interval,
        number: head.number,
        length: head.length,
        chain: u32::from(head.chain),
    }
}

/// The counts of a follower.
pub(crate) fn follow_counts(follower: &Follower) -> CFollowReport
    ensures { (h : List FollowEntry) → FollowStands follower.now h → result ≡ follow_report_told (followed follower.now.config h) }
{
    CFollowReport {
        counts: counts_of(&follower.report()),
        epochs: follower.epochs(),
        open_epochs: u64::from(follower.open_count()),
        early: follower.early(),
        unqueued: follower.unqueued(),
        dropped: follower.dropped(),
        records: follower.records(),
    }
}
