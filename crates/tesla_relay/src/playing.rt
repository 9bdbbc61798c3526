//! A capture that is played to posts.

ghost use Rattle.std.specs.Prelude.{All, ◌≡◌, ◌≤◌, [], ℕ, List, length, map, true};
ghost use Rattle.tesla_desk.specs.Faults.{HasCause};
ghost use Rattle.tesla_relay.specs.Due.{IsNextPlayed};
ghost use Rattle.tesla_relay.specs.Posts.{PostSeen};
ghost use Rattle.tesla_relay.specs.Play.{Plays};
ghost use Rattle.tesla_relay.specs.Steps.{Hands, WaitsFor};

use std::sync::Wait;
use tesla_base::MOST_DATAGRAM;
use tesla_capture::{Reader, RecordKind, Step};
use tesla_desk::{Clock, Gate, Post, PostStep, Source};

/// How a play ends.
#[derive(Clone, Copy, Debug, PartialEq, Eq)]
pub enum PlayEnd {
    /// With the end of the capture. So many arrivals were sent to each post.
    Ended { sent: u64 },
    /// At the record at this place, which is the number of bytes before it: there the file is no capture. The arrivals before
    /// it were sent.
    Refused { place: u64, kind: RecordKind },
    /// A read failed: the source's count of faults rose. The arrivals before that were sent.
    ReadFault,
    /// A post failed: its count of faults rose. The posts before it have sent the datagram, and those behind it haven't.
    PostFault,
}

// Reads the clock until it gives this reading or a later one. The gate rests between two readings.
fn wait_until<R: Wait, C: Clock, G: Gate>(rt: &R, reading: u64, clock: &mut C, gate: &mut G)
    ensures waits { WaitsFor reading (C.told clock.old) (C.told clock.new) }
    ensures given { (now : ℕ) × (C.gave now ≡ true) × (reading ≤ now) }
{
    for _ in rt.forever() {
        let now = clock.now();
        if reading <= now {
            return;
        }
        gate.rest_for(reading - now);
    }
    unreachable!()
}

// Sends a datagram to one post after another. False: one failed, and those behind it were not asked.
fn hand<P: Post>(datagram: &[u8], posts: &mut [P]) -> bool
    requires few { length datagram.now ≤ 2048 }
    requires permitted { All (λ post. P.may_send post datagram.now ≡ true) posts.old }
    ensures { let seen : List P → List PostSeen = λ posts. map (λ post. record { name = P.name post; sent = P.sent post; faults = P.faults post }) posts in Hands datagram.now result (seen posts.old) (seen posts.new) }
{
    let Some((post, others)) = posts.split_first_mut() else {
        return true;
    };
    match post.send(datagram) {
        PostStep::Sent => hand(datagram, others),
        PostStep::Failed => false,
    }
}

/// Plays a capture: each arrival's datagram is sent to all posts, in their order, once the clock gives the arrival's reading or
/// a later one. Takes are skipped.
///
/// Each post may send what comes next for it: the arrivals that the source has, in order and each once, each behind a
/// reading of the clock that is at least the arrival's. Nothing else is sent, whether the play ends or not.
///
/// Before each arrival the clock is read until a reading is at least the arrival's. After each reading that is too small the
/// gate rests for the difference, in microseconds. It waits for the clock, and nothing is promised of when it ends. It
/// takes no memory.
///
/// `Ended` and `Refused` say which capture the source had. `ReadFault` is answered exactly where the source's count of faults
/// rose, and `PostFault` exactly where a post's did; nothing is read or sent after that.
pub fn play<R: Wait, S: Source, C: Clock, P: Post, G: Gate>(
    rt: &R,
    source: &mut S,
    clock: &mut C,
    posts: &mut [P],
    gate: &mut G,
) -> PlayEnd
    requires due { let seen : P → PostSeen = λ post. record { name = P.name post; sent = P.sent post; faults = P.faults post } in
        (post : P) (datagram : List ℕ) → IsNextPlayed C.gave (S.left source.old) (map seen posts.old) (seen post) datagram → P.may_send post datagram ≡ true }
    ensures plays { let seen : List P → List PostSeen = λ posts. map (λ post. record { name = P.name post; sent = P.sent post; faults = P.faults post }) posts in
        Plays result (S.left source.old) (S.left source.new) (C.told clock.old) (C.told clock.new) (seen posts.old) (seen posts.new) }
    ensures cause { HasCause (S.faults source.old) (S.faults source.new) (result ≡ PlayEnd.ReadFault) }
    ensures name { S.name source.new ≡ S.name source.old }
{
    let mut reader = Reader::new();
    let mut datagram = [0; MOST_DATAGRAM];
    let mut sent = 0;
    for _ in rt.forever() {
        match reader.next(source, &mut datagram) {
            Step::Arrival { reading, length } => {
                wait_until(rt, reading, clock, gate);
                if !hand(&datagram[..length as usize], posts) {
                    return PlayEnd::PostFault;
                }
                sent += 1;
            }
            Step::Take => {}
            Step::End => return PlayEnd::Ended { sent },
            Step::Refused { place, kind } => return PlayEnd::Refused { place, kind },
            Step::ReadFault => return PlayEnd::ReadFault,
        }
    }
    unreachable!()
}
