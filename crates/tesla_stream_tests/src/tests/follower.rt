//! A feed that goes on in further streams: which epoch answers, which messages are accepted on arrival, what takes give in turn,
//! and which epochs are closed. Another program made the frames and the answers.

ghost use Rattle.std.specs.Prelude.{◌≡◌, ◌<◌};

mod lines;

use lines::LINES;
use std::alloc::Global;
use std::marker::Brand;
use std::sync::ledger::{Blank, Ledger};
use std::test::*;
use tesla_base::Steps;
use tesla_commit::read_setup;
use tesla_follow::*;
use tesla_test_desk::{SETUP_OF_ONE_CHAIN, bytes_of};

// The epoch that answers a frame, its verdict, and what becomes of its message.
fn arrives<L: Ledger>(
    alloc: Global,
    follower: &mut Follower,
    reading: u64,
    word: &str,
    steps: &mut Steps<L>,
) -> Result<String, Fail>
    requires { follower.old.calls < 10000 }
{
    let frame = bytes_of(alloc, word)?;
    let FollowVerdict {
        epoch,
        verdict,
        acceptance,
    } = follower.arrive(0, reading, frame.as_slice(), steps);
    Ok(format!(in alloc; "{epoch} {verdict:?} {acceptance:?}")?)
}

// What a take answers.
fn takes(alloc: Global, follower: &mut Follower) -> Result<String, Fail>
    requires { follower.old.calls < 10000 }
{
    match follower.take(0, &mut [0; 1200]) {
        FollowTake::Released { epoch, head, next } => {
            let (position, interval, number) = (head.position, head.interval, head.number);
            Ok(format!(in alloc; "{epoch} {position} {interval}/{number} {next:?}")?)
        }
        FollowTake::Early { epoch, head } => {
            let (position, interval, number) = (head.position, head.interval, head.number);
            Ok(format!(in alloc; "{epoch} {position} {interval}/{number} early")?)
        }
        FollowTake::Empty => Ok(String::from_str(alloc, "Empty")?),
        FollowTake::Over => Ok(String::from_str(alloc, "Over")?),
    }
}

// What a call answers.
fn answer<L: Ledger>(
    alloc: Global,
    follower: &mut Follower,
    call: &str,
    steps: &mut Steps<L>,
) -> Result<String, Fail> {
    if 10_000 <= follower.calls() {
        return Err("too many calls".into());
    }
    let (first, rest) = call.split_once(' ').unwrap_or((call, ""));
    match first {
        "take" => takes(alloc, follower),
        "end" => {
            follower.end(rest.parse()?);
            Ok(String::from_str(alloc, "Ended")?)
        }
        _ => arrives(alloc, follower, first.parse()?, rest, steps),
    }
}

// The first line that isn't so, with what came instead; and where all are, what is counted then.
fn wrong_line<L: Ledger>(alloc: Global, blank: Blank) -> Result<String, Fail>
    requires name { blank.name ≡ L.name }
    requires parts { blank.parts ≡ L.parts }
    requires some { 0 < L.parts }
{
    let mut steps = Steps::<L>::new(blank);
    let setup = read_setup(alloc, SETUP_OF_ONE_CHAIN.as_bytes())?;
    let mut follower = Follower::open(alloc, setup, 30_000, 2, 2, 1)?;
    for line in LINES.trim_end().split('\n') {
        let (call, wanted) = line.split_once(" = ").ok_or("a call and its answer")?;
        let actual = answer(alloc, &mut follower, call, &mut steps)?;
        if actual.as_str() != wanted {
            return Ok(format!(in alloc; "{line}, and {actual}")?);
        }
    }
    let (epochs, records, early) = (follower.epochs(), follower.records(), follower.early());
    let (unqueued, dropped) = (follower.unqueued(), follower.dropped());
    Ok(format!(in alloc; "{epochs} {records} {early} {unqueued} {dropped}")?)
}

#[test]
fn epochs(rt: HostRuntime) -> Result<(), Fail> {
    assert_eq!(rt;
        wrong_line::<Brand>(rt.alloc(), Blank::new(1))?.as_str(),
        "5 16 3 1 2"
    );
    Ok(())
}
