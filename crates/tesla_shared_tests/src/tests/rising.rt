//! That a worker reads its clock in the turn of the arrival, which no clause says: where two workers share a clock, the
//! readings rise along the history.

ghost use Rattle.std.specs.Prelude.{◌≡◌, ◌<◌};
ghost use Rattle.tesla_receiver.specs.Stands.{Stands};
ghost use Rattle.tesla_turn.specs.Held.{OnlyCalls, left_of};

use super::receiver_of;
use std::sync::Wait;
use std::sync::atomic::AtomicU64;
use std::sync::atomic::Ordering::SeqCst;
use std::test::*;
use std::thread::{Threads, join};
use tesla_capture::Gatherer;
use tesla_desk::{Clock, Got, Link, OpenGate};
use tesla_receiver::{Config, Receiver, Reply, Take, Verdict};
use tesla_shared::*;
use tesla_turn::{Chronicle, Pass, Permitting, Turn};

// How many datagrams come to each worker.
const EACH: u64 = 2_000;

// A receiver that counts the arrivals, and sees whether their readings rise.
#[derive(Drop)]
struct Rising {
    receiver: Receiver,
    arrivals: u64,
    last: u64,
    rises: bool,
}

impl Chronicle for Rising {
    type Entry = tesla_receiver::Entry;

    type Config = Config;

    ghost config = { λ rising. rising.receiver.config };

    ghost stands = { λ rising h. Stands rising.receiver h };
}

impl Permitting for Rising {
    ghost permits = { λ _ _ _ _. Unit {0} };
}

impl Station for Rising {
    ghost use Rattle.tesla_receiver.specs.History.{IsLegal};
    ghost use Rattle.tesla_shared.specs.Receiving.{yield_of};
    ghost use Rattle.tesla_state.specs.Replies.{reply_shown, KeepsBehind};

    type Verdict = Verdict;

    type Reply = Reply;

    type Take = Take;

    ghost ingests = { λ config. config.ingests };

    ghost is_legal = { IsLegal };

    ghost shown = { reply_shown };

    ghost keeps_behind = { KeepsBehind };

    ghost yields = { yield_of };

    ghost legal = { λ rising h stood. stood.legal };

    fn arrive(&mut self, ingest: u8, reading: u64, bytes: &[u8]) -> Verdict {
        self.arrivals = self.arrivals.saturating_add(1);
        self.rises = self.rises && self.last < reading;
        self.last = reading;
        <Receiver as Station>::arrive(&mut self.receiver, ingest, reading, bytes)
    }

    fn take(&mut self, releaser: u8, into: &mut [u8; 1200]) -> Take {
        <Receiver as Station>::take(&mut self.receiver, releaser, into)
    }

    fn gather(take: Take, payload: &[u8; 1200], gatherer: &mut Gatherer) -> Gathered {
        <Receiver as Station>::gather(take, payload, gatherer)
    }

    fn let_go(_verdict: Verdict) {}

    fn end(&mut self, ingest: u8) {
        <Receiver as Station>::end(&mut self.receiver, ingest);
    }

    fn calls(&self) -> u64 {
        <Receiver as Station>::calls(&self.receiver)
    }
}

// A clock that workers share. Each reading is one more than that before it.
#[derive(Drop)]
struct OneMore<'a> {
    count: &'a AtomicU64,
}

impl Clock for OneMore<'_> {
    ghost use Rattle.std.specs.Prelude.{None};

    ghost told = { λ _. None };

    fn now(&mut self) -> u64 {
        self.count.fetch_add(1, SeqCst)
    }

    fn now_for(&mut self, _datagram: &[u8]) -> u64 {
        self.now()
    }
}

// A link that brings so many empty datagrams.
#[derive(Drop)]
struct Empties {
    left: u64,
}

impl Link for Empties {
    ghost use Rattle.std.specs.Prelude.{None, []};

    ghost left = { λ _. None };

    ghost faults = { λ _. 0 };

    ghost name = { λ _. [] };

    fn next(&mut self, _into: &mut [u8; 2048]) -> Got {
        if self.left == 0 {
            return Got::End;
        }
        self.left -= 1;
        Got::Datagram(0)
    }
}

fn hears<R: Wait>(
    rt: &R,
    number: u8,
    turn: &Turn<Rising>,
    mut pass: Pass<Rising>,
    count: &AtomicU64,
) -> Pass<Rising>
    requires { (pass.turn ≡ turn.now) × (0 < left_of pass) }
    ensures { OnlyCalls pass result }
{
    let mut link = Empties { left: EACH };
    let mut clock = OneMore { count };
    let _ = ingest(
        rt,
        number,
        &mut link,
        &mut clock,
        &mut OpenGate,
        turn,
        &mut pass,
    );
    pass
}

fn by_two_threads<R: Threads + Wait + Sync>(
    rt: &R,
    alloc: std::alloc::Global,
) -> Result<Rising, Fail> {
    let rising = Rising {
        receiver: receiver_of(alloc, 2)?,
        arrivals: 0,
        last: 0,
        rises: true,
    };
    let (turn, mut first) = Turn::open(alloc, rising, 2, 1 << 40)?;
    let Ok(second) = turn.split(&mut first) else {
        unreachable!()
    };
    let count = AtomicU64::new(1);
    let (mut first, second) = join(
        rt,
        || -> Pass<Rising>
            requires { (first.turn ≡ turn) × (0 < left_of first) }
            ensures { OnlyCalls first result }
        { hears(rt, 0, &turn, first, &count) },
        || -> Pass<Rising>
            requires { (second.turn ≡ turn) × (0 < left_of second) }
            ensures { OnlyCalls second result }
        { hears(rt, 1, &turn, second, &count) },
    );
    turn.join(&mut first, second);
    let (rising, _last) = turn.close(rt, first);
    Ok(rising)
}

#[test]
fn readings_rise_along_the_history(rt: HostRuntime) -> Result<(), Fail> {
    let rising = by_two_threads(&rt, rt.alloc())?;
    assert!(rt; rising.rises);
    assert_eq!(rt; rising.arrivals, 2 * EACH);
    Ok(())
}
