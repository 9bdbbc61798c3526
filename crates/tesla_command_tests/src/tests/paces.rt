//! How many datagrams a relay drops for a post that is slower than its link, and for one that keeps up with it. Gates pace
//! the threads, since no contract says when each is at work.

ghost use Rattle.std.specs.Prelude.{◌≡◌, ◌≤◌, [], None};

use std::alloc::Global;
use std::sync::atomic::AtomicU64;
use std::sync::atomic::Ordering::SeqCst;
use std::sync::{Arc, Wait};
use std::test::*;
use std::thread::{Threads, yield_now};
use tesla_desk::{Gate, Got, Link, Post, PostStep};
use tesla_memory_desk::MemoryDesk;
use tesla_relay::{PostCount, PostSide, PostTally, SoFar, relay};

/// How often a gate looks whether it may go on, at most.
const LOOKS: u64 = 1_000_000;

/// What the threads share.
#[derive(Drop)]
struct Pace {
    // How many datagrams the link brings.
    datagrams: u64,
    // How many turns the link's gate saw end.
    heard: AtomicU64,
    // How many datagrams the post sent, and how many of them hadn't the number behind that of the one before.
    sent: AtomicU64,
    disordered: AtomicU64,
    // How many gates looked in vain.
    missed: AtomicU64,
}

/// What a gate waits for before each turn.
#[derive(Clone, Copy)]
enum Hold {
    Nothing,
    /// All datagrams were heard.
    AllHeard,
    /// What was heard is sent.
    AllSent,
}

#[derive(Drop)]
struct PaceGate<'a> {
    pace: &'a Pace,
    hold: Hold,
    is_of_link: bool,
}

impl PaceGate<'_> {
    // Whether what it waits for has come.
    fn is_free(&self) -> bool {
        let heard = self.pace.heard.load(SeqCst);
        match self.hold {
            Hold::Nothing => true,
            Hold::AllHeard => self.pace.datagrams <= heard,
            Hold::AllSent => heard <= self.pace.sent.load(SeqCst),
        }
    }
}

impl Gate for PaceGate<'_> {
    fn before(&mut self) {
        for _ in 0..LOOKS {
            if self.is_free() {
                return;
            }
            yield_now();
        }
        self.pace.missed.fetch_add(1, SeqCst);
    }

    fn after(&mut self) {
        if self.is_of_link {
            self.pace.heard.fetch_add(1, SeqCst);
        }
    }

    fn rest(&mut self) {
        yield_now();
    }
}

/// A link that brings datagrams of eight bytes, which are numbered from 1.
#[derive(Drop)]
struct Numbers {
    last: u64,
    datagrams: u64,
}

impl Link for Numbers {
    ghost left = { λ _. None };

    ghost faults = { λ _. 0 };

    ghost name = { λ _. [] };

    fn next(&mut self, into: &mut [u8; 2048]) -> Got {
        if self.datagrams <= self.last {
            return Got::End;
        }
        self.last += 1;
        into[..8].copy_from_slice(&self.last.to_be_bytes());
        Got::Datagram(8)
    }
}

/// A post that never fails, and counts.
#[derive(Drop)]
struct PacedPost<'a> {
    pace: &'a Pace,
}

impl Post for PacedPost<'_> {
    ghost sent = { λ _. None };

    ghost faults = { λ _. 0 };

    ghost name = { λ _. [] };

    fn send(&mut self, datagram: &[u8]) -> PostStep {
        let number = self.pace.sent.fetch_add(1, SeqCst).saturating_add(1);
        if datagram != number.to_be_bytes().as_slice() {
            self.pace.disordered.fetch_add(1, SeqCst);
        }
        PostStep::Sent
    }
}

// What a relay of so many datagrams to one post comes to, where the link and the post are held so: what became of them, what
// the post's tally tells then, and how many were sent out of order and how many gates looked in vain.
fn relayed<R: Threads + Wait + Sync>(
    rt: &R,
    alloc: Global,
    datagrams: u64,
    capacity: u32,
    link_hold: Hold,
    post_hold: Hold,
) -> Result<(PostCount, SoFar, u64, u64), Fail>
    requires { (1 ≤ capacity) × (capacity ≤ 4096) }
{
    let pace = &Pace {
        datagrams,
        heard: AtomicU64::new(0),
        sent: AtomicU64::new(0),
        disordered: AtomicU64::new(0),
        missed: AtomicU64::new(0),
    };
    let mut posts = Vec::new(alloc);
    posts.push(PacedPost { pace })?;
    let tally = Arc::new(alloc, PostTally::new())?;
    let mut sides = Vec::new(alloc);
    sides.push(PostSide {
        gate: PaceGate {
            pace,
            hold: post_hold,
            is_of_link: false,
        },
        tally: Arc::try_clone(&tally)?,
    })?;
    let mut link = Numbers { last: 0, datagrams };
    let mut gate = PaceGate {
        pace,
        hold: link_hold,
        is_of_link: true,
    };
    let relayed = relay::<_, MemoryDesk, _, _, _>(
        rt, alloc, &mut link, &mut gate, &mut posts, &mut sides, capacity,
    )?;
    let (disordered, missed) = (pace.disordered.load(SeqCst), pace.missed.load(SeqCst));
    Ok((relayed.post(0), tally.so_far(), disordered, missed))
}

// A slow post drops what its queue has no room for, and a fast one nothing.
#[test]
fn posts_of_two_paces(rt: HostRuntime) -> Result<(), Fail> {
    let (count, told, disordered, missed) = relayed(
        &rt,
        rt.alloc(),
        5,
        2,
        Hold::Nothing,
        Hold::AllHeard,
    )?;
    assert_eq!(rt;
        (count.sent, count.dropped, disordered, missed),
        (2, 3, 0, 0)
    );
    assert_eq!(rt; (told.sent, told.dropped), (2, 3));
    for datagrams in [5, 100_000] {
        let (count, told, disordered, missed) = relayed(
            &rt,
            rt.alloc(),
            datagrams,
            1,
            Hold::AllSent,
            Hold::Nothing,
        )?;
        assert_eq!(rt;
            (count.sent, count.dropped, disordered, missed),
            (datagrams, 0, 0, 0)
        );
        assert_eq!(rt; (told.sent, told.dropped), (datagrams, 0));
    }
    Ok(())
}
