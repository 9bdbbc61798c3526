//! Long runs of the commands that wait, and runs in which all work at once. They are over an environment that keeps
//! nothing, so what they come to is known by arithmetic.

use super::untold::{Plan, UntoldDesk};
use std::alloc::Global;
use std::sync::Wait;
use std::sync::atomic::Ordering::SeqCst;
use std::test::Fail;
use std::thread::Threads;
use tesla_cli_live::{is_live, is_recorded, run_live, run_live_tools, run_recorded};
use tesla_test_desk::words_of;

/// How many datagrams come in a long run, or how many records a capture has.
const EVENTS: u64 = 200_000;

/// How often each link looks whether a record was written, at most.
const LOOKS: u64 = 1_000_000;

// The status of words, by the call that the program makes for them.
fn status_of<R: Threads + Wait + Sync>(
    rt: &R,
    alloc: Global,
    words: &[String],
    desk: &mut UntoldDesk<'_>,
) -> u8 {
    if is_live(words) {
        return run_live(rt, alloc, words, desk).status;
    }
    if is_recorded(words) {
        return run_recorded(rt, alloc, words, desk).status;
    }
    run_live_tools(rt, alloc, words, desk).status
}

// What is told of a run of these words over a plan: the status, a space and the console.
fn told_by<R: Threads + Wait + Sync>(
    rt: &R,
    alloc: Global,
    line: &str,
    plan: &Plan,
) -> Result<String, Fail> {
    let words = words_of(alloc, line)?;
    let mut desk = UntoldDesk::new(alloc, plan);
    let status = status_of(rt, alloc, words.as_slice(), &mut desk);
    let console = desk.console();
    Ok(format!(in alloc; "{status} {console}")?)
}

// What is told where so many datagrams came, of which the first two are 'hi' and 'yo' and the others no frames.
fn report_of(alloc: Global, arrivals: u64) -> Result<String, Fail> {
    let malformed = arrivals.saturating_sub(2);
    Ok(format!(in alloc;
        "0 arrivals {arrivals}\nmalformed {malformed}\nforeign 0\nmisfit 0\nfuture 0\nbadkey 0\nlate 0\nrepeat 0\nfull 0\nkept 2\nkeys 0\ngiven 1\n"
    )?)
}

// Whether a run of these words over such links tells that.
fn reports<R: Threads + Wait + Sync>(
    rt: &R,
    alloc: Global,
    line: &str,
    links: u64,
    plan: &Plan,
) -> Result<bool, Fail> {
    let arrivals = links.saturating_mul(plan.datagrams).saturating_add(2);
    let told = told_by(rt, alloc, line, plan)?;
    Ok(told.as_str() == report_of(alloc, arrivals)?.as_str() && plan.missed.load(SeqCst) == 0)
}

// What is told of a long run of a command with one link or none.
fn told_long<R: Threads + Wait + Sync>(
    rt: &R,
    alloc: Global,
    line: &str,
) -> Result<(String, u64), Fail> {
    let mut plan = Plan::new(alloc, EVENTS - 2, 0)?;
    plan.first = 1_000_000;
    plan.step = 90;
    let told = told_by(rt, alloc, line, &plan)?;
    Ok((told, plan.sent.load(SeqCst)))
}

// 'hi' and 'yo' came over the first link, and a datagram over each other. All links wait until the record of 'hi' is
// written.
#[test]
fn a_record_is_written_while_all_links_wait(rt: HostRuntime) -> Result<(), Fail> {
    for (line, links) in RUNS {
        let plan = Plan::new(rt.alloc(), 1, LOOKS)?;
        assert!(rt; reports(&rt, rt.alloc(), line, *links, &plan)?, "{line}");
    }
    Ok(())
}

/// Runs whose links wait, and how many links each has.
const RUNS: &[(&str, u64)] = &[
    ("receive setup 30000 16 l0,l1,l2,l3 s0,s1", 4),
    (
        "receive setup 30000 16 l0,l1,l2,l3,l4,l5,l6,l7,l8,l9,l10,l11,l12,l13,l14,l15,l16,l17,l18,l19,l20,l21,l22,l23,l24,l25,l26,l27,l28,l29,l30,l31 s0,s1,s2,s3,s4,s5,s6,s7,s8,s9,s10,s11,s12,s13,s14,s15,s16,s17,s18,s19,s20,s21,s22,s23,s24,s25,s26,s27,s28,s29,s30,s31",
        32,
    ),
];

#[test]
fn long_sessions(rt: HostRuntime) -> Result<(), Fail> {
    for line in [
        "receive setup 30000 16 l0,l1 s0,s1",
        "record setup 30000 16 l0,l1 s0,s1 16 tail",
        "watch setup 30000 16 l0,l1 s0,s1 status 3600",
    ] {
        let plan = Plan::new(rt.alloc(), EVENTS / 2 - 1, 0)?;
        assert!(rt; reports(&rt, rt.alloc(), line, 2, &plan)?, "{line}");
    }
    Ok(())
}

#[test]
fn a_long_capture_and_a_long_play(rt: HostRuntime) -> Result<(), Fail> {
    let (told, _) = told_long(&rt, rt.alloc(), "capture link out")?;
    assert_eq!(rt; told.as_str(), "0 captured 200000\n");
    let (told, sent) = told_long(&rt, rt.alloc(), "play capture post")?;
    assert_eq!(rt; (told.as_str(), sent), ("0 played 199998\n", 199_998));
    Ok(())
}

// What a post didn't send was dropped.
#[test]
fn a_long_relay(rt: HostRuntime) -> Result<(), Fail> {
    let (told, sent) = told_long(&rt, rt.alloc(), "relay 4096 link post")?;
    let dropped = EVENTS.saturating_sub(sent);
    let wanted = format!(in rt.alloc(); "0 post 0 sent {sent} dropped {dropped}\n")?;
    assert_eq!(rt; told.as_str(), wanted.as_str());
    Ok(())
}

// The clock reads 90 more each time. It is opened in interval 0, which ends at 1,100,000. The messages from 1,100,170
// to 1,899,910 are fed, and those from 1,900,000 on come behind the last interval. The keys that no message told are
// told in the intervals 9 to 13.
#[test]
fn a_long_feed(rt: HostRuntime) -> Result<(), Fail> {
    let (told, sent) = told_long(&rt, rt.alloc(), "feed setup secret link post")?;
    assert_eq!(rt;
        told.as_str(),
        "0 messages 8887\ndisclosures 5\ntoolong 0\nearly 0\nover 191113\nbackward 0\nfull 0\nunread 0\n"
    );
    assert_eq!(rt; sent, 8_892);
    Ok(())
}
