//! Whole runs over a desk in memory that is set before: words go in; the status, the console, and what outputs and posts hold come
//! out. All is plain text, so that a proof has little to look at.

mod counting;
mod draws;
mod feeds;
mod flags;
mod infos;
mod live;
mod loads;
mod long;
mod paces;
mod pages;
mod replays;
mod streams;
mod sure;
mod texts;
mod times;
mod traces;
mod untold;

use counting::wrong_counts;
use pages::new_desk;
use std::alloc::{AllocError, Global};
use std::process::ExitCode;
use std::sync::Wait;
use std::test::Fail;
use std::thread::Threads;
use tesla_cli::program::run_program;
use tesla_cli_live::{is_live, is_live_tool, is_recorded, run_live, run_live_tools, run_recorded};
use tesla_desk::Desk;
use tesla_memory_desk::MemoryDesk;
use tesla_test_desk::{Row, run_result, set_pieces, words_of};

/// More bytes than any page has.
const WHOLE: usize = 100_000;

// The status of all other words.
fn status_of_program<D: Desk>(
    alloc: Global,
    words: Result<Vec<String>, AllocError>,
    desk: &mut D,
) -> u8 {
    let status = run_program(alloc, words, &[], desk);
    for number in 0..u8::MAX {
        if status == ExitCode::from(number) {
            return number;
        }
    }
    u8::MAX
}

// The status of words, by the call that the program makes for them.
fn status_of<R: Threads + Wait + Sync>(
    rt: &R,
    alloc: Global,
    words: Vec<String>,
    desk: &mut MemoryDesk,
) -> u8 {
    if is_live(words.as_slice()) {
        return run_live(rt, alloc, words.as_slice(), desk).status;
    }
    if is_recorded(words.as_slice()) {
        return run_recorded(rt, alloc, words.as_slice(), desk).status;
    }
    if is_live_tool(words.as_slice()) {
        return run_live_tools(rt, alloc, words.as_slice(), desk).status;
    }
    status_of_program(alloc, Ok(words), desk)
}

// What is told of a run of these words: the status, a space and the console.
fn result_by<R: Threads + Wait + Sync>(
    rt: &R,
    alloc: Global,
    line: &str,
    desk: &mut MemoryDesk,
) -> Result<String, Fail> {
    let status = status_of(rt, alloc, words_of(alloc, line)?, desk);
    run_result(alloc, status, desk)
}

// What is wrong of a row, where its run is over this desk and its pages move at most so many bytes a call.
fn wrong_over<R: Threads + Wait + Sync>(
    rt: &R,
    alloc: Global,
    row: Row<'_>,
    most: usize,
    desk: &mut MemoryDesk,
) -> Result<String, Fail> {
    set_pieces(desk, row.words, most)?;
    row.set_up(alloc, desk)?;
    let status = status_of(rt, alloc, words_of(alloc, row.words)?, desk);
    row.wrong(alloc, status, desk)
}

// The same over a desk of its own.
fn wrong_in_row<R: Threads + Wait + Sync>(
    rt: &R,
    alloc: Global,
    row: Row<'_>,
    most: usize,
) -> Result<String, Fail> {
    let mut desk = new_desk(alloc)?;
    let wrong = wrong_over(rt, alloc, row, most, &mut desk);
    drop(desk);
    wrong
}

// What is wrong of the rows of a table.
fn wrong_in<R: Threads + Wait + Sync>(
    rt: &R,
    alloc: Global,
    table: &str,
    most: usize,
) -> Result<String, Fail> {
    let mut wrong = String::new(alloc);
    for text in table.split("\n* ").skip(1) {
        let row = Row::of(text)?;
        wrong.push_str(wrong_in_row(rt, alloc, row, most)?.as_str())?;
    }
    Ok(wrong)
}

#[test]
fn commands_that_fail(rt: HostRuntime) -> Result<(), Fail> {
    for table in [
        replays::FAULTS,
        replays::OUTSIDE,
        streams::FAULTS,
        loads::FAULTS,
        times::FAULTS,
        draws::FAULTS,
        infos::FAULTS,
        traces::FAULTS,
        texts::PROGRAM,
        live::RUNS,
    ] {
        assert_eq!(rt; wrong_in(&rt, rt.alloc(), table, WHOLE)?.as_str(), "");
    }
    Ok(())
}

#[test]
fn live_tools(rt: HostRuntime) -> Result<(), Fail> {
    for table in [feeds::FEEDS, feeds::REFUSALS, feeds::CAPTURES] {
        assert_eq!(rt; wrong_in(&rt, rt.alloc(), table, WHOLE)?.as_str(), "");
    }
    Ok(())
}

#[test]
fn worked_examples_in_pieces(rt: HostRuntime) -> Result<(), Fail> {
    for most in [WHOLE, 1, 2, 7] {
        for table in [replays::EXAMPLES, traces::EXAMPLES] {
            assert_eq!(rt; wrong_in(&rt, rt.alloc(), table, most)?.as_str(), "");
        }
    }
    Ok(())
}

#[test]
fn each_outside_call_fails_once(rt: HostRuntime) -> Result<(), Fail> {
    assert_eq!(rt;
        wrong_counts(&rt, rt.alloc(), counting::COMMANDS)?.as_str(),
        ""
    );
    Ok(())
}

#[test]
fn each_outside_call_of_live_commands_fails_once(rt: HostRuntime) -> Result<(), Fail> {
    assert_eq!(rt; wrong_counts(&rt, rt.alloc(), counting::LIVE)?.as_str(), "");
    Ok(())
}

// Whether what such a desk holds behind a run with two links and two sinks is one of the outcomes that it may have.
fn is_outcome_of_two_and_two(alloc: Global, status: u8, desk: &MemoryDesk) -> Result<bool, Fail> {
    for text in live::TWO_AND_TWO.split("\n* ") {
        if !text.is_empty() && Row::of(text)?.wrong(alloc, status, desk)?.is_empty() {
            return Ok(true);
        }
    }
    Ok(false)
}

// Whether a run with two links and two sinks comes to one of them.
fn is_one_of_two_and_two<R: Threads + Wait + Sync>(rt: &R, alloc: Global) -> Result<bool, Fail> {
    let words = words_of(alloc, "receive setup 30000 16 hi,yo out,other")?;
    let mut desk = new_desk(alloc)?;
    let status = status_of(rt, alloc, words, &mut desk);
    let is_one = is_outcome_of_two_and_two(alloc, status, &desk);
    drop(desk);
    is_one
}

#[test]
fn two_links_and_two_sinks(rt: HostRuntime) -> Result<(), Fail> {
    assert!(rt; is_one_of_two_and_two(&rt, rt.alloc())?);
    Ok(())
}
