//! Runs over a desk on which no call from outside fails.

use super::pages::new_desk;
use super::status_of_program;
use std::alloc::Global;
use std::sync::Wait;
use std::test::Fail;
use std::thread::Threads;
use tesla_cli_live::{is_live, run_live};
use tesla_desk::Letter;
use tesla_memory_desk::{MemoryDesk, SureDesk};
use tesla_test_desk::words_of;

/// Each ends well.
const RUNS: &[&str] = &[
    "replay setup 30000 16 first out",
    "receive setup 30000 16 link out",
    "relay 4 link post",
];

// Puts the setup and the first capture of these pages, a link that is quiet once, and a clock.
fn set_up(desk: &mut SureDesk, pages: &MemoryDesk) -> Result<(), Fail> {
    for page in ["setup", "first"] {
        desk.put_page(page, pages.page(page).unwrap_or(b""))?;
    }
    desk.put_letters("link", &[Letter::Quiet])?;
    Ok(desk.put_readings(0, &[1_150_000])?)
}

// The same from the pages of all runs.
fn set_up_from_pages(alloc: Global, desk: &mut SureDesk) -> Result<(), Fail> {
    let pages = new_desk(alloc)?;
    let set = set_up(desk, &pages);
    drop(pages);
    set
}

// The status of words, by the call that the program makes for them.
fn status_of<R: Threads + Wait + Sync>(
    rt: &R,
    alloc: Global,
    words: Vec<String>,
    desk: &mut SureDesk,
) -> u8 {
    if is_live(words.as_slice()) {
        return run_live(rt, alloc, words.as_slice(), desk).status;
    }
    status_of_program(alloc, Ok(words), desk)
}

// The status of a run over a desk that is set so.
fn status_over_set<R: Threads + Wait + Sync>(
    rt: &R,
    alloc: Global,
    line: &str,
    desk: &mut SureDesk,
) -> Result<u8, Fail> {
    set_up_from_pages(alloc, desk)?;
    Ok(status_of(rt, alloc, words_of(alloc, line)?, desk))
}

// The status of a run over such a desk.
fn status_over<R: Threads + Wait + Sync>(rt: &R, alloc: Global, line: &str) -> Result<u8, Fail> {
    let mut desk = SureDesk::new(alloc)?;
    let status = status_over_set(rt, alloc, line, &mut desk);
    drop(desk);
    status
}

#[test]
fn runs_where_nothing_can_fail(rt: HostRuntime) -> Result<(), Fail> {
    for line in RUNS {
        assert_eq!(rt; status_over(&rt, rt.alloc(), line)?, 0, "{line}");
    }
    Ok(())
}
