//! A command is run as often as it has outside calls, and each time another of them fails.

use super::pages::{desk_if_set, new_desk};
use super::result_by;
use std::alloc::Global;
use std::sync::Wait;
use std::test::Fail;
use std::thread::Threads;
use tesla_desk::CONSOLE;
use tesla_memory_desk::MemoryDesk;
use tesla_test_desk::held_by;

/// An ordinary run of each command: its words, and how often it asks for an opening, reads or hears under a name, writes or sends
/// under one, and prints under one, of which the last isn't looked at. A read, a write and an output's piece move ten bytes at
/// most. A file is asked once more behind its last byte, and a link behind its last letter.
pub const COMMANDS: &str = "
# 219 bytes of SETUP, 178 of CAPTURE, 19 of OUT, and 105 of the report.
replay setup 30000 16 taken out: open 4, read setup 23, read taken 19, write out 2, print - 11
# The same, with one byte before the record and two lines of 17 bytes.
roll setup 30000 16 taken out: open 4, read setup 23, read taken 19, write out 2, print - 2
# The same record behind one byte, and 113 bytes of the report and the line behind it.
early setup 30000 16 taken out: open 4, read setup 23, read taken 19, write out 2, print - 12
# 211 bytes of TRACE.
trace setup 30000 16 taken out: open 4, read setup 23, read taken 19, write out 22, print - 11
audit setup 30000 16 traced: open 3, read setup 23, read traced 23, print - 1
# 40 bytes of SCRIPT. SCRIPT-OUT has 39 more for the promise in 'hi', and one more for 'yo'.
weave setup script out 1: open 4, read setup 23, read script 5, write out 8, print - 2
# 154 bytes of SECRET, and 219 of SETUP-OUT.
chain out secret 00000000000000a7 1000000 100000 8 2 5: open 3, read secret 17, write out 22, print - 1
# The line of the tags has 7 bytes more.
chain2 out secret 00000000000000a7 1000000 100000 8 10 2 5: open 3, read secret 17, write out 23, print - 1
# 40 bytes of SCRIPT, and 280 of CAPTURE.
send setup secret script out: open 5, read setup 23, read secret 17, read script 5, write out 28, print - 1
# 13 bytes of ASK, 53 of REPLY, and 65 of KEY.
lag ask reply key 10000: open 4, read ask 3, read reply 7, read key 8, print - 1
ask 5000000 out: open 2, write out 2, print - 2
reply ask key 5020000 out: open 4, read ask 3, read key 8, write out 6, print - 2
# 64 random bytes, and 154 of SECRET-OUT.
seeds 2 out: open 3, read /dev/urandom 7, write out 16, print - 1
# 359 bytes of lines.
info setup: open 2, read setup 23, print - 36
# 105 bytes of the report.
stress 1 10: open 1, print - 11
";

/// The same of the commands that wait.
pub const LIVE: &str = "
# A quiet stands before each of the two datagrams.
receive setup 30000 16 both out: open 4, read setup 23, read both 5, write out 2, print - 11
# The head of TAIL has 13 bytes, and the last entry three.
record setup 30000 16 both out 1 tail: open 5, read setup 23, read both 5, write out 2, print tail 3, print - 11
# Two lines of 24 bytes.
relay 4 both p,q: open 4, read both 5, write p 2, write q 2, print - 5
play taken p,q: open 4, read taken 19, write p 2, write q 2, print - 1
# The last line has 156 bytes.
watch setup 30000 16 both out status 3600: open 5, read setup 23, read both 5, write out 2, print status 16, print - 11
# Two lines of 24 bytes, and the last one of STATUS of 59.
watch-relay 4 both p,q status 3600: open 5, read both 5, write p 2, write q 2, print status 6, print - 5
# The head of 5 bytes, and what is gathered at the second quiet, 71 bytes, and at the end, 103.
capture both out: open 3, read both 5, write out 20, print - 2
# Keys at the quiet, the frame, and keys in the intervals 7, 9 and 10. The lines have 77 bytes.
feed setup secret hi p,q: open 6, read setup 23, read secret 17, read hi 3, write p 5, write q 5, print - 8
# The same, and the last line of STATUS of 112 bytes.
feed setup secret hi p,q status 3600: open 7, read setup 23, read secret 17, read hi 3, write p 5, write q 5, print status 12, print - 8
";

/// How many bytes a call moves at most.
const PIECE: usize = 10;

/// How many calls under one name are made to fail, at most.
const MOST: u64 = 100;

/// What an output holds before a run, as in `held_by`.
const BEFORE: &str = "page 6265666f7265";

/// What an empty output holds, and a post that sent nothing.
const NOTHING: [&str; 2] = ["page ", "sent "];

/// A run in which no call fails: its words, its calls, the desk behind it, and what was told.
#[derive(Drop)]
struct Ordinary<'a> {
    words: &'a str,
    calls: &'a str,
    desk: &'a MemoryDesk,
    reported: String,
}

/// A call that fails: its kind and the name of what it is a call of, or none where it is an opening; and its number.
#[derive(Clone, Copy)]
struct Call<'a> {
    kind: &'a str,
    name: &'a str,
    number: u64,
}

// What calls are of, with their count: the kind with the name, and the name.
fn calls_of(calls: &str) -> (&str, &str) {
    let (called, _) = calls.rsplit_once(' ').unwrap_or((calls, ""));
    let (_, name) = called.split_once(' ').unwrap_or((called, ""));
    (called, name)
}

// Lets whatever these calls are of move ten bytes a call.
fn set_pieces_of(desk: &mut MemoryDesk, calls: &str) -> Result<(), Fail> {
    for part in calls.split(", ") {
        desk.set_piece(calls_of(part).1, PIECE)?;
    }
    Ok(())
}

// A desk for a command with these calls.
fn desk_for(alloc: Global, calls: &str) -> Result<MemoryDesk, Fail> {
    let mut desk = new_desk(alloc)?;
    let set = set_pieces_of(&mut desk, calls);
    desk_if_set(desk, set)
}

// What has to be told where the console's call with this number fails: behind what was written before, that a write failed.
fn lost_at(alloc: Global, console: &[u8], number: u64) -> Result<String, Fail> {
    let written = (number as usize).saturating_mul(PIECE);
    let prefix = std::str::from_utf8(&console[..console.len().min(written)])?;
    Ok(format!(in alloc; "5 {prefix}write fault\n")?)
}

// What has to be told where a call fails: nothing where the console isn't opened, and behind what it holds already where it
// fails.
fn wanted_of(alloc: Global, ordinary: &Ordinary<'_>, call: Call<'_>) -> Result<String, Fail> {
    if call.name == CONSOLE {
        let console = ordinary.desk.page(CONSOLE).unwrap_or(b"");
        return lost_at(alloc, console, call.number);
    }
    let reported = match call.kind {
        "open" if call.number == 0 => "7 ",
        "open" => "7 open fault\n",
        "read" => "4 read fault\n",
        _ => "5 write fault\n",
    };
    Ok(String::from_str(alloc, reported)?)
}

// Whether an output or a post holds a prefix of what it holds in the ordinary run. An output may be as it was, and is so where an
// opening failed.
fn holds_prefix(
    alloc: Global,
    desk: &MemoryDesk,
    ordinary: &Ordinary<'_>,
    call: Call<'_>,
    name: &str,
) -> Result<bool, Fail> {
    let held = held_by(alloc, desk, name)?;
    if held.as_str() == BEFORE || call.name.is_empty() {
        return Ok(held.as_str() == BEFORE || NOTHING.contains(&held.as_str()));
    }
    let whole = held_by(alloc, ordinary.desk, name)?;
    Ok(whole.as_str().starts_with(held.as_str()))
}

// Whether all outputs and posts of a command do.
fn hold_prefixes(
    alloc: Global,
    desk: &MemoryDesk,
    ordinary: &Ordinary<'_>,
    call: Call<'_>,
) -> Result<bool, Fail> {
    for part in ordinary.calls.split(", ") {
        let (called, name) = calls_of(part);
        if called.starts_with("write ") && !holds_prefix(alloc, desk, ordinary, call, name)? {
            return Ok(false);
        }
    }
    Ok(true)
}

// Lets this call of a desk fail.
fn set_failing(desk: &mut MemoryDesk, call: Call<'_>) -> Result<(), Fail> {
    if call.name.is_empty() {
        return Ok(desk.fail_open(call.number)?);
    }
    Ok(desk.fail_call(call.name, call.number)?)
}

// What is told of a run over this desk in which a call fails, if there is such a call.
fn result_over<R: Threads + Wait + Sync>(
    rt: &R,
    alloc: Global,
    ordinary: &Ordinary<'_>,
    call: Call<'_>,
    desk: &mut MemoryDesk,
) -> Result<String, Fail> {
    set_failing(desk, call)?;
    let mut reported = result_by(rt, alloc, ordinary.words, desk)?;
    if reported.as_str() != ordinary.reported.as_str()
        && !hold_prefixes(alloc, desk, ordinary, call)?
    {
        reported.push_str(" with another output")?;
    }
    Ok(reported)
}

// The same over a desk of its own.
fn result_of_failing<R: Threads + Wait + Sync>(
    rt: &R,
    alloc: Global,
    ordinary: &Ordinary<'_>,
    call: Call<'_>,
) -> Result<String, Fail> {
    let mut desk = desk_for(alloc, ordinary.calls)?;
    let reported = result_over(rt, alloc, ordinary, call, &mut desk);
    drop(desk);
    reported
}

// How many calls of these there are, each of which failed once and was told so; or what was told else.
fn count_of<R: Threads + Wait + Sync>(
    rt: &R,
    alloc: Global,
    ordinary: &Ordinary<'_>,
    calls: &str,
) -> Result<String, Fail> {
    let (called, name) = calls_of(calls);
    let (kind, _) = called.split_once(' ').unwrap_or((called, ""));
    for number in 0..MOST {
        let call = Call { kind, name, number };
        let actual = result_of_failing(rt, alloc, ordinary, call)?;
        if actual.as_str() == ordinary.reported.as_str() {
            return Ok(format!(in alloc; "{called} {number}")?);
        }
        if actual.as_str() != wanted_of(alloc, ordinary, call)?.as_str() {
            return Ok(format!(in alloc; "{called} {number} comes to {actual}")?);
        }
    }
    Ok(String::from_str(alloc, "too many")?)
}

// The counts of the calls of a run that aren't those of the ordinary one.
fn wrong_beside<R: Threads + Wait + Sync>(
    rt: &R,
    alloc: Global,
    ordinary: &Ordinary<'_>,
) -> Result<String, Fail> {
    let mut wrong = String::new(alloc);
    for part in ordinary.calls.split(", ") {
        let count = count_of(rt, alloc, ordinary, part)?;
        if count.as_str() != part {
            let words = ordinary.words;
            wrong.push_str(format!(in alloc; "{words}: {count}\n")?.as_str())?;
        }
    }
    Ok(wrong)
}

// The counts of the calls of a run that aren't these, where its ordinary run is over this desk.
fn wrong_over<R: Threads + Wait + Sync>(
    rt: &R,
    alloc: Global,
    words: &str,
    calls: &str,
    desk: &mut MemoryDesk,
) -> Result<String, Fail> {
    let reported = result_by(rt, alloc, words, desk)?;
    let ordinary = Ordinary {
        words,
        calls,
        desk,
        reported,
    };
    wrong_beside(rt, alloc, &ordinary)
}

// The counts of the calls of a run that aren't these.
fn wrong_of<R: Threads + Wait + Sync>(
    rt: &R,
    alloc: Global,
    words: &str,
    calls: &str,
) -> Result<String, Fail> {
    let mut desk = desk_for(alloc, calls)?;
    let wrong = wrong_over(rt, alloc, words, calls, &mut desk);
    drop(desk);
    wrong
}

/// The counts that aren't those of a table, with what they are.
pub fn wrong_counts<R: Threads + Wait + Sync>(
    rt: &R,
    alloc: Global,
    table: &str,
) -> Result<String, Fail> {
    let mut wrong = String::new(alloc);
    for line in table.split('\n') {
        if let Some((words, calls)) = line.split_once(": ")
            && !line.starts_with('#')
        {
            wrong.push_str(wrong_of(rt, alloc, words, calls)?.as_str())?;
        }
    }
    Ok(wrong)
}
