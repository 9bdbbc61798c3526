//! Workers over what a desk in memory has, with the frames of the worked examples.

ghost use Rattle.std.specs.Prelude.{◌≡◌, ◌<◌, ◌≤◌, ◌^◌, IfOk, Some};
ghost use Rattle.tesla_fitting.specs.declared.config.Config.{Config};
ghost use Rattle.tesla_turn.specs.Held.{OnlyCalls, left_of};

use super::{further_pass, receiver_of};
use std::alloc::Global;
use std::sync::Wait;
use std::test::*;
use std::thread::yield_now;
use tesla_desk::{Environment, Gate, SinkOutput};
use tesla_memory_desk::{Heap, Letters, MemoryDesk, Readings};
use tesla_receiver::{Entry, Receiver, Reply, Take, Verdict};
use tesla_shared::*;
use tesla_test_desk::Row;
use tesla_turn::{Last, Pass, Turn};

/// What the workers share: a receiver whose arrivals are read by clocks in memory.
type Shared = Witnessed<Receiver, Readings>;

// Tells what it is called for, as a letter each: `b` before a turn and `a` after it, `r` for released, `q` for quiet,
// and `e` for rest, where it gives the processor away.
#[derive(Drop)]
struct CallRecord {
    letters: [u8; 32],
    count: usize,
}

impl CallRecord {
    fn enter(&mut self, letter: u8) {
        if let Some(index) = self.letters.get_mut(self.count) {
            *index = letter;
        }
        self.count = self.count.saturating_add(1);
    }

    fn text(&self) -> &str {
        std::str::from_utf8(&self.letters[..self.count.min(32)]).unwrap_or("")
    }
}

impl Gate for CallRecord {
    fn before(&mut self) {
        self.enter(b'b');
    }

    fn after(&mut self) {
        self.enter(b'a');
    }

    fn rest(&mut self) {
        self.enter(b'e');
        yield_now();
    }

    fn released(&mut self) {
        self.enter(b'r');
    }

    fn quiet(&mut self) {
        self.enter(b'q');
    }
}

/// What the link brings, five packets and the key that proves them all, and when: after each frame it is quiet. Each record is one
/// write, so the second write is that of the second record.
const PAGES: &str = r"pages $ -
link link BARE_3_0_G . BARE_2_0_G . BARE_5_0_G . BARE_4_0_G . BARE_6_0_G . KEYS_0_6 .
clock 0 1350000 1360000 1550000 1560000 1650000 1850000
page records 000000000000000000000003000000000167000000000000000100000002000000000167000000000000000200000005000000000167
page records 000000000000000300000004000000000167000000000000000400000006000000000167
";

/// A row names a run of the worker of the link, and of that of the sink behind it, and the calls that each pass has. It says what
/// became of each worker with what its gate was told, and how many events the receiver had, which is the length of its history.
const ROWS: &str = r"
* a link and then a sink $ 20 Ended baqbaqbaqbaqbaqbraqbra Over babababababa 13
told 0 |
holds out records
* a sink that fails $ 20 Ended baqbaqbaqbaqbaqbraqbra Failed baba 9
set fails 1 out
told 0 |
front out 18 records
* a link that fails $ 20 Failed baqbaqbaqbaqbaqbrabra Over babababababa 13
# What came before is released, and the ingest has ended.
set fails 11 link
told 0 |
holds out records
* passes of six calls $ 6 Spent baqbaqbaqbaqbabra Over ba 7
# Five arrivals and the end, without the key.
told 0 |
holds out
* passes of seven calls $ 7 Spent baqbaqbaqbaqbaqbrabra Over babababababa 13
told 0 |
holds out records
";

// The link and the output of a desk.
fn outside(desk: &mut MemoryDesk) -> Result<(Letters, SinkOutput<Heap>), Fail> {
    let Ok(link) = desk.open_link("link") else {
        return Err("no link".into());
    };
    let Ok(out) = desk.open_output("out") else {
        return Err("no sink".into());
    };
    Ok((link, out))
}

// A turn over a receiver with room for 16 packets and one ingest, and passes of so many calls: the first, one for a link
// and one for a sink.
#[derive(Drop)]
struct Begun {
    turn: Turn<Shared>,
    first: Pass<Shared>,
    link: Pass<Shared>,
    sink: Pass<Shared>,
    ghost first_of: { (first.turn ≡ turn) × (first.number ≡ 0) },
    ghost link_of: { (link.turn ≡ turn) × (link.number ≡ 1) },
    ghost sink_of: { (sink.turn ≡ turn) × (sink.number ≡ 2) },
    ghost ingests: { (config : Config) → sink.config ≡ Some config → config.ingests ≡ 1 },
}

// These passes of one turn. Its facts are proved here, where nothing is let go.
fn begun_of(
    turn: Turn<Shared>,
    first: Pass<Shared>,
    link: Pass<Shared>,
    sink: Pass<Shared>,
) -> Begun
    requires own { (first.turn ≡ turn) × (link.turn ≡ turn) × (sink.turn ≡ turn) }
    requires numbers { (first.number ≡ 0) × (link.number ≡ 1) × (sink.number ≡ 2) }
    requires ingests { (config : Config) → sink.config ≡ Some config → config.ingests ≡ 1 }
    ensures { result.link ≡ link }
{
    // The borrow checker knows the types of a station's answers where they are named.
    let _answers: (Option<Verdict>, Option<Take>, Option<Reply>, Option<Entry>) = (
        None, None, None, None,
    );
    Begun {
        turn,
        first,
        link,
        sink,
    }
}

fn opened(alloc: Global, calls: u64) -> Result<Begun, Fail>
    requires { calls ≤ 2 ^ 40 }
    ensures { IfOk result (λ it. left_of it.link ≡ calls) }
{
    let (turn, mut first) = Turn::open(alloc, Witnessed::new(receiver_of(alloc, 1)?), 3, calls)?;
    let link = further_pass(&turn, &mut first)?;
    let sink = further_pass(&turn, &mut first)?;
    Ok(begun_of(turn, first, link, sink))
}

// Joins the passes and closes the turn, whose end is one that the law of the whole history speaks of. Answers how many
// events there were.
fn closed<R: Wait>(
    rt: &R,
    turn: Turn<Shared>,
    mut first: Pass<Shared>,
    link: Pass<Shared>,
    sink: Pass<Shared>,
) -> u64
    requires own { (first.turn ≡ turn) × (link.turn ≡ turn) × (sink.turn ≡ turn) }
    requires first { first.number ≡ 0 }
{
    turn.join(&mut first, link);
    turn.join(&mut first, sink);
    let (shared, last) = turn.close(rt, first);
    laws::whole_history(&last);
    laws::whole_release(&shared, &last);
    let _last: Last<Receiver> = last.of_value();
    let receiver = shared.into_station();
    receiver.calls()
}

// Runs the worker of a link.
fn hears<R: Wait>(
    rt: &R,
    turn: &Turn<Shared>,
    mut pass: Pass<Shared>,
    link: &mut Letters,
    mut clock: Readings,
) -> (LinkEnd, CallRecord, Pass<Shared>)
    requires own { (pass.turn ≡ turn.now) × (pass.number ≡ 1) }
    requires left { 0 < left_of pass }
    ensures { OnlyCalls pass result.2 }
{
    let mut gate = CallRecord {
        letters: [0; 32],
        count: 0,
    };
    let end = ingest(rt, 0, link, &mut clock, &mut gate, turn, &mut pass);
    (end, gate, pass)
}

// Runs the worker of a sink.
fn drains<R: Wait>(
    rt: &R,
    turn: &Turn<Shared>,
    mut pass: Pass<Shared>,
    out: &mut SinkOutput<Heap>,
) -> (SinkEnd, CallRecord, Pass<Shared>)
    requires own { (pass.turn ≡ turn.now) × (pass.number ≡ 2) }
    requires ingests { (config : Config) → pass.config ≡ Some config → config.ingests ≡ 1 }
    ensures { OnlyCalls pass result.2 }
{
    let mut gate = CallRecord {
        letters: [0; 32],
        count: 0,
    };
    let end = drain(rt, 0, out, &mut gate, turn, &mut pass);
    (end, gate, pass)
}

// Runs the worker of the link, and then the worker of the sink, with so many calls each. Tells what became of them.
fn one_after_the_other<R: Wait>(
    rt: &R,
    alloc: Global,
    desk: &mut MemoryDesk,
    calls: u8,
) -> Result<String, Fail> {
    if calls == 0 {
        return Err("no calls".into());
    }
    let begun = opened(alloc, u64::from(calls))?;
    let (mut link, mut out) = outside(desk)?;
    let Begun {
        turn,
        first,
        link: hearing,
        sink: draining,
    } = begun;
    let (heard, hear_gate, hearing) = hears(rt, &turn, hearing, &mut link, desk.clock());
    let (drained, drain_gate, draining) = drains(rt, &turn, draining, &mut out);
    desk.close_link(link);
    desk.close_output(out);
    let events = closed(rt, turn, first, hearing, draining);
    let (hear_calls, drain_calls) = (hear_gate.text(), drain_gate.text());
    Ok(format!(in alloc; "{calls} {heard:?} {hear_calls} {drained:?} {drain_calls} {events}")?)
}

// What isn't as a row says, where its run is over this desk. Empty where all is.
fn wrong_over<R: Wait>(
    rt: &R,
    alloc: Global,
    row: Row<'_>,
    desk: &mut MemoryDesk,
) -> Result<String, Fail> {
    Row::of(PAGES)?.set_up(alloc, desk)?;
    row.set_up(alloc, desk)?;
    let (calls, _) = row.words.split_once(' ').unwrap_or((row.words, ""));
    let actual = one_after_the_other(rt, alloc, desk, calls.parse()?)?;
    if actual.as_str() != row.words {
        return Ok(actual);
    }
    row.wrong(alloc, 0, desk)
}

// The same over a desk of its own, which one call lets go: at each exit that lets it go by itself the proof goes through all its
// parts.
fn wrong_in<R: Wait>(rt: &R, alloc: Global, row: Row<'_>) -> Result<String, Fail> {
    let mut desk = MemoryDesk::new(alloc, 100)?;
    let wrong = wrong_over(rt, alloc, row, &mut desk);
    drop(desk);
    wrong
}

#[test]
fn workers_one_after_the_other(rt: HostRuntime) -> Result<(), Fail> {
    for text in ROWS.split("\n* ").skip(1) {
        let wrong = wrong_in(&rt, rt.alloc(), Row::of(text)?)?;
        assert_eq!(rt; wrong.as_str(), "", "{text}");
    }
    Ok(())
}

// Where no ingest has ended, a sink's worker rests after each take, until no call is left.
#[test]
fn a_sink_with_nothing_to_write(rt: HostRuntime) -> Result<(), Fail> {
    let mut desk = MemoryDesk::new(rt.alloc(), 100)?;
    desk.put_letters("link", &[])?;
    let begun = opened(rt.alloc(), 3)?;
    let (letters, mut out) = outside(&mut desk)?;
    let Begun {
        turn,
        first,
        link,
        sink,
    } = begun;
    let (end, gate, sink) = drains(&rt, &turn, sink, &mut out);
    desk.close_link(letters);
    desk.close_output(out);
    closed(&rt, turn, first, link, sink);
    assert_eq!(rt; end, SinkEnd::Spent);
    assert_eq!(rt; gate.text(), "baebaebae");
    assert!(rt; desk.page("out") == Some(b"".as_slice()));
    Ok(())
}
