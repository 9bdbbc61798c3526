//! The worked examples, called on a receiver, and what some calls of it may take.

ghost use Rattle.std.specs.Prelude.{◌≡◌, ◌<◌, ◌≤◌, ℕ, pos, false, List, [], ◌∷◌, length, map, Some, None};
ghost use Rattle.tesla_base.specs.declared.names.Key.{Key};
ghost use Rattle.tesla_base.specs.declared.version.Version.TheVariants.{One};
ghost use Rattle.tesla_clock.specs.Schedule.{bound_of};
ghost use Rattle.tesla_commit.specs.Parts.{Parts};
ghost use Rattle.tesla_commit.specs.declared.chain_row.ChainRow.{ChainRow};
ghost use Rattle.tesla_frame.specs.Frame.{Frame, Data, Disclosure};
ghost use Rattle.tesla_fitting.specs.declared.config.Config.{Config};
ghost use Rattle.tesla_state.specs.declared.report.Report.{Report};
ghost use Rattle.tesla_receiver.specs.Costs.{gaps_of, most_of};
ghost use Rattle.tesla_state.specs.Costs.{most_on};
ghost use Rattle.tesla_walks.specs.Holding.{Holding};
ghost use Rattle.tesla_state.specs.State.{State};
ghost use Rattle.tesla_state.specs.Steps.{bound_at};

mod rows;

use super::given_of;
use rows::ROWS;
use std::alloc::Global;
use std::marker::Brand;
use std::sync::ledger::{Blank, Ledger};
use std::test::*;
use tesla_base::Steps;
use tesla_commit::read_setup;
use tesla_receiver::*;
use tesla_test_desk::{SETUP, SETUP_WITH_TAGS_OF_10_BYTES, SETUP_WITH_TAGS_OF_32_BYTES, bytes_of};

// The verdict on a frame.
fn arrives<L: Ledger>(
    alloc: Global,
    receiver: &mut Receiver,
    reading: u64,
    word: &str,
    steps: &mut Steps<L>,
) -> Result<String, Fail>
    requires { receiver.old.calls < 10000 }
{
    let frame = bytes_of(alloc, word)?;
    let verdict = receiver.arrive(0, reading, frame.as_slice(), steps);
    Ok(format!(in alloc; "{verdict:?}")?)
}

// What a take answers.
fn takes(alloc: Global, receiver: &mut Receiver) -> Result<String, Fail>
    requires { receiver.old.calls < 10000 }
{
    let mut into = [0; 1200];
    match receiver.take(0, &mut into) {
        Take::Given(head) => given_of(alloc, &head, &into),
        take => Ok(format!(in alloc; "{take:?}")?),
    }
}

// What a call answers.
fn answer<L: Ledger>(
    alloc: Global,
    receiver: &mut Receiver,
    call: &str,
    steps: &mut Steps<L>,
) -> Result<String, Fail>
    requires { receiver.old.calls < 10000 }
{
    let (first, rest) = call.split_once(' ').unwrap_or((call, ""));
    match first {
        "take" => takes(alloc, receiver),
        "end" => {
            receiver.end(rest.parse()?);
            Ok(String::from_str(alloc, "Ended")?)
        }
        _ => arrives(alloc, receiver, first.parse()?, rest, steps),
    }
}

// A receiver of a setup, a capacity, a quota and a number of ingests, whose lag is 30,000 microseconds.
fn opened(alloc: Global, words: &str) -> Result<Receiver, Fail> {
    let mut words = words.split(' ');
    let setup = match words.next() {
        Some("TAGS_OF_10") => SETUP_WITH_TAGS_OF_10_BYTES,
        Some("TAGS_OF_32") => SETUP_WITH_TAGS_OF_32_BYTES,
        _ => SETUP,
    };
    let capacity = words.next().unwrap_or("").parse()?;
    let quota = words.next().unwrap_or("").parse()?;
    let ingests = words.next().unwrap_or("").parse()?;
    if capacity == 0 || 65_536 < capacity || quota == 0 || capacity < quota || ingests == 0 {
        return Err("not within the limits".into());
    }
    let setup = read_setup(alloc, setup.as_bytes())?;
    Ok(Receiver::open(alloc, setup, 30_000, capacity, quota, ingests)?)
}

// What a call answers, and how many packets are held then. There are few calls.
fn answer_and_held<L: Ledger>(
    alloc: Global,
    receiver: &mut Receiver,
    call: &str,
    steps: &mut Steps<L>,
) -> Result<String, Fail> {
    if 10_000 <= receiver.calls() {
        return Err("too many calls".into());
    }
    let actual = answer(alloc, receiver, call, steps)?;
    Ok(format!(in alloc; "{actual}, {}", receiver.held())?)
}

// The first line that isn't so, with what came instead. Empty where all are.
fn wrong_in<L: Ledger>(
    alloc: Global,
    receiver: &mut Receiver,
    lines: &str,
    steps: &mut Steps<L>,
) -> Result<String, Fail> {
    for line in lines.trim_end().split('\n') {
        let (call, wanted) = line.split_once(" = ").ok_or("a call and its answer")?;
        let actual = answer_and_held(alloc, receiver, call, steps)?;
        if actual.as_str() != wanted {
            return Ok(format!(in alloc; "{line}, and {actual}")?);
        }
    }
    Ok(String::new(alloc))
}

// The same of a row.
fn wrong_of<L: Ledger>(alloc: Global, row: &str, steps: &mut Steps<L>) -> Result<String, Fail> {
    let (head, lines) = row.split_once('\n').ok_or("a row of one line")?;
    let (_, words) = head.split_once(" $ ").ok_or("a row without words")?;
    let mut receiver = opened(alloc, words)?;
    wrong_in(alloc, &mut receiver, lines, steps)
}

// The same of the first row of which something isn't so.
fn wrong_rows<L: Ledger>(alloc: Global, blank: Blank) -> Result<String, Fail>
    requires name { blank.name ≡ L.name }
    requires parts { blank.parts ≡ L.parts }
    requires some { 0 < L.parts }
{
    let mut steps = Steps::<L>::new(blank);
    for row in ROWS.split("\n* ").skip(1) {
        let wrong = wrong_of(alloc, row, &mut steps)?;
        if !wrong.is_empty() {
            return Ok(wrong);
        }
    }
    Ok(String::new(alloc))
}

#[test]
fn worked_examples(rt: HostRuntime) -> Result<(), Fail> {
    assert_eq!(rt;
        wrong_rows::<Brand>(rt.alloc(), Blank::new(1))?.as_str(),
        ""
    );
    Ok(())
}

/// What the examples of keys far from the newest may take.
fn costs_of_far_keys()
    ensures { (key : Key) (tag : List ℕ) →
        let committed : ℕ → ChainRow = λ delay. record { delay = delay; index = 0; key = key } in
        let setup : Parts = record { version = One; stream = record { 0 = 167 }; times = record { start = 1000000; length = 100000; last = 1048576 }; tag_length = 16; rows = committed 2 ∷ committed 5 ∷ [] } in
        let config : Config = record { setup = setup; lag = pos 30000; capacity = 16; quota = 16; ingests = 1 } in
        let frame : ℕ → Frame = λ interval. Data (record { version = One; stream = record { 0 = 167 }; name = record { interval = interval; number = 0 }; payload = []; tag_length = 16; rows = record { tag = tag; key = Some key } ∷ record { tag = tag; key = None } ∷ [] }) in
        (most_of config [] (bound_of config.setup.times config.lag 100001050000) (Some (frame 1000000)) ≡ 1999996)
        × (gaps_of config [] (Some (frame 1000000)) ≡ 999998)
        × (most_of config [] (bound_of config.setup.times config.lag 1150000) (Some (frame 1000000)) ≡ 0)
        × (most_of config [] (bound_of config.setup.times config.lag 104858800000) (Some (frame 1048577)) ≡ 0) }
{}

/// What the examples of a flood may take, while so many forged packets of interval 1 are held.
fn costs_of_floods()
    ensures { (key : Key) (tag : List ℕ) (counts : Report) (calls reserved : ℕ) (numbers : List ℕ) → length numbers ≡ 4096 →
        let committed : ℕ → ChainRow = λ delay. record { delay = delay; index = 0; key = key } in
        let setup : Parts = record { version = One; stream = record { 0 = 167 }; times = record { start = 1000000; length = 100000; last = 8 }; tag_length = 16; rows = committed 2 ∷ committed 5 ∷ [] } in
        let config : Config = record { setup = setup; lag = pos 30000; capacity = 4096; quota = 4096; ingests = 1 } in
        let forgery : ℕ → Holding = λ number. record { order = number; name = record { interval = 1; number = number }; chains = 3; payload = []; tags = tag ∷ tag ∷ []; released = false; taken = false } in
        let state : ℕ → State = λ fast. record { config = config; tips = record { index = fast; key = key } ∷ record { index = 0; key = key } ∷ []; held = map forgery numbers; waiting = []; ended = false ∷ []; counts = counts; calls = calls; reserved = reserved } in
        let bare : Frame = Data (record { version = One; stream = record { 0 = 167 }; name = record { interval = 1; number = 4096 }; payload = []; tag_length = 16; rows = record { tag = tag; key = None } ∷ record { tag = tag; key = None } ∷ [] }) in
        let disclosure : ℕ → Frame = λ chain. Disclosure (record { version = One; stream = record { 0 = 167 }; rows = record { chain = record { 0 = chain }; index = 1; key = key } ∷ [] }) in
        (most_on (state 0) (bound_at (state 0) 1150000) (Some bare) ≡ 0)
        × (most_on (state 0) (bound_at (state 0) 1350000) (Some (disclosure 0)) ≡ 8194)
        × (most_on (state 1) (bound_at (state 1) 1650000) (Some (disclosure 1)) ≡ 8194) }
{}
