//! A feed of streams of which each hands over to the next: which epoch answers, and what the payload of a packet that is given comes
//! to. Another program made the frames; the answers were worked out by hand.

ghost use Rattle.std.specs.Prelude.{◌≡◌, ◌<◌};

use std::alloc::Global;
use std::marker::Brand;
use std::sync::ledger::{Blank, Ledger};
use std::test::*;
use tesla_base::Steps;
use tesla_commit::read_setup;
use tesla_rollover::*;
use tesla_test_desk::{SETUP_OF_ONE_CHAIN, bytes_of};

/// A row has a name and the number of ingests. A line of it has a call and its answer: of a frame at a reading the epoch with its
/// verdict; and of a take the epoch, the position, the interval and the number, what the payload comes to, and how many epochs
/// there are then.
const ROWS: &str = "
* two ingests of which one ends before the second epoch is opened $ 2
1150000 ROLL_A7_1_TO_A8 = 0 Kept { chains: 1 }
take = Empty, 1
2150000 ROLL_A8_1_N = 0 Foreign { stream: StreamId(168) }
1350000 ROLL_KEY_A7_1 = 0 Keys
2150000 ROLL_A8_1_N = 0 Foreign { stream: StreamId(168) }
end 1 = Ended
take = 0 0 1/0 Opened, 2
2150000 ROLL_A8_1_N = 1 Kept { chains: 1 }
2150000 54534c41 = 0 Malformed
2350000 ROLL_KEY_A8_1 = 1 Keys
1450000 ROLL_A7_4_M = 0 Kept { chains: 1 }
1650000 ROLL_KEY_A7_4 = 0 Keys
take = 0 1 4/0 Plain, 2
take = 1 0 1/0 Plain, 2
take = Empty, 2
end 1 = Ended
take = Empty, 2
end 0 = Ended
take = Over, 2
* payloads that open nothing, and one that does $ 1
1150000 ROLL_A7_1_TNXT = 0 Kept { chains: 1 }
1350000 ROLL_KEY_A7_1 = 0 Keys
take = 0 0 1/0 Plain, 1
1250000 ROLL_A7_2_VERSION_2 = 0 Kept { chains: 1 }
1450000 ROLL_KEY_A7_2 = 0 Keys
take = 0 1 2/0 Plain, 1
1350000 ROLL_A7_3_NOTHING = 0 Kept { chains: 1 }
1550000 ROLL_KEY_A7_3 = 0 Keys
take = 0 2 3/0 BadSetup { line: 1, kind: BadLine }, 1
1450000 ROLL_A7_4_NO_CHAIN = 0 Kept { chains: 1 }
1650000 ROLL_KEY_A7_4 = 0 Keys
take = 0 3 4/0 BadSetup { line: 6, kind: NoChain }, 1
1550000 ROLL_A7_5_TO_A7 = 0 Kept { chains: 1 }
1750000 ROLL_KEY_A7_5 = 0 Keys
take = 0 4 5/0 UsedStream(StreamId(167)), 1
1650000 ROLL_A7_6_TO_A8 = 0 Kept { chains: 1 }
1850000 ROLL_KEY_A7_6 = 0 Keys
take = 0 5 6/0 Opened, 2
1750000 ROLL_A7_7_TO_A9 = 0 Kept { chains: 1 }
1950000 ROLL_KEY_A7_7 = 0 Keys
take = 0 6 7/0 Old { newest: 1 }, 2
";

// The epoch that answers a frame, and its verdict.
fn arrives<L: Ledger>(
    alloc: Global,
    rollover: &mut Rollover,
    reading: u64,
    word: &str,
    steps: &mut Steps<L>,
) -> Result<String, Fail>
    requires { rollover.old.calls < 10000 }
{
    let frame = bytes_of(alloc, word)?;
    let RollVerdict { epoch, verdict } = rollover.arrive(0, reading, frame.as_slice(), steps);
    Ok(format!(in alloc; "{epoch} {verdict:?}")?)
}

// What a take answers.
fn takes(alloc: Global, rollover: &mut Rollover) -> Result<String, Fail>
    requires { rollover.old.calls < 10000 }
{
    let take = rollover.take(alloc, 0, &mut [0; 1200]);
    let epochs = rollover.epochs();
    match take {
        RollTake::Given { epoch, head, next } => {
            let (position, interval, number) = (head.position, head.interval, head.number);
            Ok(format!(in alloc; "{epoch} {position} {interval}/{number} {next:?}, {epochs}")?)
        }
        take => Ok(format!(in alloc; "{take:?}, {epochs}")?),
    }
}

// What a call answers.
fn answer<L: Ledger>(
    alloc: Global,
    rollover: &mut Rollover,
    call: &str,
    steps: &mut Steps<L>,
) -> Result<String, Fail>
    requires { rollover.old.calls < 10000 }
{
    let (first, rest) = call.split_once(' ').unwrap_or((call, ""));
    match first {
        "take" => takes(alloc, rollover),
        "end" => {
            rollover.end(rest.parse()?);
            Ok(String::from_str(alloc, "Ended")?)
        }
        _ => arrives(alloc, rollover, first.parse()?, rest, steps),
    }
}

// The same where there are few calls.
fn answer_of_few<L: Ledger>(
    alloc: Global,
    rollover: &mut Rollover,
    call: &str,
    steps: &mut Steps<L>,
) -> Result<String, Fail> {
    if 10_000 <= rollover.calls() {
        return Err("too many calls".into());
    }
    answer(alloc, rollover, call, steps)
}

// The first line that isn't so, with what came instead. Empty where all are.
fn wrong_in<L: Ledger>(
    alloc: Global,
    rollover: &mut Rollover,
    lines: &str,
    steps: &mut Steps<L>,
) -> Result<String, Fail> {
    for line in lines.trim_end().split('\n') {
        let (call, wanted) = line.split_once(" = ").ok_or("a call and its answer")?;
        let actual = answer_of_few(alloc, rollover, call, steps)?;
        if actual.as_str() != wanted {
            return Ok(format!(in alloc; "{line}, and {actual}")?);
        }
    }
    Ok(String::new(alloc))
}

// The same of a row.
fn wrong_of<L: Ledger>(alloc: Global, row: &str, steps: &mut Steps<L>) -> Result<String, Fail> {
    let (head, lines) = row.split_once('\n').ok_or("a row of one line")?;
    let (_, ingests) = head.split_once(" $ ").ok_or("a row without ingests")?;
    let ingests: u8 = ingests.parse()?;
    let setup = read_setup(alloc, SETUP_OF_ONE_CHAIN.as_bytes())?;
    let mut rollover = Rollover::open(alloc, setup, 30_000, 16, ingests.max(1))?;
    wrong_in(alloc, &mut rollover, lines, steps)
}

// The same of the first row of which something isn't so.
fn wrong_rows<L: Ledger>(alloc: Global, blank: Blank) -> Result<String, Fail>
    requires name { blank.name ≡ L.name }
    requires parts { blank.parts ≡ L.parts }
    requires some { 0 < L.parts }
{
    let mut steps = Steps::<L>::new(blank);
    for row in ROWS.split("\n* ").skip(1) {
        let wrong = wrong_of(alloc, row, &mut steps)?;
        if !wrong.is_empty() {
            return Ok(wrong);
        }
    }
    Ok(String::new(alloc))
}

#[test]
fn epochs(rt: HostRuntime) -> Result<(), Fail> {
    assert_eq!(rt;
        wrong_rows::<Brand>(rt.alloc(), Blank::new(1))?.as_str(),
        ""
    );
    Ok(())
}
