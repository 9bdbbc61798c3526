//! Worlds of a sender and a receiver that were worked out by hand.

ghost use Rattle.std.specs.Prelude.{◌≡◌, ◌<◌, [], length, IfOk};
ghost use Rattle.tesla_receiver.specs.Stands.{Stands};

use super::{given_of, sender_of};
use std::alloc::Global;
use std::marker::Brand;
use std::sync::ledger::{Blank, Ledger};
use std::test::*;
use tesla_base::Steps;
use tesla_commit::{Setup, read_setup};
use tesla_receiver::{Receiver, Take};
use tesla_test_desk::{SETUP, bytes_of};
use tesla_world::*;

/// A row has a name and lines. A line has what happens and the answer to it: the payload `a` is sent at a reading, or keys are; the
/// frame of a number comes at a reading, or other bytes do; a take; or the end.
const ROWS: &str = "
* the second message brings the key of the first
send 1150000 = Ok(0)
deliver 1150000 0 = Ok(Kept { chains: 3 })
deliver 1150000 1 = Err(NoSuch)
send 1350000 = Ok(1)
deliver 1350000 1 = Ok(Kept { chains: 3 })
take = 0 1/0 by 0 a
take = Empty
* a disclosure brings it
# One that is refused changes nothing, so the sender still accepts a message of an earlier interval.
disclose 1250000 = Err(Disclose(NothingDue))
send 1150000 = Ok(0)
disclose 1350000 = Ok(1)
deliver 1150000 0 = Ok(Kept { chains: 3 })
deliver 1350000 1 = Ok(Keys)
take = 0 1/0 by 0 a
* the clock bound fails
# The receiver reads 1,150,000 after the sender has told the key of interval 1. So a packet that the sender never sent is kept, and is
# released by that key.
disclose 1350000 = Ok(0)
inject 1150000 DATA_1_0_HI = Kept { chains: 3 }
deliver 1350000 0 = Ok(Keys)
take = 0 1/0 by 0 hi
* a kept packet that hasn't the sender's tags is never released, though its keys come
inject 1250000 BARE_2_0_A_WITH_THE_PAYLOAD_ALTERED = Kept { chains: 3 }
disclose 1750000 = Ok(0)
deliver 1750000 0 = Ok(Keys)
end = Ended
take = Over
* a kept packet whose one safe chain's key never comes isn't released
send 1150000 = Ok(0)
deliver 1350000 0 = Ok(Kept { chains: 2 })
send 1350000 = Ok(1)
deliver 1350000 1 = Ok(Kept { chains: 3 })
end = Ended
take = Over
";

// What is sent, or why nothing is.
fn sends<L: Ledger>(
    alloc: Global,
    joint: &mut Joint,
    is_message: bool,
    reading: u64,
    steps: &mut Steps<L>,
) -> Result<String, Fail>
    requires { length joint.old.frames < 10000 }
{
    let sent = if is_message {
        joint.send(alloc, reading, b"a", steps)
    } else {
        joint.disclose(alloc, reading, steps)
    };
    Ok(format!(in alloc; "{sent:?}")?)
}

// The verdict on the frame of a number.
fn delivers<L: Ledger>(
    alloc: Global,
    joint: &mut Joint,
    reading: u64,
    number: u32,
    steps: &mut Steps<L>,
) -> Result<String, Fail>
    requires { joint.old.receiver.calls < 10000 }
{
    let verdict = joint.deliver(number, reading, steps);
    Ok(format!(in alloc; "{verdict:?}")?)
}

// The verdict on other bytes.
fn injects<L: Ledger>(
    alloc: Global,
    joint: &mut Joint,
    reading: u64,
    word: &str,
    steps: &mut Steps<L>,
) -> Result<String, Fail>
    requires { joint.old.receiver.calls < 10000 }
{
    let bytes = bytes_of(alloc, word)?;
    let verdict = joint.inject(reading, bytes.as_slice(), steps);
    Ok(format!(in alloc; "{verdict:?}")?)
}

// What a take answers, or the end.
fn takes(alloc: Global, joint: &mut Joint, is_end: bool) -> Result<String, Fail>
    requires { joint.old.receiver.calls < 10000 }
{
    if is_end {
        joint.end();
        return Ok(String::from_str(alloc, "Ended")?);
    }
    let mut into = [0; 1200];
    match joint.take(&mut into) {
        Take::Given(head) => given_of(alloc, &head, &into),
        take => Ok(format!(in alloc; "{take:?}")?),
    }
}

// The answer to what happens.
fn answer<L: Ledger>(
    alloc: Global,
    joint: &mut Joint,
    event: &str,
    steps: &mut Steps<L>,
) -> Result<String, Fail>
    requires calls { joint.old.receiver.calls < 10000 }
    requires frames { length joint.old.frames < 10000 }
{
    let (kind, rest) = event.split_once(' ').unwrap_or((event, "0"));
    let (reading, word) = rest.split_once(' ').unwrap_or((rest, ""));
    let reading = reading.parse()?;
    match kind {
        "send" => sends(alloc, joint, true, reading, steps),
        "disclose" => sends(alloc, joint, false, reading, steps),
        "deliver" => delivers(alloc, joint, reading, word.parse()?, steps),
        "inject" => injects(alloc, joint, reading, word, steps),
        "end" => takes(alloc, joint, true),
        _ => takes(alloc, joint, false),
    }
}

// A receiver whose lag is 30,000 microseconds.
fn receiver_of(alloc: Global, setup: Setup) -> Result<Receiver, Fail>
    ensures setup { IfOk result (λ receiver. receiver.config.setup ≡ setup) }
    ensures ingest { IfOk result (λ receiver. receiver.config.ingests ≡ 1) }
    ensures stands { IfOk result (λ receiver. Stands receiver []) }
{
    Ok(Receiver::open(alloc, setup, 30_000, 16, 16, 1)?)
}

fn opened<L: Ledger>(alloc: Global, steps: &mut Steps<L>) -> Result<Joint, Fail> {
    let setup = read_setup(alloc, SETUP.as_bytes())?;
    let copy = setup.copy(alloc).ok().ok_or("there is memory")?;
    let sender = sender_of(alloc, setup, steps)?;
    let receiver = receiver_of(alloc, copy)?;
    Ok(Joint::open(sender, receiver))
}

// The same where little happens.
fn answer_of_few<L: Ledger>(
    alloc: Global,
    joint: &mut Joint,
    event: &str,
    steps: &mut Steps<L>,
) -> Result<String, Fail> {
    if 10_000 <= joint.calls() || 10_000 <= joint.sent() {
        return Err("too much happens".into());
    }
    answer(alloc, joint, event, steps)
}

// The first line that isn't so, with what came instead. Empty where all are.
fn wrong_in<L: Ledger>(
    alloc: Global,
    joint: &mut Joint,
    lines: &str,
    steps: &mut Steps<L>,
) -> Result<String, Fail> {
    for line in lines.split('\n') {
        let Some((event, wanted)) = line.split_once(" = ") else {
            continue;
        };
        let actual = answer_of_few(alloc, joint, event, steps)?;
        if actual.as_str() != wanted {
            return Ok(format!(in alloc; "{line}, and {actual}")?);
        }
    }
    Ok(String::new(alloc))
}

// The same of a row.
fn wrong_of<L: Ledger>(alloc: Global, lines: &str, steps: &mut Steps<L>) -> Result<String, Fail> {
    let mut joint = opened(alloc, steps)?;
    wrong_in(alloc, &mut joint, lines, steps)
}

// The same of the first row of which something isn't so.
fn wrong_rows<L: Ledger>(alloc: Global, blank: Blank) -> Result<String, Fail>
    requires name { blank.name ≡ L.name }
    requires parts { blank.parts ≡ L.parts }
    requires some { 0 < L.parts }
{
    let mut steps = Steps::<L>::new(blank);
    for row in ROWS.split("\n* ").skip(1) {
        if !row.contains(" = ") {
            return Err("a row of no event".into());
        }
        let wrong = wrong_of(alloc, row, &mut steps)?;
        if !wrong.is_empty() {
            return Ok(wrong);
        }
    }
    Ok(String::new(alloc))
}

#[test]
fn worlds(rt: HostRuntime) -> Result<(), Fail> {
    assert_eq!(rt;
        wrong_rows::<Brand>(rt.alloc(), Blank::new(1))?.as_str(),
        ""
    );
    Ok(())
}
