//! The words of the commands `chain` and `chain2`.

ghost use Rattle.std.specs.Prelude.{◌≡◌, ◌+◌, ◌^◌, ◌<◌, ◌≤◌, ℕ, [], ◌∷◌, ◌++◌, List, Some, IfSome, IsSomeAnd, true, false, map, string_bytes, option_map, length, decimal};
ghost use Rattle.tesla_base.specs.Version.{most_chains};
ghost use Rattle.tesla_clock.specs.Schedule.{Times};
ghost use Rattle.tesla_run_chain.specs.Arguments.{ChainArguments, AreApart, AreChains, AreTimes, IsChain, arguments_of, command_of};
ghost use Rattle.tesla_sender_setup.specs.Delays.{AreDelays, RiseAbove};

use crate::arguments::Arguments;
use arrayvec::ArrayVec;
use tesla_base::Version;
use tesla_clock::Schedule;
use tesla_front::{is_name, number_in, stream_in};
use tesla_sender_setup::Parameters;

/// The name of the command that makes a setup of version 1.
const CHAIN: &str = "chain";

/// The name of the command that makes a setup of version 2.
const CHAIN_TWO: &str = "chain2";

/// The longest delay, in intervals.
const LONGEST: u64 = 4096;

// The version of the setup that a command makes.
fn version_of(command: &str) -> Option<Version>
    ensures found { IfSome result (λ version. command.now ≡ command_of version) }
    ensures only { (version : Version) → command.now ≡ command_of version → result ≡ Some version }
{
    if command == CHAIN {
        return Some(Version::One);
    }
    if command == CHAIN_TWO {
        return Some(Version::Two);
    }
    None
}

// The words that spell the intervals of a stream.
#[derive(Clone, Copy, Debug)]
struct ScheduleWords<'a> {
    start: &'a [u8],
    interval: &'a [u8],
    last: &'a [u8],
}

// The intervals that words spell.
fn schedule_in(words: &ScheduleWords<'_>) -> Option<Schedule>
    ensures found { IfSome result (AreTimes words.now.start.now words.now.interval.now words.now.last.now) }
    ensures only { (times : Times) → AreTimes words.now.start.now words.now.interval.now words.now.last.now times → result ≡ Some times }
{
    let Some(start) = number_in(words.start, 0, u64::MAX) else {
        return None;
    };
    let Some(interval) = number_in(words.interval, 0, u64::from(u32::MAX)) else {
        return None;
    };
    let Some(last) = number_in(words.last, 0, u64::from(u32::MAX)) else {
        return None;
    };
    Schedule::new(start, interval as u32, last as u32)
}

// Adds the delays that words spell, of which the first is above `before`. False: they spell none.
fn put_delays(words: &[String], before: u16, delays: &mut ArrayVec<u16, 8>) -> bool
    requires { length delays.old.items + length words.now ≤ 8 }
    ensures found { result ≡ true → (more : List ℕ) × (delays.new.items ≡ delays.old.items ++ more) × (map string_bytes words.now ≡ map decimal more) × RiseAbove before more }
    ensures only { (more : List ℕ) → map string_bytes words.now ≡ map decimal more → RiseAbove before more → (result ≡ true) × (delays.new.items ≡ delays.old.items ++ more) }
{
    match words {
        [first, others @ ..] => {
            let Some(delay) = number_in(first.as_bytes(), u64::from(before) + 1, LONGEST) else {
                return false;
            };
            let delay = delay as u16;
            delays.push(delay);
            put_delays(others, delay, delays)
        }
        [] => true,
    }
}

// The delays that words spell.
fn delays_in(version: Version, words: &[String]) -> Option<ArrayVec<u16, 8>>
    ensures found { IfSome result (λ delays. (map string_bytes words.now ≡ map decimal delays.items) × AreDelays version delays.items) }
    ensures only { (delays : List ℕ) → map string_bytes words.now ≡ map decimal delays → AreDelays version delays → option_map (λ it. it.items) result ≡ Some delays }
{
    if words.is_empty() || words.len() > usize::from(version.most_chains()) {
        return None;
    }
    let mut delays = ArrayVec::new();
    if !put_delays(words, 0, &mut delays) {
        return None;
    }
    Some(delays)
}

// The length of tags and the delays that words spell.
fn chains_in(version: Version, words: &[String]) -> Option<(u8, ArrayVec<u16, 8>)>
    ensures found { IfSome result (λ it. AreChains version (map string_bytes words.now) it.0 it.1.items) }
    ensures only { (size : ℕ) (delays : List ℕ) → AreChains version (map string_bytes words.now) size delays → IsSomeAnd result (λ it. (it.0 ≡ size) × (it.1.items ≡ delays)) }
{
    match version {
        Version::One => {
            let Some(delays) = delays_in(version, words) else {
                return None;
            };
            Some((version.shortest_tag(), delays))
        }
        Version::Two => {
            let [tag, words @ ..] = words else {
                return None;
            };
            let low = u64::from(version.shortest_tag());
            let Some(tag) = number_in(tag.as_bytes(), low, u64::from(version.longest_tag())) else {
                return None;
            };
            let Some(delays) = delays_in(version, words) else {
                return None;
            };
            Some((tag as u8, delays))
        }
    }
}

// Whether the names are names of files, and not the same.
fn are_apart(out: &str, secret: &str) -> bool
    ensures yes { result ≡ true → AreApart out.now secret.now }
    ensures no { result ≡ false → AreApart out.now secret.now → ⊥ }
{
    if !is_name(out) {
        return false;
    }
    if !is_name(secret) {
        return false;
    }
    out != secret
}

// What the words after the command ask for.
fn arguments_from<'a>(
    version: Version,
    out: &'a str,
    secret: &'a str,
    stream: &[u8],
    intervals: &ScheduleWords<'_>,
    chains: &[String],
) -> Option<Arguments<'a>>
    ensures found { IfSome result (λ arguments. IsChain (arguments_of arguments) (command_of version ∷ out.now ∷ secret.now ∷ stream.now ∷ intervals.now.start.now ∷ intervals.now.interval.now ∷ intervals.now.last.now ∷ map string_bytes chains.now)) }
    ensures only { (arguments : ChainArguments) → IsChain arguments (command_of version ∷ out.now ∷ secret.now ∷ stream.now ∷ intervals.now.start.now ∷ intervals.now.interval.now ∷ intervals.now.last.now ∷ map string_bytes chains.now) → option_map arguments_of result ≡ Some arguments }
{
    let Some(stream) = stream_in(stream) else {
        return None;
    };
    let Some(schedule) = schedule_in(intervals) else {
        return None;
    };
    let Some((tag_length, delays)) = chains_in(version, chains) else {
        return None;
    };
    if !are_apart(out, secret) {
        return None;
    }
    Some(Arguments {
        out,
        secret,
        parameters: Parameters {
            version,
            stream,
            schedule,
            tag_length,
            delays,
        },
    })
}

/// What the words ask for. `None` exactly where they are neither of the form
/// `chain SETUP-OUT SECRET STREAM START INTERVAL LAST DELAY..` nor of the form
/// `chain2 SETUP-OUT SECRET STREAM START INTERVAL LAST TAG DELAY..`: each word is there, STREAM is 16 lower-case
/// hexadecimal digits, START is a decimal of 64 bits, INTERVAL one from 1,000 to 3,600,000,000, LAST one from 1 to
/// 1,048,576, TAG one from 10 to 32, each DELAY one from 1 to 4,096 and above the one before; there are one to four
/// delays in `chain` and one to eight in `chain2`; no name is empty or the console's, and SETUP-OUT is not SECRET.
pub fn arguments_in(words: &[String]) -> Option<Arguments<'_>>
    // What is found is spelled so.
    ensures found { IfSome result (λ arguments. IsChain (arguments_of arguments) (map string_bytes words.now)) }
    // What is spelled so is found.
    ensures only { (arguments : ChainArguments) → IsChain arguments (map string_bytes words.now) → option_map arguments_of result ≡ Some arguments }
{
    let [
        command,
        out,
        secret,
        stream,
        start,
        interval,
        last,
        chains @ ..,
    ] = words
    else {
        return None;
    };
    let Some(version) = version_of(command.as_str()) else {
        return None;
    };
    arguments_from(
        version,
        out.as_str(),
        secret.as_str(),
        stream.as_bytes(),
        &ScheduleWords {
            start: start.as_bytes(),
            interval: interval.as_bytes(),
            last: last.as_bytes(),
        },
        chains,
    )
}
