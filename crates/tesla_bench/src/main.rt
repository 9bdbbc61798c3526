//! Work to be timed from outside. Without words, or with others than these, nothing is done.
//!
//! `frames VERSION BYTES CHAINS TIMES` reads a data frame so many times. `compressions COUNT` hashes so many blocks,
//! `digests BYTES TIMES` makes the digest of a payload so many times, and `evaluations COUNT` evaluates HMAC so many times. `walk LAST KEYS` opens a traversal of a chain of that many keys, and
//! asks it for the first of them. Each prints a number that depends on the work. `turns` prints for 1, 2, 4 and 8 threads how
//! many turns a second they take, and how often a second a lock of std lets them in.
#![tactic(auto)]

ghost use Rattle.std.specs.Prelude.{◌≡◌, ◌<◌};

mod frames;
mod hashing;
mod lock;
mod measuring;
mod turns;
mod walking;

use frames::{Datagram, read_often};
use hashing::{compress_often, digest_often, evaluate_often};
use measuring::measure_turns;
use std::alloc::{AllocError, Global};
use std::marker::Brand;
use std::rt::Env;
use std::sync::ledger::{Blank, Ledger};
use std::{env, io};
use tesla_base::{Steps, read_decimal};
use walking::walk_part;

/// The number that a word spells, 0 where it spells none.
fn number(word: &String) -> u64 {
    read_decimal(word.as_bytes()).unwrap_or(0)
}

/// The words after the program's name.
fn words<R: Env + AllocGlobal>(rt: &R) -> io::Result<Vec<String>> {
    let mut words = Vec::new(rt.alloc());
    for word in env::args(rt)?.skip(1) {
        words.push(word).map_err(AllocError::from)?;
    }
    Ok(words)
}

/// Does the work that the words name, and gives the number to be printed; `None` where they name none. It has a ledger
/// for its evaluations of HMAC.
fn counted<L: Ledger>(alloc: Global, words: &[String], blank: Blank) -> Option<u64>
    requires name { blank.name ≡ L.name }
    requires parts { blank.parts ≡ L.parts }
    requires some { 0 < L.parts }
{
    let mut steps = Steps::<L>::new(blank);
    match words {
        [what, version, bytes, chains, times] if what.as_str() == "frames" => {
            let datagram = Datagram::new(number(version), number(bytes), number(chains));
            Some(read_often(&datagram, number(times)))
        }
        [what, last, keys] if what.as_str() == "walk" => {
            Some(walk_part(alloc, number(last), number(keys), &mut steps))
        }
        [what, bytes, times] if what.as_str() == "digests" => {
            Some(digest_often(number(bytes), number(times)))
        }
        [what, count] if what.as_str() == "compressions" => Some(compress_often(number(count))),
        [what, count] if what.as_str() == "evaluations" => {
            Some(evaluate_often(number(count), &mut steps))
        }
        _ => None,
    }
}

/// Does the work that the words name.
fn worked(alloc: Global, words: &[String]) -> Option<u64> {
    let blank = Blank::new(1);
    counted::<Brand>(alloc, words, blank)
}

// Whether the words ask how long turns take.
fn asks_for_turns(words: &[String]) -> bool {
    match words {
        [what] => what.as_str() == "turns",
        _ => false,
    }
}

fn main(rt: HostRuntime) -> io::Result<()> {
    let words = words(&rt)?;
    if asks_for_turns(words.as_slice()) {
        return measure_turns(&rt);
    }
    if let Some(reported) = worked(rt.alloc(), words.as_slice()) {
        println!(rt; "{reported}")?;
    }
    Ok(())
}
