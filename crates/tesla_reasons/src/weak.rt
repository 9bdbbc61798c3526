//! Keys in the file that words name under which a chain has no safety.

use std::alloc::Global;
use std::fmt::{self, Display, Formatter};
use tesla_base::{KEY_BYTES, Key};
use tesla_commit::read_setup;
use tesla_seeds::read_seeds;

/// Which keys a file has.
#[derive(Clone, Copy, Debug, PartialEq, Eq)]
pub enum Keys {
    /// Seeds.
    Seeds,
    /// The commitments of a setup.
    Commitments,
}

/// A file that words name, and which keys it has.
#[derive(Clone, Copy, Debug)]
pub struct KeyFile<'a> {
    pub name: &'a str,
    pub keys: Keys,
}

/// A key that gives its chain no safety, with the name of its file. Chains are counted from 0.
#[derive(Clone, Copy, Debug)]
pub enum WeakKey<'a> {
    /// The seed of a chain is all zeros.
    ZeroSeed(usize, &'a str),
    /// Two chains have the same seed.
    EqualSeeds(usize, usize, &'a str),
    /// Two chains have the same commitment.
    EqualCommitments(usize, usize, &'a str),
}

impl Display for WeakKey<'_> {
    fn fmt<W: fmt::Write>(&self, f: &mut Formatter<W>) -> fmt::Result {
        match self {
            WeakKey::ZeroSeed(chain, name) => write!(f, "seed {chain} of {name:?} is all zeros"),
            WeakKey::EqualSeeds(first, second, name) => write!(
                f,
                "seeds {first} and {second} of {name:?} are equal: who learns a key of the faster chain forges under the other"
            ),
            WeakKey::EqualCommitments(first, second, name) => write!(
                f,
                "the commitments of chains {first} and {second} of {name:?} are equal"
            ),
        }
    }
}

/// The file whose keys are looked at for the command that the first of these words names, told the command's form: the seeds
/// of a sender and the setup of a receiver. `None` of all other commands, as of `feed`, which refuses such seeds itself.
pub fn key_file<'a>(words: &'a [String], form: Option<&'static str>) -> Option<KeyFile<'a>> {
    let [command, ..] = words else {
        return None;
    };
    let (asked, keys) = match command.as_str() {
        "chain" | "chain2" | "send" => ("SECRET", Keys::Seeds),
        "receive" | "record" | "watch" | "replay" => ("SETUP", Keys::Commitments),
        _ => return None,
    };
    let name = word_of(asked, words, form)?;
    Some(KeyFile { name, keys })
}

/// The word that stands for this one of a form.
pub(crate) fn word_of<'a>(
    asked: &str,
    words: &'a [String],
    form: Option<&'static str>,
) -> Option<&'a str> {
    for (word, name) in form?.split(' ').zip(words.iter()) {
        if word == asked {
            return Some(name.as_str());
        }
    }
    None
}

/// The weak keys of the text that a file has, in the order of the chains, one of a chain at most. There are none where the text
/// isn't one of such keys, or there is no memory to list them.
pub fn weak_keys<'a>(alloc: Global, file: KeyFile<'a>, text: &[u8]) -> Vec<WeakKey<'a>> {
    let keys = match file.keys {
        Keys::Seeds => seeds_in(alloc, text),
        Keys::Commitments => commitments_in(alloc, text),
    };
    let mut weak = Vec::new(alloc);
    for (chain, key) in keys.iter().enumerate() {
        if let Some(found) = weakness(file, key, chain, &keys) {
            if weak.push(found).is_err() {
                break;
            }
        }
    }
    weak
}

// Why the key of a chain gives no safety, told the keys of all.
fn weakness<'a>(file: KeyFile<'a>, key: &Key, chain: usize, keys: &[Key]) -> Option<WeakKey<'a>> {
    if file.keys == Keys::Seeds && key.0.as_slice() == [0; KEY_BYTES].as_slice() {
        return Some(WeakKey::ZeroSeed(chain, file.name));
    }
    for (before, other) in keys.iter().take(chain).enumerate() {
        if other.0.as_slice() == key.0.as_slice() {
            return Some(match file.keys {
                Keys::Seeds => WeakKey::EqualSeeds(before, chain, file.name),
                Keys::Commitments => WeakKey::EqualCommitments(before, chain, file.name),
            });
        }
    }
    None
}

// The seeds that a text spells, as many as it has; none where it spells no seeds.
fn seeds_in(alloc: Global, text: &[u8]) -> Vec<Key> {
    let mut keys = Vec::new(alloc);
    let lines = text.iter().filter(|byte| **byte == b'\n').count();
    let Ok(count) = u8::try_from(lines.saturating_sub(1)) else {
        return keys;
    };
    if let Ok(seeds) = read_seeds(alloc, text, count) {
        for seed in seeds.as_slice() {
            if keys.push(*seed).is_err() {
                break;
            }
        }
    }
    keys
}

// The commitments of the setup that a text spells; none where it spells no setup.
fn commitments_in(alloc: Global, text: &[u8]) -> Vec<Key> {
    let mut keys = Vec::new(alloc);
    if let Ok(setup) = read_setup(alloc, text) {
        for chain in 0..setup.count() {
            if keys.push(setup.row(chain).key).is_err() {
                break;
            }
        }
    }
    keys
}
