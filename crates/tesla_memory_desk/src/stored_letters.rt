//! What a desk in memory keeps of links.

ghost use Rattle.std.specs.Prelude.{◌≡◌, ◌≤◌, [], true, length, IfOk};
ghost use Rattle.std.specs.List.{list_all};
ghost use Rattle.tesla_desk.specs.Links.{fits};

use crate::entries::{Entries, Named};
use std::alloc::Global;
use tesla_base::{MOST_DATAGRAM, NoMemory};
use tesla_desk::{Got, Letter};

/// Letters, each of which fits into a link's buffer.
#[derive(Drop)]
pub struct StoredLetters {
    pub items: Vec<Letter>,
    pub ghost fit: { list_all fits items.items ≡ true },
}

impl StoredLetters {
    /// No letters. They take no memory.
    pub fn none(alloc: Global) -> StoredLetters
        ensures { result.items.items ≡ [] }
    {
        StoredLetters {
            items: Vec::new(alloc),
        }
    }

    /// A copy of these letters.
    pub fn copy(alloc: Global, letters: &[Letter]) -> Result<StoredLetters, NoMemory>
        requires { list_all fits letters.now ≡ true }
        ensures { IfOk result (λ it. it.items.items ≡ letters.now) }
    {
        let items = copied(alloc, letters)?;
        Ok(StoredLetters { items })
    }
}

// A copy of letters.
fn copied(alloc: Global, letters: &[Letter]) -> Result<Vec<Letter>, NoMemory>
    ensures { IfOk result (λ items. items.items ≡ letters.now) }
{
    let mut items = Vec::new(alloc);
    for letter in letters {
        items.push(letter.copy(alloc)?)?;
    }
    Ok(items)
}

/// The letters of a link, how many of them it has given, and, once it is closed, whether it failed.
#[derive(Drop)]
pub struct StoredRemainder {
    pub letters: StoredLetters,
    pub at: usize,
    pub failed: bool,
    pub ghost within: { at ≤ length letters.items.items },
}

impl StoredRemainder {
    ghost use Rattle.std.specs.Prelude.{◌≡◌, ◌≢◌, ◌≤◌, length, Some};
    ghost use Rattle.tesla_desk.specs.Links.{Gets};
    ghost use Rattle.tesla_memory_desk.specs.LiveMemory.{answer_of, letters_stored};

    /// Gives the next letter, and puts a datagram at the front of the buffer. Never `Failed`.
    pub fn next(&mut self, into: &mut [u8; MOST_DATAGRAM]) -> Got
        ensures step { Gets (Some (letters_stored self.old)) (Some (letters_stored self.new)) into.new result }
        ensures exact { result ≡ answer_of (letters_stored self.old) }
        ensures never { result ≢ Got.Failed }
    {
        let letters = &self.letters;
        let Some(letter) = letters.items.get(self.at) else {
            return Got::End;
        };
        let Letter::Datagram { bytes } = letter else {
            self.at += 1;
            return Got::Quiet;
        };
        let bytes = bytes.bytes();
        into[..bytes.len()].copy_from_slice(bytes);
        self.at += 1;
        Got::Datagram(bytes.len())
    }
}

/// What closed links left, by name. Of those with one name the newest counts.
pub type StoredRemainders = Entries<Named<StoredRemainder>>;
