//! The names in one word.

ghost use Rattle.std.specs.Prelude.{◌≡◌, ◌<◌, ◌≤◌, ◌++◌, ◌∷◌, [], ℕ, List, Some, IfSome, true, false, map, length, option_map};
ghost use Rattle.std.specs.List.{slice_split};
ghost use Rattle.tesla_front.specs.Words.{IsName};
ghost use Rattle.tesla_front.specs.Forms.{NamesAre};
ghost use Rattle.tesla_front.specs.Names.{AreNames, IsNoneOf, is_comma};
ghost use Rattle.tesla_front.specs.Parts.{Follows, Follow, texts_of};

use crate::{Word, is_name};
use arrayvec::ArrayVec;
use std::marker::Model;

/// The most names in a word.
const MOST: usize = 32;

/// The names in one word, 1 to 32.
#[derive(Drop)]
pub struct Names<'a> {
    list: ArrayVec<&'a str, MOST>,
}

impl<'a> Model for Names<'a> {
    ghost use Rattle.std.specs.Prelude.{ℕ, List};
    ghost use Rattle.tesla_front.specs.Parts.{texts_of};

    ghost Value = { List (List ℕ) };

    ghost view = { λ names. texts_of names.list.items };
}

impl<'a> Names<'a> {
    /// The names, in the order of the word.
    pub fn as_slice(&self) -> &[&'a str]
        ensures { map (λ name. name.now) result.now ≡ self.now }
    {
        self.list.as_slice()
    }

    /// How many names there are.
    pub fn len(&self) -> usize
        ensures { result ≡ length self.now }
    {
        self.list.len()
    }
}

/// Whether a name is one of those before.
pub fn is_among(name: &str, before: &[&str]) -> bool
    ensures old { result ≡ true → IsNoneOf name.now (texts_of before.now) → ⊥ }
    ensures new { result ≡ false → IsNoneOf name.now (texts_of before.now) }
{
    before.contains(&name)
}

// Adds a name where it may follow those before. False: it may not, and none is added.
fn put_name<'a>(name: &'a str, list: &mut ArrayVec<&'a str, MOST>) -> bool
    ensures yes { result ≡ true → Follows (texts_of list.old.items) name.now × (texts_of list.new.items ≡ texts_of list.old.items ++ name.now ∷ []) }
    ensures no { result ≡ false → Follows (texts_of list.old.items) name.now → ⊥ }
{
    if !is_name(name) {
        return false;
    }
    if list.is_full() || is_among(name, list.as_slice()) {
        return false;
    }
    list.push(name);
    true
}

// Adds the parts of a word between its commas. False: one of them may not follow those before.
fn put_parts<'a>(word: &'a str, list: &mut ArrayVec<&'a str, MOST>) -> bool
    ensures found { result ≡ true → Follow (texts_of list.old.items) (slice_split is_comma word.now) × (texts_of list.new.items ≡ texts_of list.old.items ++ slice_split is_comma word.now) }
    ensures only { Follow (texts_of list.old.items) (slice_split is_comma word.now) → (result ≡ true) × (texts_of list.new.items ≡ texts_of list.old.items ++ slice_split is_comma word.now) }
{
    match word.split_once(',') {
        Some((name, others)) => put_name(name, list) && put_parts(others, list),
        None => put_name(word, list),
    }
}

// The names that a word spells, as a list.
fn list_in(word: &str) -> Option<ArrayVec<&str, MOST>>
    ensures found { IfSome result (λ list. AreNames word.now (texts_of list.items)) }
    ensures only { (names : List (List ℕ)) → AreNames word.now names → option_map (λ list. texts_of list.items) result ≡ Some names }
{
    let mut list = ArrayVec::new();
    if !put_parts(word, &mut list) {
        return None;
    }
    Some(list)
}

/// The names that a word spells: 1 to 32 with a comma between two, none of them empty or the console's, and no two the
/// same. `None` exactly where it spells no such list.
pub fn read_names(word: &str) -> Option<Names<'_>>
    // What is found is spelled so.
    ensures found { IfSome result (λ names. AreNames word.now names) }
    // What is spelled so is found.
    ensures only { (names : List (List ℕ)) → AreNames word.now names → result ≡ Some names }
{
    let Some(list) = list_in(word) else {
        return None;
    };
    Some(Names { list })
}

impl<'a> Word<'a> for Names<'a> {
    ghost spells = { NamesAre };

    fn read(word: &'a str) -> Option<Names<'a>> {
        read_names(word)
    }
}
