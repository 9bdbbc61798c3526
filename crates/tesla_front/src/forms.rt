//! The forms of commands: how they are told, and what words of a form ask for.

ghost use Rattle.std.specs.Prelude.{◌≡◌, ℕ, List, [], ◌∷◌, Some, None, IfSome, true, false, map, string_bytes};
ghost use Rattle.tesla_front.specs.Forms.{AreSpelled, WordIs};

/// A form as it is told.
#[derive(Clone, Copy, Debug)]
pub struct FormText {
    /// The words of the form.
    pub words: &'static str,
    /// What the command does, in lines that are indented by four spaces.
    pub about: &'static str,
}

/// What one word of a form asks for.
pub trait Word<'a>: Sized + Drop {
    // Which words spell it.
    ghost spells: { Self → List ℕ → Type 0 };

    /// What the word spells. `None` exactly where it spells none.
    fn read(word: &'a str) -> Option<Self>
        // What is found is spelled so.
        ensures found { IfSome result (λ it. spells it word.now) }
        // What is spelled so is found.
        ensures only { (it : Self) → spells it word.now → result ≡ Some it };
}

/// What words of a form ask for, one after another.
pub trait Words<'a>: Sized + Drop {
    // Which words spell its parts.
    ghost spell: { Self → List (List ℕ → Type 0) };

    /// What the words spell. `None` exactly where they spell none.
    fn read(words: &'a [String]) -> Option<Self>
        // What is found is spelled so.
        ensures found { IfSome result (λ it. AreSpelled (spell it) (map string_bytes words.now)) }
        // What is spelled so is found.
        ensures only { (it : Self) → AreSpelled (spell it) (map string_bytes words.now) → result ≡ Some it };
}

impl<'a> Words<'a> for () {
    ghost spell = { λ it. [] };

    fn read(words: &'a [String]) -> Option<()> {
        if words.is_empty() { Some(()) } else { None }
    }
}

impl<'a, A: Word<'a>, R: Words<'a>> Words<'a> for (A, R) {
    ghost spell = { λ it. A.spells it.0 ∷ R.spell it.1 };

    fn read(words: &'a [String]) -> Option<(A, R)> {
        let [word, others @ ..] = words else {
            return None;
        };
        let Some(first) = A::read(word.as_str()) else {
            return None;
        };
        match R::read(others) {
            Some(others) => Some((first, others)),
            None => None,
        }
    }
}

// Whether a word is this one.
fn is_word(text: &str, word: &str) -> bool
    ensures yes { result ≡ true → WordIs text.now word.now }
    ensures no { result ≡ false → WordIs text.now word.now → ⊥ }
{
    word == text
}

/// What words of a form ask for behind its name. `None` exactly where they are not of the form.
pub fn words_in<'a, T: Words<'a>>(name: &str, words: &'a [String]) -> Option<T>
    // What is found is spelled so.
    ensures found { IfSome result (λ it. AreSpelled (WordIs name.now ∷ T.spell it) (map string_bytes words.now)) }
    // What is spelled so is found.
    ensures only { (it : T) → AreSpelled (WordIs name.now ∷ T.spell it) (map string_bytes words.now) → result ≡ Some it }
{
    let [word, others @ ..] = words else {
        return None;
    };
    if !is_word(name, word.as_str()) {
        return None;
    }
    match T::read(others) {
        Some(it) => Some(it),
        None => None,
    }
}
