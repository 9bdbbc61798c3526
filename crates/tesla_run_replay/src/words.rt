//! The words of a command that plays a capture under a setup.

ghost use Rattle.std.specs.Prelude.{◌≡◌, ◌≤◌, [], ◌∷◌, Some, IfSome, true, false, map, string_bytes, option_map};
ghost use Rattle.tesla_front.specs.declared.words.PacketLimits.{PacketLimits};
ghost use Rattle.tesla_run_replay.specs.Arguments.{PlayedArguments, AreNames, IsCapacity, IsPlayed, arguments_of, form_of};

use crate::arguments::{Arguments, Capacity, Form, Names};
use tesla_base::read_signed;
use tesla_front::{PacketLimits, is_name, limits_in, number_in};

// Whether the names are names of files, and the output's is none of the inputs'.
fn are_names(setup: &str, capture: &str, out: &str) -> bool
    ensures yes { result ≡ true → AreNames setup.now capture.now out.now }
    ensures no { result ≡ false → AreNames setup.now capture.now out.now → ⊥ }
{
    if !is_name(setup) {
        return false;
    }
    if !is_name(capture) {
        return false;
    }
    if !is_name(out) {
        return false;
    }
    if out == setup {
        return false;
    }
    out != capture
}

// How many packets are held at most, as a word spells it. `None` exactly where it doesn't.
fn capacity_in(capacity: Capacity, word: &[u8]) -> Option<PacketLimits>
    ensures found { IfSome result (λ limits. IsCapacity capacity word.now limits) }
    ensures only { (limits : PacketLimits) → IsCapacity capacity word.now limits → result ≡ Some limits }
    ensures some { IfSome result (λ limits. 1 ≤ limits.quota) }
    ensures within { IfSome result (λ limits. limits.quota ≤ limits.capacity) }
    ensures most { IfSome result (λ limits. limits.capacity ≤ 65536) }
{
    match capacity {
        Capacity::PacketLimits => match limits_in(word) {
            Some(limits) => Some(limits),
            None => None,
        },
        Capacity::Whole { most } => match number_in(word, 1, u64::from(most)) {
            Some(number) => Some(PacketLimits {
                capacity: number as u32,
                quota: number as u32,
            }),
            None => None,
        },
    }
}

// What the words after the name of the command ask for.
fn read_words<'a>(
    form: &Form,
    setup: &'a str,
    lag: &[u8],
    capacity: &[u8],
    capture: &'a str,
    out: &'a str,
) -> Option<Arguments<'a>>
    ensures found { IfSome result (λ arguments. IsPlayed (form_of form.now) (arguments_of arguments) (form.now.name.now ∷ setup.now ∷ lag.now ∷ capacity.now ∷ capture.now ∷ out.now ∷ [])) }
    ensures only { (arguments : PlayedArguments) → IsPlayed (form_of form.now) arguments (form.now.name.now ∷ setup.now ∷ lag.now ∷ capacity.now ∷ capture.now ∷ out.now ∷ []) → option_map arguments_of result ≡ Some arguments }
{
    let Ok(lag) = read_signed(lag) else {
        return None;
    };
    let Some(limits) = capacity_in(form.capacity, capacity) else {
        return None;
    };
    if !are_names(setup, capture, out) {
        return None;
    }
    let names = Names {
        setup,
        capture,
        out,
    };
    Some(Arguments { names, lag, limits })
}

/// What the words of a command of this form ask for. `None` exactly where they are not of the form
/// `NAME SETUP LAG CAPACITY CAPTURE OUT`: each word is there, LAG is a signed decimal of 64 bits, CAPACITY is what it may
/// be, no name is empty or the console's, and OUT is neither SETUP nor CAPTURE.
pub fn arguments_in<'a>(form: &Form, words: &'a [String]) -> Option<Arguments<'a>>
    // What is found is spelled so.
    ensures found { IfSome result (λ arguments. IsPlayed (form_of form.now) (arguments_of arguments) (map string_bytes words.now)) }
    // What is spelled so is found.
    ensures only { (arguments : PlayedArguments) → IsPlayed (form_of form.now) arguments (map string_bytes words.now) → option_map arguments_of result ≡ Some arguments }
{
    let [command, setup, lag, capacity, capture, out] = words else {
        return None;
    };
    if command.as_str() != form.name {
        return None;
    }
    read_words(
        form,
        setup.as_str(),
        lag.as_bytes(),
        capacity.as_bytes(),
        capture.as_str(),
        out.as_str(),
    )
}
