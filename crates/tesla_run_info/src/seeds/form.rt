//! The form of the command `seeds`: how it is told, and what its words ask for.

ghost use Rattle.std.specs.Prelude.{◌≡◌, Some, IfSome, map, string_bytes, option_map};
ghost use Rattle.tesla_run_info.specs.seeds.Arguments.{IsSeedsForm, SeedsArguments, arguments_of};

use crate::seeds::arguments::Arguments;
use crate::seeds::drawing::RANDOM;
use tesla_front::{Count, FormText, Name, is_among, words_in};

/// The form of `seeds`.
pub const SEEDS: FormText = FormText {
    words: "seeds COUNT SECRET-OUT",
    about: "    draws seeds from the system's random bytes, /dev/urandom, and writes them
    to SECRET-OUT, which chain, chain2 and send read as SECRET.
    COUNT: how many seeds, one for each chain, 1 to 8
    Example:
    tesla seeds 2 live.secret
",
};

/// What the words ask for. `None` exactly where they are not of the form `seeds COUNT SECRET-OUT`: each word is there,
/// COUNT is a decimal from 1 to 8, and SECRET-OUT is not empty, not the console's name and not `/dev/urandom`.
pub fn arguments_in(words: &[String]) -> Option<Arguments<'_>>
    // What is found is spelled so.
    ensures found { IfSome result (λ arguments. IsSeedsForm (arguments_of arguments) (map string_bytes words.now)) }
    // What is spelled so is found.
    ensures only { (arguments : SeedsArguments) → IsSeedsForm arguments (map string_bytes words.now) → option_map arguments_of result ≡ Some arguments }
{
    let found = words_in::<(Count<8>, (Name<'_>, ()))>("seeds", words);
    match &found {
        Some((count, (out, ()))) => {
            if is_among(out.as_str(), &[RANDOM]) {
                return None;
            }
            Some(Arguments {
                count: count.get() as u8,
                out: out.as_str(),
            })
        }
        None => None,
    }
}
