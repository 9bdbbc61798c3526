//! The words of the command `follow`.

ghost use Rattle.std.specs.Prelude.{◌≡◌, IfSome, Some, map, option_map, string_bytes};
ghost use Rattle.tesla_run_follow.specs.Arguments.{IsFollow};
ghost use Rattle.tesla_run_receive.specs.OutputArguments.{OutputArguments, arguments_of};

use crate::forms::WORDS;
use tesla_run_receive::{OutputWords, output_words_in};

/// How many packets an epoch holds at most, and how many accepted messages wait at most.
const MOST_CAPACITY: u32 = 4_096;

/// What the words ask for. `None` exactly where they are not of the form `follow SETUP LAG CAPACITY LINKS SINKS STATUS EVERY`:
/// they are as those of `watch`, but for the first, and CAPACITY's first number is at most 4,096.
pub(crate) fn words_in(words: &[String]) -> Option<OutputWords<'_>>
    // What is found is spelled so.
    ensures found { IfSome result (λ arguments. IsFollow (arguments_of arguments) (map string_bytes words.now)) }
    // What is spelled so is found.
    ensures only { (arguments : OutputArguments) → IsFollow arguments (map string_bytes words.now) → option_map arguments_of result ≡ Some arguments }
{
    let Some(arguments) = output_words_in(&WORDS, words) else {
        return None;
    };
    if MOST_CAPACITY < arguments.receive.limits.capacity {
        return None;
    }
    Some(arguments)
}
