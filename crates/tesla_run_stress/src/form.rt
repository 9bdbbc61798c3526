//! The form of the command `stress`: how it is told, and what its words ask for.

ghost use Rattle.std.specs.Prelude.{◌≡◌, Some, IfSome, map, string_bytes, option_map};
ghost use Rattle.tesla_run_stress.specs.Arguments.{StressArguments, IsStress, arguments_of};

use crate::arguments::Arguments;
use tesla_front::{Count, FormText, words_in};

/// The form of `stress`.
pub const STRESS: FormText = FormText {
    words: "stress SEED COUNT",
    about: "    makes COUNT messages, plays them to a receiver, of which by SEED some are
    lost, altered, late, early or there twice, and prints the counts.
    SEED: the number of a load, 0 to 65535
    COUNT: how many messages, 1 to 100000
    Example, 1000 messages of load 7:
    tesla stress 7 1000
",
};

/// What the words ask for. `None` exactly where they are not of the form `stress SEED COUNT`: SEED is a decimal from 0 to
/// 65,535, and COUNT one from 1 to 100,000.
pub fn arguments_in(words: &[String]) -> Option<Arguments>
    // What is found is spelled so.
    ensures found { IfSome result (λ arguments. IsStress (arguments_of arguments) (map string_bytes words.now)) }
    // What is spelled so is found.
    ensures only { (arguments : StressArguments) → IsStress arguments (map string_bytes words.now) → option_map arguments_of result ≡ Some arguments }
{
    let found = words_in::<(u16, (Count<100_000>, ()))>("stress", words);
    match &found {
        Some((seed, (count, ()))) => Some(Arguments {
            seed: *seed,
            count: count.get(),
        }),
        None => None,
    }
}
