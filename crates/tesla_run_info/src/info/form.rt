//! The form of the command `info`: how it is told, and what its words ask for.

ghost use Rattle.std.specs.Prelude.{◌≡◌, Some, IfSome, map, string_bytes, option_map};
ghost use Rattle.tesla_run_info.specs.info.Arguments.{InfoArguments, IsInfoForm, arguments_of, rate_parts};

use tesla_front::{Count, FormText, Name, Words, words_in};

/// The greatest rate.
const MOST: u32 = 1_000_000;

/// The form of `info`.
pub const INFO: FormText = FormText {
    words: "info SETUP [RATE]",
    about: "    prints what SETUP says, the dates of its begin and its end, how much is left
    until that by the clock, the greatest LAG and the latency of each chain, how
    many packets a receiver holds for RATE packets a second, and the sum of the
    file.
    RATE: how many packets come in a second, 1 to 1000000; without it, 1
    Example, 1000 packets a second:
    tesla info live.setup 1000
",
};

/// What the words `info SETUP [RATE]` ask for.
#[derive(Clone, Copy, Debug)]
pub struct Arguments<'a> {
    /// The name of the setup.
    pub setup: &'a str,
    /// How many packets come in a second, where that is told: 1 to 1,000,000.
    pub rate: Option<u32>,
}

// The last of the words, where it is there.
#[derive(Drop)]
struct Rate {
    rate: Option<u32>,
}

impl<'a> Words<'a> for Rate {
    ghost spell = { λ it. rate_parts it.rate };

    fn read(words: &'a [String]) -> Option<Rate> {
        if words.is_empty() {
            return Some(Rate { rate: None });
        }
        match <(Count<MOST>, ()) as Words<'a>>::read(words) {
            Some((rate, ())) => Some(Rate {
                rate: Some(rate.get()),
            }),
            None => None,
        }
    }
}

/// What the words ask for. `None` exactly where they are not of the form `info SETUP [RATE]`: SETUP is there, not empty
/// and not the console's name, and RATE, where it is there, is a decimal from 1 to 1,000,000.
pub fn arguments_in(words: &[String]) -> Option<Arguments<'_>>
    // What is found is spelled so.
    ensures found { IfSome result (λ arguments. IsInfoForm (arguments_of arguments) (map string_bytes words.now)) }
    // What is spelled so is found.
    ensures only { (arguments : InfoArguments) → IsInfoForm arguments (map string_bytes words.now) → option_map arguments_of result ≡ Some arguments }
{
    let found = words_in::<(Name<'_>, Rate)>("info", words);
    match &found {
        Some((setup, rate)) => Some(Arguments {
            setup: setup.as_str(),
            rate: rate.rate,
        }),
        None => None,
    }
}
