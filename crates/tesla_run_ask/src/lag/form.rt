//! The form of the command `lag`: how it is told, and what its words ask for.

ghost use Rattle.std.specs.Prelude.{◌≡◌, Some, IfSome, map, string_bytes, option_map};
ghost use Rattle.tesla_run_ask.specs.lag.Arguments.{LagArguments, IsLag, arguments_of};

use tesla_front::{FormText, Name, words_in};

/// The form of `lag`.
pub const LAG: FormText = FormText {
    words: "lag ASK REPLY KEY DRIFT",
    about: "    prints how many microseconds the sender's clock is ahead at most, which
    replay takes as LAG, from the receiver's ASK and the sender's REPLY to it.
    KEY: the file of the key that both share
    DRIFT: how many microseconds the clocks drift apart, 0 to 4294967295
    Example, a drift of 0.01 seconds:
    tesla lag ask reply key 10000
",
};

/// What the words `lag ASK REPLY KEY DRIFT` ask for.
#[derive(Clone, Copy, Debug)]
pub struct Arguments<'a> {
    /// The name of the file of the ask.
    pub ask: &'a str,
    /// The name of the file of the reply.
    pub reply: &'a str,
    /// The name of the file of the shared key.
    pub key: &'a str,
    /// How many microseconds the clocks drift apart before the next synchronisation (RFC 4082, section 3.3.1).
    pub drift: u32,
}

/// What the words ask for. `None` exactly where they are not of the form `lag ASK REPLY KEY DRIFT`: each word is there,
/// no name is empty or the console's, and DRIFT is a decimal from 0 to 4,294,967,295.
pub fn arguments_in(words: &[String]) -> Option<Arguments<'_>>
    // What is found is spelled so.
    ensures found { IfSome result (λ arguments. IsLag (arguments_of arguments) (map string_bytes words.now)) }
    // What is spelled so is found.
    ensures only { (arguments : LagArguments) → IsLag arguments (map string_bytes words.now) → option_map arguments_of result ≡ Some arguments }
{
    let found = words_in::<(Name<'_>, (Name<'_>, (Name<'_>, (u32, ()))))>("lag", words);
    match &found {
        Some((ask, (reply, (key, (drift, ()))))) => Some(Arguments {
            ask: ask.as_str(),
            reply: reply.as_str(),
            key: key.as_str(),
            drift: *drift,
        }),
        None => None,
    }
}
