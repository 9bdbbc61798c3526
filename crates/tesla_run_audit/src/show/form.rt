//! The form of the command `show`: how it is told, and what its words ask for.

ghost use Rattle.std.specs.Prelude.{◌≡◌, Some, IfSome, map, string_bytes, option_map};
ghost use Rattle.tesla_run_audit.specs.show.Arguments.{ShowArguments, IsShowForm, arguments_of};

use tesla_front::{FormText, Name, words_in};

/// The form of `show`.
pub const SHOW: FormText = FormText {
    words: "show TRACE",
    about: "    prints a receiver's entries, one a line: its number, what it is of, and the
    answer; of a datagram the ingest, the clock's reading, and the interval and
    number of a message at the end.
    TRACE: the file of a trace, as trace writes it, or of a tail, as record does
    Example:
    tesla show trace
",
};

/// What the words `show TRACE` ask for.
#[derive(Clone, Copy, Debug)]
pub struct Arguments<'a> {
    /// The name of the file of the trace, or of the tail of one.
    pub trace: &'a str,
}

/// What the words ask for. `None` exactly where they are not of the form `show TRACE`: each word is there, and the name is
/// neither empty nor the console's.
pub fn arguments_in(words: &[String]) -> Option<Arguments<'_>>
    // What is found is spelled so.
    ensures found { IfSome result (λ arguments. IsShowForm (arguments_of arguments) (map string_bytes words.now)) }
    // What is spelled so is found.
    ensures only { (arguments : ShowArguments) → IsShowForm arguments (map string_bytes words.now) → option_map arguments_of result ≡ Some arguments }
{
    match words_in::<(Name<'_>, ())>("show", words) {
        Some((trace, ())) => Some(Arguments {
            trace: trace.as_str(),
        }),
        None => None,
    }
}
