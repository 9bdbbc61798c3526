//! The form of the command `capture`: how it is told, and what its words ask for.

ghost use Rattle.std.specs.Prelude.{◌≡◌, Some, IfSome, map, string_bytes, option_map};
ghost use Rattle.tesla_run_capture.specs.Arguments.{CaptureArguments, IsCaptureForm, arguments_of};

use tesla_front::{FormText, Name, words_in};

/// The form of `capture`.
pub const CAPTURE: FormText = FormText {
    words: "capture LINK CAPTURE",
    about: "    records the live datagrams of LINK in CAPTURE, each with the reading of the
    clock when it came and a take behind it, as replay reads them, and prints how
    many there were. It ends when the link has ended, or when CAPTURE has no room
    for another datagram.
    LINK: ADDRESS:PORT/QUIETS; the link ends after so many tenths of a second in
    a row with no datagram, 0 for never
    CAPTURE: the name of a file, which is opened once the link is there
    Example, a link that ends after 3 quiet seconds:
    tesla capture 127.0.0.1:5002/30 capture
",
};

/// What the words `capture LINK CAPTURE` ask for.
#[derive(Clone, Copy, Debug)]
pub struct Arguments<'a> {
    /// The name of the link.
    pub link: &'a str,
    /// The name of the file of the capture.
    pub out: &'a str,
}

/// What the words ask for. `None` exactly where they are not of the form `capture LINK CAPTURE`: each word is there, and
/// neither name is empty or the console's.
pub fn arguments_in(words: &[String]) -> Option<Arguments<'_>>
    // What is found is spelled so.
    ensures found { IfSome result (λ arguments. IsCaptureForm (arguments_of arguments) (map string_bytes words.now)) }
    // What is spelled so is found.
    ensures only { (arguments : CaptureArguments) → IsCaptureForm arguments (map string_bytes words.now) → option_map arguments_of result ≡ Some arguments }
{
    match words_in::<(Name<'_>, (Name<'_>, ()))>("capture", words) {
        Some((link, (out, ()))) => Some(Arguments {
            link: link.as_str(),
            out: out.as_str(),
        }),
        None => None,
    }
}
