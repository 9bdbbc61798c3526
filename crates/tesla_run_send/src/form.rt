//! The form of the command `send`: how it is told, and what its words ask for.

ghost use Rattle.std.specs.Prelude.{◌≡◌, Some, IfSome, map, string_bytes, option_map};
ghost use Rattle.tesla_run_send.specs.Arguments.{SendArguments, IsSend, arguments_of};

use tesla_front::{FormText, Name, is_among, words_in};

/// The form of `send`.
pub const SEND: FormText = FormText {
    words: "send SETUP SECRET SCRIPT CAPTURE",
    about: "    makes the frames of the messages and disclosures in SCRIPT, as the sender
    of SETUP with the seeds in SECRET, writes them to CAPTURE, with a take
    behind each, and prints how many there are.
    Example:
    tesla send setup secret script capture
",
};

/// What the words `send SETUP SECRET SCRIPT CAPTURE` ask for.
#[derive(Clone, Copy, Debug)]
pub struct Arguments<'a> {
    /// The name of the setup.
    pub setup: &'a str,
    /// The name of the seeds.
    pub secret: &'a str,
    /// The name of the script.
    pub script: &'a str,
    /// The name of the file that the capture is written to.
    pub out: &'a str,
}

/// What the words ask for. `None` exactly where they are not of the form `send SETUP SECRET SCRIPT CAPTURE`: each
/// word is there, no name is empty or the console's, and CAPTURE is none of the other names.
pub fn arguments_in(words: &[String]) -> Option<Arguments<'_>>
    // What is found is spelled so.
    ensures found { IfSome result (λ arguments. IsSend (arguments_of arguments) (map string_bytes words.now)) }
    // What is spelled so is found.
    ensures only { (arguments : SendArguments) → IsSend arguments (map string_bytes words.now) → option_map arguments_of result ≡ Some arguments }
{
    match words_in::<(Name<'_>, (Name<'_>, (Name<'_>, (Name<'_>, ()))))>("send", words) {
        Some((setup, (secret, (script, (out, ()))))) => {
            if is_among(
                out.as_str(),
                &[setup.as_str(), secret.as_str(), script.as_str()],
            ) {
                return None;
            }
            Some(Arguments {
                setup: setup.as_str(),
                secret: secret.as_str(),
                script: script.as_str(),
                out: out.as_str(),
            })
        }
        None => None,
    }
}
