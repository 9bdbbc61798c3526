//! The form of the command `weave`: how it is told, and what its words ask for.

ghost use Rattle.std.specs.Prelude.{◌≡◌, Some, IfSome, map, string_bytes, option_map};
ghost use Rattle.tesla_run_weave.specs.Arguments.{WeaveArguments, IsWeave, arguments_of};

use tesla_front::{Count, FormText, Name, is_among, words_in};

/// The form of `weave`.
pub const WEAVE: FormText = FormText {
    words: "weave SETUP SCRIPT SCRIPT-OUT GAP",
    about: "    puts before each message in SCRIPT the promise of the message GAP places
    behind it, its name under SETUP and the digest of its payload, writes the
    script to SCRIPT-OUT, and prints how many messages it has.
    GAP: how many messages later the promised one comes, 1 to 1000000
    Example, each message promises the third one behind it:
    tesla weave setup script woven 3
",
};

/// What the words `weave SETUP SCRIPT SCRIPT-OUT GAP` ask for.
#[derive(Clone, Copy, Debug)]
pub struct Arguments<'a> {
    /// The name of the setup.
    pub setup: &'a str,
    /// The name of the script.
    pub script: &'a str,
    /// The name of the file that the woven script is written to.
    pub out: &'a str,
    /// How many messages behind it the one is that a message promises.
    pub gap: u32,
}

/// What the words ask for. `None` exactly where they are not of the form `weave SETUP SCRIPT SCRIPT-OUT GAP`: each word
/// is there, no name is empty or the console's, SCRIPT-OUT is none of the other names, and GAP is a decimal from 1 to
/// 1,000,000.
pub fn arguments_in(words: &[String]) -> Option<Arguments<'_>>
    // What is found is spelled so.
    ensures found { IfSome result (λ arguments. IsWeave (arguments_of arguments) (map string_bytes words.now)) }
    // What is spelled so is found.
    ensures only { (arguments : WeaveArguments) → IsWeave arguments (map string_bytes words.now) → option_map arguments_of result ≡ Some arguments }
{
    let found = words_in::<(Name<'_>, (Name<'_>, (Name<'_>, (Count<1_000_000>, ()))))>(
        "weave", words,
    );
    match &found {
        Some((setup, (script, (out, (gap, ()))))) => {
            if is_among(out.as_str(), &[setup.as_str(), script.as_str()]) {
                return None;
            }
            Some(Arguments {
                setup: setup.as_str(),
                script: script.as_str(),
                out: out.as_str(),
                gap: gap.get(),
            })
        }
        None => None,
    }
}
