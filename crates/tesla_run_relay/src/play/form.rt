//! The form of the command `play`: how it is told, and what its words ask for.

ghost use Rattle.std.specs.Prelude.{◌≡◌, Some, IfSome, map, string_bytes, option_map};
ghost use Rattle.tesla_run_relay.specs.play.Arguments.{PlayArguments, IsPlayForm, arguments_of};

use tesla_front::{FormText, Name, Names, words_in};

/// The form of `play`.
pub const PLAY: FormText = FormText {
    words: "play CAPTURE POSTS",
    about: "    sends the arrivals of CAPTURE as live datagrams, each to all of POSTS in their
    order, once the clock shows the arrival's reading, and prints how many there
    were. The readings of CAPTURE, in microseconds since 1970, are the ones that this
    machine's clock is to show.
    CAPTURE: the name of a file, as capture and send write it
    POSTS: 1 to 32 names of the form ADDRESS:PORT, with a comma between two
    Example:
    tesla play capture 127.0.0.1:5003
",
};

/// What the words `play CAPTURE POSTS` ask for.
#[derive(Drop)]
pub struct Arguments<'a> {
    /// The name of the file of the capture.
    pub capture: &'a str,
    /// The names of the posts, 1 to 32.
    pub posts: Names<'a>,
}

// The words as what they ask for.
fn arguments_from<'a>(words: (Name<'a>, (Names<'a>, ()))) -> Arguments<'a>
    ensures { arguments_of result ≡ record { capture = words.entry.0; posts = words.entry.1.0 } }
{
    let (capture, (posts, ())) = words;
    Arguments {
        capture: capture.as_str(),
        posts,
    }
}

/// What the words ask for. `None` exactly where they are not of the form `play CAPTURE POSTS`: each word is there, POSTS are 1 to
/// 32 different names with a comma between two, and no name is empty or the console's.
pub fn arguments_in(words: &[String]) -> Option<Arguments<'_>>
    // What is found is spelled so.
    ensures found { IfSome result (λ arguments. IsPlayForm (arguments_of arguments) (map string_bytes words.now)) }
    // What is spelled so is found.
    ensures only { (arguments : PlayArguments) → IsPlayForm arguments (map string_bytes words.now) → option_map arguments_of result ≡ Some arguments }
{
    match words_in("play", words) {
        Some(words) => Some(arguments_from(words)),
        None => None,
    }
}
