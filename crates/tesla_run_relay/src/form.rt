//! The form of the command `relay`: how it is told, and what its words ask for.

ghost use Rattle.std.specs.Prelude.{◌≡◌, Some, IfSome, map, string_bytes, option_map};
ghost use Rattle.tesla_run_relay.specs.Arguments.{RelayArguments, IsRelayForm, arguments_of};

use crate::arguments::Arguments;
use tesla_front::{Count, FormText, Name, Names, words_in};

/// The form of `relay`.
pub const RELAY: FormText = FormText {
    words: "relay CAPACITY LINK POSTS",
    about: "    hands each live datagram of LINK on to all POSTS, until the link has ended,
    and prints for each post how many it sent and how many were dropped since its
    queue was full.
    CAPACITY: how many datagrams the queue of each post holds, 1 to 4096
    LINK: ADDRESS:PORT/QUIETS; the link ends after so many tenths of a second in
    a row with no datagram, 0 for never
    POSTS: ADDRESS:PORT, 1 to 32 of them with a comma between two, no two the
    same; they are opened in order once the link is there
    Example, queues of 1024 datagrams, and a link that ends after 2 quiet seconds:
    tesla relay 1024 127.0.0.1:5003/20 127.0.0.1:5001,127.0.0.1:5002
",
};

// The words as what they ask for.
fn arguments_from<'a>(words: (Count<4_096>, (Name<'a>, (Names<'a>, ())))) -> Arguments<'a>
    ensures { arguments_of result ≡ record { capacity = words.entry.0; link = words.entry.1.0; posts = words.entry.1.1.0 } }
{
    let (capacity, (link, (posts, ()))) = words;
    Arguments {
        capacity: capacity.get(),
        link: link.as_str(),
        posts,
    }
}

/// What the words ask for. `None` exactly where they are not of the form `relay CAPACITY LINK POSTS`: each word is there,
/// CAPACITY is a decimal from 1 to 4,096, POSTS are 1 to 32 different names with a comma between two, and no name is empty or
/// the console's.
pub fn arguments_in(words: &[String]) -> Option<Arguments<'_>>
    // What is found is spelled so.
    ensures found { IfSome result (λ arguments. IsRelayForm (arguments_of arguments) (map string_bytes words.now)) }
    // What is spelled so is found.
    ensures only { (arguments : RelayArguments) → IsRelayForm arguments (map string_bytes words.now) → option_map arguments_of result ≡ Some arguments }
{
    match words_in("relay", words) {
        Some(words) => Some(arguments_from(words)),
        None => None,
    }
}
