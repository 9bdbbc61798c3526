//! The form of the command `watch-relay`: how it is told, and what its words ask for.

ghost use Rattle.std.specs.Prelude.{◌≡◌, Some, IfSome, map, string_bytes, option_map};
ghost use Rattle.tesla_run_relay.specs.watch.Arguments.{IsWatchForm, WatchArguments, arguments_of};

use crate::arguments::Arguments as RelayArguments;
use crate::watch::arguments::Arguments;
use tesla_front::{Count, FormText, Name, Names, words_in};

/// The form of `watch-relay`.
pub const WATCH_RELAY: FormText = FormText {
    words: "watch-relay CAPACITY LINK POSTS STATUS EVERY",
    about: "    does as relay does, empties STATUS, and writes a line with its counts to it
    every EVERY seconds, and one when LINK has ended or failed: how many datagrams
    each post has sent, how many were dropped for it, and how many the system
    refused to send, which count as sent.
    CAPACITY, LINK, POSTS: as of relay
    EVERY: how many seconds, 1 to 3600
    Example, a link that never ends, and a line each minute:
    tesla watch-relay 1024 127.0.0.1:5003/0 127.0.0.1:5001,127.0.0.1:5002 status 60
",
};

// The words as what they ask for.
fn arguments_from<'a>(
    words: (
        Count<4_096>,
        (Name<'a>, (Names<'a>, (Name<'a>, (Count<3_600>, ())))),
    ),
) -> Arguments<'a>
    ensures { arguments_of result ≡ record { relay = record { capacity = words.entry.0; link = words.entry.1.0; posts = words.entry.1.1.0 }; status = words.entry.1.1.1.0; every = words.entry.1.1.1.1.0 } }
{
    let (capacity, (link, (posts, (status, (every, ()))))) = words;
    Arguments {
        relay: RelayArguments {
            capacity: capacity.get(),
            link: link.as_str(),
            posts,
        },
        status: status.as_str(),
        every: every.get(),
    }
}

/// What the words ask for. `None` exactly where they are not of the form `watch-relay CAPACITY LINK POSTS STATUS EVERY`: each
/// word is there, CAPACITY is a decimal from 1 to 4,096 and EVERY one from 1 to 3,600, POSTS are 1 to 32 different names with
/// a comma between two, and no name is empty or the console's.
pub fn arguments_in(words: &[String]) -> Option<Arguments<'_>>
    // What is found is spelled so.
    ensures found { IfSome result (λ arguments. IsWatchForm (arguments_of arguments) (map string_bytes words.now)) }
    // What is spelled so is found.
    ensures only { (arguments : WatchArguments) → IsWatchForm arguments (map string_bytes words.now) → option_map arguments_of result ≡ Some arguments }
{
    match words_in("watch-relay", words) {
        Some(words) => Some(arguments_from(words)),
        None => None,
    }
}
