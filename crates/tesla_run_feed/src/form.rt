//! The forms of the command `feed`: how they are told, and what their words ask for.

ghost use Rattle.std.specs.Prelude.{◌≡◌, ◌≤◌, Some, IfSome, false, length, map, string_bytes, true, option_map};
ghost use Rattle.tesla_front.specs.Names.{IsNoneOf};
ghost use Rattle.tesla_run_feed.specs.Arguments.{AreFeedWords, FeedArguments, IsFeedForm, arguments_of, pair_of, status_of};

use crate::arguments::{Arguments, StatusWords};
use tesla_front::{Count, FormText, Name, Names, Words, is_among, words_in};

/// The most streams of a list.
const MOST_STREAMS: usize = 16;

/// The form of `feed` without a file of its counts.
pub const FEED: FormText = FormText {
    words: "feed SETUPS SECRETS LINK POSTS",
    about: "    sends each live datagram of LINK as a message, as the sender of SETUPS with
    the seeds in SECRETS, at the reading of the clock when it came, to all of
    POSTS. Keys are sent on time, also while nothing comes, and after the end of
    LINK until the key of the last message was sent. Prints how many messages and
    disclosures were sent, how many messages were refused by each cause, and how
    many came while the clock couldn't be read. Where the last interval ended
    more than the greatest delay and 64 intervals ago, as with a START in
    seconds, SETUPS are refused once LINK is open.
    SETUPS: the names of the setups of 1 to 16 streams with a comma between two,
    each of which begins at the end of the one before or later; a message is one
    of the first stream that hasn't ended, and each stream hands over to the next
    one, which is counted too
    SECRETS: as many names of their seeds, in the same order; a wrong seed of a
    later stream is told while the feed runs, and ends it
    LINK: ADDRESS:PORT/QUIETS; the link ends after so many tenths of a second in
    a row with no datagram, 0 for never
    POSTS: ADDRESS:PORT, 1 to 32 of them with a comma between two, no two the
    same; they are opened in order once the link is there
    Example, a link that ends after 2 quiet seconds:
    tesla feed live.setup live.secret 127.0.0.1:5000/20 127.0.0.1:5001,127.0.0.1:5002
",
};

/// The form of `feed` with a file of its counts.
pub const FEED_STATUS: FormText = FormText {
    words: "feed SETUPS SECRETS LINK POSTS STATUS EVERY",
    about: "    does what feed SETUPS SECRETS LINK POSTS does, empties STATUS once POSTS are
    open, and writes a line with its counts to STATUS every EVERY seconds by the clock,
    and one at the end. A line has time=, the clock's reading in microseconds, or
    end= in the last one, the counts by then, each behind its name, how often the
    clock gave another reading than the system's and how many datagrams the
    system refused to send, and how many intervals are left. A STATUS that fails
    gets no further line, and stops nothing.
    STATUS: the name of a file, none of SETUPS and SECRETS
    EVERY: how many seconds pass from a line to the next, 1 to 3600
    Example, with a line each minute:
    tesla feed live.setup live.secret 127.0.0.1:5000/0 127.0.0.1:5001 feed.status 60
",
};

// The last words as they are read: STATUS and EVERY, or none.
#[derive(Drop)]
struct LastWords<'a> {
    pair: Option<(Name<'a>, (Count<3_600>, ()))>,
}

impl<'a> Words<'a> for LastWords<'a> {
    ghost use Rattle.std.specs.Prelude.{option_map};
    ghost use Rattle.tesla_run_feed.specs.Arguments.{pair_of, status_parts};

    ghost spell = { λ it. status_parts (option_map pair_of it.pair) };

    fn read(words: &'a [String]) -> Option<LastWords<'a>> {
        if words.is_empty() {
            return Some(LastWords { pair: None });
        }
        match <(Name<'a>, (Count<3_600>, ()))>::read(words) {
            Some(pair) => Some(LastWords { pair: Some(pair) }),
            None => None,
        }
    }
}

// The file of the counts that the last words ask for.
fn status_from<'a>(words: LastWords<'a>) -> Option<StatusWords<'a>>
    ensures { option_map status_of result ≡ option_map pair_of words.entry.pair }
{
    match words.pair {
        Some(pair) => {
            let (output, (every, ())) = pair;
            Some(StatusWords {
                output: output.as_str(),
                every: every.get(),
            })
        }
        None => None,
    }
}

// The words as what they ask for.
fn arguments_from<'a>(
    words: (
        Names<'a>,
        (Names<'a>, (Name<'a>, (Names<'a>, LastWords<'a>))),
    ),
) -> Arguments<'a>
    ensures { arguments_of result ≡ record { setups = words.entry.0; secrets = words.entry.1.0; link = words.entry.1.1.0; posts = words.entry.1.1.1.0; status = option_map pair_of words.entry.1.1.1.1.pair } }
{
    let (setups, (secrets, (link, (posts, last)))) = words;
    Arguments {
        setups,
        secrets,
        link: link.as_str(),
        posts,
        status: status_from(last),
    }
}

// Whether there are at most 16 streams, with seeds for each.
fn is_list(arguments: &Arguments<'_>) -> bool
    ensures yes { result ≡ true → (length arguments.now.setups ≤ 16) × (length arguments.now.secrets ≡ length arguments.now.setups) }
    ensures no { result ≡ false → length arguments.now.setups ≤ 16 → length arguments.now.secrets ≡ length arguments.now.setups → ⊥ }
{
    arguments.setups.len() <= MOST_STREAMS && arguments.secrets.len() == arguments.setups.len()
}

// Whether STATUS, where there is one, is none of SETUPS and SECRETS.
fn is_apart(arguments: &Arguments<'_>) -> bool
    ensures yes { result ≡ true → IfSome (arguments_of arguments.now).status (λ status. IsNoneOf status.output arguments.now.setups × IsNoneOf status.output arguments.now.secrets) }
    ensures no { result ≡ false → IfSome (arguments_of arguments.now).status (λ status. IsNoneOf status.output arguments.now.setups × IsNoneOf status.output arguments.now.secrets) → ⊥ }
{
    match &arguments.status {
        Some(status) => {
            !is_among(status.output, arguments.setups.as_slice())
                && !is_among(status.output, arguments.secrets.as_slice())
        }
        None => true,
    }
}

/// What the words ask for. `None` exactly where they are of neither of the forms `feed SETUPS SECRETS LINK POSTS` and
/// `feed SETUPS SECRETS LINK POSTS STATUS EVERY`: each word is there, SETUPS are 1 to 16 different names with a comma
/// between two, SECRETS are as many, POSTS are 1 to 32, EVERY is a decimal from 1 to 3600, no name is empty or the
/// console's, and STATUS is none of SETUPS and SECRETS.
pub fn arguments_in(words: &[String]) -> Option<Arguments<'_>>
    // What is found is spelled so.
    ensures found { IfSome result (λ arguments. IsFeedForm (arguments_of arguments) (map string_bytes words.now)) }
    // What is spelled so is found.
    ensures only { (arguments : FeedArguments) → IsFeedForm arguments (map string_bytes words.now) → option_map arguments_of result ≡ Some arguments }
{
    let Some(arguments) = read_words(words) else {
        return None;
    };
    if !is_list(&arguments) || !is_apart(&arguments) {
        return None;
    }
    Some(arguments)
}

// What the words ask for, whichever file STATUS is.
fn read_words(words: &[String]) -> Option<Arguments<'_>>
    ensures found { IfSome result (λ arguments. AreFeedWords (arguments_of arguments) (map string_bytes words.now)) }
    ensures only { (arguments : FeedArguments) → AreFeedWords arguments (map string_bytes words.now) → option_map arguments_of result ≡ Some arguments }
{
    match words_in("feed", words) {
        Some(words) => Some(arguments_from(words)),
        None => None,
    }
}
