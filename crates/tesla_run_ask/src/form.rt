//! The forms of the commands `ask` and `reply`: how they are told, and what their words ask for.

ghost use Rattle.std.specs.Prelude.{◌≡◌, Some, IfSome, map, string_bytes, option_map};
ghost use Rattle.tesla_run_ask.specs.Arguments.{AskArguments, IsAskForm, IsReplyForm, ReplyArguments, ask_arguments, reply_arguments};

use crate::arguments::{AskWords, ReplyWords};
use tesla_front::{FormText, Name, is_among, words_in};

/// The form of `ask`.
pub const ASK: FormText = FormText {
    words: "ask READING ASK-OUT",
    about: "    writes to ASK-OUT a receiver's ask for the sender's time.
    READING: what the receiver's clock shows, in microseconds
    Example:
    tesla ask $(date +%s%6N) ask
",
};

/// The form of `reply`.
pub const REPLY: FormText = FormText {
    words: "reply ASK KEY READING REPLY-OUT",
    about: "    answers ASK as its sender, under the shared key in KEY, and writes the
    reply to REPLY-OUT.
    READING: what the sender's clock shows, in microseconds
    Example:
    tesla reply ask key $(date +%s%6N) reply
",
};

/// What the words ask for. `None` exactly where they are not of the form `ask READING ASK-OUT`: each word is there,
/// READING is a decimal of 64 bits, and ASK-OUT is not empty and not the console's name.
pub fn ask_in(words: &[String]) -> Option<AskWords<'_>>
    // What is found is spelled so.
    ensures found { IfSome result (λ arguments. IsAskForm (ask_arguments arguments) (map string_bytes words.now)) }
    // What is spelled so is found.
    ensures only { (arguments : AskArguments) → IsAskForm arguments (map string_bytes words.now) → option_map ask_arguments result ≡ Some arguments }
{
    let found = words_in::<(u64, (Name<'_>, ()))>("ask", words);
    match &found {
        Some((reading, (out, ()))) => Some(AskWords {
            reading: *reading,
            out: out.as_str(),
        }),
        None => None,
    }
}

/// What the words ask for. `None` exactly where they are not of the form `reply ASK KEY READING REPLY-OUT`: each word is
/// there, READING is a decimal of 64 bits, no name is empty or the console's, and REPLY-OUT is neither ASK nor KEY.
pub fn reply_in(words: &[String]) -> Option<ReplyWords<'_>>
    // What is found is spelled so.
    ensures found { IfSome result (λ arguments. IsReplyForm (reply_arguments arguments) (map string_bytes words.now)) }
    // What is spelled so is found.
    ensures only { (arguments : ReplyArguments) → IsReplyForm arguments (map string_bytes words.now) → option_map reply_arguments result ≡ Some arguments }
{
    let found = words_in::<(Name<'_>, (Name<'_>, (u64, (Name<'_>, ()))))>("reply", words);
    match &found {
        Some((ask, (key, (reading, (out, ()))))) => {
            if is_among(out.as_str(), &[ask.as_str(), key.as_str()]) {
                return None;
            }
            Some(ReplyWords {
                ask: ask.as_str(),
                key: key.as_str(),
                reading: *reading,
                out: out.as_str(),
            })
        }
        None => None,
    }
}
