//! The form of the command `audit`: how it is told, and what its words ask for.

ghost use Rattle.std.specs.Prelude.{◌≡◌, Some, IfSome, map, string_bytes, option_map};
ghost use Rattle.tesla_run_audit.specs.Arguments.{AuditArguments, IsAudit, arguments_of};

use crate::arguments::Arguments;
use tesla_front::{FormText, Name, PacketLimits, words_in};

/// The form of `audit`.
pub const AUDIT: FormText = FormText {
    words: "audit SETUP LAG CAPACITY TRACE",
    about: "    judges each entry of TRACE by a receiver that trusts SETUP, and prints how many
    there are, or the number of the first one whose answer is wrong and the right
    answer (status 8).
    LAG: how many microseconds the sender's clock is ahead at most
    CAPACITY: how many packets are held at most, 1 to 65536; behind a slash,
    how many of one interval
    Example, the trace of a receiver with that lag and that capacity:
    tesla audit setup 30000 256/40 trace
",
};

/// What the words ask for. `None` exactly where they are not of the form `audit SETUP LAG CAPACITY TRACE`: each word is
/// there, LAG is a signed decimal of 64 bits, CAPACITY is a decimal from 1 to 65,536 or two with a slash between them of
/// which the second is from 1 to the first, and no name is empty or the console's.
pub fn arguments_in(words: &[String]) -> Option<Arguments<'_>>
    // What is found is spelled so.
    ensures found { IfSome result (λ arguments. IsAudit (arguments_of arguments) (map string_bytes words.now)) }
    // What is spelled so is found.
    ensures only { (arguments : AuditArguments) → IsAudit arguments (map string_bytes words.now) → option_map arguments_of result ≡ Some arguments }
{
    let found = words_in::<(Name<'_>, (i64, (PacketLimits, (Name<'_>, ()))))>("audit", words);
    match &found {
        Some((setup, (lag, (limits, (trace, ()))))) => Some(Arguments {
            setup: setup.as_str(),
            lag: *lag,
            limits: *limits,
            trace: trace.as_str(),
        }),
        None => None,
    }
}
