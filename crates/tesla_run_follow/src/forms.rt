//! The form of the command, as it is told.

use tesla_front::FormText;
use tesla_run_receive::{Form, Order};

/// The form of `follow`.
pub const FOLLOW: FormText = FormText {
    words: "follow SETUP LAG CAPACITY LINKS SINKS STATUS EVERY",
    about: "    does as watch does, with the streams that SETUP's stream hands over to, one
    after another: the newest three are open. SINKS get their packets behind the
    number of the epoch, and messages that were promised as soon as they arrive.
    LAG, LINKS, SINKS, STATUS, EVERY: as of watch
    CAPACITY: how many packets each epoch holds at most, 1 to 4096; behind a
    slash, how many of one interval
    Example, a lag of 0.03 seconds, a link that never ends, and a line each minute:
    tesla follow setup 30000 4096 127.0.0.1:5001/0 messages status 60
",
};

/// The words of `follow`: the output is STATUS, and the number EVERY.
pub(crate) const WORDS: Form = Form {
    name: "follow",
    greatest: 3_600,
    order: Order::OutputFirst,
};
