//! The form of the command, as it is told.

use crate::{Form, Order};
use tesla_front::FormText;

/// The form of `watch`.
pub const WATCH: FormText = FormText {
    words: "watch SETUP LAG CAPACITY LINKS SINKS STATUS EVERY",
    about: "    does as receive does, empties STATUS, and writes a line with its counts to
    it every EVERY seconds, and one when all links have ended. Lines also tell the
    packets released on each chain, held readings of the clock, and failed sinks.
    LAG, CAPACITY, LINKS, SINKS: as of receive
    EVERY: how many seconds, 1 to 3600
    Example, a lag of 0.03 seconds, a link that never ends, and a line each minute:
    tesla watch setup 30000 4096 127.0.0.1:5001/0 messages status 60
",
};

/// The words of `watch`: the output is STATUS, and the number EVERY.
pub(crate) const WORDS: Form = Form {
    name: "watch",
    greatest: 3_600,
    order: Order::OutputFirst,
};
