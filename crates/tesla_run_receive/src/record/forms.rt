//! The form of the command, as it is told.

use crate::{Form, Order};
use tesla_front::FormText;

/// The form of `record`.
pub const RECORD: FormText = FormText {
    words: "record SETUP LAG CAPACITY LINKS SINKS KEEP TAIL",
    about: "    does as receive does, and writes the last KEEP events of the receiver with
    their answers to TAIL when all links have ended.
    LAG, CAPACITY, LINKS, SINKS: as of receive
    KEEP: how many events, 1 to 4096
    Example, a lag of 0.03 seconds, a link that ends after 3 quiet seconds, and the
    last 1000 events:
    tesla record setup 30000 4096 127.0.0.1:5001/30 messages 1000 tail
",
};

/// The words of `record`: the number is KEEP, and the output TAIL.
pub(crate) const WORDS: Form = Form {
    name: "record",
    greatest: 4_096,
    order: Order::NumberFirst,
};
