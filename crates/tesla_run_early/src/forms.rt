//! The form of the command, as it is told.

use tesla_front::FormText;

/// The form of `early`.
pub const EARLY: FormText = FormText {
    words: "early SETUP LAG CAPACITY CAPTURE OUT",
    about: "    plays the recorded datagrams of CAPTURE to a receiver that trusts SETUP and
    accepts a message on arrival where an authentic message before promised it,
    writes each authentic packet once to OUT behind a byte 00, each message that
    is accepted on arrival behind a byte 01, and prints the counts.
    LAG: how many microseconds the sender's clock is ahead at most
    CAPACITY: how many packets are held at most, 1 to 65536; behind a slash,
    how many of one interval
    Example, a lag of 0.03 seconds, 256 packets and 40 of one interval:
    tesla early setup 30000 256/40 capture out
",
};
