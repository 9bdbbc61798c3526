//! The form of the command, as it is told.

use tesla_front::FormText;

/// The form of `replay`.
pub const REPLAY: FormText = FormText {
    words: "replay SETUP LAG CAPACITY CAPTURE OUT",
    about: "    plays the recorded datagrams of CAPTURE to a receiver that trusts SETUP,
    writes each authentic packet once to OUT, and prints the counts.
    LAG: how many microseconds the sender's clock is ahead at most
    CAPACITY: how many packets are held at most, 1 to 65536; behind a slash,
    how many of one interval
    Example, a lag of 0.03 seconds, 256 packets and 40 of one interval:
    tesla replay setup 30000 256/40 capture out
",
};
