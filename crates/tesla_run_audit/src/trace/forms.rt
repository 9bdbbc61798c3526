//! The form of the command, as it is told.

use tesla_front::FormText;

/// The form of `trace`.
pub const TRACE: FormText = FormText {
    words: "trace SETUP LAG CAPACITY CAPTURE TRACE",
    about: "    plays the recorded datagrams of CAPTURE to a receiver that trusts SETUP,
    writes to TRACE each datagram with its verdict, each take with its answer and
    the end, in the order in which they came, and prints the counts.
    LAG: how many microseconds the sender's clock is ahead at most
    CAPACITY: how many packets are held at most, 1 to 65536; behind a slash,
    how many of one interval
    Example, a lag of 0.03 seconds, 256 packets and 40 of one interval:
    tesla trace setup 30000 256/40 capture trace
",
};
