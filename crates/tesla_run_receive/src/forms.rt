//! The form of the command, as it is told.

use tesla_front::FormText;

/// The form of `receive`.
pub const RECEIVE: FormText = FormText {
    words: "receive SETUP LAG CAPACITY LINKS SINKS",
    about: "    takes the live datagrams of LINKS with a receiver that trusts SETUP, writes
    each authentic packet once to one of SINKS when it is released, and prints
    the counts. It ends when all links have ended.
    LAG: how many microseconds the sender's clock is ahead at most
    CAPACITY: how many packets are held at most, 1 to 65536; behind a slash,
    how many of one interval
    LINKS: names with a comma between two, ADDRESS:PORT/QUIETS; a link ends
    after so many tenths of a second in a row with no datagram, 0 for never
    SINKS: names of files with a comma between two
    Example, a lag of 0.03 seconds, and a link that ends after 3 quiet seconds:
    tesla receive setup 30000 4096 127.0.0.1:5001/30 messages
",
};
