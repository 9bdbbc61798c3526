//! The form of the command, as it is told.

use tesla_front::FormText;

/// The form of `roll`.
pub const ROLL: FormText = FormText {
    words: "roll SETUP LAG CAPACITY CAPTURE OUT",
    about: "    plays the recorded datagrams of CAPTURE to a receiver that trusts SETUP and
    opens the streams that it hands over to, one after another, writes each
    authentic packet once to OUT behind the number of its epoch, and prints the
    counts.
    LAG: how many microseconds the sender's clock is ahead at most
    CAPACITY: how many packets each epoch holds at most, 1 to 4096
    Example, a lag of 0.03 seconds:
    tesla roll setup 30000 256 capture out
",
};
