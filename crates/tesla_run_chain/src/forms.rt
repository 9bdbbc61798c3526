//! The forms of the commands, as they are told.

use tesla_front::FormText;

/// The form of `chain`, which makes a setup of version 1.
pub const CHAIN: FormText = FormText {
    words: "chain SETUP-OUT SECRET STREAM START INTERVAL LAST DELAY [DELAY] [DELAY] [DELAY]",
    about: "    makes the setup of a stream, with a key chain for each delay, from the
    seeds in SECRET, writes it to SETUP-OUT, and prints how many chains it has.
    STREAM: the number of the stream, 16 lower-case hexadecimal digits
    START, INTERVAL: microseconds of the sender's clock at which interval 0
    begins, and of each interval, 1000 to 3600000000
    LAST: the number of the last interval, 1 to 1048576
    DELAY: after how many intervals keys are disclosed, 1 to 4096, rising
    Example, from now on for an hour, in intervals of 0.1 seconds, whose keys are
    disclosed 0.2 and 0.5 seconds later:
    tesla chain live.setup live.secret 00000000000000a7 $(date +%s%6N) 100000 36000 2 5
",
};

/// The form of `chain2`, which makes a setup of version 2.
pub const CHAIN_TWO: FormText = FormText {
    words: "chain2 SETUP-OUT SECRET STREAM START INTERVAL LAST TAG DELAY [DELAY] [DELAY] [DELAY] [DELAY] [DELAY] [DELAY] [DELAY]",
    about: "    is chain for version 2.
    STREAM, START, INTERVAL, LAST, DELAY: as of chain
    TAG: how many bytes a tag has, 10 to 32
    Example, the same with tags of 10 bytes:
    tesla chain2 live.setup live.secret 00000000000000a7 $(date +%s%6N) 100000 36000 10 2 5
",
};
