//! Runs of `seeds` over random bytes, to which a row may add, and where one of its calls fails.

/// Random bytes that are enough, that end, and that give a seed of zeros or one seed twice; and calls that fail. The first 64 random
/// bytes are the seeds of `secret`.
pub const FAULTS: &str = r"
* seeds of two chains $ seeds 2 out
told 0 seeds 2\n
holds out secret
* seed of one chain $ seeds 1 out
told 0 seeds 1\n
holds out one-seed
* more random bytes than seeds $ seeds 2 out
page /dev/urandom 33*200
told 0 seeds 2\n
holds out secret
* all of seeds moves a byte a call $ seeds 2 out
set piece 1 /dev/urandom,piece 1 out,piece 1 -
told 0 seeds 2\n
holds out secret
* random bytes that end in the third seed $ seeds 3 out
page /dev/urandom 33*31
told 3 refused random 95 Truncated\n
* random bytes that end behind the second seed $ seeds 8 out
told 3 refused random 64 Truncated\n
* third seed of zeros, and the fourth the first $ seeds 4 out
page /dev/urandom 00*32+11*32
told 3 refused seeds 4 ZeroSeed\n
* third seed that is the first, and the fourth of zeros $ seeds 4 out
page /dev/urandom 11*32+00*32
told 3 refused seeds 4 EqualSeeds\n
* last seed that is the one before $ seeds 4 out
page /dev/urandom 33*64
told 3 refused seeds 5 EqualSeeds\n
* seeds that differ in their last byte $ seeds 4 out
page /dev/urandom 00*31+01+00*31+02
told 0 seeds 4\n
holds out four-seeds
* random bytes that aren't opened $ seeds 2 out
set unopened 1
told 7 open fault\n
* second read of the random bytes fails $ seeds 2 out
set piece 7 /dev/urandom,fails 1 /dev/urandom
told 4 read fault\n
* room for 100 bytes of the seeds $ seeds 2 out
set room 100 out
told 5 write fault\n
front out 100 secret
* seeds to the random bytes $ seeds 2 /dev/urandom
told 1 usage: ask READING ASK-OUT\nusage: reply ASK KEY READING REPLY-OUT\nusage: show TRACE\nusage: seeds COUNT SECRET-OUT\nusage: info SETUP [RATE]\n
* nine seeds $ seeds 9 out
told 1 usage: ask READING ASK-OUT\nusage: reply ASK KEY READING REPLY-OUT\nusage: show TRACE\nusage: seeds COUNT SECRET-OUT\nusage: info SETUP [RATE]\n
";
