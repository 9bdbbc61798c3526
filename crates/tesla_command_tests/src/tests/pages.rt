//! The pages, links and clocks that runs find. Setups, frames, captures, traces and messages were made by another program.

use std::alloc::Global;
use std::test::Fail;
use tesla_memory_desk::MemoryDesk;
use tesla_test_desk::{Row, SEEDS, SETUP, SETUP_OF_ONE_CHAIN, SETUP_WITH_TAGS_OF_10_BYTES};

/// Each page of text.
const TEXTS: &[(&str, &str)] = &[
    ("setup", SETUP),
    ("setup-with-tags", SETUP_WITH_TAGS_OF_10_BYTES),
    ("setup-of-one-chain", SETUP_OF_ONE_CHAIN),
    // Its delays are equal.
    (
        "equal",
        "tesla 1\nstream 00000000000000a7\nstart 1000000\ninterval 100000\nlast 8\nchain 2 0 d37e38b1539f22b758d1e34d417c1032bee6369ad6cd313ca36c4c745fa2a941\nchain 2 9 9ce5072017e83d06da080924aa2251a73ea445e5986eb68ca2d8fb6a3bf70ced\n",
    ),
    // It begins on a date.
    (
        "dated",
        "tesla 2\nstream ffffffffffffffff\nstart 1796108400000000\ninterval 100000\nlast 36000\ntag 32\nchain 1 0 d37e38b1539f22b758d1e34d417c1032bee6369ad6cd313ca36c4c745fa2a941\nchain 2 36000 9ce5072017e83d06da080924aa2251a73ea445e5986eb68ca2d8fb6a3bf70ced\nchain 4096 7 0000000000000000000000000000000000000000000000000000000000000000\n",
    ),
    // It begins in the last microsecond of a leap day.
    (
        "leap-day",
        "tesla 1\nstream 0000000000000001\nstart 1835481599999999\ninterval 1000\nlast 1\nchain 1 0 d37e38b1539f22b758d1e34d417c1032bee6369ad6cd313ca36c4c745fa2a941\n",
    ),
    // It ends behind the last number of 64 bits.
    (
        "last-year",
        "tesla 1\nstream 00000000000000a7\nstart 18446744073709551615\ninterval 3600000000\nlast 1048576\nchain 1 0 d37e38b1539f22b758d1e34d417c1032bee6369ad6cd313ca36c4c745fa2a941\nchain 4096 1048576 9ce5072017e83d06da080924aa2251a73ea445e5986eb68ca2d8fb6a3bf70ced\n",
    ),
    // Commitments are equal.
    (
        "equal-commitments",
        "tesla 1\nstream 00000000000000a7\nstart 1000000\ninterval 100000\nlast 8\nchain 2 0 d37e38b1539f22b758d1e34d417c1032bee6369ad6cd313ca36c4c745fa2a941\nchain 5 0 9ce5072017e83d06da080924aa2251a73ea445e5986eb68ca2d8fb6a3bf70ced\nchain 6 0 d37e38b1539f22b758d1e34d417c1032bee6369ad6cd313ca36c4c745fa2a941\nchain 7 0 9ce5072017e83d06da080924aa2251a73ea445e5986eb68ca2d8fb6a3bf70ced\n",
    ),
    (
        "equal-of-version-2",
        "tesla 2\nstream 00000000000000a7\nstart 1000000\ninterval 100000\nlast 8\ntag 10\nchain 2 0 9ce5072017e83d06da080924aa2251a73ea445e5986eb68ca2d8fb6a3bf70ced\nchain 5 8 9ce5072017e83d06da080924aa2251a73ea445e5986eb68ca2d8fb6a3bf70ced\n",
    ),
    // Streams of lists: that of `setup` ends at 1,900,000, and `next` begins at 2,000,000 and ends where `third` begins, at 2,400,000.
    (
        "next",
        "tesla 1\nstream 00000000000000a8\nstart 1900000\ninterval 100000\nlast 4\nchain 2 0 1d4d8c70f79764f6456f374160a4ba2a7c2af84cdf0eeed637ca1a7a6aa4f5ab\n",
    ),
    (
        "next-seed",
        "tesla-seeds 1\nseed 4444444444444444444444444444444444444444444444444444444444444444\n",
    ),
    (
        "third",
        "tesla 2\nstream 00000000000000a9\nstart 2300000\ninterval 100000\nlast 3\ntag 10\nchain 1 0 65f9f650e7303da69052a8c79ee2601aeb13aa3b2ec70ef6e6681b716e4fe053\n",
    ),
    (
        "third-seed",
        "tesla-seeds 1\nseed 5555555555555555555555555555555555555555555555555555555555555555\n",
    ),
    // Its last key is due since more than 64 intervals behind 1,075,000.
    (
        "quick",
        "tesla 1\nstream 00000000000000a6\nstart 1000000\ninterval 1000\nlast 8\nchain 2 0 8bc3edeb4f7b21e10f1762db2c7b44c975c03377b079c49103bc6fca4ecb81e4\n",
    ),
    (
        "quick-seed",
        "tesla-seeds 1\nseed 6666666666666666666666666666666666666666666666666666666666666666\n",
    ),
    // The key of its first interval is due at 2,000,000.
    (
        "slow",
        "tesla 1\nstream 00000000000000aa\nstart 1000000\ninterval 100000\nlast 4\nchain 9 0 3b170771054e0d3c50fe5bdb55a5ebbee67c9f0c6ec2dde804c9e1ee0a76bfa6\n",
    ),
    (
        "slow-seed",
        "tesla-seeds 1\nseed 7777777777777777777777777777777777777777777777777777777777777777\n",
    ),
    ("secret", SEEDS),
    (
        "one-seed",
        "tesla-seeds 1\nseed 1111111111111111111111111111111111111111111111111111111111111111\n",
    ),
    (
        "four-seeds",
        "tesla-seeds 1\nseed 1111111111111111111111111111111111111111111111111111111111111111\nseed 2222222222222222222222222222222222222222222222222222222222222222\nseed 0000000000000000000000000000000000000000000000000000000000000001\nseed 0000000000000000000000000000000000000000000000000000000000000002\n",
    ),
    // The second of these is wrong.
    (
        "wrong-seeds",
        "tesla-seeds 1\nseed 1111111111111111111111111111111111111111111111111111111111111111\nseed 3333333333333333333333333333333333333333333333333333333333333333\n",
    ),
    (
        "equal-seeds",
        "tesla-seeds 1\nseed 1111111111111111111111111111111111111111111111111111111111111111\nseed 1111111111111111111111111111111111111111111111111111111111111111\n",
    ),
    (
        "zero-seed",
        "tesla-seeds 1\nseed 0000000000000000000000000000000000000000000000000000000000000000\nseed 0000000000000000000000000000000000000000000000000000000000000000\n",
    ),
    // The key of 32 bytes 33.
    (
        "key",
        "3333333333333333333333333333333333333333333333333333333333333333\n",
    ),
    ("empty", ""),
    ("out", "before"),
    ("before", "before"),
];

/// The pages of records and messages, what comes over each link, and what the first clock reads, and the second. The first record of
/// a capture with both messages ends at byte 75, the second at 177, and a take at 178. Before the first frame of a feed an interval
/// has to begin: it is sent at 1,550,000 in interval 5, and its last key told in interval 10.
const PAGES: &str = "pages $ -
# 'hi' of interval 1, and 'yo' of interval 3 with the key of chain 0 that proves it.
page first 5443415001010000000000118c30003b+DATA_1_0_HI+010000000000149970005b+DATA_3_0_YO
# The same with a take.
page taken 5443415001010000000000118c30003b+DATA_1_0_HI+010000000000149970005b+DATA_3_0_YO+02
# 'hi' alone, with a take.
page hi-taken 5443415001010000000000118c30003b+DATA_1_0_HI+02
# The same of version 2.
page first-with-tags 5443415001010000000000118c300030+TWO_DATA_1_0_HI+0100000000001499700050+TWO_DATA_3_0_YO
# The first with a take, behind which a record is cut.
page cut 5443415001010000000000118c30003b+DATA_1_0_HI+010000000000149970005b+DATA_3_0_YO+02010000
# The first with a take, behind which a record has a wrong kind.
page wrong 5443415001010000000000118c30003b+DATA_1_0_HI+010000000000149970005b+DATA_3_0_YO+020302
# Both messages and the last keys, with a take behind each frame.
page sent 5443415001010000000000118c30003b+DATA_1_0_HI+02010000000000149970005b+DATA_3_0_YO
page sent 0201000000000023dbb00059+KEYS_0_8_AND_1_8+02
# What is sent of 'yo' alone.
page yo-sent 5443415001010000000000149970005b+DATA_3_0_YO+02
page no-records 5443415001
page kind-3 544341500102030202
# With a lag of 30,000 the first reading is one microsecond too late for chain 0.
page unsafe 544341500101000000000014e790003a+BARE_2_0_A+0100000000001620100034+KEYS_0_2
page unsafe 020100000000001ab3f00034+KEYS_1_2+02
# Packets of the intervals 3, 2, 5, 4 and 6, and the key of the last.
page gap 5443415001010000000000149970003a+BARE_3_0_G+01000000000014c080003a+BARE_2_0_G
page gap 01000000000017a6b0003a+BARE_5_0_G+01000000000017cdc0003a+BARE_4_0_G+010000000000192d50003a
page gap BARE_6_0_G+0100000000001c3a900034+KEYS_0_6
# Three packets of interval 1 and one of interval 2.
page flood 5443415001010000000000118c30003a+BARE_1_0_A+010000000000118c30003a+BARE_1_1_A
page flood 010000000000118c30003a+BARE_1_2_A+0100000000001312d0003a+BARE_2_0_B
# A capture with every verdict.
page verdicts 5443415001010000000000118c300000010000000000118c30003b+DATA_1_0_HI_OF_STREAM_A6
page verdicts 0100000000001dc130003a+BARE_9_0_A+0100000000000ea600003b+DATA_1_0_HI+010000000000118c30003a
page verdicts BARE_2_0_A+0100000000001499700034+KEYS_0_1_ALTERED+0100000000001312d0003a+BARE_2_0_A
page verdicts 0100000000001312d0003a+BARE_1_0_B+0100000000001312d0003a+BARE_2_1_C
page verdicts 020100000000001620100034+KEYS_0_2+010000000000164720003a+BARE_2_0_A
page verdicts 02020100000000001dc130003a+BARE_3_0_Z
# 'hi' in interval 1.
page hi 5453435201010000000000118c3000026869
# 'hi' in interval 1, 'yo' in interval 3, and at last a disclosure.
page script 5453435201010000000000118c30000268690100000000001499700002796f02000000000023dbb0
# 'yo' in interval 3, and then 'hi' in interval 1.
page yo-first 54534352010100000000001499700002796f010000000000118c3000026869
# 'a' in interval 2, and then 'b' in interval 1; and what is sent of it.
page backward 54534352010100000000001312d0000161010000000000118c30000162
page backward-sent 54434150010100000000001312d0003a54534c41010100000000000000a700000002000000016102622d77f08b85af99ca6ecf6fe43a2887003771c841686ee337dec46a3968be07ff0002
# Random bytes.
page /dev/urandom 11*32+22*32
page ask 5441534b0100000000004c4b40
page reply 545245500100000000004c4b4000000000004c99603f93d92142b11498f9b6bb8b6ad12bcba4fb97494e2e358b312629d145990fe6
page released 00000000000000000000000100000000026869
page released-both 000000000000000000000001000000000268690000000000000001000000030000000002796f
page released-unsafe 000000000000000000000002000001000161
page released-gap 000000000000000000000003000000000167000000000000000100000002000000000167000000000000000200000005000000000167000000000000000300000004000000000167000000000000000400000006000000000167
page released-verdicts 000000000000000000000002000000000161000000000000000100000001000000000162
# The capture with both messages, its end, the packet that is given, and that all is over.
page traced 54545243010101000000000000118c30003b+DATA_1_0_HI+090301000000000000149970005b+DATA_3_0_YO
page traced 0903030002000200000000000000000000000100000000026869+020001
# The same, in which 'yo' is late.
page refuted 54545243010101000000000000118c30003b+DATA_1_0_HI+090301000000000000149970005b+DATA_3_0_YO
page refuted 06030002000200000000000000000000000100000000026869+020001
# The first without its last byte.
page cut-trace 54545243010101000000000000118c30003b+DATA_1_0_HI+090301000000000000149970005b+DATA_3_0_YO
page cut-trace 0903030002000200000000000000000000000100000000026869+0200
# Both messages and a take, without an end.
page traced-so-far 54545243010101000000000000118c30003b+DATA_1_0_HI+090301000000000000149970005b+DATA_3_0_YO
page traced-so-far 090302000200000000000000000000000100000000026869
# Entries 7 and 8 of a history: a take that is over, and an end.
page tail 5454414c0100000000000000070200010301
link both . DATA_1_0_HI . DATA_3_0_YO
link hi . DATA_1_0_HI
link yo . DATA_3_0_YO
link nothing
link three . 61 . 6263 . 64
link few . 6162 . ' . 78797a
link in 'hi
clock 0 1150000 1350000 1450000 1550000 1750000 1950000 2050000
clock 1 1350000
";

// Puts all of these.
fn put_pages(alloc: Global, desk: &mut MemoryDesk) -> Result<(), Fail> {
    for (page, text) in TEXTS {
        desk.put_page(page, text.as_bytes())?;
    }
    Row::of(PAGES)?.set_up(alloc, desk)
}

/// A desk that was set so, if it could be.
pub fn desk_if_set(desk: MemoryDesk, set: Result<(), Fail>) -> Result<MemoryDesk, Fail> {
    match set {
        Ok(()) => Ok(desk),
        Err(fail) => {
            drop(desk);
            Err(fail)
        }
    }
}

/// A desk with all of these. Whoever has one lets it go by one call of `drop`, and hands it to others by reference: at each exit
/// that lets it go by itself the proof goes through all its parts.
pub fn new_desk(alloc: Global) -> Result<MemoryDesk, Fail> {
    let mut desk = MemoryDesk::new(alloc, 10_000)?;
    let set = put_pages(alloc, &mut desk);
    desk_if_set(desk, set)
}
