//! Runs of `receive`, `relay` and `play`.

/// Runs with one answer, whatever the threads do.
pub const RUNS: &str = r"
* one link and one sink $ receive setup 30000 16 both out
told 0 arrivals 2\nmalformed 0\nforeign 0\nmisfit 0\nfuture 0\nbadkey 0\nlate 0\nrepeat 0\nfull 0\nkept 2\nkeys 0\ngiven 1\n
holds out released
* a link without a datagram $ receive setup 30000 16 nothing out
told 0 arrivals 0\nmalformed 0\nforeign 0\nmisfit 0\nfuture 0\nbadkey 0\nlate 0\nrepeat 0\nfull 0\nkept 0\nkeys 0\ngiven 0\n
holds out
* two links, of which one has nothing $ receive setup -20000 1 hi,nothing out
# The first clock is that of the first link. 'hi' alone is kept.
told 0 arrivals 1\nmalformed 0\nforeign 0\nmisfit 0\nfuture 0\nbadkey 0\nlate 0\nrepeat 0\nfull 0\nkept 1\nkeys 0\ngiven 0\n
holds out
* the least lag $ receive setup -9223372036854775808 16 both out
told 0 arrivals 2\nmalformed 0\nforeign 0\nmisfit 0\nfuture 2\nbadkey 0\nlate 0\nrepeat 0\nfull 0\nkept 0\nkeys 0\ngiven 0\n
holds out
* the greatest lag and capacity $ receive setup 9223372036854775807 65536/1000 both out
# With the greatest lag no packet is safe.
told 0 arrivals 2\nmalformed 0\nforeign 0\nmisfit 0\nfuture 0\nbadkey 0\nlate 2\nrepeat 0\nfull 0\nkept 0\nkeys 0\ngiven 0\n
holds out
* a link that fails behind the last datagram $ receive setup 30000 16 both out
set fails 4 both
told 4 read fault\n
holds out released
* a sink that is full $ receive setup 30000 16 both out
set room 5 out
told 5 write fault\n
front out 5 released
* a link and a sink that fail $ receive setup 30000 16 both out
# Both are failures, and that of a link is told.
set fails 4 both,fails 0 out
told 4 read fault\n
holds out
* a link that is missing $ receive setup 30000 16 both,missing out
told 7 open fault\n
* a sink that can't be opened $ receive setup 30000 16 both out,other
set unopened 4
told 7 open fault\n
holds out
* a setup that is missing $ receive missing 30000 16 both out
told 7 open fault\n
* a setup that is refused $ receive empty 30000 16 missing out
told 2 refused setup 1 BadLine\n
* one link and one sink: the link's first call $ receive setup 30000 16 both out
set fails 0 both
told 4 read fault\n
holds out
* one link and one sink: the sink's first write $ receive setup 30000 16 both out
set fails 0 out
told 5 write fault\n
holds out
* two links and two sinks: the first call of the second link $ receive setup 30000 16 hi,yo out,other
clock 0 1150000
set fails 0 yo
told 4 read fault\n
holds out,other
* relay to two posts: nothing fails $ relay 4 three p,q
told 0 post 0 sent 3 dropped 0\npost 1 sent 3 dropped 0\n
sent p,q 61 6263 64
* relay to two posts: the second send of the first post $ relay 4 three p,q
# The other post goes on.
set fails 1 p
told 5 write fault\n
sent p 61
sent q 61 6263 64
* relay to two posts, and its counts $ watch-relay 4 three p,q status 3600
clock 0 1700000
told 0 post 0 sent 3 dropped 0\npost 1 sent 3 dropped 0\n
sent p,q 61 6263 64
holds status 'end=1700000 sent0=3 dropped0=0 sent1=3 dropped1=0 unsent=0+0a
* relay to two posts, and its counts: the second send of the first post $ watch-relay 4 three p,q status 3600
# The other post goes on, and the last line tells what both sent.
clock 0 1700000
set fails 1 p
told 5 write fault\n
sent p 61
sent q 61 6263 64
holds status 'end=1700000 sent0=1 dropped0=0 sent1=3 dropped1=0 unsent=0+0a
* relay to two posts, and its counts, which can't be written $ watch-relay 4 three p,q status 3600
clock 0 1700000
set room 5 status
told 5 write fault\n
sent p,q 61 6263 64
holds status 'end=1
* play waits for its time: nothing fails $ play hi-taken p
clock 0 1000000 1149999 1150000
told 0 played 1\n
sent p DATA_1_0_HI
* play waits for its time: the first read of CAPTURE $ play hi-taken p
clock 0 1000000 1149999 1150000
set fails 0 hi-taken
told 4 read fault\n
silent p
* play waits for its time: the first send $ play hi-taken p
clock 0 1000000 1149999 1150000
set fails 0 p
told 5 write fault\n
silent p
* 32 links that bring nothing, and 32 sinks $ receive setup 0 65536 l0,l1,l2,l3,l4,l5,l6,l7,l8,l9,l10,l11,l12,l13,l14,l15,l16,l17,l18,l19,l20,l21,l22,l23,l24,l25,l26,l27,l28,l29,l30,l31 s0,s1,s2,s3,s4,s5,s6,s7,s8,s9,s10,s11,s12,s13,s14,s15,s16,s17,s18,s19,s20,s21,s22,s23,s24,s25,s26,s27,s28,s29,s30,s31
link l0,l1,l2,l3,l4,l5,l6,l7,l8,l9,l10,l11,l12,l13,l14,l15,l16,l17,l18,l19,l20,l21,l22,l23,l24,l25,l26,l27,l28,l29,l30,l31
told 0 arrivals 0\nmalformed 0\nforeign 0\nmisfit 0\nfuture 0\nbadkey 0\nlate 0\nrepeat 0\nfull 0\nkept 0\nkeys 0\ngiven 0\n
holds s0,s1,s2,s3,s4,s5,s6,s7,s8,s9,s10,s11,s12,s13,s14,s15,s16,s17,s18,s19,s20,s21,s22,s23,s24,s25,s26,s27,s28,s29,s30,s31
";

/// else chain 0's key is known before, and nothing is.
pub const TWO_AND_TWO: &str = r"
* nothing is released $ receive setup 30000 16 hi,yo out,other
told 0 arrivals 2\nmalformed 0\nforeign 0\nmisfit 0\nfuture 0\nbadkey 0\nlate 0\nrepeat 0\nfull 0\nkept 2\nkeys 0\ngiven 0\n
holds out,other
* 'hi' is released to the first sink $ receive setup 30000 16 hi,yo out,other
told 0 arrivals 2\nmalformed 0\nforeign 0\nmisfit 0\nfuture 0\nbadkey 0\nlate 0\nrepeat 0\nfull 0\nkept 2\nkeys 0\ngiven 1\n
holds out released
holds other
* 'hi' is released to the second sink $ receive setup 30000 16 hi,yo out,other
told 0 arrivals 2\nmalformed 0\nforeign 0\nmisfit 0\nfuture 0\nbadkey 0\nlate 0\nrepeat 0\nfull 0\nkept 2\nkeys 0\ngiven 1\n
holds out
holds other released
";
