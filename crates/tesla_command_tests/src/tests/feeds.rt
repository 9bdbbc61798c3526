//! Runs of `feed`, `capture`, `watch` and `follow`: what posts send, at which readings of the clock. Frames were made by another program;
//! those of lists of streams, with the counts and the lines of STATUS, by `model/fed.py`.

/// What each of two posts sends, at which readings of the clock: at the opening, until the next interval has begun, at each item of the
/// link, and at each rest behind it. Interval 0 begins at 1000000, and each is 100000 long. The last interval ends at 1900000, and the
/// greatest delay is 5.
pub const FEEDS: &str = r"
* two messages and a pause $ feed setup secret in one,two
link in 'hi . . . . . 'yo
clock 0 1050000 1080000 1099999 1100000 1150000 1190000 1250000 1350000 1360000 1450000 1470000 1480000 1500000 1600000 1700000 1900000 2400000
told 0 messages 2\ndisclosures 6\ntoolong 0\nearly 0\nover 0\nbackward 0\nfull 0\nunread 0\n
sent one,two DATA_1_0_HI KEYS_0_1 KEYS_0_2 DATA_4_0_YO KEYS_0_3 KEYS_0_4_AND_1_1 KEYS_0_5_AND_1_2 KEYS_0_7_AND_1_4
* three messages of an interval, and no key is told before the end of the link $ feed setup secret in one,two
# It is opened before the start.
link in 'a 'b '
clock 0 500000 900000 1199999 1200000 1299999 1299999 1299999 1400000 1650000 1700000 2400000
told 0 messages 3\ndisclosures 3\ntoolong 0\nearly 0\nover 0\nbackward 0\nfull 0\nunread 0\n
sent one,two BARE_2_0_A BARE_2_1_B BARE_2_2_EMPTY KEYS_0_2 KEYS_0_4_AND_1_1 KEYS_0_5_AND_1_2
* version 2 $ feed setup-with-tags secret in one,two
link in 'hi . 'yo
clock 0 1050000 1100000 1150000 1350000 1360000 1800000 2400000
told 0 messages 2\ndisclosures 2\ntoolong 0\nearly 0\nover 0\nbackward 0\nfull 0\nunread 0\n
sent one,two TWO_DATA_1_0_HI TWO_KEYS_0_1 TWO_DATA_3_0_YO TWO_KEYS_0_6_AND_1_3
* 1,201 bytes twice, where a key is due and where none is, and 1,200 bytes $ feed setup secret in one,two
link in 'a 78*1201 78*1201 78*1200
clock 0 1000000 1100000 1100000 1350000 1360000 1370000 1800000 2400000
told 0 messages 2\ndisclosures 2\ntoolong 2\nearly 0\nover 0\nbackward 0\nfull 0\nunread 0\n
sent one,two BARE_1_0_A KEYS_0_1 54534c41010100000000000000a700000003000004b0+78*1200+024ebd63b3ec2c535dc0be1cf3a37a395d01e35f7f3127486559a519752e19c86876ea056b9c61cf68f0615c0ac4ee21be967a2305cce5dd1f774ace78248bc62d6100 KEYS_0_6_AND_1_3
* a clock that falls back $ feed setup secret in one,two
# Behind 'a' of interval 3 come 'b' in interval 2, 'c' in that of the opening, 'd' before the start and 'e' in interval 0.
link in 'a 'b . 'c . 'd 'e 'f
clock 0 1150000 1200000 1350000 1250000 1250000 1150000 1150000 999999 1099999 1310000 1250000 1450000 1800000 2400000
told 0 messages 2\ndisclosures 2\ntoolong 0\nearly 2\nover 0\nbackward 2\nfull 0\nunread 0\n
sent one,two DATA_3_0_A DATA_3_1_F KEYS_0_2 KEYS_0_6_AND_1_3
* a clock that falls back to the interval of the opening, before the first message $ feed setup secret in one,two
# No key is told there, though none was before.
link in . 'a . 'b
clock 0 1500000 1599999 1600000 1599999 1599999 1550000 1600000 1600000 2100000 2400000
told 0 messages 1\ndisclosures 1\ntoolong 0\nearly 0\nover 0\nbackward 1\nfull 0\nunread 0\n
sent one,two DATA_6_0_B KEYS_0_8_AND_1_6
* messages after the last interval $ feed setup secret in one,two
# The last keys are told in interval 30, and nothing is in interval 31 and behind it.
link in 'e 'x . 'y . . 'z
clock 0 1700000 1800000 1850000 1900000 2000000 2050000 4000000 4100000 9000000 9900000
told 0 messages 1\ndisclosures 3\ntoolong 0\nearly 0\nover 3\nbackward 0\nfull 0\nunread 0\n
sent one,two DATA_8_0_E KEYS_0_7_AND_1_4 KEYS_0_8_AND_1_5 KEYS_0_8_AND_1_8
* the last keys are told behind the end of the link $ feed setup secret in one,two
link in 'e 'x
clock 0 1799999 1899999 1899999 1900000 1950000 2200000 2299999 2300000 9900000
told 0 messages 1\ndisclosures 3\ntoolong 0\nearly 0\nover 1\nbackward 0\nfull 0\nunread 0\n
sent one,two DATA_8_0_E KEYS_0_7_AND_1_4 KEYS_0_8_AND_1_7 KEYS_0_8_AND_1_8
* an opening after the last interval $ feed setup secret in one,two
link in 'x .
clock 0 1900000 2000000 2000000 2300000 9900000
told 0 messages 0\ndisclosures 2\ntoolong 0\nearly 0\nover 1\nbackward 0\nfull 0\nunread 0\n
sent one,two KEYS_0_8_AND_1_5 KEYS_0_8_AND_1_8
* an opening the greatest delay and 64 intervals behind the end $ feed setup secret in one,two
link in 'x .
clock 0 8800000 8900000 8900000 9000000
told 0 messages 0\ndisclosures 1\ntoolong 0\nearly 0\nover 1\nbackward 0\nfull 0\nunread 0\n
sent one,two KEYS_0_8_AND_1_8
* an opening a microsecond later $ feed setup secret in one,two
link in 'x .
clock 0 8800001 8900000 8900000 9000000
told 2 refused setup 0 Over\n
silent one,two
* a clock that can't be read at the opening, before the first interval, at a message and at a quiet $ feed setup secret in one,two
link in 'b 'a .
clock 0 18446744073709551615 1150000 18446744073709551615 1200000 18446744073709551615 1210000 18446744073709551615 2400000
told 0 messages 1\ndisclosures 1\ntoolong 0\nearly 0\nover 0\nbackward 0\nfull 0\nunread 1\n
sent one,two BARE_2_0_A KEYS_0_8_AND_1_8
* a post fails at its second datagram $ feed setup secret in one,two
link in 'hi . . . . . 'yo
clock 0 1050000 1080000 1099999 1100000 1150000 1190000 1250000 1350000 1360000 1450000 1470000 1480000 1500000 1600000 1700000 1900000 2400000
set fails 1 two
told 5 write fault\n
sent one DATA_1_0_HI KEYS_0_1 KEYS_0_2 DATA_4_0_YO KEYS_0_3 KEYS_0_4_AND_1_1 KEYS_0_5_AND_1_2 KEYS_0_7_AND_1_4
sent two DATA_1_0_HI
* a post has no room for its fourth datagram $ feed setup secret in one,two
# The fifth would find room.
link in 'hi . . . . . 'yo
clock 0 1050000 1080000 1099999 1100000 1150000 1190000 1250000 1350000 1360000 1450000 1470000 1480000 1500000 1600000 1700000 1900000 2400000
set room 220 one
told 5 write fault\n
sent one DATA_1_0_HI KEYS_0_1 KEYS_0_2
sent two DATA_1_0_HI KEYS_0_1 KEYS_0_2 DATA_4_0_YO KEYS_0_3 KEYS_0_4_AND_1_1 KEYS_0_5_AND_1_2 KEYS_0_7_AND_1_4
* the only post fails at once $ feed setup secret in one
link in 'hi . . . . . 'yo
clock 0 1050000 1080000 1099999 1100000 1150000 1190000 1250000 1350000 1360000 1450000 1470000 1480000 1500000 1600000 1700000 1900000 2400000
set fails 0 one
told 5 write fault\n
silent one,two
* both posts fail, one behind the other $ feed setup secret in one,two
link in 'hi . . . . . 'yo
clock 0 1050000 1080000 1099999 1100000 1150000 1190000 1250000 1350000 1360000 1450000 1470000 1480000 1500000 1600000 1700000 1900000 2400000
set fails 0 one,fails 2 two
told 5 write fault\n
silent one
sent two DATA_1_0_HI KEYS_0_1
* 32 posts $ feed setup secret in two,a,b,c,d,e,f,g,h,i,j,k,l,m,n,o,p,q,r,s,t,u,v,w,x,y,z,A,B,C,D,one
link in 'hi . . . . . 'yo
clock 0 1050000 1080000 1099999 1100000 1150000 1190000 1250000 1350000 1360000 1450000 1470000 1480000 1500000 1600000 1700000 1900000 2400000
set fails 3 a
told 5 write fault\n
sent one,two DATA_1_0_HI KEYS_0_1 KEYS_0_2 DATA_4_0_YO KEYS_0_3 KEYS_0_4_AND_1_1 KEYS_0_5_AND_1_2 KEYS_0_7_AND_1_4
* no message $ feed setup secret in one,two
link in . . . .
clock 0 1000000 1100000 1200000 1300000 1310000 1600000 2400000
told 0 messages 0\ndisclosures 2\ntoolong 0\nearly 0\nover 0\nbackward 0\nfull 0\nunread 0\n
sent one,two KEYS_0_1 KEYS_0_4_AND_1_1
* nothing comes $ feed setup secret in one,two
link in
clock 0 1000000 1100000 2400000
told 0 messages 0\ndisclosures 0\ntoolong 0\nearly 0\nover 0\nbackward 0\nfull 0\nunread 0\n
silent one,two
* a link fails behind a message $ feed setup secret in one,two
link in 'hi 'yo
clock 0 1050000 1100000 1150000 1350000 1600000 2400000
set fails 1 in
told 4 read fault\n
sent one,two DATA_1_0_HI KEYS_0_1 KEYS_0_4_AND_1_1
* a link and a post fail $ feed setup secret in one,two
# Both are failures, and that of the link is told.
link in 'hi 'yo
clock 0 1050000 1100000 1150000 1350000 1600000 2400000
set fails 1 in,fails 1 two
told 4 read fault\n
sent one DATA_1_0_HI KEYS_0_1 KEYS_0_4_AND_1_1
sent two DATA_1_0_HI
* messages after the last interval, and a line each second since the opening $ feed setup secret in one,two status 1
# The third line isn't due before 10000000.
link in 'e 'x . 'y . . 'z
clock 0 1700000 1800000 1850000 1900000 2000000 2050000 4000000 4100000 9000000 9900000
told 0 messages 1\ndisclosures 3\ntoolong 0\nearly 0\nover 3\nbackward 0\nfull 0\nunread 0\n
sent one,two DATA_8_0_E KEYS_0_7_AND_1_4 KEYS_0_8_AND_1_5 KEYS_0_8_AND_1_8
holds status 'time=4000000 messages=1 disclosures=3 toolong=0 early=0 over=2 backward=0 full=0 unread=0 held=0 unsent=0 left=0+0a+'time=9000000 messages=1 disclosures=3 toolong=0 early=0 over=3 backward=0 full=0 unread=0 held=0 unsent=0 left=0+0a+'end=9000000 messages=1 disclosures=3 toolong=0 early=0 over=3 backward=0 full=0 unread=0 held=0 unsent=0 left=0+0a
* lines before the first interval and behind the last message, and none where the clock can't be read $ feed setup secret in one,two status 1
# It is opened a second before the start, and interval 1 begins at 1100000.
link in 'a .
clock 0 18446744073709551615 0 1000000 1050000 18446744073709551615 1100000 1150000 1350000 2400000
told 0 messages 1\ndisclosures 2\ntoolong 0\nearly 0\nover 0\nbackward 0\nfull 0\nunread 0\n
sent one,two BARE_1_0_A KEYS_0_1 KEYS_0_8_AND_1_8
holds status 'time=1000000 messages=0 disclosures=0 toolong=0 early=0 over=0 backward=0 full=0 unread=0 held=0 unsent=0 left=9+0a+'time=2400000 messages=1 disclosures=2 toolong=0 early=0 over=0 backward=0 full=0 unread=0 held=0 unsent=0 left=0+0a+'end=2400000 messages=1 disclosures=2 toolong=0 early=0 over=0 backward=0 full=0 unread=0 held=0 unsent=0 left=0+0a
* STATUS has no room for its first line $ feed setup secret in one,two status 1
# All else goes on.
link in 'e 'x . 'y . . 'z
clock 0 1700000 1800000 1850000 1900000 2000000 2050000 4000000 4100000 9000000 9900000
set room 20 status
told 5 write fault\n
sent one,two DATA_8_0_E KEYS_0_7_AND_1_4 KEYS_0_8_AND_1_5 KEYS_0_8_AND_1_8
holds status 'time=4000000 message
* a date that is set ahead behind the opening, where another clock goes on by 10 milliseconds from reading to reading $ feed setup secret in one
# What a sender then reads is told by `tesla_outside_tests`. All keys are told in their intervals by it.
link in 'a
clock 0 1250000 1260000 1270000 1280000 1290000 1300000 1310000 1320000 1330000 1340000 1350000 1360000 1370000 1380000 1390000 1400000 1410000 1420000 1430000 1440000 1450000 1460000 1470000 1480000 1490000 1500000 1510000 1520000 1530000 1540000 1550000 1560000 1570000 1580000 1590000 1600000 1610000 1620000 1630000 1640000 1650000 1660000 1670000 1680000 1690000 1700000 1710000 1720000 1730000 1740000 1750000 1760000 1770000 1780000 1790000 1800000 1810000 1820000 1830000 1840000
told 0 messages 1\ndisclosures 5\ntoolong 0\nearly 0\nover 0\nbackward 0\nfull 0\nunread 0\n
sent one DATA_3_0_A KEYS_0_2 KEYS_0_3 KEYS_0_4_AND_1_1 KEYS_0_5_AND_1_2 KEYS_0_6_AND_1_3
silent two
* two streams, with a line each second $ feed setup,next secret,next-seed in one,two status 1
# There is no handover behind interval 4. A message comes between the streams, and one behind both.
link in 'hi . . 'yo . 'x 'n . . 'o 'z
clock 0 1050000 1100000 1150000 1160000 1250000 1450000 1550000 1950000 2050000 2150000 2250000 2350000 2400000 2450000 2500000 2600000
told 0 messages 4\ndisclosures 9\nhandovers 3\ntoolong 0\nearly 1\nover 1\nbackward 0\nfull 0\nunread 0\n
sent one,two LIST_A7_1_0_TO_A8 LIST_A7_1_1_HI LIST_A7_2_0_TO_A8 LIST_A7_4_0_TO_A8 LIST_A7_4_1_YO KEYS_0_3 KEYS_0_7_AND_1_4 LIST_A8_1_0_N KEYS_0_8_AND_1_5 KEYS_0_8_AND_1_6 KEYS_0_8_AND_1_7 LIST_A8_KEYS_0_1 LIST_A8_4_0_O KEYS_0_8_AND_1_8 LIST_A8_KEYS_0_3 LIST_A8_KEYS_0_4
holds status 'time=2050000 messages=3 disclosures=3 handovers=3 toolong=0 early=1 over=0 backward=0 full=0 unread=0 held=0 unsent=0 left=4+0a+'end=2500000 messages=4 disclosures=9 handovers=3 toolong=0 early=1 over=1 backward=0 full=0 unread=0 held=0 unsent=0 left=0+0a
* three streams, of which the third begins where the second ends $ feed setup,next,third secret,next-seed,third-seed in one,two
link in . 'a 'n 'm 'm 'w
clock 0 1300000 1400000 1400000 1899999 2000000 2200000 2399999 2400000 2500000 2600000
told 0 messages 5\ndisclosures 6\nhandovers 2\ntoolong 0\nearly 0\nover 0\nbackward 0\nfull 0\nunread 0\n
sent one,two LIST_A7_4_0_TO_A8 LIST_A7_8_0_A LIST_A8_1_0_TO_A9 LIST_A8_1_1_N KEYS_0_8_AND_1_5 LIST_A8_3_0_M KEYS_0_8_AND_1_7 LIST_A8_4_0_M KEYS_0_8_AND_1_8 LIST_A9_1_0_W LIST_A8_KEYS_0_3 LIST_A8_KEYS_0_4 LIST_A9_KEYS_0_1
* the first stream is over at the opening $ feed quick,setup quick-seed,secret in one,two
# What is sent is as of `setup` alone.
link in 'hi . . . . . 'yo
clock 0 1075001 1080000 1099999 1100000 1150000 1190000 1250000 1350000 1360000 1450000 1470000 1480000 1500000 1600000 1700000 1900000 2400000
told 0 messages 2\ndisclosures 6\nhandovers 0\ntoolong 0\nearly 0\nover 0\nbackward 0\nfull 0\nunread 0\n
sent one,two DATA_1_0_HI KEYS_0_1 KEYS_0_2 DATA_4_0_YO KEYS_0_3 KEYS_0_4_AND_1_1 KEYS_0_5_AND_1_2 KEYS_0_7_AND_1_4
* an opening a microsecond before that $ feed quick,setup quick-seed,secret in one,two
link in 'hi . . . . . 'yo
clock 0 1075000 1076000 1150000 1190000 1250000 1350000 1360000 1450000 1470000 1480000 1500000 1600000 1700000 1900000 2400000
told 0 messages 2\ndisclosures 7\nhandovers 0\ntoolong 0\nearly 0\nover 0\nbackward 0\nfull 0\nunread 0\n
sent one,two DATA_1_0_HI LIST_A6_KEYS_0_8 KEYS_0_1 KEYS_0_2 DATA_4_0_YO KEYS_0_3 KEYS_0_4_AND_1_1 KEYS_0_5_AND_1_2 KEYS_0_7_AND_1_4
";

/// Runs that feed nothing.
pub const REFUSALS: &str = r"
* SETUP is missing $ feed none secret in one,two
told 7 open fault\n
silent one,two
* SETUP is refused $ feed empty secret in one,two
told 2 refused setup 1 BadLine\n
silent one,two
* SECRET is missing $ feed setup none in one,two
told 7 open fault\n
silent one,two
* SECRET is empty $ feed setup empty in one,two
told 3 refused seeds 1 WrongCount\n
silent one,two
* SECRET has another seed $ feed setup wrong-seeds in one,two
told 3 refused seeds 3 WrongSeed\n
silent one,two
* SECRET has another seed, and LINK is missing $ feed setup wrong-seeds none one,two
# LINK is opened before the seeds are tried.
told 7 open fault\n
silent one,two
* SECRET has a seed twice, and LINK is missing $ feed setup equal-seeds none one,two
told 3 refused seeds 3 EqualSeeds\n
silent one,two
* SECRET has zeros alone, and LINK is missing $ feed setup zero-seed none one,two
told 3 refused seeds 2 ZeroSeed\n
silent one,two
* LINK is missing $ feed setup secret none one,two
told 7 open fault\n
silent one,two
* no memory has so much room for the first post $ feed setup secret in one,two
set room 18446744073709551615 one
told 6 no memory\n
silent one,two
* no memory has so much room for the second post $ feed setup secret in one,two
set room 18446744073709551615 two
told 6 no memory\n
silent one,two
* no memory has so much room for STATUS $ feed setup secret in one,two status 1
set room 18446744073709551615 status
told 6 no memory\n
silent one,two
* STATUS can't be opened $ feed setup secret in one,two status 1
# It is the seventh of the openings.
set unopened 6
told 7 open fault\n
silent one,two
* all streams are over at the opening $ feed quick,setup quick-seed,secret in one,two
link in 'x .
clock 0 8800001 8900000 8900000 9000000
told 2 refused setup 0 Over\n
silent one,two
* a later stream has another seed, and is the only one that is on when the feed begins $ feed setup,next secret,third-seed in one,two
# The clock is read twice: nothing is taken of LINK.
link in 'n .
clock 0 1850000 2150000 2250000
told 3 refused seeds 2 WrongSeed\n
silent one,two
* the first stream is over at the opening, and the second has another seed $ feed quick,setup quick-seed,wrong-seeds in one,two
link in 'hi .
clock 0 1075001 1150000 1250000
told 3 refused seeds 3 WrongSeed\n
silent one,two
* the second setup is refused, before LINK and the second of SECRETS $ feed setup,empty secret,none none one,two
told 2 refused setup 1 BadLine\n
silent one,two
* a stream begins before the end of the one before $ feed quick,next,setup quick-seed,next-seed,secret none one,two
told 2 refused setups 3 Overlap\n
silent one,two
* a stream has the number of an earlier one $ feed setup,next,last-year secret,next-seed,wrong-seeds none one,two
told 2 refused setups 3 UsedStream\n
silent one,two
* a stream ends with no interval to hand over in $ feed slow,next slow-seed,next-seed none one,two
# A stream that begins a microsecond later would have one.
told 2 refused setups 2 NoWindow\n
silent one,two
* a stream has a seed of an earlier one $ feed setup,next secret,one-seed none one,two
told 3 refused secrets 2 EqualSeeds\n
silent one,two
* fewer seeds than setups $ feed setup,next secret in one,two
told 1 usage: capture LINK CAPTURE\nusage: feed SETUPS SECRETS LINK POSTS\nusage: feed SETUPS SECRETS LINK POSTS STATUS EVERY\nusage: watch SETUP LAG CAPACITY LINKS SINKS STATUS EVERY\nusage: watch-relay CAPACITY LINK POSTS STATUS EVERY\nusage: follow SETUP LAG CAPACITY LINKS SINKS STATUS EVERY\n
* 17 setups $ feed s1,s2,s3,s4,s5,s6,s7,s8,s9,s10,s11,s12,s13,s14,s15,s16,s17 ts1,ts2,ts3,ts4,ts5,ts6,ts7,ts8,ts9,ts10,ts11,ts12,ts13,ts14,ts15,ts16,ts17 in one,two
told 1 usage: capture LINK CAPTURE\nusage: feed SETUPS SECRETS LINK POSTS\nusage: feed SETUPS SECRETS LINK POSTS STATUS EVERY\nusage: watch SETUP LAG CAPACITY LINKS SINKS STATUS EVERY\nusage: watch-relay CAPACITY LINK POSTS STATUS EVERY\nusage: follow SETUP LAG CAPACITY LINKS SINKS STATUS EVERY\n
* a setup twice $ feed setup,setup secret,next-seed in one,two
told 1 usage: capture LINK CAPTURE\nusage: feed SETUPS SECRETS LINK POSTS\nusage: feed SETUPS SECRETS LINK POSTS STATUS EVERY\nusage: watch SETUP LAG CAPACITY LINKS SINKS STATUS EVERY\nusage: watch-relay CAPACITY LINK POSTS STATUS EVERY\nusage: follow SETUP LAG CAPACITY LINKS SINKS STATUS EVERY\n
* STATUS is the second of SECRETS $ feed setup,next secret,next-seed in one,two next-seed 1
told 1 usage: capture LINK CAPTURE\nusage: feed SETUPS SECRETS LINK POSTS\nusage: feed SETUPS SECRETS LINK POSTS STATUS EVERY\nusage: watch SETUP LAG CAPACITY LINKS SINKS STATUS EVERY\nusage: watch-relay CAPACITY LINK POSTS STATUS EVERY\nusage: follow SETUP LAG CAPACITY LINKS SINKS STATUS EVERY\n
";

/// A quiet stands before each datagram. The opening of LINK is 1, and that of CAPTURE 2.
pub const CAPTURES: &str = r"
* capture: nothing fails $ capture few out
# The head; each arrival with its reading, its length and its bytes; and the take behind it.
clock 0 1 258 18446744073709551615
told 0 captured 3\n
holds out 5443415001010000000000000001000261620201000000000000010200000201ffffffffffffffff000378797a02
* capture: the call of the link behind the second datagram $ capture few out
# What is gathered is written where the link fails.
clock 0 1 258 18446744073709551615
set fails 4 few
told 4 read fault\n
holds out 54434150010100000000000000010002616202010000000000000102000002
* capture: that, and then a write $ capture few out
clock 0 1 258 18446744073709551615
set fails 4 few,room 21 out
told 4 read fault\n
holds out 544341500101000000000000000100026162020100
* capture: no room behind the head $ capture few out
clock 0 1 258 18446744073709551615
set room 7 out
told 5 write fault\n
holds out 54434150010100
* capture: no room for the head $ capture few out
clock 0 1 258 18446744073709551615
set room 3 out
told 5 write fault\n
holds out 544341
* capture: the third write $ capture few out
# What is gathered is written at each quiet.
clock 0 1 258 18446744073709551615
set fails 2 out
told 5 write fault\n
holds out 54434150010100000000000000010002616202
* watch: the last line of STATUS $ watch setup 30000 16 in out status 3600
# The datagram is no frame, and the clock of STATUS reads 1.7 seconds.
clock 1 1700000
told 0 arrivals 1\nmalformed 1\nforeign 0\nmisfit 0\nfuture 0\nbadkey 0\nlate 0\nrepeat 0\nfull 0\nkept 0\nkeys 0\ngiven 0\n
holds out
holds status 'end=1700000 arrivals=1 malformed=1 foreign=0 misfit=0 future=0 badkey=0 late=0 repeat=0 full=0 kept=0 keys=0 given=0 chain0=0 chain1=0 held=0 failedsinks=0+0a
* follow: a stream that hands over to none $ follow setup 30000 16 both out status 3600
# The record of the packet stands behind the kind and the epoch. The clock of STATUS reads 1.7 seconds.
clock 1 1700000
told 0 epochs 1\narrivals 2\nmalformed 0\nforeign 0\nmisfit 0\nfuture 0\nbadkey 0\nlate 0\nrepeat 0\nfull 0\nkept 2\nkeys 0\ngiven 1\nearly 0\nunqueued 0\ndropped 0\n
holds out 000000000000000000000000000000000100000000026869
holds status 'end=1700000 arrivals=2 malformed=0 foreign=0 misfit=0 future=0 badkey=0 late=0 repeat=0 full=0 kept=2 keys=0 given=1 chain0=1 chain1=0 chain2=0 chain3=0 chain4=0 chain5=0 chain6=0 chain7=0 held=0 failedsinks=0 epoch=0 open=1 early=0 unqueued=0 dropped=0+0a
* follow: a capacity above 4,096 $ follow setup 30000 4097 both out status 3600
told 1 usage: capture LINK CAPTURE\nusage: feed SETUPS SECRETS LINK POSTS\nusage: feed SETUPS SECRETS LINK POSTS STATUS EVERY\nusage: watch SETUP LAG CAPACITY LINKS SINKS STATUS EVERY\nusage: watch-relay CAPACITY LINK POSTS STATUS EVERY\nusage: follow SETUP LAG CAPACITY LINKS SINKS STATUS EVERY\n
* follow: two equal commitments $ follow equal-commitments 30000 16 both out status 3600
told 2 refused setup 8 EqualCommitments\n
";
