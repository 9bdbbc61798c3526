//! Replays of two chains, with the answers that another program made. The lag is 30,000 microseconds, and 16 packets are held at
//! most.

/// The examples that are played over files and outputs of any piece.
pub const EXAMPLES: &str = r"
* first release $ replay setup 30000 16 first out
told 0 arrivals 2\nmalformed 0\nforeign 0\nmisfit 0\nfuture 0\nbadkey 0\nlate 0\nrepeat 0\nfull 0\nkept 2\nkeys 0\ngiven 1\n
holds out released
* first release of version 2 $ replay setup-with-tags 30000 16 first-with-tags out
told 0 arrivals 2\nmalformed 0\nforeign 0\nmisfit 0\nfuture 0\nbadkey 0\nlate 0\nrepeat 0\nfull 0\nkept 2\nkeys 0\ngiven 1\n
holds out released
* cut capture $ replay setup 30000 16 cut out
told 3 refused capture 178 Truncated\n
holds out released
* empty capture $ replay setup 30000 16 no-records out
told 0 arrivals 0\nmalformed 0\nforeign 0\nmisfit 0\nfuture 0\nbadkey 0\nlate 0\nrepeat 0\nfull 0\nkept 0\nkeys 0\ngiven 0\n
holds out
* setup as capture $ replay setup 0 16 setup out
# One input has both names.
told 3 refused capture 0 BadHead\n
holds out
* first unsafe microsecond $ replay setup 30000 16 unsafe out
told 0 arrivals 3\nmalformed 0\nforeign 0\nmisfit 0\nfuture 0\nbadkey 0\nlate 0\nrepeat 0\nfull 0\nkept 1\nkeys 2\ngiven 1\n
holds out released-unsafe
* gap key releases in arrival order $ replay setup 30000 16 gap out
told 0 arrivals 6\nmalformed 0\nforeign 0\nmisfit 0\nfuture 0\nbadkey 0\nlate 0\nrepeat 0\nfull 0\nkept 5\nkeys 1\ngiven 5\n
holds out released-gap
* quota of two $ replay setup 30000 4/2 flood out
# Four packets are held at most, and two of an interval.
told 0 arrivals 4\nmalformed 0\nforeign 0\nmisfit 0\nfuture 0\nbadkey 0\nlate 0\nrepeat 0\nfull 1\nkept 3\nkeys 0\ngiven 0\n
holds out
* capacity alone $ replay setup 30000 4 flood out
# A capacity alone is the quota too.
told 0 arrivals 4\nmalformed 0\nforeign 0\nmisfit 0\nfuture 0\nbadkey 0\nlate 0\nrepeat 0\nfull 0\nkept 4\nkeys 0\ngiven 0\n
holds out
* all verdicts $ replay setup 30000 2 verdicts out
told 0 arrivals 12\nmalformed 1\nforeign 1\nmisfit 1\nfuture 2\nbadkey 1\nlate 1\nrepeat 1\nfull 1\nkept 2\nkeys 1\ngiven 2\n
holds out released-verdicts
";

/// Reads and writes that fail. The first read of the sent capture brings both messages, and the take behind each.
pub const FAULTS: &str = r"
* first read of CAPTURE $ replay setup 30000 16 first out
set fails 0 first
told 4 read fault\n
holds out
* read behind the take $ replay setup 30000 16 cut out
set piece 178 cut,fails 1 cut
told 4 read fault\n
holds out released
* read behind the take, and then the write $ replay setup 30000 16 cut out
set piece 178 cut,fails 1 cut,room 10 out
told 4 read fault\n
front out 10 released
* read behind a head that is wrong already, which isn't made $ replay setup 30000 16 head out
page head 544342
set piece 3 head,fails 1 head
told 3 refused capture 0 BadHead\n
holds out
* read within a head $ replay setup 30000 16 head out
page head 544341
set piece 3 head,fails 1 head
told 4 read fault\n
holds out
* read behind a refused place, which isn't made $ replay setup 30000 16 wrong out
set piece 179 wrong,fails 1 wrong
told 3 refused capture 178 BadKind\n
holds out released
* room for ten bytes of OUT $ replay setup 30000 16 first out
set room 10 out
told 5 write fault\n
front out 10 released
* write before a refused place $ replay setup 30000 16 cut out
set room 10 out
told 5 write fault\n
front out 10 released
* read fault with a full output in replay $ replay setup 30000 16 sent out
set piece 179 sent,fails 1 sent,room 12 out
told 4 read fault\n
front out 12 released
* gathered records are written behind a read fault $ replay setup 30000 16 sent out
set piece 179 sent,fails 1 sent
told 4 read fault\n
holds out released
* fault behind a refused place in replay $ replay setup 30000 16 kind-3 out
set piece 7 kind-3,fails 1 kind-3
told 3 refused capture 6 BadKind\n
holds out
* report that is lost $ replay setup 30000 16 sent out
set room 3 -
told 5 arr|
holds out released-both
* setup with equal delays $ replay equal 30000 16 first out
set piece 3 equal
told 2 refused setup 7 DelaysNotRising\n
* empty setup $ replay empty 30000 16 first out
set piece 3 empty
told 2 refused setup 1 BadLine\n
* setup of 4,096 bytes $ replay letters 30000 16 first out
page letters 78*4096
set piece 3 letters
told 2 refused setup 1 BadLine\n
* setup of 4,097 bytes $ replay letters 30000 16 first out
page letters 78*4097
set piece 3 letters
told 2 refused setup 0 TooLong\n
* setup of 5,000 bytes $ replay letters 30000 16 first out
page letters 78*5000
set piece 3 letters
told 2 refused setup 0 TooLong\n
";

/// One outside call fails or none. "hi" of interval 1 is released by the key that comes with "yo" of interval 3. The opening of SETUP
/// is 1, that of CAPTURE 2, and that of OUT 3.
pub const OUTSIDE: &str = r"
* first release: nothing fails $ replay setup 30000 16 taken new
told 0 arrivals 2\nmalformed 0\nforeign 0\nmisfit 0\nfuture 0\nbadkey 0\nlate 0\nrepeat 0\nfull 0\nkept 2\nkeys 0\ngiven 1\n
holds new released
* first release: the opening of the console $ replay setup 30000 16 taken new
set unopened 0
told 7 |
lacks new
* first release: the opening of SETUP $ replay setup 30000 16 taken new
set unopened 1
told 7 open fault\n
lacks new
* first release: the opening of CAPTURE $ replay setup 30000 16 taken new
set unopened 2
told 7 open fault\n
lacks new
* first release: the opening of OUT $ replay setup 30000 16 taken new
set unopened 3
told 7 open fault\n
lacks new
* first release: the first read of SETUP $ replay setup 30000 16 taken new
set fails 0 setup
told 4 read fault\n
lacks new
* first release: the first write of OUT $ replay setup 30000 16 taken new
set fails 0 new
told 5 write fault\n
holds new
* first release: no room for OUT $ replay setup 30000 16 taken new
set room 0 new
told 5 write fault\n
holds new
* first release: the first write of the console $ replay setup 30000 16 taken new
set fails 0 -
told 5 write fault\n
holds new released
";
