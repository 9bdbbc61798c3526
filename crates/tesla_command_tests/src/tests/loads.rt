//! Runs of `stress`. Another program made the counts.

/// Over consoles that fail or that move few bytes a call.
pub const FAULTS: &str = r"
* ten messages $ stress 1 10
told 0 arrivals 8\nmalformed 0\nforeign 1\nmisfit 0\nfuture 1\nbadkey 0\nlate 0\nrepeat 0\nfull 0\nkept 5\nkeys 1\ngiven 3\n
* ten messages, on a console that moves a byte a call $ stress 1 10
set piece 1 -
told 0 arrivals 8\nmalformed 0\nforeign 1\nmisfit 0\nfuture 1\nbadkey 0\nlate 0\nrepeat 0\nfull 0\nkept 5\nkeys 1\ngiven 3\n
* ten messages, on a console whose first write fails $ stress 1 10
set fails 0 -
told 5 write fault\n
* ten messages, on a console of ten bytes $ stress 1 10
set room 10 -
told 5 arrivals 8|
* ten messages without a console $ stress 1 10
set unopened 0
told 7 |
";
