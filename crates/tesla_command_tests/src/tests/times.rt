//! Runs of `lag`, `ask` and `reply` over desks that fail or that move few bytes a call, with the messages that another program
//! made, and what a console is told that fails.

/// Calls that fail or that move few bytes.
pub const FAULTS: &str = r"
* second read of the key of lag fails $ lag empty reply key 10000
set piece 7 key,fails 1 key
told 4 read fault\n
* room for seven bytes of the ask $ ask 5000000 out
set room 7 out
told 5 write fault\n
front out 7 ask
* all of ask moves a byte a call $ ask 5000000 out
set piece 1 out,piece 1 -
told 0 asked 5000000\n
holds out ask
* room for seven bytes of the reply $ reply ask key 5020000 out
set room 7 out
told 5 write fault\n
front out 7 reply
* all of reply moves a byte a call $ reply ask key 5020000 out
set piece 1 ask,piece 1 key,piece 1 out
told 0 replied 5020000\n
holds out reply
* summary on a console of ten bytes $ ask 5000000 out
set room 10 -
told 5 asked 5000|
holds out ask
* usage on a console whose first write fails $ ask
set fails 0 -
told 1 |
* usage on a console of ten bytes $ ask
set room 10 -
told 1 usage: ask|
";
