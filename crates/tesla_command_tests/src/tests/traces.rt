//! Runs of `trace`, `audit` and `show`. The traces were made by another program.

/// Runs over files and outputs of any piece.
pub const EXAMPLES: &str = r"
* a capture is traced $ trace setup 30000 16 first out
told 0 arrivals 2\nmalformed 0\nforeign 0\nmisfit 0\nfuture 0\nbadkey 0\nlate 0\nrepeat 0\nfull 0\nkept 2\nkeys 0\ngiven 1\n
holds out traced
* that trace is legal $ audit setup 30000 16 traced
told 0 legal 5\n
* a trace with another second verdict is refuted $ audit setup 30000 16 refuted
told 8 refuted 1 Kept 3\n
* a trace without its last byte $ audit setup 30000 16 cut-trace
told 3 refused trace 208 Truncated\n
* a trace is shown $ show traced
told 0 0 arrival 0 1150000 Kept 3 1/0\n1 arrival 0 1350000 Kept 3 3/0\n2 end 0\n3 take 0 Given 0 1 0 0 2\n4 take 0 Over\n
* a tail is shown $ show tail
told 0 7 take 0 Over\n8 end 1\n
* a file with neither head is shown $ show first
told 3 refused trace 0 BadHead\n
";

/// Files that are refused, and calls that fail.
pub const FAULTS: &str = r"
* the records before a refused place are traced $ trace setup 30000 16 cut out
# Behind the last record it is seen that a take is no whole record of a capture.
told 3 refused capture 178 Truncated\n
holds out traced-so-far
* a file that is no capture is traced $ trace setup 30000 16 traced out
told 3 refused capture 0 BadHead\n
front out 6 traced
* room for ten bytes of the trace $ trace setup 30000 16 first out
set room 10 out
told 5 write fault\n
front out 10 traced
* second read of the capture fails $ trace setup 30000 16 first out
# The first read brings the first arrival.
set piece 75 first,fails 1 first
told 4 read fault\n
front out 79 traced
* read of the capture and then the write fail $ trace setup 30000 16 first out
set piece 75 first,fails 1 first,room 9 out
told 4 read fault\n
front out 9 traced
* second read of the trace fails $ audit setup 30000 16 traced
set piece 100 traced,fails 1 traced
told 4 read fault\n
* read behind a wrong entry would fail $ audit setup 30000 16 refuted
set piece 183 refuted,fails 1 refuted
told 8 refuted 1 Kept 3\n
* second read of what is shown fails $ show traced
set piece 100 traced,fails 1 traced
told 4 0 arrival 0 1150000 Kept 3 1/0\nread fault\n
* a cut trace is shown $ show cut-trace
told 3 0 arrival 0 1150000 Kept 3 1/0\n1 arrival 0 1350000 Kept 3 3/0\n2 end 0\n3 take 0 Given 0 1 0 0 2\nrefused trace 208 Truncated\n
* room for ten bytes of what is shown $ show traced
set room 10 -
told 5 0 arrival |
";
