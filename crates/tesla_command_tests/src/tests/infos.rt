//! Runs of `info`, and where one of its calls fails. Dates are those of GNU date, and sums those of sha256sum.

/// Setups that are told, that are refused, and that aren't read.
pub const FAULTS: &str = r"
* base setup $ info setup
told 0 stream 00000000000000a7\nversion 1\ntag 16\ninterval 100000\nlast 8\nstart 1000000\nbegins 1970-01-01T00:00:01Z\nend 1900000\nends 1970-01-01T00:00:01Z\nleft 8\nleft-seconds 0\nchain 0 delay 2 index 0 latency 200000 lag-most 100000\nchain 1 delay 5 index 0 latency 500000 lag-most 400000\ncapacity 1\nsha256 21d966054664aef1acac561c5561834ce794aa253432c0d60dd40a1a9ee1d7d7\n
* more than a second before the end of the last interval, and before the begin $ info setup 1
clock 0 899999
told 0 stream 00000000000000a7\nversion 1\ntag 16\ninterval 100000\nlast 8\nstart 1000000\nbegins 1970-01-01T00:00:01Z\nend 1900000\nends 1970-01-01T00:00:01Z\nleft 9\nleft-seconds 1\nchain 0 delay 2 index 0 latency 200000 lag-most 100000\nchain 1 delay 5 index 0 latency 500000 lag-most 400000\ncapacity 1\nsha256 21d966054664aef1acac561c5561834ce794aa253432c0d60dd40a1a9ee1d7d7\n
* last microsecond of the last interval, for two packets a second $ info setup 2
clock 0 1899999
told 0 stream 00000000000000a7\nversion 1\ntag 16\ninterval 100000\nlast 8\nstart 1000000\nbegins 1970-01-01T00:00:01Z\nend 1900000\nends 1970-01-01T00:00:01Z\nleft 1\nleft-seconds 0\nchain 0 delay 2 index 0 latency 200000 lag-most 100000\nchain 1 delay 5 index 0 latency 500000 lag-most 400000\ncapacity 2\nsha256 21d966054664aef1acac561c5561834ce794aa253432c0d60dd40a1a9ee1d7d7\n
* end of the last interval $ info setup
clock 0 1900000
told 0 stream 00000000000000a7\nversion 1\ntag 16\ninterval 100000\nlast 8\nstart 1000000\nbegins 1970-01-01T00:00:01Z\nend 1900000\nends 1970-01-01T00:00:01Z\nleft 0\nleft-seconds 0\nchain 0 delay 2 index 0 latency 200000 lag-most 100000\nchain 1 delay 5 index 0 latency 500000 lag-most 400000\ncapacity 1\nsha256 21d966054664aef1acac561c5561834ce794aa253432c0d60dd40a1a9ee1d7d7\n
* long behind the end, for 1667 packets a second $ info setup 1667
clock 0 99000000
told 0 stream 00000000000000a7\nversion 1\ntag 16\ninterval 100000\nlast 8\nstart 1000000\nbegins 1970-01-01T00:00:01Z\nend 1900000\nends 1970-01-01T00:00:01Z\nleft 0\nleft-seconds 0\nchain 0 delay 2 index 0 latency 200000 lag-most 100000\nchain 1 delay 5 index 0 latency 500000 lag-most 400000\ncapacity 1001\nsha256 21d966054664aef1acac561c5561834ce794aa253432c0d60dd40a1a9ee1d7d7\n
* clock that couldn't be read $ info setup
clock 0 18446744073709551615
told 0 stream 00000000000000a7\nversion 1\ntag 16\ninterval 100000\nlast 8\nstart 1000000\nbegins 1970-01-01T00:00:01Z\nend 1900000\nends 1970-01-01T00:00:01Z\nchain 0 delay 2 index 0 latency 200000 lag-most 100000\nchain 1 delay 5 index 0 latency 500000 lag-most 400000\ncapacity 1\nsha256 21d966054664aef1acac561c5561834ce794aa253432c0d60dd40a1a9ee1d7d7\n
* setup of version 2 $ info setup-with-tags
told 0 stream 00000000000000a7\nversion 2\ntag 10\ninterval 100000\nlast 8\nstart 1000000\nbegins 1970-01-01T00:00:01Z\nend 1900000\nends 1970-01-01T00:00:01Z\nleft 8\nleft-seconds 0\nchain 0 delay 2 index 0 latency 200000 lag-most 100000\nchain 1 delay 5 index 0 latency 500000 lag-most 400000\ncapacity 1\nsha256 64d79edc9500850cefc3138af6f96feea378736c784a0f2507bfd70a48192925\n
* stream with the greatest number that begins on a date, with a chain of the greatest delay $ info dated
clock 0 1796109634567890
told 0 stream ffffffffffffffff\nversion 2\ntag 32\ninterval 100000\nlast 36000\nstart 1796108400000000\nbegins 2026-12-01T07:00:00Z\nend 1796112000100000\nends 2026-12-01T08:00:00Z\nleft 23656\nleft-seconds 2365\nchain 0 delay 1 index 0 latency 100000 lag-most 0\nchain 1 delay 2 index 36000 latency 200000 lag-most 100000\nchain 2 delay 4096 index 7 latency 409600000 lag-most 409500000\ncapacity 410\nsha256 5cd27cabe8a5e31fc5b76e7aa80252ac5aeaf0ee2a34a9c84ecb43f7443c3eff\n
* same for 1000 packets a second $ info dated 1000
clock 0 1796109634567890
told 0 stream ffffffffffffffff\nversion 2\ntag 32\ninterval 100000\nlast 36000\nstart 1796108400000000\nbegins 2026-12-01T07:00:00Z\nend 1796112000100000\nends 2026-12-01T08:00:00Z\nleft 23656\nleft-seconds 2365\nchain 0 delay 1 index 0 latency 100000 lag-most 0\nchain 1 delay 2 index 36000 latency 200000 lag-most 100000\nchain 2 delay 4096 index 7 latency 409600000 lag-most 409500000\ncapacity 409700\nsha256 5cd27cabe8a5e31fc5b76e7aa80252ac5aeaf0ee2a34a9c84ecb43f7443c3eff\n
* begin in the last microsecond of a leap day $ info leap-day
told 0 stream 0000000000000001\nversion 1\ntag 16\ninterval 1000\nlast 1\nstart 1835481599999999\nbegins 2028-02-29T23:59:59Z\nend 1835481600001999\nends 2028-03-01T00:00:00Z\nleft 2\nleft-seconds 1835481598\nchain 0 delay 1 index 0 latency 1000 lag-most 0\ncapacity 1\nsha256 c17e933670ada22216c68ea309237beae456f4669985f56826ebedaf999d7694\n
* end behind the last number of 64 bits $ info last-year
told 0 stream 00000000000000a7\nversion 1\ntag 16\ninterval 3600000000\nlast 1048576\nstart 18446744073709551615\nbegins 586524-01-19T08:01:49Z\nend 18450518950909551615\nends 586643-09-03T01:01:49Z\nleft 1048577\nleft-seconds 18450518950908\nchain 0 delay 1 index 0 latency 3600000000 lag-most 0\nchain 1 delay 4096 index 1048576 latency 14745600000000 lag-most 14742000000000\ncapacity 14749200\nsha256 7a3963be4a6356007b1c67fd139e715ac3043d27bc7a83e90e684c1e49f4537f\n
* same in the microsecond before its begin, for 1000000 packets a second $ info last-year 1000000
clock 0 18446744073709551614
told 0 stream 00000000000000a7\nversion 1\ntag 16\ninterval 3600000000\nlast 1048576\nstart 18446744073709551615\nbegins 586524-01-19T08:01:49Z\nend 18450518950909551615\nends 586643-09-03T01:01:49Z\nleft 1048577\nleft-seconds 3774877200\nchain 0 delay 1 index 0 latency 3600000000 lag-most 0\nchain 1 delay 4096 index 1048576 latency 14745600000000 lag-most 14742000000000\ncapacity 14749200000000\nsha256 7a3963be4a6356007b1c67fd139e715ac3043d27bc7a83e90e684c1e49f4537f\n
* third chain that has the commitment of the first, and the fourth that of the second $ info equal-commitments
told 2 refused setup 8 EqualCommitments\n
* version 2 with two equal commitments of other indexes $ info equal-of-version-2
told 2 refused setup 8 EqualCommitments\n
* setup whose delays are equal $ info equal
told 2 refused setup 7 DelaysNotRising\n
* setup that is empty $ info empty
told 2 refused setup 1 BadLine\n
* setup that isn't there $ info nothing
told 7 open fault\n
* second read of the setup fails $ info setup
set piece 7 setup,fails 1 setup
told 4 read fault\n
* console of ten bytes $ info setup
set room 10 -
told 5 stream 000|
* a word too many $ info setup 1 1
told 1 usage: ask READING ASK-OUT\nusage: reply ASK KEY READING REPLY-OUT\nusage: show TRACE\nusage: seeds COUNT SECRET-OUT\nusage: info SETUP [RATE]\n
* rate that is a name $ info setup setup
told 1 usage: ask READING ASK-OUT\nusage: reply ASK KEY READING REPLY-OUT\nusage: show TRACE\nusage: seeds COUNT SECRET-OUT\nusage: info SETUP [RATE]\n
* no packet a second $ info setup 0
told 1 usage: ask READING ASK-OUT\nusage: reply ASK KEY READING REPLY-OUT\nusage: show TRACE\nusage: seeds COUNT SECRET-OUT\nusage: info SETUP [RATE]\n
* rate above the greatest $ info setup 1000001
told 1 usage: ask READING ASK-OUT\nusage: reply ASK KEY READING REPLY-OUT\nusage: show TRACE\nusage: seeds COUNT SECRET-OUT\nusage: info SETUP [RATE]\n
* rate with a zero in front $ info setup 01
told 1 usage: ask READING ASK-OUT\nusage: reply ASK KEY READING REPLY-OUT\nusage: show TRACE\nusage: seeds COUNT SECRET-OUT\nusage: info SETUP [RATE]\n
";
