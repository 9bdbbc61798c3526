//! Runs of `send` and `chain` over desks that fail or that move few bytes a call, with the captures and setups that another
//! program made.

/// Calls that fail or that move few bytes, and records that are refused.
pub const FAULTS: &str = r"
* second read of the script fails $ send setup secret backward out
set piece 17 backward,fails 1 backward
told 4 read fault\n
holds out backward-sent
* room for ten bytes of the capture $ send setup secret hi out
# The captures of all messages have the same first bytes.
set room 10 out
told 5 write fault\n
front out 10 sent
* read of the script and then the write fail $ send setup secret backward out
set piece 17 backward,fails 1 backward,room 10 out
told 4 read fault\n
front out 10 backward-sent
* read behind a refused record would fail $ send setup secret backward out
set piece 29 backward,fails 1 backward
told 3 refused script 17 Backward\n
holds out backward-sent
* write before a refused record fails $ send setup secret backward out
set room 10 out
told 5 write fault\n
front out 10 backward-sent
* read fault with a full output in send $ send setup secret script out
# The first read brings one message.
set piece 18 script,fails 1 script,room 7 out
told 4 read fault\n
front out 7 sent
* fault behind a refused place in send $ send setup secret yo-first out
set piece 31 yo-first,fails 1 yo-first
told 3 refused script 18 Backward\n
holds out yo-sent
* room for ten bytes of the setup $ chain out secret 00000000000000a7 1000000 100000 8 2 5
set room 10 out
told 5 write fault\n
front out 10 setup
* all moves seven bytes a call $ chain out secret 00000000000000a7 1000000 100000 8 2 5
set piece 7 secret,piece 7 out,piece 7 -
told 0 chains 2\n
holds out setup
* one seed in pieces of three bytes $ chain out one-seed 00000000000000a7 1000000 100000 8 2
set piece 3 one-seed
told 0 chains 1\n
holds out setup-of-one-chain
* too few seeds in pieces of three bytes $ chain out one-seed 00000000000000a7 1000000 100000 8 2 5
set piece 3 one-seed
told 3 refused seeds 3 WrongCount\n
";
