//! The bytes of the parts of an entry.

ghost use Rattle.std.specs.Prelude.{◌≡◌, ◌≤◌, [], ◌∷◌, ◌++◌, codes, take};
ghost use Rattle.std.specs.Int.{w16, w64, to_be_bytes};
ghost use Rattle.tesla_capture.specs.Release.{head_text};
ghost use Rattle.tesla_trace.specs.Trace.{tail_head, trace_head, verdict_text};

use tesla_base::Head;
use tesla_capture::head_bytes;
use tesla_fitting::Verdict;

/// How many bytes a verdict has at most.
const VERDICT_SIZE: usize = 10;

/// A verdict as it is written.
#[derive(Clone, Copy)]
pub struct VerdictBytes {
    /// Its bytes, at the front.
    pub bytes: [u8; VERDICT_SIZE],
    /// How many there are.
    pub length: usize,
    ghost within: { length ≤ 10 },
}

/// The bytes of a verdict, which end the entry of an arrival: its number, and what it tells beside that. It takes no memory.
pub fn verdict_bytes(verdict: Verdict) -> VerdictBytes
    ensures { take result.length result.bytes ≡ verdict_text verdict }
{
    match verdict {
        Verdict::Malformed => short(1, 0, 1),
        Verdict::Foreign { stream } => with_word(2, stream.0),
        Verdict::Misfit => short(3, 0, 1),
        Verdict::Future { bound: None } => short(4, 0, 2),
        Verdict::Future { bound: Some(bound) } => with_bound(bound),
        Verdict::BadKey { chain } => short(5, chain.0, 2),
        Verdict::Late => short(6, 0, 1),
        Verdict::Repeat => short(7, 0, 1),
        Verdict::Full => short(8, 0, 1),
        Verdict::Kept { chains } => short(9, chains, 2),
        Verdict::Keys => short(10, 0, 1),
    }
}

/// One byte or two.
fn short(number: u8, returned: u8, length: usize) -> VerdictBytes
    requires { length ≤ 2 }
    ensures { take result.length result.bytes ≡ take length (number ∷ returned ∷ []) }
{
    let mut bytes = [number; VERDICT_SIZE];
    bytes[1] = returned;
    VerdictBytes { bytes, length }
}

/// A number, and a word of eight bytes.
fn with_word(number: u8, word: u64) -> VerdictBytes
    ensures { take result.length result.bytes ≡ number ∷ to_be_bytes w64 word }
{
    let mut bytes = [number; VERDICT_SIZE];
    bytes[1..9].copy_from_slice(&word.to_be_bytes());
    VerdictBytes { bytes, length: 9 }
}

/// A frame of the future that has a bound.
fn with_bound(bound: u64) -> VerdictBytes
    ensures { take result.length result.bytes ≡ 4 ∷ 1 ∷ to_be_bytes w64 bound }
{
    let mut bytes = [4; VERDICT_SIZE];
    bytes[1] = 1;
    bytes[2..].copy_from_slice(&bound.to_be_bytes());
    VerdictBytes {
        bytes,
        length: VERDICT_SIZE,
    }
}

/// The fields of an arrival before its bytes: the number of its ingest, the reading of the receiver's clock in microseconds,
/// and how many bytes it has. It takes no memory.
pub fn arrival_header(ingest: u8, reading: u64, length: u16) -> [u8; 12]
    ensures { result ≡ 1 ∷ ingest ∷ [] ++ to_be_bytes w64 reading ++ to_be_bytes w16 length }
{
    let mut bytes = [1; 12];
    bytes[1] = ingest;
    bytes[2..10].copy_from_slice(&reading.to_be_bytes());
    bytes[10..].copy_from_slice(&length.to_be_bytes());
    bytes
}

/// The fields of a take that gave a packet, before the payload. It takes no memory.
pub fn given_header(releaser: u8, head: &Head) -> [u8; 20]
    ensures { result ≡ 2 ∷ releaser ∷ 2 ∷ head_text head.now }
{
    let mut bytes = [2; 20];
    bytes[1] = releaser;
    bytes[3..].copy_from_slice(&head_bytes(head));
    bytes
}

/// The head of a trace.
pub(crate) fn trace_head_bytes(ingests: u8) -> [u8; 6]
    ensures { result ≡ trace_head ingests }
{
    let mut bytes = *b"TTRC\x01\x00";
    bytes[5] = ingests;
    bytes
}

/// The head of the last entries of a history, before which so many stand.
pub fn tail_head_bytes(first: u64) -> [u8; 13]
    ensures { result ≡ tail_head first }
{
    let mut bytes = [1; 13];
    bytes[..4].copy_from_slice(b"TTAL");
    bytes[5..].copy_from_slice(&first.to_be_bytes());
    bytes
}
