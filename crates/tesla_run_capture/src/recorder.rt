//! The capture of what was heard so far, of which the last records are gathered and not written yet.

ghost use Rattle.std.specs.Prelude.{◌≡◌, ◌≤◌, ◌-◌, ◌+◌, ◌^◌, ◌++◌, [], ℕ, length, true, false};
ghost use Rattle.tesla_capture.specs.Gathering.{Gathers, gathered};
ghost use Rattle.tesla_desk.specs.Faults.{HasCause};
ghost use Rattle.tesla_desk.specs.Outside.{AppendsPrefix, with_bytes};
ghost use Rattle.tesla_run_capture.specs.Heard.{IsFull, IsHeard, piece_of};

use tesla_capture::Gatherer;
use tesla_desk::{Clock, Output};

/// How many bytes a capture has at most.
const LIMIT: u64 = 1 << 40;

/// How many bytes the head of a capture has.
const HEAD: u64 = 5;

/// How many bytes an arrival has beside those of its datagram, with the take behind it.
const AROUND: usize = 12;

/// How many bytes an arrival and a take have at most.
const LONGEST: u64 = 2060;

/// The capture of what was heard so far, of which the last records are gathered and not written yet.
#[derive(Drop)]
pub struct Recorder {
    gatherer: Gatherer,
    // How many datagrams were heard, and how many bytes the capture has with its head.
    count: u64,
    size: u64,
    ghost few: { count ≤ size },
    ghost most: { size ≤ 2 ^ 40 },
}

// Writes what is gathered as one piece, where there is something. False: the write failed.
fn write_gathered<S: Output>(gatherer: &mut Gatherer, output: &mut S) -> bool
    requires { S.may_write output.old (gathered gatherer.old) ≡ true }
    ensures all { result ≡ true → S.written output.new ≡ with_bytes (S.written output.old) (gathered gatherer.old) }
    ensures empty { result ≡ true → gathered gatherer.new ≡ [] }
    ensures prefix { AppendsPrefix (S.written output.old) (S.written output.new) (gathered gatherer.old) }
    ensures cause { HasCause (S.faults output.old) (S.faults output.new) (result ≡ false) }
    ensures name { S.name output.new ≡ S.name output.old }
{
    let piece = gatherer.bytes();
    if piece.is_empty() {
        return true;
    }
    if !output.write_piece(piece) {
        return false;
    }
    gatherer.clear();
    true
}

// Writes what is gathered where so many bytes more don't fit. False: the write failed.
fn make_room<S: Output>(gatherer: &mut Gatherer, more: usize, output: &mut S) -> bool
    requires limit { more ≤ 8192 }
    requires permitted { S.may_write output.old (gathered gatherer.old) ≡ true }
    ensures room { result ≡ true → length (gathered gatherer.new) + more ≤ 8192 }
    ensures all { result ≡ true → Gathers (S.written output.old) (S.written output.new) (gathered gatherer.new) (gathered gatherer.old) }
    ensures prefix { result ≡ false → AppendsPrefix (S.written output.old) (S.written output.new) (gathered gatherer.old) }
    ensures cause { HasCause (S.faults output.old) (S.faults output.new) (result ≡ false) }
    ensures name { S.name output.new ≡ S.name output.old }
{
    if gatherer.has_room(more) {
        return true;
    }
    write_gathered(gatherer, output)
}

// Puts the records of a datagram behind those gathered, which are written first where they don't fit: an arrival at this
// reading, and a take. False: the write failed.
fn put_records<S: Output>(
    gatherer: &mut Gatherer,
    reading: u64,
    bytes: &[u8],
    output: &mut S,
) -> bool
    requires short { length bytes.now ≤ 2048 }
    requires permitted { S.may_write output.old (gathered gatherer.old) ≡ true }
    ensures limits { IsHeard (record { reading = reading; bytes = bytes.now }) }
    ensures all { result ≡ true → Gathers (S.written output.old) (S.written output.new) (gathered gatherer.new) (gathered gatherer.old ++ piece_of (record { reading = reading; bytes = bytes.now })) }
    ensures prefix { result ≡ false → AppendsPrefix (S.written output.old) (S.written output.new) (gathered gatherer.old ++ piece_of (record { reading = reading; bytes = bytes.now })) }
    ensures cause { HasCause (S.faults output.old) (S.faults output.new) (result ≡ false) }
    ensures name { S.name output.new ≡ S.name output.old }
{
    if !make_room(gatherer, AROUND + bytes.len(), output) {
        return false;
    }
    gatherer.add_arrival(reading, bytes);
    gatherer.add_take();
    true
}

impl Recorder {
    ghost use Rattle.tesla_run_capture.specs.Recording.{Puts};

    /// The capture of nothing, whose head is written. It takes no memory.
    pub fn new() -> Recorder
        ensures gathered { gathered result.gatherer ≡ [] }
        ensures counts { (result.count ≡ 0) × (result.size ≡ 5) }
    {
        Recorder {
            gatherer: Gatherer::new(),
            count: 0,
            size: HEAD,
        }
    }

    /// How many datagrams were heard.
    pub fn count(&self) -> u64
        ensures { result ≡ self.now.count }
    {
        self.count
    }

    /// Whether there may be no room for another datagram.
    pub fn is_full(&self) -> bool
        ensures full { result ≡ true → IsFull self.now.size }
        ensures room { result ≡ false → self.now.size ≤ 2 ^ 40 - 2060 }
    {
        LIMIT - LONGEST < self.size
    }

    /// Asks the clock for the reading of a datagram of at most 2,048 bytes, which has just come, and puts its records
    /// behind those gathered. Where they don't fit, these are written first. It takes no memory.
    ///
    /// False: the write failed, and the output's count of faults rose.
    pub fn put<C: Clock, S: Output>(&mut self, bytes: &[u8], clock: &mut C, output: &mut S) -> bool
        requires short { length bytes.now ≤ 2048 }
        requires room { self.old.size ≤ 2 ^ 40 - 2060 }
        requires asked { (number : ℕ) × (C.may_ask number bytes.now ≡ true) }
        requires permitted { S.may_write output.old (gathered self.old.gatherer) ≡ true }
        ensures puts { Puts C.may_ask C.read_for bytes.now self.old self.new (S.written output.old) (S.written output.new) (C.told clock.old) (C.told clock.new) result }
        ensures cause { HasCause (S.faults output.old) (S.faults output.new) (result ≡ false) }
        ensures name { S.name output.new ≡ S.name output.old }
    {
        let reading = clock.now_for(bytes);
        if !put_records(&mut self.gatherer, reading, bytes, output) {
            return false;
        }
        self.size += (AROUND + bytes.len()) as u64;
        self.count += 1;
        true
    }

    /// Writes what is gathered, which the output may write. It takes no memory.
    ///
    /// True: all was written, and nothing is gathered. False: the write failed, and the output's count of faults rose.
    pub fn write<S: Output>(&mut self, output: &mut S) -> bool
        requires { S.may_write output.old (gathered self.old.gatherer) ≡ true }
        ensures all { result ≡ true → S.written output.new ≡ with_bytes (S.written output.old) (gathered self.old.gatherer) }
        ensures empty { result ≡ true → gathered self.new.gatherer ≡ [] }
        ensures prefix { AppendsPrefix (S.written output.old) (S.written output.new) (gathered self.old.gatherer) }
        ensures counts { (self.new.count ≡ self.old.count) × (self.new.size ≡ self.old.size) }
        ensures cause { HasCause (S.faults output.old) (S.faults output.new) (result ≡ false) }
        ensures name { S.name output.new ≡ S.name output.old }
    {
        write_gathered(&mut self.gatherer, output)
    }
}
