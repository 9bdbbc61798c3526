//! A file of records of any format, read ahead from a source in pieces.

ghost use Rattle.std.specs.Prelude.{◌≡◌, ◌<◌, ◌≤◌, ◌+◌, ◌-◌, ◌^◌, [], List, ℕ, Option, None, Some, IfSome, length, take, drop};
ghost use Rattle.tesla_base.specs.Prefix.{AreBytes};
ghost use Rattle.tesla_desk.specs.Faults.{HasCause};
ghost use Rattle.tesla_records.specs.Grammar.{limit, Awaits, AwaitsHead};

use crate::format::Format;
use crate::found::{Found, HeadFound, head_found, record_found};
use crate::refusal::Refusal;
use tesla_desk::{ReadStep, Source};

/// How many bytes a reader holds at most, and asks for at once.
const PIECE: usize = 4096;

/// How many bytes a file has at most.
const LIMIT: u64 = 1 << 40;

/// The bytes of a file of at most 2^40 bytes that were read ahead, at most 4,096, and the place where they begin.
#[derive(Drop)]
pub struct PieceReader {
    piece: [u8; PIECE],
    from: usize,
    until: usize,
    place: u64,
    ghost ordered: { from ≤ until },
    ghost within: { until ≤ 4096 },
    ghost limited: { place + (until - from) ≤ 2 ^ 40 },
}

/// Each item of a slice of bytes is a byte.
fn are_bytes(bytes: &[u8])
    ensures { AreBytes bytes.now }
{}

impl PieceReader {
    ghost use Rattle.tesla_records.specs.Pieces.{pending, ahead};
    ghost use Rattle.tesla_records.specs.Found.{Finds, IsPending, AwaitsRecord, FindsHead, HeadIsPending, ReadsOn};

    /// A reader that has nothing pending at a place.
    pub fn at(place: u64) -> PieceReader
        requires { place ≤ limit }
        ensures pending { pending result ≡ [] }
        ensures place { result.place ≡ place }
    {
        PieceReader {
            piece: [0; PIECE],
            from: 0,
            until: 0,
            place,
        }
    }

    /// How many bytes were taken.
    pub fn place(&self) -> u64
        ensures value { result ≡ self.now.place }
        ensures limited { result ≤ limit }
    {
        self.place
    }

    /// The bytes that were read and not taken yet.
    pub fn pending(&self) -> &[u8]
        ensures value { result.now ≡ pending self.now }
        ensures bytes { AreBytes (pending self.now) }
    {
        let pending = &self.piece[self.from..self.until];
        are_bytes(pending);
        pending
    }

    /// Takes so many of the pending bytes.
    pub fn advance(&mut self, count: usize)
        requires { count ≤ length (pending self.old) }
        ensures pending { pending self.new ≡ drop count (pending self.old) }
        ensures place { self.new.place ≡ self.old.place + count }
    {
        self.from += count;
        self.place += count as u64;
    }

    /// Reads on until it is known whether the head is there.
    pub fn find_head<F: Format, S: Source>(&mut self, source: &mut S) -> HeadFound<F::Head>
        requires { self.old.place ≡ 0 }
        ensures place { self.new.place ≡ 0 }
        ensures whole { HeadIsPending F.grammar F.head_of result (pending self.new) }
        ensures finds { (rest : List ℕ) → ahead self.old (S.left source.old) ≡ Some rest → FindsHead F.grammar F.head_of result (pending self.new) rest (S.left source.new) }
        ensures cut { result ≡ HeadFound.Failed → F.grammar.parse_head (pending self.new) ≡ AwaitsHead }
        ensures cause { HasCause (S.faults source.old) (S.faults source.new) (result ≡ HeadFound.Failed) }
        ensures name { S.name source.new ≡ S.name source.old }
    {
        loop {
            if let Some(found) = head_found::<F>(self.pending()) {
                return found;
            }
            match self.read_on(source) {
                ReadStep::Got(_) => {}
                ReadStep::End => return HeadFound::Bad,
                ReadStep::Failed => return HeadFound::Failed,
            }
        }
    }

    /// Reads on until it is known what comes next.
    pub fn find_record<F: Format, S: Source>(&mut self, source: &mut S) -> Found<F::Kind>
        ensures place { self.new.place ≡ self.old.place }
        ensures whole { IsPending F.grammar result (pending self.new) }
        ensures finds { (rest : List ℕ) → ahead self.old (S.left source.old) ≡ Some rest → Finds F.grammar F.kind_of result self.new.place (pending self.new) rest (S.left source.new) }
        ensures cut { result ≡ Found.Failed → AwaitsRecord F.grammar self.new.place (pending self.new) }
        ensures cause { HasCause (S.faults source.old) (S.faults source.new) (result ≡ Found.Failed) }
        ensures name { S.name source.new ≡ S.name source.old }
    {
        loop {
            if let Some(found) = record_found::<F>(self.pending()) {
                return found;
            }
            if let Some(found) = self.find_end::<F, S>(source) {
                return found;
            }
        }
    }

    /// Reads once where neither a whole record nor a refused one is pending. None: there are more bytes.
    fn find_end<F: Format, S: Source>(&mut self, source: &mut S) -> Option<Found<F::Kind>>
        requires { F.grammar.parse (pending self.old) ≡ Awaits }
        ensures place { self.new.place ≡ self.old.place }
        ensures more { result ≡ None → length (pending self.old) < length (pending self.new) }
        ensures ahead { result ≡ None → ahead self.new (S.left source.new) ≡ ahead self.old (S.left source.old) }
        ensures whole { IfSome result (λ found. IsPending F.grammar found (pending self.new)) }
        ensures finds { IfSome result (λ found. (rest : List ℕ) → ahead self.old (S.left source.old) ≡ Some rest → Finds F.grammar F.kind_of found self.new.place (pending self.new) rest (S.left source.new)) }
        ensures cut { result ≡ Some Found.Failed → AwaitsRecord F.grammar self.new.place (pending self.new) }
        ensures cause { HasCause (S.faults source.old) (S.faults source.new) (result ≡ Some Found.Failed) }
        ensures name { S.name source.new ≡ S.name source.old }
    {
        if self.place + self.held() as u64 == LIMIT {
            return Some(self.find_past::<F, S>(source));
        }
        match self.read_on(source) {
            ReadStep::Got(_) => None,
            ReadStep::End if self.held() == 0 => Some(Found::End),
            ReadStep::End => Some(Found::Refused(Refusal::Truncated)),
            ReadStep::Failed => Some(Found::Failed),
        }
    }

    /// Whether the file goes on where its first 2^40 bytes were read.
    fn find_past<F: Format, S: Source>(&self, source: &mut S) -> Found<F::Kind>
        requires awaits { F.grammar.parse (pending self.now) ≡ Awaits }
        requires full { self.now.place + length (pending self.now) ≡ limit }
        ensures whole { IsPending F.grammar result (pending self.now) }
        ensures finds { (rest : List ℕ) → ahead self.now (S.left source.old) ≡ Some rest → Finds F.grammar F.kind_of result self.now.place (pending self.now) rest (S.left source.new) }
        ensures cut { result ≡ Found.Failed → AwaitsRecord F.grammar self.now.place (pending self.now) }
        ensures cause { HasCause (S.faults source.old) (S.faults source.new) (result ≡ Found.Failed) }
        ensures name { S.name source.new ≡ S.name source.old }
    {
        if 0 < self.held() {
            return Found::Refused(Refusal::TooLarge);
        }
        match source.read(&mut [0]) {
            ReadStep::Got(_) => Found::Refused(Refusal::TooLarge),
            ReadStep::End => Found::End,
            ReadStep::Failed => Found::Failed,
        }
    }

    /// Reads once behind the pending bytes, as many as there is room for within the limit.
    fn read_on<S: Source>(&mut self, source: &mut S) -> ReadStep
        requires few { length (pending self.old) < 4096 }
        requires below { self.old.place + length (pending self.old) < limit }
        ensures place { self.new.place ≡ self.old.place }
        ensures reads { ReadsOn result (pending self.old) (S.left source.old) (pending self.new) (S.left source.new) }
        ensures cause { HasCause (S.faults source.old) (S.faults source.new) (result ≡ ReadStep.Failed) }
        ensures name { S.name source.new ≡ S.name source.old }
    {
        self.move_to_start();
        let most = LIMIT - self.place;
        let end = if most < PIECE as u64 {
            most as usize
        } else {
            PIECE
        };
        let until = self.until;
        let step = source.read(&mut self.piece[until..end]);
        if let ReadStep::Got(count) = step {
            self.until = until + count;
        }
        step
    }

    /// Moves the pending bytes to the start of the piece.
    fn move_to_start(&mut self)
        ensures pending { pending self.new ≡ pending self.old }
        ensures from { self.new.from ≡ 0 }
        ensures place { self.new.place ≡ self.old.place }
    {
        if 0 < self.from {
            let (from, until) = (self.from, self.until);
            self.piece.copy_within(from..until, 0);
            self.from = 0;
            self.until = until - from;
        }
    }

    /// How many bytes are pending.
    fn held(&self) -> usize
        ensures { result ≡ length (pending self.now) }
    {
        self.until - self.from
    }
}
