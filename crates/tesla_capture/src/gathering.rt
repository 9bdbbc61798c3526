//! Records of captures, of scripts and of released packets, gathered before they are written.

ghost use Rattle.std.specs.Prelude.{◌≡◌, ◌≤◌, ◌<◌, ◌+◌, [], ◌++◌, length, true, false};
ghost use Rattle.tesla_desk.specs.Faults.{HasCause};
ghost use Rattle.tesla_desk.specs.Outside.{AppendsPrefix, with_bytes};
ghost use Rattle.tesla_capture.specs.Capture.{head as capture_head, record_text, Arrives, Takes};
ghost use Rattle.tesla_capture.specs.Release.{accepted_text, followed_text, marked_text, release_text};
ghost use Rattle.tesla_capture.specs.Script.{head as script_head, record_text as script_record, Sends, Discloses};

use crate::format::{CaptureFormat, Format, ScriptFormat};
use crate::writing::{
    accepted_bytes, arrival_bytes, disclosure_bytes, followed_head_bytes, head_bytes,
    marked_head_bytes,
};
use tesla_base::{Head, Name};
use tesla_desk::{Sink, write_all};

/// How many bytes are gathered at most.
const PIECE: usize = 8192;

/// Whole records that aren't written yet, at most 8,192 bytes of them.
#[derive(Drop)]
pub struct Gatherer {
    piece: [u8; PIECE],
    length: usize,
    ghost within: { length ≤ 8192 },
}

impl Gatherer {
    ghost use Rattle.tesla_capture.specs.Gathering.{gathered, Gathers};

    /// A gatherer with no record. It takes no memory.
    pub fn new() -> Gatherer
        ensures { gathered result ≡ [] }
    {
        Gatherer {
            piece: [0; PIECE],
            length: 0,
        }
    }

    /// Puts the record of a released packet, whose payload has the head's length of at most 1,200 bytes,
    /// behind the records gathered. Where it doesn't fit, these are written to the sink first; where it fits,
    /// the sink is left as it was. It takes no memory.
    ///
    /// True: the record was put. False: a prefix of the records gathered was written, and the sink's count of
    /// faults rose.
    pub fn put<S: Sink>(&mut self, sink: &mut S, head: &Head, payload: &[u8]) -> bool
        requires same { head.now.length ≡ length payload.now }
        requires limit { length payload.now ≤ 1200 }
        ensures all { result ≡ true → Gathers (S.written sink.old) (S.written sink.new) (gathered self.new) (gathered self.old ++ release_text head.now payload.now) }
        ensures prefix { result ≡ false → AppendsPrefix (S.written sink.old) (S.written sink.new) (gathered self.old) }
        ensures kept { result ≡ false → gathered self.new ≡ gathered self.old }
        ensures waits { length (gathered self.old) + 17 + length payload.now ≤ 8192 → sink.new ≡ sink.old }
        ensures cause { HasCause (S.faults sink.old) (S.faults sink.new) (result ≡ false) }
        ensures name { S.name sink.new ≡ S.name sink.old }
    {
        self.put_both(sink, &head_bytes(head), payload)
    }

    /// Puts the record of a released packet behind one byte, which tells its epoch or its kind, and both behind the records
    /// gathered, as `put` does. It takes no memory.
    ///
    /// True: both were put. False: a prefix of the records gathered was written, and the sink's count of
    /// faults rose.
    pub fn put_marked<S: Sink>(
        &mut self,
        sink: &mut S,
        mark: u8,
        head: &Head,
        payload: &[u8],
    ) -> bool
        requires same { head.now.length ≡ length payload.now }
        requires limit { length payload.now ≤ 1200 }
        ensures all { result ≡ true → Gathers (S.written sink.old) (S.written sink.new) (gathered self.new) (gathered self.old ++ marked_text mark head.now payload.now) }
        ensures prefix { result ≡ false → AppendsPrefix (S.written sink.old) (S.written sink.new) (gathered self.old) }
        ensures kept { result ≡ false → gathered self.new ≡ gathered self.old }
        ensures waits { length (gathered self.old) + 18 + length payload.now ≤ 8192 → sink.new ≡ sink.old }
        ensures cause { HasCause (S.faults sink.old) (S.faults sink.new) (result ≡ false) }
        ensures name { S.name sink.new ≡ S.name sink.old }
    {
        self.put_both(sink, &marked_head_bytes(mark, head), payload)
    }

    /// Puts the head of a capture behind the records gathered, as `put` does. It takes no memory.
    ///
    /// True: the head was put. False: a prefix of the records gathered was written, and the sink's count of
    /// faults rose.
    pub fn put_head<S: Sink>(&mut self, sink: &mut S) -> bool
        ensures all { result ≡ true → Gathers (S.written sink.old) (S.written sink.new) (gathered self.new) (gathered self.old ++ capture_head) }
        ensures prefix { result ≡ false → AppendsPrefix (S.written sink.old) (S.written sink.new) (gathered self.old) }
        ensures kept { result ≡ false → gathered self.new ≡ gathered self.old }
        ensures waits { length (gathered self.old) + 5 ≤ 8192 → sink.new ≡ sink.old }
        ensures cause { HasCause (S.faults sink.old) (S.faults sink.new) (result ≡ false) }
        ensures name { S.name sink.new ≡ S.name sink.old }
    {
        self.put_one(sink, &CaptureFormat::head())
    }

    /// Puts the record of an arrival of at most 2,048 bytes, with the reading of the receiver's clock in
    /// microseconds, behind the records gathered, as `put` does. It takes no memory.
    ///
    /// True: the record was put. False: a prefix of the records gathered was written, and the sink's count of
    /// faults rose.
    pub fn put_arrival<S: Sink>(&mut self, sink: &mut S, reading: u64, bytes: &[u8]) -> bool
        requires { length bytes.now ≤ 2048 }
        ensures all { result ≡ true → Gathers (S.written sink.old) (S.written sink.new) (gathered self.new) (gathered self.old ++ record_text (Arrives reading bytes.now)) }
        ensures prefix { result ≡ false → AppendsPrefix (S.written sink.old) (S.written sink.new) (gathered self.old) }
        ensures kept { result ≡ false → gathered self.new ≡ gathered self.old }
        ensures waits { length (gathered self.old) + 11 + length bytes.now ≤ 8192 → sink.new ≡ sink.old }
        ensures cause { HasCause (S.faults sink.old) (S.faults sink.new) (result ≡ false) }
        ensures name { S.name sink.new ≡ S.name sink.old }
    {
        self.put_both(sink, &arrival_bytes(reading, bytes.len() as u16), bytes)
    }

    /// Puts the record of a take behind the records gathered, as `put` does. It takes no memory.
    ///
    /// True: the record was put. False: a prefix of the records gathered was written, and the sink's count of
    /// faults rose.
    pub fn put_take<S: Sink>(&mut self, sink: &mut S) -> bool
        ensures all { result ≡ true → Gathers (S.written sink.old) (S.written sink.new) (gathered self.new) (gathered self.old ++ record_text Takes) }
        ensures prefix { result ≡ false → AppendsPrefix (S.written sink.old) (S.written sink.new) (gathered self.old) }
        ensures kept { result ≡ false → gathered self.new ≡ gathered self.old }
        ensures waits { length (gathered self.old) + 1 ≤ 8192 → sink.new ≡ sink.old }
        ensures cause { HasCause (S.faults sink.old) (S.faults sink.new) (result ≡ false) }
        ensures name { S.name sink.new ≡ S.name sink.old }
    {
        self.put_one(sink, &[2])
    }

    /// Puts the record of a message that was accepted on arrival, of this name and with a payload of at most 1,200 bytes,
    /// behind the records gathered, as `put` does. It takes no memory.
    ///
    /// True: the record was put. False: a prefix of the records gathered was written, and the sink's count of
    /// faults rose.
    pub fn put_accepted<S: Sink>(&mut self, sink: &mut S, name: Name, payload: &[u8]) -> bool
        requires { length payload.now ≤ 1200 }
        ensures all { result ≡ true → Gathers (S.written sink.old) (S.written sink.new) (gathered self.new) (gathered self.old ++ accepted_text name payload.now) }
        ensures prefix { result ≡ false → AppendsPrefix (S.written sink.old) (S.written sink.new) (gathered self.old) }
        ensures kept { result ≡ false → gathered self.new ≡ gathered self.old }
        ensures waits { length (gathered self.old) + 9 + length payload.now ≤ 8192 → sink.new ≡ sink.old }
        ensures cause { HasCause (S.faults sink.old) (S.faults sink.new) (result ≡ false) }
        ensures name { S.name sink.new ≡ S.name sink.old }
    {
        self.put_both(sink, &accepted_bytes(name, payload.len() as u16), payload)
    }

    /// Puts the head of a script behind the records gathered, as `put` does. It takes no memory.
    ///
    /// True: the head was put. False: a prefix of the records gathered was written, and the sink's count of
    /// faults rose.
    pub fn put_script_head<S: Sink>(&mut self, sink: &mut S) -> bool
        ensures all { result ≡ true → Gathers (S.written sink.old) (S.written sink.new) (gathered self.new) (gathered self.old ++ script_head) }
        ensures prefix { result ≡ false → AppendsPrefix (S.written sink.old) (S.written sink.new) (gathered self.old) }
        ensures kept { result ≡ false → gathered self.new ≡ gathered self.old }
        ensures waits { length (gathered self.old) + 5 ≤ 8192 → sink.new ≡ sink.old }
        ensures cause { HasCause (S.faults sink.old) (S.faults sink.new) (result ≡ false) }
        ensures name { S.name sink.new ≡ S.name sink.old }
    {
        self.put_one(sink, &ScriptFormat::head())
    }

    /// Puts the record of a message of a script, with a payload of at most 1,200 bytes and the reading of the sender's clock
    /// in microseconds, behind the records gathered, as `put` does. It takes no memory.
    ///
    /// True: the record was put. False: a prefix of the records gathered was written, and the sink's count of
    /// faults rose.
    pub fn put_message<S: Sink>(&mut self, sink: &mut S, reading: u64, payload: &[u8]) -> bool
        requires { length payload.now ≤ 1200 }
        ensures all { result ≡ true → Gathers (S.written sink.old) (S.written sink.new) (gathered self.new) (gathered self.old ++ script_record (Sends reading payload.now)) }
        ensures prefix { result ≡ false → AppendsPrefix (S.written sink.old) (S.written sink.new) (gathered self.old) }
        ensures kept { result ≡ false → gathered self.new ≡ gathered self.old }
        ensures waits { length (gathered self.old) + 11 + length payload.now ≤ 8192 → sink.new ≡ sink.old }
        ensures cause { HasCause (S.faults sink.old) (S.faults sink.new) (result ≡ false) }
        ensures name { S.name sink.new ≡ S.name sink.old }
    {
        self.put_both(sink, &arrival_bytes(reading, payload.len() as u16), payload)
    }

    /// Puts the record of a disclosure of a script, with the reading of the sender's clock in microseconds, behind the
    /// records gathered, as `put` does. It takes no memory.
    ///
    /// True: the record was put. False: a prefix of the records gathered was written, and the sink's count of
    /// faults rose.
    pub fn put_disclosure<S: Sink>(&mut self, sink: &mut S, reading: u64) -> bool
        ensures all { result ≡ true → Gathers (S.written sink.old) (S.written sink.new) (gathered self.new) (gathered self.old ++ script_record (Discloses reading)) }
        ensures prefix { result ≡ false → AppendsPrefix (S.written sink.old) (S.written sink.new) (gathered self.old) }
        ensures kept { result ≡ false → gathered self.new ≡ gathered self.old }
        ensures waits { length (gathered self.old) + 9 ≤ 8192 → sink.new ≡ sink.old }
        ensures cause { HasCause (S.faults sink.old) (S.faults sink.new) (result ≡ false) }
        ensures name { S.name sink.new ≡ S.name sink.old }
    {
        self.put_one(sink, &disclosure_bytes(reading))
    }

    /// Puts three pieces, of at most 8,192 bytes together, one after another behind the records gathered, as `put` does. It
    /// is for records of other formats. It takes no memory.
    ///
    /// True: they were put. False: a prefix of the records gathered was written, and the sink's count of faults rose.
    pub fn put_parts<S: Sink>(
        &mut self,
        sink: &mut S,
        header: &[u8],
        body: &[u8],
        back: &[u8],
    ) -> bool
        requires { length header.now + length body.now + length back.now ≤ 8192 }
        ensures all { result ≡ true → Gathers (S.written sink.old) (S.written sink.new) (gathered self.new) (gathered self.old ++ (header.now ++ body.now ++ back.now)) }
        ensures prefix { result ≡ false → AppendsPrefix (S.written sink.old) (S.written sink.new) (gathered self.old) }
        ensures kept { result ≡ false → gathered self.new ≡ gathered self.old }
        ensures waits { length (gathered self.old) + (length header.now + length body.now + length back.now) ≤ 8192 → sink.new ≡ sink.old }
        ensures cause { HasCause (S.faults sink.old) (S.faults sink.new) (result ≡ false) }
        ensures name { S.name sink.new ≡ S.name sink.old }
    {
        if !self.make_room(sink, header.len() + body.len() + back.len()) {
            return false;
        }
        self.append_parts(header, body, back);
        true
    }

    /// Writes the records gathered; where there is none, the sink is left as it was. It takes no memory.
    ///
    /// True: they were written, and none is gathered now. False: a prefix of them was written, and the
    /// sink's count of faults rose.
    pub fn flush<S: Sink>(&mut self, sink: &mut S) -> bool
        ensures all { result ≡ true → S.written sink.new ≡ with_bytes (S.written sink.old) (gathered self.old) }
        ensures empty { result ≡ true → gathered self.new ≡ [] }
        ensures kept { result ≡ false → gathered self.new ≡ gathered self.old }
        ensures prefix { AppendsPrefix (S.written sink.old) (S.written sink.new) (gathered self.old) }
        ensures idle { gathered self.old ≡ [] → sink.new ≡ sink.old }
        ensures cause { HasCause (S.faults sink.old) (S.faults sink.new) (result ≡ false) }
        ensures name { S.name sink.new ≡ S.name sink.old }
    {
        if self.length == 0 {
            return true;
        }
        let written = write_all(sink, &self.piece[..self.length]);
        if written {
            self.length = 0;
        }
        written
    }

    /// Puts the record of an arrival of at most 2,048 bytes, with the reading of the receiver's clock in
    /// microseconds, behind the records gathered, where there is room for it. It takes no memory.
    pub fn add_arrival(&mut self, reading: u64, bytes: &[u8])
        requires short { length bytes.now ≤ 2048 }
        requires room { length (gathered self.old) + 11 + length bytes.now ≤ 8192 }
        ensures { gathered self.new ≡ gathered self.old ++ record_text (Arrives reading bytes.now) }
    {
        self.append_both(&arrival_bytes(reading, bytes.len() as u16), bytes);
    }

    /// Puts the record of a take behind the records gathered, where there is room for it. It takes no memory.
    pub fn add_take(&mut self)
        requires { length (gathered self.old) + 1 ≤ 8192 }
        ensures { gathered self.new ≡ gathered self.old ++ record_text Takes }
    {
        self.append(&[2]);
    }

    /// Puts the record of a released packet, whose payload has the head's length of at most 1,200 bytes, behind the records
    /// gathered, where there is room for it. It takes no memory.
    pub fn add_release(&mut self, head: &Head, payload: &[u8])
        requires same { head.now.length ≡ length payload.now }
        requires limit { length payload.now ≤ 1200 }
        requires room { length (gathered self.old) + 17 + length payload.now ≤ 8192 }
        ensures { gathered self.new ≡ gathered self.old ++ release_text head.now payload.now }
    {
        self.append_both(&head_bytes(head), payload);
    }

    /// Puts the record of a follower, of this kind and epoch, whose payload has the head's length of at most 1,200 bytes, behind
    /// the records gathered, where there is room for it. It takes no memory.
    pub fn add_followed(&mut self, kind: u8, epoch: u32, head: &Head, payload: &[u8])
        requires same { head.now.length ≡ length payload.now }
        requires limit { length payload.now ≤ 1200 }
        requires room { length (gathered self.old) + 22 + length payload.now ≤ 8192 }
        ensures { gathered self.new ≡ gathered self.old ++ followed_text kind epoch head.now payload.now }
    {
        self.append_both(&followed_head_bytes(kind, epoch, head), payload);
    }

    /// Whether there is room for so many bytes behind the records gathered.
    pub fn has_room(&self, more: usize) -> bool
        ensures room { result ≡ true → length (gathered self.now) + more ≤ 8192 }
        ensures none { result ≡ false → 8192 < length (gathered self.now) + more }
    {
        more <= PIECE - self.length
    }

    /// The bytes of the records gathered, for a caller that writes them itself.
    pub fn bytes(&self) -> &[u8]
        ensures { result.now ≡ gathered self.now }
    {
        &self.piece[..self.length]
    }

    /// Lets go of the records gathered, which the caller has written.
    pub fn clear(&mut self)
        ensures { gathered self.new ≡ [] }
    {
        self.length = 0;
    }

    /// Puts bytes, for which there is room, behind those gathered.
    fn append(&mut self, bytes: &[u8])
        requires room { length (gathered self.old) + length bytes.now ≤ 8192 }
        ensures bytes { gathered self.new ≡ gathered self.old ++ bytes.now }
    {
        let until = self.length + bytes.len();
        self.piece[self.length..until].copy_from_slice(bytes);
        self.length = until;
    }

    /// Puts bytes behind those gathered, which are written before where there is no room.
    fn put_one<S: Sink>(&mut self, sink: &mut S, bytes: &[u8]) -> bool
        requires { length bytes.now ≤ 8192 }
        ensures all { result ≡ true → Gathers (S.written sink.old) (S.written sink.new) (gathered self.new) (gathered self.old ++ bytes.now) }
        ensures prefix { result ≡ false → AppendsPrefix (S.written sink.old) (S.written sink.new) (gathered self.old) }
        ensures kept { result ≡ false → gathered self.new ≡ gathered self.old }
        ensures waits { length (gathered self.old) + length bytes.now ≤ 8192 → sink.new ≡ sink.old }
        ensures cause { HasCause (S.faults sink.old) (S.faults sink.new) (result ≡ false) }
        ensures name { S.name sink.new ≡ S.name sink.old }
    {
        if !self.make_room(sink, bytes.len()) {
            return false;
        }
        self.append(bytes);
        true
    }

    /// Puts one piece and then the other behind the bytes gathered, which are written before where there is no
    /// room for both.
    fn put_both<S: Sink>(&mut self, sink: &mut S, header: &[u8], back: &[u8]) -> bool
        requires { length header.now + length back.now ≤ 8192 }
        ensures all { result ≡ true → Gathers (S.written sink.old) (S.written sink.new) (gathered self.new) (gathered self.old ++ (header.now ++ back.now)) }
        ensures prefix { result ≡ false → AppendsPrefix (S.written sink.old) (S.written sink.new) (gathered self.old) }
        ensures kept { result ≡ false → gathered self.new ≡ gathered self.old }
        ensures waits { length (gathered self.old) + length header.now + length back.now ≤ 8192 → sink.new ≡ sink.old }
        ensures cause { HasCause (S.faults sink.old) (S.faults sink.new) (result ≡ false) }
        ensures name { S.name sink.new ≡ S.name sink.old }
    {
        if !self.make_room(sink, header.len() + back.len()) {
            return false;
        }
        self.append_both(header, back);
        true
    }

    /// Puts two pieces, for which there is room, behind the bytes gathered.
    fn append_both(&mut self, header: &[u8], back: &[u8])
        requires room { length (gathered self.old) + length header.now + length back.now ≤ 8192 }
        ensures { gathered self.new ≡ gathered self.old ++ (header.now ++ back.now) }
    {
        self.append(header);
        self.append(back);
    }

    /// Puts three pieces, for which there is room, behind the bytes gathered.
    fn append_parts(&mut self, header: &[u8], body: &[u8], back: &[u8])
        requires room { length (gathered self.old) + (length header.now + length body.now + length back.now) ≤ 8192 }
        ensures { gathered self.new ≡ gathered self.old ++ (header.now ++ body.now ++ back.now) }
    {
        self.append_both(header, body);
        self.append(back);
    }

    /// Writes the records gathered where so many bytes more don't fit.
    fn make_room<S: Sink>(&mut self, sink: &mut S, more: usize) -> bool
        requires limit { more ≤ 8192 }
        ensures room { result ≡ true → length (gathered self.new) + more ≤ 8192 }
        ensures all { result ≡ true → Gathers (S.written sink.old) (S.written sink.new) (gathered self.new) (gathered self.old) }
        ensures prefix { result ≡ false → AppendsPrefix (S.written sink.old) (S.written sink.new) (gathered self.old) }
        ensures kept { result ≡ false → gathered self.new ≡ gathered self.old }
        ensures waits { length (gathered self.old) + more ≤ 8192 → sink.new ≡ sink.old }
        ensures cause { HasCause (S.faults sink.old) (S.faults sink.new) (result ≡ false) }
        ensures name { S.name sink.new ≡ S.name sink.old }
    {
        if more <= PIECE - self.length {
            return true;
        }
        self.flush(sink)
    }
}
