//! What puts the datagrams of the link into the queue of one post.

ghost use Rattle.std.specs.Prelude.{◌≡◌, ◌<◌, ◌≤◌, ◌+◌, ◌-◌, ◌^◌, ◌∷◌, ◌++◌, [], ℕ, List, true, false, length, take};
ghost use Rattle.crossbeam_queue.specs.Passes.{view, IsSamePass};
ghost use Rattle.tesla_relay.specs.Feeding.{IsFeeding};
ghost use Rattle.tesla_relay.specs.Line.{numbered_in, put_log};
ghost use Rattle.tesla_relay.specs.Lists.{FeedsAll};
ghost use Rattle.tesla_relay.specs.Offers.{Offers, WasOffered};
ghost use Rattle.tesla_relay.specs.declared.line.Item.{Item};
ghost use Rattle.tesla_relay.specs.declared.line.Item.TheVariants.{Datagram, End};

use crate::basis::Based;
use crate::buffers::{Buffer, FreeBuffers, give_buffer, take_buffer};
use crate::line::{Item, Line, LinePass, datagram_in, put_in};
use crate::post_queues::PostQueues;
use crate::tally::PostTally;
use std::sync::{Arc, Wait};
use std::thread;
use tesla_base::MOST_DATAGRAM;

/// Of how many datagrams of a link the first are put into a queue. It takes none behind those.
const MOST_CAME: u64 = (1 << 62) - 2;

// Copies a datagram of this size, and none of the bytes behind it.
fn copy_datagram(size: u16, from: &[u8; MOST_DATAGRAM], to: &mut [u8; MOST_DATAGRAM])
    ensures { take size to.new ≡ take size from.now }
{
    let datagram = datagram_in(size, from);
    to[..datagram.len()].copy_from_slice(datagram);
}

// A copy of a datagram in one of these buffers. It waits until there is one.
fn copy_of<R: Wait>(
    rt: &R,
    free: &mut FreeBuffers,
    size: u16,
    bytes: &[u8; MOST_DATAGRAM],
) -> Buffer
    ensures { take size result.value ≡ take size bytes.now }
{
    let mut buffer = take_buffer(rt, free);
    copy_datagram(size, bytes, &mut buffer);
    buffer
}

// Gives the buffer of an item back.
fn give_back<R: Wait>(rt: &R, free: &mut FreeBuffers, item: Item) {
    if let Item::Datagram {
        number: _,
        length: _,
        bytes,
    } = item
    {
        give_buffer(rt, free, bytes);
    }
}

/// What puts datagrams into the queue of one post, and counts those that it drops.
#[derive(Drop)]
pub struct Feed<X: Based> {
    pub line: Arc<Line<X>>,
    pub pass: LinePass,
    // Where the buffers for the datagrams come from.
    pub free: FreeBuffers,
    // The place of the post among the posts, counted from 0.
    pub post: usize,
    // How many datagrams the queue holds at most. It has one place more, for the end.
    pub capacity: usize,
    // How many came. The count stands still at 2^62 - 2.
    pub came: u64,
    /// How many were dropped. The count stands still at 2^64 - 1.
    pub dropped: u64,
    // Where others read how many were.
    pub tally: Arc<PostTally>,
}

impl<X: Based> Feed<X> {
    /// A feed to which nothing came.
    pub fn new(
        line: Arc<Line<X>>,
        pass: LinePass,
        free: FreeBuffers,
        capacity: usize,
        tally: Arc<PostTally>,
    ) -> Feed<X>
        ensures line { result.line ≡ line }
        ensures pass { result.pass ≡ pass }
        ensures counts { (result.capacity ≡ capacity) × (result.came ≡ 0) × (result.dropped ≡ 0) }
    {
        Feed {
            line,
            pass,
            free,
            post: 0,
            capacity,
            came: 0,
            dropped: 0,
            tally,
        }
    }

    // Whether the queue holds fewer datagrams than it may.
    fn has_room<R: Wait, Q: PostQueues>(&mut self, rt: &R) -> bool
        requires feeding { IsFeeding self.old }
        requires brought { self.old.came < 2 ^ 62 - 2 → (bytes : List ℕ) × (X.basis.brought self.old.came bytes ≡ true) }
        ensures room { result ≡ true → self.old.came < 2 ^ 62 - 2 }
        ensures full { result ≡ false → self.old.capacity ≤ length (view self.old.pass).put }
        ensures offered { result ≡ false → WasOffered (Q.was_put X.basis.brought) (Q.was_full X.basis.brought) self.old.capacity self.old.post self.old.came }
        ensures pass { IsSamePass self.old.pass self.new.pass × (view self.new.pass ≡ view self.old.pass) }
        ensures same { (self.new.line ≡ self.old.line) × (self.new.capacity ≡ self.old.capacity) × (self.new.came ≡ self.old.came) × (self.new.dropped ≡ self.old.dropped) × (self.new.post ≡ self.old.post) }
    {
        if MOST_CAME <= self.came {
            return false;
        }
        Q::length(rt, &self.line, &mut self.pass, self.post, self.came) < self.capacity
    }

    // Puts a copy of a datagram in.
    fn put_copy<R: Wait, Q: PostQueues>(
        &mut self,
        rt: &R,
        size: u16,
        bytes: &[u8; MOST_DATAGRAM],
    ) -> bool
        requires feeding { IsFeeding self.old }
        requires brought { X.basis.brought self.old.came (take size bytes.now) ≡ true }
        ensures put { result ≡ true → (item : Item) × (numbered_in item ≡ record { number = self.old.came; bytes = take size bytes.now } ∷ []) × (view self.new.pass ≡ put_log ((view self.old.pass).put ++ item ∷ [])) }
        ensures full { result ≡ false → (self.old.capacity ≤ length (view self.old.pass).put) × (view self.new.pass ≡ view self.old.pass) }
        ensures offered { WasOffered (Q.was_put X.basis.brought) (Q.was_full X.basis.brought) self.old.capacity self.old.post self.old.came }
        ensures pass { IsSamePass self.old.pass self.new.pass }
        ensures same { (self.new.line ≡ self.old.line) × (self.new.capacity ≡ self.old.capacity) × (self.new.came ≡ self.old.came) × (self.new.dropped ≡ self.old.dropped) × (self.new.post ≡ self.old.post) }
    {
        let copy = copy_of(rt, &mut self.free, size, bytes);
        let item = Item::Datagram {
            number: self.came,
            length: size,
            bytes: copy,
        };
        match Q::put(rt, &self.line, &mut self.pass, self.post, item) {
            Ok(()) => true,
            Err(item) => {
                give_back(rt, &mut self.free, item);
                false
            }
        }
    }

    // Puts a datagram in where there is room.
    fn put<R: Wait, Q: PostQueues>(
        &mut self,
        rt: &R,
        size: u16,
        bytes: &[u8; MOST_DATAGRAM],
    ) -> bool
        requires feeding { IsFeeding self.old }
        requires brought { self.old.came < 2 ^ 62 - 2 → X.basis.brought self.old.came (take size bytes.now) ≡ true }
        ensures put { result ≡ true → (item : Item) × (numbered_in item ≡ record { number = self.old.came; bytes = take size bytes.now } ∷ []) × (view self.new.pass ≡ put_log ((view self.old.pass).put ++ item ∷ [])) × (self.old.came < 2 ^ 62 - 2) }
        ensures full { result ≡ false → (self.old.capacity ≤ length (view self.old.pass).put) × (view self.new.pass ≡ view self.old.pass) }
        ensures offered { WasOffered (Q.was_put X.basis.brought) (Q.was_full X.basis.brought) self.old.capacity self.old.post self.old.came }
        ensures pass { IsSamePass self.old.pass self.new.pass }
        ensures same { (self.new.line ≡ self.old.line) × (self.new.capacity ≡ self.old.capacity) × (self.new.came ≡ self.old.came) × (self.new.dropped ≡ self.old.dropped) × (self.new.post ≡ self.old.post) }
    {
        self.has_room::<R, Q>(rt) && self.put_copy::<R, Q>(rt, size, bytes)
    }

    /// Puts a datagram in, which stands at the start of these bytes and which the link brought behind those that came
    /// before, or drops it where the queue holds as many as it may.
    pub fn offer<R: Wait, Q: PostQueues>(
        &mut self,
        rt: &R,
        length: u16,
        bytes: &[u8; MOST_DATAGRAM],
    )
        requires feeding { IsFeeding self.old }
        requires brought { self.old.came < 2 ^ 62 - 2 → X.basis.brought self.old.came (take length bytes.now) ≡ true }
        ensures { Offers (Q.was_put X.basis.brought) (Q.was_full X.basis.brought) (take length bytes.now) self.old self.new }
    {
        let kept = self.put::<R, Q>(rt, length, bytes);
        self.came = (self.came + 1).min(MOST_CAME);
        if kept {
            return;
        }
        self.dropped = self.dropped.saturating_add(1);
        self.tally.raise_dropped();
    }

    /// Puts the end in, for which there is a place of its own.
    pub fn close<R: Wait>(&mut self, rt: &R)
        requires { IsFeeding self.old }
        ensures { FeedsAll [] self.old self.new }
    {
        for _ in rt.forever() {
            if put_in(rt, &self.line, &mut self.pass, Item::End).is_ok() {
                return;
            }
            thread::yield_now();
        }
        unreachable!()
    }
}
