//! The senders of the later streams of a list, handed from the thread that opens them to the feed.

ghost use Rattle.std.specs.Prelude.{◌≡◌, ◌<◌, ◌++◌, [], List, IfSome, drop, map, true};
ghost use Rattle.std.specs.List.{list_all};
ghost use Rattle.tesla_run_feed.specs.Listing.{IsRight, is_right_stream};
ghost use Rattle.tesla_run_feed.specs.Later.{IsAt, is_unused, stream_of};
ghost use Rattle.tesla_sender.specs.Made.{Stream};
ghost use Rattle.tesla_sender.specs.Stands.{Stands};

use std::alloc::Global;
use std::marker::{Brand, PhantomData};
use std::sync::{Condvar, Mutex, Wait};
use tesla_sender::Sender;

/// The streams whose senders are handed over, in their order. It is named, so that a sender is known to be that of its place.
pub(crate) trait Later {
    ghost streams: { List Stream };
}

impl Later for Brand {
    ghost streams = { [] };
}

// The senders that were opened and not taken yet, in the order of their streams.
#[derive(Drop)]
struct Opened<X: Later> {
    senders: Vec<Sender>,
    // How many were put, and how many of these were taken.
    put: usize,
    taken: usize,
    // Whether one can't be opened.
    failed: bool,
    // Whether no more are wanted.
    ended: bool,
    by: PhantomData<X>,
    ghost are: { map stream_of senders.items ++ drop put X.streams ≡ drop taken X.streams },
    ghost unused: { list_all is_unused senders.items ≡ true },
    ghost right: { list_all is_right_stream (map stream_of senders.items) ≡ true },
}

impl<X: Later> Opened<X> {
    // None yet.
    fn new(alloc: Global) -> Opened<X> {
        Opened {
            senders: Vec::new(alloc),
            put: 0,
            taken: 0,
            failed: false,
            ended: false,
            by: PhantomData,
        }
    }

    // Puts the sender of the stream at this place behind those that are there. False: there is no memory, or it isn't its turn;
    // then one can't be had.
    fn put(&mut self, place: usize, sender: Sender) -> bool
        requires small { place < 16 }
        requires at { IsAt X.streams place sender.stream }
        requires unused { Stands sender [] }
        requires right { IsRight sender.stream }
    {
        if self.put != place || self.senders.push(sender).is_err() {
            self.failed = true;
            return false;
        }
        self.put += 1;
        true
    }

    // Takes the sender of the stream at this place. `None`: it isn't there, or it isn't its turn.
    fn take(&mut self, place: usize) -> Option<Sender>
        requires small { place < 16 }
        ensures { IfSome result (λ sender. Stands sender [] × IsAt X.streams place sender.stream × IsRight sender.stream) }
    {
        if self.taken != place || self.senders.is_empty() {
            return None;
        }
        self.taken += 1;
        Some(self.senders.remove(0))
    }
}

/// The senders that one thread opens and another takes.
#[derive(Drop)]
pub(crate) struct Shared<X: Later> {
    opened: Mutex<Opened<X>>,
    moved: Condvar,
}

impl<X: Later> Shared<X> {
    /// None was opened yet.
    pub(crate) fn new(alloc: Global) -> Shared<X> {
        Shared {
            opened: Mutex::new(Opened::new(alloc)),
            moved: Condvar::new(),
        }
    }

    /// Puts the sender of the stream at this place. False: there is no memory, or it isn't its turn.
    pub(crate) fn put<R: Wait>(&self, rt: &R, place: usize, sender: Sender) -> bool
        requires small { place < 16 }
        requires at { IsAt X.streams place sender.stream }
        requires unused { Stands sender [] }
        requires right { IsRight sender.stream }
    {
        let done = self.opened.lock(rt).put(place, sender);
        self.moved.notify_all();
        done
    }

    /// Waits until the sender of the stream at this place is there, and takes it. `None`: one can't be opened.
    pub(crate) fn take<R: Wait>(&self, rt: &R, place: usize) -> Option<Sender>
        requires small { place < 16 }
        ensures { IfSome result (λ sender. Stands sender [] × IsAt X.streams place sender.stream × IsRight sender.stream) }
    {
        let mut opened = self.moved.wait_while(rt, self.opened.lock(rt), |opened| {
            opened.senders.is_empty() && !opened.failed
        });
        opened.take(place)
    }

    /// Tells that a sender can't be opened.
    pub(crate) fn fail<R: Wait>(&self, rt: &R) {
        self.opened.lock(rt).failed = true;
        self.moved.notify_all();
    }

    /// Whether one can't be opened, as far as that is known.
    pub(crate) fn has_failed<R: Wait>(&self, rt: &R) -> bool {
        self.opened.lock(rt).failed
    }

    /// Tells that no more are wanted.
    pub(crate) fn end<R: Wait>(&self, rt: &R) {
        self.opened.lock(rt).ended = true;
    }

    /// Whether no more are wanted.
    pub(crate) fn has_ended<R: Wait>(&self, rt: &R) -> bool {
        self.opened.lock(rt).ended
    }
}
