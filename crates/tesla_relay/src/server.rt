//! What sends the datagrams of the queue before one post.

ghost use Rattle.std.specs.Prelude.{◌≡◌, ◌≤◌, ◌++◌, ◌∷◌, [], ℕ, List, true, false, length, take};
ghost use Rattle.std.specs.Arc.{arc_value};
ghost use Rattle.crossbeam_queue.specs.Passes.{view, IsSamePass};
ghost use Rattle.tesla_desk.specs.Faults.{HasCause};
ghost use Rattle.tesla_desk.specs.Posts.{Posts};
ghost use Rattle.tesla_relay.specs.Due.{Basis, IsNextRelayed};
ghost use Rattle.tesla_relay.specs.Posts.{PostSeen};
ghost use Rattle.tesla_relay.specs.Feeding.{HasServed, IsServing, IsDone, IsSameServer, ServerSeen, ServesOn, SendsNext};
ghost use Rattle.tesla_relay.specs.Lists.{MayServe, ServesAll};
ghost use Rattle.tesla_relay.specs.Line.{popped_log};

use crate::basis::Based;
use crate::buffers::{FreeBuffers, give_buffer};
use crate::line::{Item, Line, LinePass, datagram_in, take_out};
use crate::tally::PostSide;
use std::marker::{Model, PhantomData};
use std::sync::{Arc, Wait};
use tesla_desk::{Gate, Post, PostStep};

/// What a server found in its queue.
#[derive(Clone, Copy)]
enum Served {
    /// A datagram, which was sent unless the post had failed.
    Datagram,
    /// Nothing.
    Nothing,
    /// The end.
    End,
}

/// The permission of a post to send what comes next for it. It takes no bytes.
#[derive(Drop)]
pub struct Permit<X: Based, P: Post> {
    basis: PhantomData<X>,
    post: PhantomData<P>,
    ghost due: { (post : P) (datagram : List ℕ) → IsNextRelayed X.basis (record { name = P.name post; sent = P.sent post; faults = P.faults post }) datagram → P.may_send post datagram ≡ true },
}

impl<X: Based, P: Post> Permit<X, P> {
    // The permission, where a post may send what comes next for it.
    fn new() -> Permit<X, P>
        requires due { (post : P) (datagram : List ℕ) → IsNextRelayed X.basis (record { name = P.name post; sent = P.sent post; faults = P.faults post }) datagram → P.may_send post datagram ≡ true }
    {
        Permit {
            basis: PhantomData,
            post: PhantomData,
        }
    }
}

// Sends the datagram that comes next for a post.
fn send_next<X: Based, P: Post>(_permit: &Permit<X, P>, post: &mut P, datagram: &[u8]) -> PostStep
    requires few { length datagram.now ≤ 2048 }
    requires next { IsNextRelayed X.basis (record { name = P.name post.old; sent = P.sent post.old; faults = P.faults post.old }) datagram.now }
    ensures step { Posts (P.sent post.old) (P.sent post.new) datagram.now result }
    ensures cause { HasCause (P.faults post.old) (P.faults post.new) (result ≡ PostStep.Failed) }
    ensures name { P.name post.new ≡ P.name post.old }
{
    post.send(datagram)
}

/// What sends the datagrams of the queue before one post.
pub struct Server<X: Based, P: Post, G: Gate> {
    pub post: P,
    pub side: PostSide<G>,
    pub line: Arc<Line<X>>,
    pub pass: LinePass,
    // Where a buffer goes once its datagram is sent.
    pub free: FreeBuffers,
    /// How many were sent. The count stands still at 2^64 - 1.
    pub sent: u64,
    /// Whether the post failed.
    pub failed: bool,
    // That a post may send what comes next for it.
    pub permit: Permit<X, P>,
}

impl<X: Based, P: Post, G: Gate> Model for Server<X, P, G> {
    ghost use Rattle.std.specs.Arc.{arc_value};
    ghost use Rattle.tesla_relay.specs.Feeding.{ServerSeen};

    ghost Value = { ServerSeen };

    ghost view = { λ it. record { post = record { name = P.name it.post; sent = P.sent it.post; faults = P.faults it.post }; table = (arc_value it.line).table.shared.table_id; pass = it.pass; sent = it.sent; failed = it.failed } };
}

impl<X: Based, P: Post, G: Gate> Server<X, P, G> {
    /// A server that has sent nothing.
    pub fn new(
        post: P,
        side: PostSide<G>,
        line: Arc<Line<X>>,
        pass: LinePass,
        free: FreeBuffers,
    ) -> Server<X, P, G>
        requires due { (post : P) (datagram : List ℕ) → IsNextRelayed X.basis (record { name = P.name post; sent = P.sent post; faults = P.faults post }) datagram → P.may_send post datagram ≡ true }
        ensures post { result.post ≡ record { name = P.name post; sent = P.sent post; faults = P.faults post } }
        ensures pass { (result.table ≡ (arc_value line).table.shared.table_id) × (result.pass ≡ pass) }
        ensures counts { (result.sent ≡ 0) × (result.failed ≡ false) }
    {
        Server {
            post,
            side,
            line,
            pass,
            free,
            sent: 0,
            failed: false,
            permit: Permit::new(),
        }
    }

    // Sends the datagram that comes next, unless the post has failed.
    fn send(&mut self, datagram: &[u8])
        requires few { length datagram.now ≤ 2048 }
        requires next { self.old.failed ≡ false → IsNextRelayed X.basis self.old.post datagram.now }
        ensures { SendsNext datagram.now self.old self.new }
    {
        if self.failed {
            return;
        }
        match send_next(&self.permit, &mut self.post, datagram) {
            PostStep::Sent => {
                self.sent = self.sent.saturating_add(1);
                self.side.tally.raise_sent();
            }
            PostStep::Failed => self.failed = true,
        }
    }

    // Takes the oldest item out, and sends it where it is a datagram.
    fn step<R: Wait>(&mut self, rt: &R) -> Served
        requires { MayServe X.basis self.old }
        ensures on { ServesOn self.old self.new }
        ensures done { result ≡ Served.End → IsDone self.new }
    {
        match take_out(&self.line, &mut self.pass) {
            Some(
                Item::Datagram {
                    number: _number,
                    length,
                    bytes,
                },
            ) => {
                self.send(datagram_in(length, &bytes));
                give_buffer(rt, &mut self.free, bytes);
                Served::Datagram
            }
            Some(Item::End) => Served::End,
            None => Served::Nothing,
        }
    }

    /// Sends what comes through the queue, until its end comes. Where nothing is there it rests at the gate.
    pub fn serve<R: Wait>(&mut self, rt: &R)
        requires { MayServe X.basis self.old }
        ensures on { ServesOn self.old self.new }
        ensures done { IsDone self.new }
    {
        for _ in rt.forever() {
            self.side.gate.before();
            let served = self.step(rt);
            self.side.gate.after();
            match served {
                Served::Datagram => {}
                Served::Nothing => self.side.gate.rest(),
                Served::End => return,
            }
        }
        unreachable!()
    }

    /// Sends what the queue holds now.
    pub fn empty<R: Wait>(&mut self, rt: &R)
        requires { MayServe X.basis self.old }
        ensures { ServesOn self.old self.new }
    {
        for _ in rt.forever() {
            self.side.gate.before();
            let served = self.step(rt);
            self.side.gate.after();
            match served {
                Served::Datagram => {}
                Served::Nothing | Served::End => return,
            }
        }
        unreachable!()
    }
}

/// What serves a queue.
pub trait Serve {
    /// What is seen of it.
    ghost seen: { Self → ServerSeen };

    /// What its relay rests on.
    ghost basis: { Basis };

    /// Sends what comes through the queue, until its end comes.
    fn serve_on<R: Wait>(&mut self, rt: &R)
        requires { MayServe basis (seen self.old) }
        ensures { ServesAll (seen self.old) (seen self.new) };

    /// Sends what the queue holds now.
    fn serve_now<R: Wait>(&mut self, rt: &R)
        requires { MayServe basis (seen self.old) }
        ensures { ServesOn (seen self.old) (seen self.new) };
}

impl<X: Based, P: Post, G: Gate> Serve for Server<X, P, G> {
    ghost seen = { λ it. it };

    ghost basis = { X.basis };

    fn serve_on<R: Wait>(&mut self, rt: &R) {
        self.serve(rt);
    }

    fn serve_now<R: Wait>(&mut self, rt: &R) {
        self.empty(rt);
    }
}
