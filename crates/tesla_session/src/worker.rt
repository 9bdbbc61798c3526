//! The workers of a station, each with what it works with.

ghost use Rattle.std.specs.Prelude.{◌≡◌, ◌<◌, ◌+◌, ℕ, suc, List, [], Some, IfSome, true};
ghost use Rattle.tesla_turn.specs.Held.{left_of};
ghost use Rattle.tesla_shared.specs.Due.{IsDue};
ghost use Rattle.tesla_shared.specs.Yields.{Record};
ghost use Rattle.tesla_session.specs.Session.{LinkSeen, SinkSeen, RunsLink, RunsSink};

use std::marker::Model;
use std::sync::Wait;
use tesla_desk::{Clock, Gate, Link, Output};
use tesla_shared::{LinkEnd, SinkEnd, Station, Witnessed, drain, ingest};
use tesla_turn::{Pass, Turn};

/// What makes arrivals of the datagrams of a link.
pub struct LinkWorker<V: Station, K: Link, C: Clock, G: Gate> {
    pub ingest: u8,
    pub link: K,
    pub clock: C,
    pub gate: G,
    pub pass: Pass<Witnessed<V, C>>,
    /// Why it ended last.
    pub end: LinkEnd,
    ghost asked: { (number : ℕ) (bytes : List ℕ) → K.brought number bytes ≡ true → C.may_ask number bytes ≡ true },
    ghost any_link: { (it : K) → K.may_ask it ≡ true },
    ghost own: { pass.number ≡ suc ingest },
    ghost none: { pass.made ≡ [] → K.has_brought link 0 ≡ true },
}

impl<V: Station, K: Link, C: Clock, G: Gate> Model for LinkWorker<V, K, C, G> {
    ghost Value = { LinkSeen V.Config V.Verdict V.Reply };

    ghost view = { λ it. record { ingest = it.ingest; name = K.name it.link; left = K.left it.link; faults = K.faults it.link; told = C.told it.clock; pass = it.pass; end = it.end } };
}

impl<V: Station, K: Link, C: Clock + Drop, G: Gate> LinkWorker<V, K, C, G> {
    /// Does its work, until the link ends or fails or the calls are spent.
    pub fn run<R: Wait>(&mut self, rt: &R, turn: &Turn<Witnessed<V, C>>)
        requires turn { self.old.pass.turn ≡ turn.now }
        requires left { 0 < left_of self.old.pass }
        requires new { self.old.pass.made ≡ [] }
        ensures { RunsLink self.old self.new }
    {
        self.end = ingest(
            rt,
            self.ingest,
            &mut self.link,
            &mut self.clock,
            &mut self.gate,
            turn,
            &mut self.pass,
        );
        // What is left bounds the calls that were made.
        let _left = self.pass.left();
    }
}

/// What writes the records of released packets to a sink. It may write a record exactly where the packet is due.
pub struct SinkWorker<V: Station, C: Clock, S: Output, G: Gate> {
    pub releaser: u8,
    pub sink: S,
    pub gate: G,
    pub pass: Pass<Witnessed<V, C>>,
    /// Why it ended last.
    pub end: SinkEnd,
    ghost own: { (cfg : V.Config) → pass.config ≡ Some cfg → pass.number ≡ suc (V.ingests cfg + releaser) },
    ghost due: { (cfg : V.Config) → pass.config ≡ Some cfg → (it : S) (reply : V.Reply) (text : List ℕ) → S.name it ≡ S.name sink → IsDue V.yields (V.is_legal cfg) (V.ingests cfg) C.read_for releaser (S.written it) reply → V.yields reply ≡ Record text → S.may_write it text ≡ true },
}

impl<V: Station, C: Clock, S: Output, G: Gate> Model for SinkWorker<V, C, S, G> {
    ghost Value = { SinkSeen V.Config V.Verdict V.Reply };

    ghost view = { λ it. record { releaser = it.releaser; name = S.name it.sink; written = S.written it.sink; faults = S.faults it.sink; pass = it.pass; end = it.end } };
}

impl<V: Station, C: Clock + Drop, S: Output, G: Gate> SinkWorker<V, C, S, G> {
    /// Does its work, until all ingests have ended or the sink fails or the calls are spent.
    pub fn run<R: Wait>(&mut self, rt: &R, turn: &Turn<Witnessed<V, C>>)
        requires turn { self.old.pass.turn ≡ turn.now }
        requires new { self.old.pass.made ≡ [] }
        requires empty { IfSome self.old.written (λ bytes. bytes ≡ []) }
        ensures { RunsSink V.yields self.old self.new }
    {
        self.end = drain(
            rt,
            self.releaser,
            &mut self.sink,
            &mut self.gate,
            turn,
            &mut self.pass,
        );
    }
}
