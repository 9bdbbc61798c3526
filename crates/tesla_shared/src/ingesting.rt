//! The worker of a link.

ghost use Rattle.std.specs.Prelude.{◌≡◌, ◌<◌, ◌+◌, ◌++◌, ◌∷◌, ◌↔◌, ◌≤◌, [], ℕ, List, IfSome, Some, length, map, true};
ghost use Rattle.tesla_desk.specs.Faults.{HasCause};
ghost use Rattle.tesla_receiver.specs.declared.history.Arrival.{Arrival};
ghost use Rattle.tesla_receiver.specs.declared.history.Entry.TheVariants.{Arrived, Ended};
ghost use Rattle.tesla_turn.specs.Held.{OnlyCalls, left_of};
ghost use Rattle.tesla_desk.specs.Clocks.{Ticks};
ghost use Rattle.tesla_shared.specs.Due.{PermitsArrivals, PermitsEnd};
ghost use Rattle.tesla_shared.specs.Workers.{HearsOne, HearsAll, Ingests};

use crate::acts::{EndIngest, Hear, Heard};
use crate::station::Station;
use std::sync::Wait;
use tesla_base::MOST_DATAGRAM;
use tesla_desk::{Clock, Gate, Got, Link};
use tesla_turn::{Pass, Permitting, Turn};

/// Why a worker asked its link for nothing more.
#[derive(Clone, Copy, Debug, PartialEq, Eq)]
pub enum LinkEnd {
    /// Nothing was left.
    Ended,
    /// The link failed.
    Failed,
    /// The pass had one call left, which is kept for the end.
    Spent,
}

/// Makes of each datagram of the link one arrival of the ingest, with a reading of the clock that is taken in the
/// arrival's own turn, until the link ends or fails or the pass has one call left; and then ends the ingest.
///
/// It waits for the link and for its turns, and nothing is promised of when it ends. It takes no memory.
#[tactic(auto, using(crate::proofs::Hearing::ends_after, crate::proofs::Passing::only_more))]
pub fn ingest<R: Wait, V: Station + Permitting, K: Link, C: Clock, G: Gate>(
    rt: &R,
    number: u8,
    link: &mut K,
    clock: &mut C,
    gate: &mut G,
    turn: &Turn<V>,
    pass: &mut Pass<V>,
) -> LinkEnd
    requires own { pass.old.turn ≡ turn.now }
    requires left { 0 < left_of pass.old }
    requires asked { (number : ℕ) (bytes : List ℕ) → K.brought number bytes ≡ true → C.may_ask number bytes ≡ true }
    requires any_link { (link : K) → K.may_ask link ≡ true }
    requires none { K.has_brought link.old 0 ≡ true }
    requires arrivals { PermitsArrivals V.permits C.read_for number pass.old }
    requires end { PermitsEnd V.permits number pass.old }
    ensures ingests { Ingests number pass.old.made pass.new.made (K.left link.old) (K.left link.new) (C.told clock.old) (C.told clock.new) }
    ensures ended { result ≡ LinkEnd.Ended → IfSome (K.left link.new) (λ rest. rest ≡ []) }
    ensures cause { HasCause (K.faults link.old) (K.faults link.new) (result ≡ LinkEnd.Failed) }
    ensures spent { (result ≡ LinkEnd.Spent) ↔ (left_of pass.new ≡ 0) }
    ensures calls { OnlyCalls pass.old pass.new }
    ensures name { K.name link.new ≡ K.name link.old }
{
    let end = hear_all(rt, number, link, clock, gate, turn, pass);
    end_once(rt, number, gate, turn, pass);
    end
}

/// Makes an arrival of each datagram, and keeps one call.
#[tactic(auto, using(crate::proofs::Hearing::hears_none, crate::proofs::Hearing::hears_more, crate::proofs::Hearing::hears_quiet, crate::proofs::Passing::only_more))]
fn hear_all<R: Wait, V: Station + Permitting, K: Link, C: Clock, G: Gate>(
    rt: &R,
    number: u8,
    link: &mut K,
    clock: &mut C,
    gate: &mut G,
    turn: &Turn<V>,
    pass: &mut Pass<V>,
) -> LinkEnd
    requires own { pass.old.turn ≡ turn.now }
    requires left { 0 < left_of pass.old }
    requires asked { (number : ℕ) (bytes : List ℕ) → K.brought number bytes ≡ true → C.may_ask number bytes ≡ true }
    requires any_link { (link : K) → K.may_ask link ≡ true }
    requires none { K.has_brought link.old 0 ≡ true }
    requires arrivals { PermitsArrivals V.permits C.read_for number pass.old }
    ensures hears { HearsAll number pass.old.made pass.new.made (K.left link.old) (K.left link.new) (C.told clock.old) (C.told clock.new) }
    ensures ended { result ≡ LinkEnd.Ended → IfSome (K.left link.new) (λ rest. rest ≡ []) }
    ensures cause { HasCause (K.faults link.old) (K.faults link.new) (result ≡ LinkEnd.Failed) }
    ensures spent { (result ≡ LinkEnd.Spent) ↔ (left_of pass.new ≡ 1) }
    ensures left { 0 < left_of pass.new }
    ensures calls { OnlyCalls pass.old pass.new }
    ensures name { K.name link.new ≡ K.name link.old }
{
    let mut buffer = [0; MOST_DATAGRAM];
    let first = pass.left();
    for _ in rt.forever() {
        let left = pass.left();
        if left == 1 {
            return LinkEnd::Spent;
        }
        match link.next(&mut buffer) {
            Got::Datagram(length) => {
                let came = Came {
                    ingest: number,
                    number: first - left,
                    bytes: &buffer[..length],
                };
                hear_once(rt, &came, clock, gate, turn, pass);
            }
            Got::Quiet => gate.quiet(),
            Got::End => return LinkEnd::Ended,
            Got::Failed => return LinkEnd::Failed,
        }
    }
    unreachable!()
}

/// A datagram that has come, with its number among those of its link, counted from 0.
#[derive(Clone, Copy)]
struct Came<'a> {
    ingest: u8,
    number: u64,
    bytes: &'a [u8],
}

/// Makes an arrival of a datagram of at most 2,048 bytes.
fn hear_once<R: Wait, V: Station + Permitting, C: Clock, G: Gate>(
    rt: &R,
    came: &Came<'_>,
    clock: &mut C,
    gate: &mut G,
    turn: &Turn<V>,
    pass: &mut Pass<V>,
)
    requires few { length came.now.bytes.now ≤ 2048 }
    requires own { pass.old.turn ≡ turn.now }
    requires left { 0 < left_of pass.old }
    requires asked { C.may_ask came.now.number came.now.bytes.now ≡ true }
    requires permitted { (cfg : V.Config) (arrival : Arrival V.Verdict) → pass.old.config ≡ Some cfg → arrival.ingest ≡ came.now.ingest → C.read_for came.now.number arrival.bytes arrival.reading ≡ true → V.permits cfg pass.old.number pass.old.made (Arrived arrival) }
    ensures hears { HearsOne came.now.ingest came.now.bytes.now pass.old.made pass.new.made (C.told clock.old) (C.told clock.new) }
    ensures left { left_of pass.new + 1 ≡ left_of pass.old }
    ensures calls { OnlyCalls pass.old pass.new }
{
    gate.before();
    let waits = hear_in_turn(rt, came, clock, turn, pass);
    if waits {
        gate.released();
    }
    gate.after();
}

/// Makes an arrival of a datagram in a turn, and tells whether packets may wait then.
#[tactic(auto, using(crate::proofs::Passing::one_call, crate::proofs::Hearing::hears_one))]
fn hear_in_turn<R: Wait, V: Station + Permitting, C: Clock>(
    rt: &R,
    came: &Came<'_>,
    clock: &mut C,
    turn: &Turn<V>,
    pass: &mut Pass<V>,
) -> bool
    requires few { length came.now.bytes.now ≤ 2048 }
    requires own { pass.old.turn ≡ turn.now }
    requires left { 0 < left_of pass.old }
    requires asked { C.may_ask came.now.number came.now.bytes.now ≡ true }
    requires permitted { (cfg : V.Config) (arrival : Arrival V.Verdict) → pass.old.config ≡ Some cfg → arrival.ingest ≡ came.now.ingest → C.read_for came.now.number arrival.bytes arrival.reading ≡ true → V.permits cfg pass.old.number pass.old.made (Arrived arrival) }
    ensures hears { HearsOne came.now.ingest came.now.bytes.now pass.old.made pass.new.made (C.told clock.old) (C.told clock.new) }
    ensures left { left_of pass.new + 1 ≡ left_of pass.old }
    ensures calls { OnlyCalls pass.old pass.new }
{
    let mut act = Hear {
        ingest: came.ingest,
        number: came.number,
        bytes: came.bytes,
        clock,
    };
    let Heard {
        reading: _,
        verdict,
        waits,
    } = turn.take_turn(rt, pass, &mut act);
    V::let_go(verdict);
    waits
}

/// Ends the ingest.
#[tactic(auto, using(crate::proofs::Passing::one_call))]
fn end_once<R: Wait, V: Station + Permitting, G: Gate>(
    rt: &R,
    number: u8,
    gate: &mut G,
    turn: &Turn<V>,
    pass: &mut Pass<V>,
)
    requires own { pass.old.turn ≡ turn.now }
    requires left { 0 < left_of pass.old }
    requires permitted { PermitsEnd V.permits number pass.old }
    ensures made { pass.new.made ≡ pass.old.made ++ Ended number ∷ [] }
    ensures left { left_of pass.new + 1 ≡ left_of pass.old }
    ensures calls { OnlyCalls pass.old pass.new }
{
    gate.before();
    turn.take_turn(rt, pass, &mut EndIngest { ingest: number });
    gate.released();
    gate.after();
}
