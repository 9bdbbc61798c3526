//! The worker of a sink.

ghost use Rattle.std.specs.Prelude.{◌≡◌, ◌<◌, ◌≤◌, ◌+◌, ◌++◌, ◌∷◌, [], ℕ, List, length, take, true, false};
ghost use Rattle.tesla_desk.specs.Faults.{HasCause};
ghost use Rattle.tesla_desk.specs.Outside.{AppendsPrefix, with_bytes};
ghost use Rattle.tesla_capture.specs.Gathering.{gathered};
ghost use Rattle.tesla_receiver.specs.declared.history.Entry.TheVariants.{Taken};
ghost use Rattle.tesla_turn.specs.Held.{OnlyCalls, Stood, left_of};
ghost use Rattle.tesla_turn.specs.History.{calls_by};
ghost use Rattle.tesla_turn.specs.Permitted.{OnlyPermitted};
ghost use Rattle.tesla_shared.specs.Due.{IsTaken, PermitsTakes};
ghost use Rattle.tesla_shared.specs.Workers.{Drains};
ghost use Rattle.tesla_shared.specs.Taking.{TakesOne};
ghost use Rattle.tesla_shared.specs.Yields.{GathersYield, Record};

use crate::acts::TakeNext;
use crate::station::{Gathered, Station};
use std::sync::Wait;
use tesla_base::MOST_PAYLOAD;
use tesla_capture::Gatherer;
use tesla_desk::{Gate, Output};
use tesla_turn::{Pass, Permitting, Turn};

/// Why a worker takes no more packets.
#[derive(Clone, Copy, Debug, PartialEq, Eq)]
pub enum SinkEnd {
    /// No packet waits, and all ingests have ended.
    Over,
    /// The sink failed.
    Failed,
    /// The pass had no call left.
    Spent,
}

/// Takes released packets and writes the record of each to the sink, in one piece, until all ingests have ended or
/// the sink fails or the pass has no call left. Where none waits it rests at the gate.
///
/// Each record is one that the sink may write, since its packet was the last that was taken: so this holds while it runs.
///
/// It waits for its turns, and nothing is promised of when it ends. It takes no memory.
#[tactic(auto, using(crate::proofs::Writing::drains_none, crate::proofs::Writing::drains_more, crate::proofs::Writing::drains_over, crate::proofs::Writing::drains_failed, crate::proofs::Passing::only_more))]
pub fn drain<R: Wait, V: Station + Permitting, S: Output, G: Gate>(
    rt: &R,
    number: u8,
    sink: &mut S,
    gate: &mut G,
    turn: &Turn<V>,
    pass: &mut Pass<V>,
) -> SinkEnd
    requires own { pass.old.turn ≡ turn.now }
    requires takes { PermitsTakes V.permits number pass.old }
    requires due { (it : S) (reply : V.Reply) (text : List ℕ) → S.name it ≡ S.name sink.old → IsTaken V.config V.stands V.permits V.yields number pass.old (S.written sink.old) (S.written it) reply → V.yields reply ≡ Record text → S.may_write it text ≡ true }
    ensures drains { Drains V.yields number result pass.old.made pass.new.made (S.written sink.old) (S.written sink.new) }
    ensures cause { HasCause (S.faults sink.old) (S.faults sink.new) (result ≡ SinkEnd.Failed) }
    ensures spent { result ≡ SinkEnd.Spent → left_of pass.new ≡ 0 }
    ensures calls { OnlyCalls pass.old pass.new }
    ensures name { S.name sink.new ≡ S.name sink.old }
{
    let mut act = TakeNext {
        releaser: number,
        payload: [0; MOST_PAYLOAD],
    };
    let mut gatherer = Gatherer::new();
    for _ in rt.forever() {
        if pass.spent() {
            return SinkEnd::Spent;
        }
        match gather_once(rt, &mut act, &mut gatherer, gate, turn, pass) {
            Gathered::Record => {
                if !sink.write_piece(gatherer.bytes()) {
                    return SinkEnd::Failed;
                }
            }
            Gathered::Nothing => gate.rest(),
            Gathered::Over => return SinkEnd::Over,
        }
    }
    unreachable!()
}

/// Takes once, and gathers the record of what was given.
fn gather_once<R: Wait, V: Station + Permitting, G: Gate>(
    rt: &R,
    act: &mut TakeNext,
    gatherer: &mut Gatherer,
    gate: &mut G,
    turn: &Turn<V>,
    pass: &mut Pass<V>,
) -> Gathered
    requires own { pass.old.turn ≡ turn.now }
    requires left { 0 < left_of pass.old }
    requires takes { PermitsTakes V.permits act.old.releaser pass.old }
    ensures takes { TakesOne V.config V.stands V.permits V.yields act.old.releaser pass.old pass.new (gathered gatherer.new) result }
    ensures releaser { act.new.releaser ≡ act.old.releaser }
{
    let take = take_once(rt, act, gate, turn, pass);
    gatherer.clear();
    V::gather(take, &act.payload, gatherer)
}

/// Takes once.
#[tactic(auto, using(crate::proofs::Passing::one_call))]
fn take_once<R: Wait, V: Station + Permitting, G: Gate>(
    rt: &R,
    act: &mut TakeNext,
    gate: &mut G,
    turn: &Turn<V>,
    pass: &mut Pass<V>,
) -> V::Take
    requires own { pass.old.turn ≡ turn.now }
    requires left { 0 < left_of pass.old }
    requires takes { PermitsTakes V.permits act.old.releaser pass.old }
    ensures made { pass.new.made ≡ pass.old.made ++ Taken act.old.releaser (V.shown result act.new.payload) ∷ [] }
    ensures releaser { act.new.releaser ≡ act.old.releaser }
    ensures behind { V.keeps_behind result act.old.payload act.new.payload }
    ensures calls { OnlyCalls pass.old pass.new }
    ensures own { calls_by pass.new.number pass.new.seen ≡ pass.new.made }
    ensures stood { Stood V.config V.stands pass.new }
    ensures permitted { OnlyPermitted V.permits pass.new }
{
    gate.before();
    let take = turn.take_turn(rt, pass, act);
    gate.after();
    take
}
