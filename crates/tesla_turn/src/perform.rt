//! An act in its turn.
ghost use Rattle.std.specs.Prelude.{◌≡◌, ◌<◌, ◌↔◌, IsErr, IfOk, IfErr, IsTrue, is_err};
ghost use Rattle.tesla_turn.specs.Held.{Made, Stood, left_of};
ghost use Rattle.tesla_turn.specs.Permitted.{MayCall, OnlyPermitted};

use crate::act::Act;
use crate::pass::Pass;
use crate::permitting::Permitting;
use crate::seats::{hand_on, put_back};
use crate::turn::Turn;
use crate::wait::enter;
use std::marker::Brand;
use std::sync::Wait;
use tesla_base::Chronicle;

/// The pass has made all its calls.
#[derive(Clone, Copy, Debug, PartialEq, Eq)]
pub struct SeatSpent;

impl<V: Chronicle> Pass<V> {
    /// Whether it has made all its calls. It takes no handle, so it can't wait.
    pub fn spent(&self) -> bool
        ensures { IsTrue result ↔ (left_of self.now ≡ 0) }
    {
        self.left == 0
    }
}

impl<V: Permitting + Drop> Turn<V> {
    /// Waits for the pass's turn, runs the act on the value, and passes the turn on.
    ///
    /// The call stands in the history once, behind all that the pass had seen. `SeatSpent` comes exactly
    /// where the pass has no call left: then nothing has changed. That is decided by `Pass::spent`, which
    /// takes no handle and so can't wait; what waits is `take_turn`, which requires that a call is left.
    /// Where one is left, the value has to permit it, whatever the act does and replies.
    pub fn perform<R: Wait, A: Act<V>>(
        &self,
        rt: &R,
        pass: &mut Pass<V>,
        act: &mut A,
    ) -> Result<A::Reply, SeatSpent>
        requires own { pass.old.turn ≡ self.now }
        requires permitted { 0 < left_of pass.old → MayCall V.permits A.entry A.relation pass.old act.old }
        ensures refused { IsErr result ↔ (left_of pass.old ≡ 0) }
        ensures unchanged { IfErr result (λ _. (pass.new ≡ pass.old) × (act.new ≡ act.old)) }
        ensures act { IfOk result (λ reply. A.relation act.old act.new reply) }
        ensures history { IfOk result (λ reply. Made pass.old pass.new (A.entry act.new reply)) }
        ensures value { IfOk result (λ _. Stood V.config V.stands pass.new) }
        ensures permitted { IfOk result (λ _. OnlyPermitted V.permits pass.new) }
    {
        if pass.spent() {
            return Err(SeatSpent);
        }
        Ok(self.take_turn(rt, pass, act))
    }

    /// Waits for the turn of a pass that has a call left, runs the act on the value, and passes the turn on.
    ///
    /// The call stands in the history once, behind all that the pass had seen. Nothing is refused. The value has
    /// to permit the call, whatever the act does and replies; so each call that the pass has then seen was permitted.
    pub fn take_turn<R: Wait, A: Act<V>>(&self, rt: &R, pass: &mut Pass<V>, act: &mut A) -> A::Reply
        requires own { pass.old.turn ≡ self.now }
        requires left { 0 < left_of pass.old }
        requires permitted { MayCall V.permits A.entry A.relation pass.old act.old }
        ensures act { A.relation act.old act.new result }
        ensures history { Made pass.old pass.new (A.entry act.new result) }
        ensures value { Stood V.config V.stands pass.new }
        ensures permitted { OnlyPermitted V.permits pass.new }
    {
        let top = &self.table.shared;
        let mut value = enter(rt, top, &self.entrance, &mut pass.seat);
        let reply = act.run(&mut value);
        put_back(top, &mut pass.seat, value);
        hand_on::<V, A, Brand>(top, &mut pass.seat, act, &reply);
        pass.left -= 1;
        self.entrance.leave();
        reply
    }
}
