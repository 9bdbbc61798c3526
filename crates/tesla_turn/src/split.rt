//! Passes for further threads.
ghost use Rattle.std.specs.Prelude.{◌≡◌, ◌<◌, ◌-◌, ◌↔◌, ◌++◌, ◌∷◌, [], slice_set, IsErr, IfOk, IfErr, Some, None};
ghost use Rattle.tesla_turn.specs.History.{longer};
ghost use Rattle.tesla_turn.specs.Held.{next_pass};

use crate::pass::Pass;
use crate::permitting::Permitting;
use crate::plays::{Cut, Merge};
use crate::turn::Turn;

/// The pass may give no further pass.
#[derive(Clone, Copy, Debug, PartialEq, Eq)]
pub struct NoRoom;

impl<V: Permitting + Drop> Turn<V> {
    /// Gives a further pass, with the next number and all its calls left. It has seen what this one has.
    ///
    /// `NoRoom` comes exactly where the pass has no room: then nothing has changed. It takes no memory.
    pub fn split(&self, pass: &mut Pass<V>) -> Result<Pass<V>, NoRoom>
        requires own { pass.old.turn ≡ self.now }
        ensures refused { IsErr result ↔ (pass.old.room ≡ 0) }
        ensures unchanged { IfErr result (λ _. pass.new ≡ pass.old) }
        ensures given { IfOk result (λ new. new ≡ next_pass pass.old) }
        ensures further { IfOk result (λ new. 0 < new.number) }
        ensures counted { IfOk result (λ _. pass.new ≡ record pass.old { room = pass.old.room - 1; joined = pass.old.joined ++ None ∷ [] }) }
    {
        if pass.room == 0 {
            return Err(NoRoom);
        }
        let seat = self.table.shared.split_seat::<Cut>(&mut pass.seat);
        pass.room -= 1;
        Ok(Pass {
            seat,
            left: pass.calls,
            room: 0,
            calls: pass.calls,
            first: false,
        })
    }

    /// Takes another pass into the first one, which has then seen the longer of both histories and keeps
    /// the other's calls. The calls that the other had left are given up.
    pub fn join(&self, into: &mut Pass<V>, other: Pass<V>)
        requires own { (into.old.turn ≡ self.now) × (other.turn ≡ self.now) }
        requires first { into.old.number ≡ 0 }
        ensures { into.new ≡ record into.old { seen = longer into.old.seen other.seen; joined = slice_set into.old.joined other.number (Some other.made) } }
    {
        let Pass {
            seat,
            left: _,
            room: _,
            calls: _,
            first: _,
        } = other;
        self.table.shared.join_seat::<Merge>(&mut into.seat, seat);
    }
}
