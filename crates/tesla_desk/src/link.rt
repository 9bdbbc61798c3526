//! A link, which brings datagrams.

ghost use Rattle.std.specs.Prelude.{◌≡◌, IfOk};

use std::alloc::Global;
use tesla_base::{MOST_DATAGRAM, NoMemory, Text};

/// What a link brings: a datagram, or the news that none came for a while.
#[derive(Debug, Drop)]
pub enum Letter {
    Datagram { bytes: Text },
    Quiet,
}

impl Letter {
    /// A letter like this one.
    pub fn copy(&self, alloc: Global) -> Result<Letter, NoMemory>
        ensures { IfOk result (λ letter. letter ≡ self.now) }
    {
        match self {
            Letter::Datagram { bytes } => Ok(Letter::Datagram {
                bytes: Text::new(alloc, bytes.bytes())?,
            }),
            Letter::Quiet => Ok(Letter::Quiet),
        }
    }
}

/// What a link answers.
#[derive(Clone, Copy, Debug, PartialEq, Eq)]
pub enum Got {
    /// A datagram of this many bytes, at most 2,048, which stand at the front of the buffer.
    Datagram(usize),
    /// None came for a while.
    Quiet,
    /// Nothing is left.
    End,
    /// The call failed, and what is left is unchanged.
    Failed,
}

/// Datagrams that come one after another.
pub trait Link {
    ghost use Rattle.std.specs.Prelude.{◌≡◌, Bool, Option, List, true, ℕ};
    ghost use Rattle.tesla_desk.specs.Faults.{HasCause};
    ghost use Rattle.tesla_desk.specs.Links.{Gets, Numbers};
    ghost use Rattle.tesla_desk.specs.declared.link.Got.{Got};
    ghost use Rattle.tesla_desk.specs.declared.link.Letter.{Letter};

    /// The letters that are left; `None` where the link does not tell them. One that does not tell
    /// stays so.
    ghost left: { Self → Option (List Letter) };

    /// How often a call failed. The count stands still at 2^64 - 1.
    ghost faults: { Self → ℕ };

    /// The name that the link was opened under.
    ghost name: { Self → List ℕ };

    /// The link has brought so many datagrams.
    ghost has_brought: { Self → ℕ → Bool } = { λ _ _. true };

    /// A link brought these bytes as its datagram of this number, counted from 0.
    ghost brought: { ℕ → List ℕ → Bool } = { λ _ _. true };

    /// The link may be asked for its next letter.
    ghost may_ask: { Self → Bool } = { λ _. true };

    /// Takes the next letter, which the link may be asked for, and puts a datagram, of at most 2,048 bytes, at the front of the buffer.
    /// `Failed` is answered exactly where the count of faults rose.
    fn next(&mut self, into: &mut [u8; MOST_DATAGRAM]) -> Got
        requires permitted { may_ask self.old ≡ true }
        ensures step { Gets (left self.old) (left self.new) into.new result }
        ensures cause { HasCause (faults self.old) (faults self.new) (result ≡ Got.Failed) }
        ensures name { name self.new ≡ name self.old }
        ensures numbered { (number : ℕ) → has_brought self.old number ≡ true → Numbers brought (has_brought self.new) number into.new result };

    /// Is told that something else is due in so many microseconds: the next call of `next` that brings nothing is to be
    /// quiet by then. Nothing is claimed of how long it waits, and this call takes nothing.
    fn wait_at_most(&mut self, _microseconds: u64)
        ensures left { left self.new ≡ left self.old }
        ensures faults { faults self.new ≡ faults self.old }
        ensures name { name self.new ≡ name self.old }
        ensures numbered { (number : ℕ) → has_brought self.old number ≡ true → has_brought self.new number ≡ true }
    {}
}
