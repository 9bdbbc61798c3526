//! A post, which sends datagrams.

ghost use Rattle.std.specs.Prelude.{◌≡◌, ◌≤◌, Bool, Option, List, true, ℕ, length};
ghost use Rattle.tesla_desk.specs.Faults.{HasCause};
ghost use Rattle.tesla_desk.specs.Posts.{Posts};

/// What a post answers.
#[derive(Clone, Copy, Debug, PartialEq, Eq)]
pub enum PostStep {
    /// The datagram was sent.
    Sent,
    /// The call failed, and nothing was sent.
    Failed,
}

/// Datagrams that are sent one after another.
pub trait Post {
    /// The datagrams that were sent, in order; `None` where the post does not tell them. One that does
    /// not tell stays so.
    ghost sent: { Self → Option (List (List ℕ)) };

    /// How often a call failed. The count stands still at 2^64 - 1.
    ghost faults: { Self → ℕ };

    /// The name that the post was opened under.
    ghost name: { Self → List ℕ };

    /// The post may send this datagram.
    ghost may_send: { Self → List ℕ → Bool } = { λ _ _. true };

    /// Sends a datagram of at most 2,048 bytes, which it may send. `Failed` is answered exactly where the count of faults
    /// rose.
    fn send(&mut self, datagram: &[u8]) -> PostStep
        requires few { length datagram.now ≤ 2048 }
        requires permitted { may_send self.old datagram.now ≡ true }
        ensures step { Posts (sent self.old) (sent self.new) datagram.now result }
        ensures cause { HasCause (faults self.old) (faults self.new) (result ≡ PostStep.Failed) }
        ensures name { name self.new ≡ name self.old };
}
