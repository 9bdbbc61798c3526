//! What a thread does in its turn.

ghost use Rattle.std.specs.Prelude.{◌≡◌, ◌<◌, ◌^◌, ◌++◌, ◌∷◌, List, [], length};

use tesla_base::Chronicle;

/// What a thread does with the value in its turn. It adds one entry to the history.
pub trait Act<V: Chronicle> {
    type Reply;

    /// The entry, of the act after its run and the reply.
    ghost entry: { Self → Self.Reply → V.Entry };

    /// What the run did, of the act before it, the act after it and the reply.
    ghost relation: { Self → Self → Self.Reply → Type 0 };

    /// Acts on the value, whatever its history is.
    fn run(&mut self, value: &mut V) -> Self::Reply
        requires { (h : List V.Entry) × (length h < 2 ^ 63) × V.stands value.old h }
        ensures stands { (h : List V.Entry) → length h < 2 ^ 63 → V.stands value.old h → V.stands value.new (h ++ entry self.new result ∷ []) }
        ensures config { V.config value.new ≡ V.config value.old }
        ensures relation { relation self.old self.new result };
}
