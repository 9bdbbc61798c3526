//! What a feed goes by.

ghost use Rattle.std.specs.Prelude.{◌≡◌};

/// How many posts a feed has at most.
pub const MOST_POSTS: usize = 32;

/// What a feed goes by: the clock that it reads, the gate at which it rests, who is told of its counts, and who brings the
/// senders of its later streams.
#[derive(Drop)]
pub struct Instruments<C, G, N, Y> {
    pub clock: C,
    pub gate: G,
    pub notes: N,
    pub later: Y,
    /// How many microseconds behind the last reading the counts are to be told again: at once, as long as they weren't.
    pub rest: u64,
}

impl<C, G, N, Y> Instruments<C, G, N, Y> {
    /// With these, and nothing told yet.
    pub fn new(clock: C, gate: G, notes: N, later: Y) -> Instruments<C, G, N, Y>
        ensures { result ≡ record { clock = clock; gate = gate; notes = notes; later = later; rest = 0 } }
    {
        Instruments {
            clock,
            gate,
            notes,
            later,
            rest: 0,
        }
    }
}
