//! What each definition says of the history, as contracts of functions that do nothing.

ghost use Rattle.std.specs.Prelude.{◌≡◌, [], ◌∷◌, Some, None, true, false, bytes_eq, codes, take};
ghost use Rattle.tesla_clock.specs.Schedule.{bound_of};
ghost use Rattle.tesla_example.specs.History.{first_arrival, head, history, release, second_arrival, third_arrival};
ghost use Rattle.tesla_example.specs.Stream.{chain, config, disclosed, first, first_tag, key_0, key_1, right_tag, second, spelled, stream, third};
ghost use Rattle.tesla_fitting.specs.declared.verdict.Verdict.TheVariants.{Kept, Late};
ghost use Rattle.tesla_frame.specs.Frame.{Data};
ghost use Rattle.tesla_frame.specs.Reading.{frame_of};
ghost use Rattle.tesla_prf.specs.Keys.{tag_of, walk};
ghost use Rattle.tesla_receiver.specs.Answer.{safe_chains, verdict_of};
ghost use Rattle.tesla_receiver.specs.History.{IsLegal, held_in, reply_to};
ghost use Rattle.tesla_receiver.specs.Keys.{is_good, new_keys, newest};
ghost use Rattle.tesla_receiver.specs.Packets.{released, verifies};
ghost use Rattle.tesla_state.specs.declared.replies.Reply.TheVariants.{Given, Over};

/// The keys and the tags (RFC 4082, sections 3.2 and 3.4), down to SHA-256.
pub fn keys()
    // K 1 leads to K 0, to which the setup commits.
    ensures commitment { walk key_1 1 ≡ key_0 }
    // The first packet has the tag of its message under the key of its interval.
    ensures authentic { tag_of 16 key_1 stream chain first.name first.payload ≡ first_tag }
    // The message of the second one has another tag.
    ensures forged { tag_of 16 key_1 stream chain second.name second.payload ≡ right_tag }
{}

/// The bytes of each packet are read as that packet.
pub fn frames()
    ensures first { frame_of (spelled first) ≡ Some (Data first) }
    ensures second { frame_of (spelled second) ≡ Some (Data second) }
    ensures third { frame_of (spelled third) ≡ Some (Data third) }
{}

/// The last interval that the sender may be in when each packet comes (RFC 4082, section 3.5).
pub fn bounds()
    ensures first { bound_of config.setup.times config.lag 1150000 ≡ Some 1 }
    ensures second { bound_of config.setup.times config.lag 1160000 ≡ Some 1 }
    // By the receiver's clock this is interval 4. The sender may be in interval 5, where the key of interval 3 is disclosed.
    ensures third { bound_of config.setup.times config.lag 1480000 ≡ Some 5 }
{}

/// The security condition of each packet (RFC 4082, section 3.5): the set of the chains that are safe for it.
pub fn safe()
    // Interval 1 is behind no disclosed key yet: 1 < 1 + 2, and no key was taken.
    ensures first { safe_chains config (first_arrival ∷ []) (Some 1) 1 ≡ 1 }
    ensures second { safe_chains config (first_arrival ∷ second_arrival ∷ []) (Some 1) 1 ≡ 1 }
    // Of interval 3 the key may be disclosed in interval 5: 5 isn't below 3 + 2.
    ensures third { safe_chains config (first_arrival ∷ second_arrival ∷ third_arrival ∷ []) (Some 5) 3 ≡ 0 }
{}

/// The key that the third packet carries.
pub fn disclosure()
    // Before it the newest key of the chain is the one of the commitment.
    ensures before { newest config (first_arrival ∷ second_arrival ∷ []) 0 ≡ 0 }
    // It is newer, and leads to the commitment.
    ensures good { is_good config (first_arrival ∷ second_arrival ∷ []) disclosed ≡ true }
    // So it is taken, though its packet is late.
    ensures new { new_keys config (first_arrival ∷ second_arrival ∷ []) third_arrival ≡ disclosed ∷ [] }
    ensures after { newest config (first_arrival ∷ second_arrival ∷ third_arrival ∷ []) 0 ≡ 1 }
{}

/// The verdict on each packet, after those before it.
pub fn verdicts()
    ensures first { verdict_of config [] 0 0 1150000 (spelled first) ≡ Kept 1 }
    ensures second { verdict_of config (first_arrival ∷ []) 0 0 1160000 (spelled second) ≡ Kept 1 }
    ensures third { verdict_of config (first_arrival ∷ second_arrival ∷ []) 0 0 1480000 (spelled third) ≡ Late }
{}

/// What is released, and what stays in the buffer.
pub fn releases()
    // The tag of the first packet verifies under the key, that of the forged one doesn't.
    ensures authentic { verifies config first 0 disclosed ≡ true }
    ensures forged { verifies config second 0 disclosed ≡ false }
    // Before the key came nothing was released, and two packets waited for it.
    ensures before { released config (first_arrival ∷ second_arrival ∷ []) ≡ [] }
    ensures held { held_in config (take 2 history) ≡ 2 }
    // Then the first packet is released, by chain 0, and the forged one has lost its place.
    ensures after { released config (first_arrival ∷ second_arrival ∷ third_arrival ∷ []) ≡ release ∷ [] }
    ensures left { held_in config (take 3 history) ≡ 1 }
    // Once it is given no place is taken.
    ensures empty { held_in config (take 4 history) ≡ 0 }
{}

/// The answers to both takes.
pub fn takes()
    ensures first { reply_to config (take 3 history) ≡ Given head (codes "hi") }
    ensures second { reply_to config (take 5 history) ≡ Over }
{}

/// The whole history is legal: each entry has the one answer after the entries before it.
pub fn legal()
    ensures { IsLegal config history }
{}
