//! What a sender and a namer have in common, as the contract of a function that does nothing.

ghost use Rattle.std.specs.Prelude.{◌≡◌, ℕ, [], List, length};
ghost use Rattle.tesla_sender.specs.Made.{Call, Stream, disclosed, framed, made_disclosure, made_message, name_of};
ghost use Rattle.tesla_sender.specs.Names.{AreNamedAfter, disclosed_of};
ghost use Rattle.tesla_sender.specs.Stands.{AreAcceptedAfter};

/// A sender accepts the calls that are accepted without its seeds, by the setup alone, and refuses the others for the
/// same cause: its message is the frame of the name that a namer gives.
pub fn names()
    // A message is refused exactly where it has no name, for the same cause; else it is the frame of its name.
    ensures messages { (stream : Stream) (log : List Call) (reading : ℕ) (payload : List ℕ) → made_message stream log reading payload ≡ framed stream payload (name_of stream.setup.times log reading payload) }
    // A disclosure is refused exactly where the delays of the rows refuse it, for the same cause.
    ensures disclosures { (stream : Stream) (log : List Call) (reading : ℕ) → length stream.seeds ≡ length stream.setup.rows → made_disclosure stream log reading ≡ disclosed stream (disclosed_of stream.setup log reading) }
    // The logs are the same.
    ensures logs { (stream : Stream) (log : List Call) → length stream.seeds ≡ length stream.setup.rows → AreAcceptedAfter stream [] log → AreNamedAfter stream.setup [] log }
    ensures only { (stream : Stream) (log : List Call) → length stream.seeds ≡ length stream.setup.rows → AreNamedAfter stream.setup [] log → AreAcceptedAfter stream [] log }
{}
