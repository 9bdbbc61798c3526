//! A gate, at which a worker waits.

ghost use Rattle.std.specs.Prelude.{◌≡◌, Bool, false, true};

/// What a worker does around its turns, as pausing, waking others or counting. Nothing is claimed of it, but that only a
/// gate's call gives that the run was asked to end.
pub trait Gate {
    /// The run was asked to end.
    ghost over: { Bool } = { false };

    /// Is called before each turn.
    fn before(&mut self);

    /// Is called after each turn.
    fn after(&mut self);

    /// Is called where a take gave nothing, and by itself where a link was quiet.
    fn rest(&mut self);

    /// Is called behind a turn, before `after`, where something may be taken then: packets wait, or an ingest has ended.
    fn released(&mut self) {}

    /// Is called in place of `rest` where nothing is due for so many microseconds. A gate rests no longer than that.
    fn rest_for(&mut self, _microseconds: u64) {
        self.rest();
    }

    /// Is called where a link was quiet. A link that waits by itself needs no further rest.
    fn quiet(&mut self) {
        self.rest();
    }

    /// Whether the run was asked to end. Where nobody can ask that it is false.
    fn is_over(&mut self) -> bool
        ensures asked { result ≡ true → over ≡ true }
    {
        false
    }
}

/// A gate that does nothing.
#[derive(Drop)]
pub struct OpenGate;

impl Gate for OpenGate {
    fn before(&mut self) {}

    fn after(&mut self) {}

    fn rest(&mut self) {}
}
