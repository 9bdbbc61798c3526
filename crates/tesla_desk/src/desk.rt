//! The desk, an environment that opens sinks of any bytes by name.

ghost use Rattle.std.specs.Prelude.{◌≡◌, [], IfOk, IfSome};
ghost use Rattle.tesla_desk.specs.Outside.{OpensSink};

use crate::{Environment, Sink};
use tesla_base::NoMemory;

/// The name of the console, which is a sink.
pub const CONSOLE: &str = "-";

/// Why nothing was opened.
#[derive(Clone, Copy, Debug, PartialEq, Eq)]
pub enum OpenRefusal {
    /// The outside refused, as where there is nothing under the name. The desk's count of openings rose.
    Failed,
    /// There was no memory.
    NoMemory,
}

impl From<NoMemory> for OpenRefusal {
    ghost use Rattle.std.specs.Prelude.{◌≡◌};
    ghost use Rattle.tesla_desk.specs.declared.desk.OpenRefusal.{OpenRefusal};

    ghost from_gives = { λ _ refusal. refusal ≡ OpenRefusal.NoMemory };

    fn from(_: NoMemory) -> OpenRefusal {
        OpenRefusal::NoMemory
    }
}

/// An environment that also opens sinks, to which any bytes may be written.
pub trait Desk: Environment {
    /// A sink for bytes under the name, which holds none yet. `Failed` is answered exactly where the
    /// count of openings rose. Where the desk tells its pages, a refused opening leaves
    /// the bytes under the name as they were.
    fn open_sink(&mut self, name: &str) -> Result<Self::Out, OpenRefusal>
        ensures empty { IfOk result (λ it. IfSome (Self.Out.written it) (λ bytes. bytes ≡ [])) }
        ensures fresh { IfOk result (λ it. Self.Out.faults it ≡ 0) }
        ensures named { IfOk result (λ it. Self.Out.name it ≡ name.now) }
        ensures desk { OpensSink name.now result (Self.told self.old) (Self.told self.new) };
}
