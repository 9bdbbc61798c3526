//! The environment of a run, which opens and closes what is outside by name, and makes clocks and gates.

ghost use Rattle.std.specs.Prelude.{◌≡◌, [], IfOk, IfSome, codes, true};
ghost use Rattle.tesla_desk.specs.Live.{OpenedLink, clock_told};
ghost use Rattle.tesla_desk.specs.Outside.{Told, Opened, OpensSource, OpensSink, OpensLink, OpensPost, ClosesSource, ClosesSink, ClosesLink, ClosesPost, MakesClock};

use crate::{Clock, Gate, Link, OpenRefusal, Output, Post, Sink, Source};

/// What opens sources, the console, outputs, links and posts, and closes them, and makes clocks and gates.
///
/// A source, a sink, an output, a link or a post cannot be dropped through these bounds. So a caller has to close each
/// one that it opened, which the compiler sees to. What a worker in a thread of its own uses can be sent.
pub trait Environment {
    type In: Source;

    type Out: Sink + Send;

    type Pieces: Output + Send;

    type Wire: Link + Send;

    type Port: Post + Send;

    type Time: Clock + Send + Drop;

    type Pause: Gate + Send + Drop;

    /// What the desk tells: the page under each name, what was left of the source that was closed last
    /// under it, how many sources and links, sinks and posts, and openings failed, the openings asked
    /// for, in order, and what it has of links, posts and clocks.
    ///
    /// A source, a sink, a link or a post that failed counts when it is closed. Each count stands still at 2^64 - 1. The
    /// openings are `None` where the desk does not tell them; one that does not tell stays so. An
    /// opening that found no memory is not among them.
    ghost told: { Self → Told };

    /// A source of the bytes under the name. `Failed` is answered exactly where the count of openings rose.
    fn open_source(&mut self, name: &str) -> Result<Self::In, OpenRefusal>
        ensures opened { IfOk result (λ it. Opened ((told self.old).page name.now) (Self.In.left it)) }
        ensures fresh { IfOk result (λ it. Self.In.faults it ≡ 0) }
        ensures named { IfOk result (λ it. Self.In.name it ≡ name.now) }
        ensures desk { OpensSource name.now result (told self.old) (told self.new) };

    /// The console, a sink that holds nothing yet. `Failed` is answered exactly where the count of openings rose.
    fn open_console(&mut self) -> Result<Self::Out, OpenRefusal>
        ensures empty { IfOk result (λ it. IfSome (Self.Out.written it) (λ bytes. bytes ≡ [])) }
        ensures fresh { IfOk result (λ it. Self.Out.faults it ≡ 0) }
        ensures named { IfOk result (λ it. Self.Out.name it ≡ codes "-") }
        ensures desk { OpensSink (codes "-") result (told self.old) (told self.new) };

    /// An output for bytes under the name, which holds none yet. `Failed` is answered exactly where the
    /// count of openings rose. Where the environment tells its pages, a refused opening leaves
    /// the bytes under the name as they were.
    fn open_output(&mut self, name: &str) -> Result<Self::Pieces, OpenRefusal>
        ensures empty { IfOk result (λ it. IfSome (Self.Pieces.written it) (λ bytes. bytes ≡ [])) }
        ensures fresh { IfOk result (λ it. Self.Pieces.faults it ≡ 0) }
        ensures named { IfOk result (λ it. Self.Pieces.name it ≡ name.now) }
        ensures desk { OpensSink name.now result (told self.old) (told self.new) };

    /// Closes a source. The desk has what was left of it under its name, and the count of sources and
    /// links that failed rises exactly where this one did. It takes no memory and cannot fail.
    fn close_source(&mut self, it: Self::In)
        ensures desk { ClosesSource (Self.In.name it) (Self.In.left it) (Self.In.faults it) (told self.old) (told self.new) };

    /// Closes a sink. The desk has its bytes under its name, and the count of sinks and posts that
    /// failed rises exactly where this one did. It takes no memory and cannot fail.
    fn close_sink(&mut self, it: Self::Out)
        ensures desk { ClosesSink (Self.Out.name it) (Self.Out.written it) (Self.Out.faults it) (told self.old) (told self.new) };

    /// Closes an output. The desk has its bytes under its name, and the count of sinks and posts that
    /// failed rises exactly where this one did. It takes no memory and cannot fail.
    fn close_output(&mut self, it: Self::Pieces)
        ensures desk { ClosesSink (Self.Pieces.name it) (Self.Pieces.written it) (Self.Pieces.faults it) (told self.old) (told self.new) };

    /// A link that brings what the desk has under the name. `Failed` is answered exactly where the count
    /// of openings rose.
    fn open_link(&mut self, name: &str) -> Result<Self::Wire, OpenRefusal>
        ensures opened { IfOk result (λ it. OpenedLink ((told self.old).live.wire name.now) (Self.Wire.left it)) }
        ensures fresh { IfOk result (λ it. Self.Wire.faults it ≡ 0) }
        ensures named { IfOk result (λ it. Self.Wire.name it ≡ name.now) }
        ensures none { IfOk result (λ it. Self.Wire.has_brought it 0 ≡ true) }
        ensures desk { OpensLink name.now result (told self.old) (told self.new) };

    /// Closes a link. The desk has what was left of it under its name, and the count of sources and links
    /// that failed rises exactly where this one did. It takes no memory and cannot fail.
    fn close_link(&mut self, it: Self::Wire)
        ensures desk { ClosesLink (Self.Wire.name it) (Self.Wire.left it) (Self.Wire.faults it) (told self.old) (told self.new) };

    /// A post for datagrams under the name, which has sent none yet. `Failed` is answered exactly where the
    /// count of openings rose.
    fn open_post(&mut self, name: &str) -> Result<Self::Port, OpenRefusal>
        ensures empty { IfOk result (λ it. IfSome (Self.Port.sent it) (λ sent. sent ≡ [])) }
        ensures fresh { IfOk result (λ it. Self.Port.faults it ≡ 0) }
        ensures named { IfOk result (λ it. Self.Port.name it ≡ name.now) }
        ensures desk { OpensPost name.now result (told self.old) (told self.new) };

    /// Closes a post. The desk has the datagrams that it sent under its name, and the count of sinks and
    /// posts that failed rises exactly where this one did. It takes no memory and cannot fail.
    fn close_post(&mut self, it: Self::Port)
        ensures desk { ClosesPost (Self.Port.name it) (Self.Port.sent it) (Self.Port.faults it) (told self.old) (told self.new) };

    /// The next clock. Where the desk tells the readings of its clocks and how many it made, the clock
    /// has those of its number, counted from 0. It takes no memory.
    fn clock(&mut self) -> Self::Time
        ensures told { Self.Time.told result ≡ clock_told (told self.old).live.readings (told self.old).live.made }
        ensures desk { MakesClock (told self.old) (told self.new) };

    /// A gate. It takes no memory.
    fn gate(&mut self) -> Self::Pause
        ensures desk { told self.new ≡ told self.old };
}
