//! The queue that stands before a post, and the rule that it is under: what went in comes out, in order and once, and
//! a link brought it, in order and each once.

ghost use Rattle.std.specs.Prelude.{◌≡◌, ◌<◌, ◌≤◌, ◌+◌, ◌∷◌, [], ◌++◌, ℕ, List, true, length, take, IfOk, IfErr, IfSome, MatchOption};
ghost use Rattle.crossbeam_queue.specs.Passes.{view, IsSamePass, IsPassOf, ruled_capacity};
ghost use Rattle.tesla_relay.specs.Line.{numbered, numbered_in, put_log, popped_log};
ghost use Rattle.tesla_relay.specs.Numbered.{AreBelow, AreBrought, AreBroughtFrom};
ghost use Rattle.tesla_relay.specs.declared.line.Item.{Item};

use crate::basis::Based;
use crate::buffers::Buffer;
use crossbeam_queue::protocol::{Join, Lesson, Outcome, Protocol, Split};
use crossbeam_queue::{Pass, RuledArrayQueue};
use std::alloc::Global;
use std::collections::LinkedList;
use std::marker::PhantomData;
use std::sync::Wait;
use tesla_base::{MOST_DATAGRAM, NoMemory};

/// What stands in a queue: a datagram, at the start of its bytes, with its number, counted from 0 among those of the
/// link; or the news that none follows.
#[derive(Drop)]
pub enum Item {
    Datagram {
        number: u64,
        length: u16,
        bytes: Buffer,
    },
    End,
}

/// The datagram of this size at the front of these bytes.
pub fn datagram_in(size: u16, bytes: &[u8; MOST_DATAGRAM]) -> &[u8]
    ensures datagram { result.now ≡ take size bytes.now }
    ensures few { length result.now ≤ 2048 }
{
    &bytes[..usize::from(size).min(2048)]
}

/// What a pass may do, and what it has put in and taken out. No value of it is made.
pub struct Log {
    pub puts: bool,
    pub pops: bool,
    pub put: LinkedList<Item>,
    pub popped: LinkedList<Item>,
}

/// The rule: what was put in is what was taken out and then what the queue holds. A link brought all of it, in order
/// and each once.
pub struct InOrder<X> {
    basis: PhantomData<X>,
}

impl<X: Based> Protocol<Item, Log> for InOrder<X> {
    ghost use Rattle.std.specs.Prelude.{true, []};
    ghost use Rattle.tesla_relay.specs.Line.{log, IsInOrder};

    ghost holds = { IsInOrder X.basis.brought };

    ghost first = { log true true [] [] };
}

/// One pass puts in, and another takes out.
pub struct Ends;

impl Split<Log> for Ends {
    ghost use Rattle.std.specs.Prelude.{[]};
    ghost use Rattle.tesla_relay.specs.Line.{numbered, numbered_in, put_log, popped_log};
    ghost use Rattle.tesla_relay.specs.Numbered.{AreBelow, AreBrought, AreBroughtFrom};

    ghost left = { λ v. put_log v.put };

    ghost right = { λ v. popped_log v.popped };
}

impl Join<Log> for Ends {
    ghost use Rattle.std.specs.Prelude.{true, false, []};
    ghost use Rattle.tesla_relay.specs.Line.{log};

    ghost both = { λ v w. log true true v.put w.popped };

    ghost spent = { log false false [] [] };
}

/// What putting in an item does, and what the one who puts in learns.
struct Puts;

impl Outcome<Item, Log> for Puts {
    ghost use Rattle.std.specs.Prelude.{◌≡◌, ◌++◌, ◌∷◌, []};
    ghost use Rattle.tesla_relay.specs.Line.{log};

    ghost then = { λ v x w. w ≡ log v.puts v.pops (v.put ++ x ∷ []) v.popped };
}

impl Lesson<Item, Log> for Puts {
    ghost use Rattle.tesla_relay.specs.Line.{Offered};

    ghost fact = { λ v items. Offered v.put items };
}

/// What taking out an item does, and what is known of all that was taken out.
struct Pops<X> {
    basis: PhantomData<X>,
}

impl<X: Based> Outcome<Item, Log> for Pops<X> {
    ghost use Rattle.std.specs.Prelude.{◌≡◌, ◌++◌, ◌∷◌, []};
    ghost use Rattle.tesla_relay.specs.Line.{log, numbered};
    ghost use Rattle.tesla_relay.specs.Numbered.{AreBrought};

    ghost then = { λ v x w. (w ≡ log v.puts v.pops v.put (v.popped ++ x ∷ [])) × AreBrought X.basis.brought (numbered (v.popped ++ x ∷ [])) };
}

/// What both together know of the queue.
struct Total;

impl Lesson<Item, Log> for Total {
    ghost use Rattle.std.specs.Prelude.{◌≡◌, ◌++◌};

    ghost fact = { λ v items. v.put ≡ v.popped ++ items };
}

/// A queue under this rule.
pub type Line<X> = RuledArrayQueue<Item, Log, InOrder<X>>;

/// What the queue shows to one who puts in or takes out.
pub type LinePass = Pass<Item, Log>;

/// A queue with so many places, empty, and its two passes: one puts in, the other takes out.
pub fn new_line<X: Based>(
    alloc: Global,
    slots: usize,
) -> Result<(Line<X>, LinePass, LinePass), NoMemory>
    requires { 0 < slots }
    ensures own { IfOk result (λ made. IsPassOf made.0 made.1 × IsPassOf made.0 made.2) }
    ensures room { IfOk result (λ made. ruled_capacity made.0 ≡ slots) }
    ensures empty { IfOk result (λ made. (view made.1 ≡ put_log []) × (view made.2 ≡ popped_log [])) }
{
    let (line, mut put) = Line::<X>::ruled(alloc, slots)?;
    let popped = line.another::<Ends>(&mut put);
    Ok((line, put, popped))
}

/// How many items the queue holds at most, at one moment.
pub fn length_of<R: Wait, X: Based>(rt: &R, line: &Line<X>, pass: &mut LinePass) -> usize
    requires own { IsPassOf line.now pass.old }
    requires puts { (view pass.old).puts ≡ true }
    ensures own { IsSamePass pass.old pass.new × (view pass.new ≡ view pass.old) }
    ensures most { result ≤ length (view pass.old).put }
{
    line.len_as::<Puts, R>(rt, pass)
}

/// Puts an item in: a datagram that a link brought behind all that were put in, or the end. `Err`: the queue was full
/// at one moment, and the item is given back.
pub fn put_in<R: Wait, X: Based>(
    rt: &R,
    line: &Line<X>,
    pass: &mut LinePass,
    item: Item,
) -> Result<(), Item>
    requires own { IsPassOf line.now pass.old }
    requires puts { (put : List Item) × (view pass.old ≡ put_log put) }
    requires brought { (number : ℕ) × AreBelow number (numbered (view pass.old).put) × AreBroughtFrom X.basis.brought number (numbered_in item) }
    ensures own { IsSamePass pass.old pass.new }
    ensures put { IfOk result (λ _. view pass.new ≡ put_log ((view pass.old).put ++ item ∷ [])) }
    ensures full { IfErr result (λ _. (view pass.new ≡ view pass.old) × (ruled_capacity line.now ≤ length (view pass.old).put)) }
{
    line.push_as::<Puts, R>(rt, pass, item)
}

/// Takes the oldest item out. `None`: there was none at one moment, or another was being put in.
pub fn take_out<X: Based>(line: &Line<X>, pass: &mut LinePass) -> Option<Item>
    requires own { IsPassOf line.now pass.old }
    requires pops { (popped : List Item) × (view pass.old ≡ popped_log popped) }
    ensures own { IsSamePass pass.old pass.new }
    ensures taken { MatchOption result (view pass.new ≡ view pass.old) (λ item. view pass.new ≡ popped_log ((view pass.old).popped ++ item ∷ [])) }
    ensures brought { IfSome result (λ item. AreBrought X.basis.brought (numbered ((view pass.old).popped ++ item ∷ []))) }
{
    line.try_pop_as::<Pops<X>>(pass)
}

/// What was put in is what was taken out, and then what the queue holds: both passes are given up.
pub fn settle<X: Based>(line: &Line<X>, put: &mut LinePass, popped: LinePass)
    requires own { IsPassOf line.now put.old × IsPassOf line.now popped }
    requires puts { (view put.old).puts ≡ true }
    requires pops { (view popped).pops ≡ true }
    ensures { (items : List Item) × ((view put.old).put ≡ (view popped).popped ++ items) }
{
    line.absorb::<Ends>(put, popped);
    line.learn_as::<Total>(put);
}
