//! The buffers for the datagrams of one queue. All are allocated before the run, and go round between the feed and the
//! server.

ghost use Rattle.std.specs.Prelude.{◌≡◌, ◌<◌, suc, IfOk};
ghost use Rattle.std.specs.Arc.{arc_value};
ghost use Rattle.crossbeam_queue.specs.Passes.{view, IsPassOf, IsSamePass, ruled_capacity};
ghost use Rattle.tesla_relay.specs.Buffers.{tally};

use crossbeam_queue::protocol::{Lesson, Outcome, Protocol, Split};
use crossbeam_queue::{Pass, RuledArrayQueue};
use std::alloc::Global;
use std::sync::{Arc, Wait};
use std::thread;
use tesla_base::{MOST_DATAGRAM, NoMemory};

/// The bytes of a datagram, which stands at their start.
pub type Buffer = Box<[u8; MOST_DATAGRAM]>;

/// How many buffers a pass has taken, and how many it has given. No value of it is made.
pub struct Tally {
    pub taken: u64,
    pub given: u64,
}

/// The rule: as many buffers are free as were given and not taken.
pub struct Balanced;

impl Protocol<Buffer, Tally> for Balanced {
    ghost use Rattle.tesla_relay.specs.Buffers.{tally, IsBalanced};

    ghost holds = { IsBalanced };

    ghost first = { tally 0 0 };
}

/// A further pass has taken and given none.
struct Apart;

impl Split<Tally> for Apart {
    ghost use Rattle.tesla_relay.specs.Buffers.{tally};

    ghost left = { λ v. v };

    ghost right = { λ v. tally 0 0 };
}

/// One is taken.
struct Takes;

impl Outcome<Buffer, Tally> for Takes {
    ghost use Rattle.std.specs.Prelude.{◌≡◌, suc};
    ghost use Rattle.tesla_relay.specs.Buffers.{tally};

    ghost then = { λ v x w. w ≡ tally (suc v.taken) v.given };
}

impl Lesson<Buffer, Tally> for Takes {
    ghost use Rattle.std.specs.Prelude.{⊤};

    ghost fact = { λ v items. ⊤ };
}

/// One is given.
struct Gives;

impl Outcome<Buffer, Tally> for Gives {
    ghost use Rattle.std.specs.Prelude.{◌≡◌, suc};
    ghost use Rattle.tesla_relay.specs.Buffers.{tally};

    ghost then = { λ v x w. w ≡ tally v.taken (suc v.given) };
}

impl Lesson<Buffer, Tally> for Gives {
    ghost use Rattle.std.specs.Prelude.{⊤};

    ghost fact = { λ v items. ⊤ };
}

// The queue in which the free buffers stand.
type Store = RuledArrayQueue<Buffer, Tally, Balanced>;

/// The buffers that hold no datagram now, as one who takes and gives them sees them.
#[derive(Drop)]
pub struct FreeBuffers {
    store: Arc<Store>,
    pass: Pass<Buffer, Tally>,
    ghost own: { IsPassOf (arc_value store) pass },
}

// Gives so many new buffers.
fn fill(
    alloc: Global,
    store: &Store,
    pass: &mut Pass<Buffer, Tally>,
    count: usize,
) -> Result<(), NoMemory>
    requires own { IsPassOf store.now pass.old }
    requires none { view pass.old ≡ tally 0 0 }
    ensures own { IsSamePass pass.old pass.new }
    ensures given { IfOk result (λ _. view pass.new ≡ tally 0 count) }
{
    for place in 0..count {
        let buffer = Box::new(alloc, [0; MOST_DATAGRAM])?;
        // There is a place for each.
        if store.try_push_as::<Gives>(pass, buffer).is_err() {
            return Err(NoMemory);
        }
    }
    Ok(())
}

/// So many buffers, which all are free, as two see them. There is a place for each.
pub fn new_buffers(alloc: Global, count: usize) -> Result<(FreeBuffers, FreeBuffers), NoMemory>
    requires { 0 < count }
    ensures places { IfOk result (λ both. ruled_capacity (arc_value both.0.store) ≡ count) }
    ensures same { IfOk result (λ both. arc_value both.1.store ≡ arc_value both.0.store) }
    ensures free { IfOk result (λ both. (view both.0.pass ≡ tally 0 count) × (view both.1.pass ≡ tally 0 0)) }
{
    let (store, mut pass) = Store::ruled(alloc, count)?;
    fill(alloc, &store, &mut pass, count)?;
    let second = store.another::<Apart>(&mut pass);
    let store = Arc::new(alloc, store)?;
    let other = Arc::try_clone(&store)?;
    let first = FreeBuffers { store, pass };
    Ok((
        first,
        FreeBuffers {
            store: other,
            pass: second,
        },
    ))
}

/// Takes one of the free buffers. It waits until there is one.
pub fn take_buffer<R: Wait>(rt: &R, free: &mut FreeBuffers) -> Buffer
    ensures taken { view free.new.pass ≡ tally (suc (view free.old.pass).taken) (view free.old.pass).given }
    ensures same { free.new.store ≡ free.old.store }
{
    for _ in rt.forever() {
        if let Some(buffer) = free.store.pop_as::<Takes, R>(rt, &mut free.pass) {
            return buffer;
        }
        thread::yield_now();
    }
    unreachable!()
}

/// Gives a buffer, which is free then. There is a place for each that was taken; where there were none, it would wait for
/// one.
pub fn give_buffer<R: Wait>(rt: &R, free: &mut FreeBuffers, buffer: Buffer)
    ensures given { view free.new.pass ≡ tally (view free.old.pass).taken (suc (view free.old.pass).given) }
    ensures same { free.new.store ≡ free.old.store }
{
    let mut buffer = buffer;
    for _ in rt.forever() {
        match free.store.push_as::<Gives, R>(rt, &mut free.pass, buffer) {
            Ok(()) => return,
            Err(same) => buffer = same,
        }
        thread::yield_now();
    }
    unreachable!()
}
