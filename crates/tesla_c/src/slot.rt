//! The place in the caller's memory that keeps what was opened.

ghost use Rattle.std.specs.declared.option.Option.{Option};
ghost use Rattle.tesla_c.specs.declared.engine.Engine.{Engine};
ghost use Rattle.tesla_c.specs.Slot.{held_coded, slot_owns};

use crate::engine::Engine;
use crate::loose::Loose;
use std::alloc::Global;
use std::marker::Model;
use std::mem;
use std::ptr::null_mut;

/// A slot: empty where `full` is 0, as a C caller begins it, and else the owner of what was opened into it. Only the calls of
/// this library write it, and nobody copies it.
#[repr(C)]
pub struct Slot {
    full: u64,
    at: *mut u8,
    ghost held: { Option Engine } by { held_coded },
}

impl Model for Slot {
    ghost also_owns = { λ s. slot_owns s.full s.at s.held };
}

impl Slot {
    ghost use Rattle.std.specs.Prelude.{◌≡◌, ◌≢◌, option_map};
    ghost use Rattle.std.specs.declared.option.Option.TheVariants.{None, Some};
    ghost use Rattle.tesla_c.specs.Held.{held_in};

    /// An empty slot.
    pub(crate) fn none() -> Slot
        ensures { held_in result ≡ None }
    {
        Slot {
            full: 0,
            at: null_mut(),
        }
    }

    // The slot of what was opened.
    fn of(loose: Loose<Engine, Global>) -> Slot
        ensures { held_in result ≡ Some loose.value }
    {
        let Loose { at, alloc: _ } = loose;
        Slot {
            full: 1,
            at: at as *mut u8,
        }
    }

    // What the slot holds.
    fn into_loose(self, alloc: Global) -> Option<Loose<Engine, Global>>
        ensures { option_map (λ loose. loose.value) result ≡ held_in self }
    {
        let Slot { full, at } = self;
        if full == 0 {
            None
        } else {
            Some(Loose {
                at: at as *mut Engine,
                alloc,
            })
        }
    }

    // Nothing is lost with an empty slot.
    fn into_nothing(self)
        requires { held_in self ≡ None }
    {
        let Slot { full: _, at: _ } = self;
    }

    /// Takes out what the slot holds, and leaves it empty.
    pub(crate) fn take(&mut self, alloc: Global) -> Option<Box<Engine>>
        ensures taken { option_map (λ engine. engine.value) result ≡ held_in self.old }
        ensures empty { held_in self.new ≡ None }
    {
        let slot = mem::replace(self, Slot::none());
        match slot.into_loose(alloc) {
            Some(loose) => Some(loose.into_box()),
            None => None,
        }
    }

    /// Puts what was opened into an empty slot.
    pub(crate) fn put(&mut self, engine: Box<Engine>)
        requires { held_in self.old ≡ None }
        ensures { held_in self.new ≡ Some engine.value }
    {
        let empty = mem::replace(self, Slot::of(Loose::of(engine)));
        empty.into_nothing();
    }
}
