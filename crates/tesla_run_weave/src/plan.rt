//! What is kept of a script that is woven.

ghost use Rattle.std.specs.Prelude.{◌≡◌, ◌≤◌, IfOk, [], ◌++◌, length};
ghost use Rattle.tesla_run_weave.specs.Plan.{with_disclosure, with_message};

use std::alloc::Global;
use std::marker::Model;
use tesla_base::{Name, NoMemory, Text};

/// A record of a script, without its body.
#[derive(Clone, Copy, Debug)]
pub enum Slot {
    /// A message, with its reading.
    Message(u64),
    /// A disclosure, with its reading.
    Disclosure(u64),
}

/// What is kept of the records of a script: each without its body, and the names and the bodies of the messages. A body
/// has at most 1,161 bytes.
#[derive(Drop)]
pub struct Plan {
    pub slots: Vec<Slot>,
    pub names: Vec<Name>,
    pub bodies: Vec<Text>,
}

impl Model for Plan {
    ghost use Rattle.tesla_run_weave.specs.Plan.{IsPlan, Planned};

    ghost Value = { Planned };

    ghost view = { λ p. record { slots = p.slots.items; names = p.names.items; bodies = p.bodies.items } };

    ghost invariant = { λ p. IsPlan (record { slots = p.slots.items; names = p.names.items; bodies = p.bodies.items }) };
}

impl Plan {
    /// The plan of no record. It takes no memory.
    pub fn new(alloc: Global) -> Plan
        ensures { result ≡ record { slots = []; names = []; bodies = [] } }
    {
        Plan {
            slots: Vec::new(alloc),
            names: Vec::new(alloc),
            bodies: Vec::new(alloc),
        }
    }

    /// Adds a message. `NoMemory`: there was no room for it.
    pub fn add_message(
        &mut self,
        alloc: Global,
        reading: u64,
        name: Name,
        body: &[u8],
    ) -> Result<(), NoMemory>
        requires { length body.now ≤ 1161 }
        ensures { IfOk result (λ _. self.new ≡ with_message self.old reading name body.now) }
    {
        let body = Text::new(alloc, body)?;
        self.slots.reserve(1)?;
        self.names.reserve(1)?;
        self.bodies.reserve(1)?;
        self.slots.push_reserved(Slot::Message(reading));
        self.names.push_reserved(name);
        self.bodies.push_reserved(body);
        Ok(())
    }

    /// Adds a disclosure. `NoMemory`: there was no room for it.
    pub fn add_disclosure(&mut self, reading: u64) -> Result<(), NoMemory>
        ensures { IfOk result (λ _. self.new ≡ with_disclosure self.old reading) }
    {
        self.slots.reserve(1)?;
        self.slots.push_reserved(Slot::Disclosure(reading));
        Ok(())
    }
}
