//! The opening of a sender.

ghost use Rattle.std.specs.Prelude.{◌≡◌, ◌≤◌, ◌<◌, MatchResult, [], None, Some, Ok, length};
ghost use Rattle.tesla_commit.specs.Parsing.{judged};
ghost use Rattle.tesla_seeds.specs.Judged.{seeds_judged};
ghost use Rattle.tesla_sender.specs.Made.{chains_of};
ghost use Rattle.tesla_sender.specs.Opening.{first_wrong};
ghost use Rattle.tesla_sender.specs.Stands.{Stands};
ghost use Rattle.tesla_c.specs.Senders.{AreUnopened, IsOpenedSender, IsSeeded, IsUnopened, seeded};

use crate::answers::code_of;
use crate::engine::Engine;
use crate::sender_answers::{CSenderRefusal, seeds_code_of};
use std::alloc::Global;
use std::marker::Brand;
use std::sync::ledger::{Blank, Ledger};
use tesla_base::Steps;
use tesla_commit::{Setup, SetupRefusal, read_setup};
use tesla_seeds::{Seeds, SeedsRefusal, read_seeds};
use tesla_sender::{Sender, SenderRefusal};

/// Why no sender is opened, or no setup is made.
#[derive(Drop)]
pub enum Unopened {
    /// A text is refused, or a seed doesn't give the key of the setup.
    Refused(CSenderRefusal),
    /// There wasn't enough memory.
    NoMemory,
}

/// A refusal of a text.
pub(crate) fn refused(text: u32, line: u32, kind: u32, chain: u32) -> Unopened
    ensures { result ≡ Unopened.Refused (record { text = text; line = line; kind = kind; chain = chain }) }
{
    Unopened::Refused(CSenderRefusal {
        text,
        line,
        kind,
        chain,
    })
}

/// A sender of the setup and the seeds that two texts spell, in its box. All memory is taken here.
pub(crate) fn open_sender(
    alloc: Global,
    setup: &[u8],
    seeds: &[u8],
) -> Result<Box<Engine>, Unopened>
    ensures { MatchResult result (λ engine. IsOpenedSender (judged setup.now) seeds.now engine.value) (IsUnopened (judged setup.now) seeds.now) }
{
    let setup = match read_setup(alloc, setup) {
        Ok(setup) => setup,
        Err(SetupRefusal::At { line, kind }) => return Err(refused(1, line, code_of(kind), 0)),
        Err(SetupRefusal::NoMemory) => return Err(Unopened::NoMemory),
    };
    let sender = match seeded_sender(alloc, setup, seeds) {
        Ok(sender) => sender,
        Err(unopened) => return Err(unopened),
    };
    match Box::new(alloc, Engine::Sending(sender)) {
        Ok(engine) => Ok(engine),
        Err(_) => Err(Unopened::NoMemory),
    }
}

// The sender of a setup with the seeds that a text spells.
fn seeded_sender(alloc: Global, setup: Setup, text: &[u8]) -> Result<Sender, Unopened>
    ensures { MatchResult result (λ sender. IsSeeded setup (seeds_judged (length setup.rows) text.now) sender.stream × Stands sender []) (AreUnopened setup (seeds_judged (length setup.rows) text.now)) }
{
    let seeds = match read_seeds(alloc, text, setup.count()) {
        Ok(seeds) => seeds,
        Err(SeedsRefusal::At { line, kind }) => {
            return Err(refused(2, line, seeds_code_of(kind), 0));
        }
        Err(SeedsRefusal::NoMemory) => return Err(Unopened::NoMemory),
    };
    sender_of::<Brand>(alloc, setup, &seeds, Blank::new(1))
}

// The sender of a setup with a seed for each of its chains.
#[tactic(auto, using(crate::proofs::Sendings::wrong_told, crate::proofs::Sendings::none_wrong))]
fn sender_of<L: Ledger>(
    alloc: Global,
    setup: Setup,
    seeds: &Seeds,
    blank: Blank,
) -> Result<Sender, Unopened>
    requires name { blank.name ≡ L.name }
    requires parts { blank.parts ≡ L.parts }
    requires some { 0 < L.parts }
    requires count { length seeds.now ≡ length setup.rows }
    ensures { MatchResult result (λ sender. IsSeeded setup (Ok seeds.now) sender.stream × Stands sender []) (AreUnopened setup (Ok seeds.now)) }
{
    let mut steps = Steps::<L>::new(blank);
    match Sender::open(alloc, setup, seeds, &mut steps) {
        Ok(sender) => Ok(sender),
        Err(SenderRefusal::WrongSeed { chain, made: _ }) => {
            let number = u32::from(chain.0);
            Err(refused(2, number + 2, 32, number))
        }
        Err(SenderRefusal::NoMemory) => Err(Unopened::NoMemory),
    }
}
