//! The sender of a setup and seeds that stand in two files, as it is opened.

ghost use Rattle.std.specs.Prelude.{◌≡◌, ◌<◌, [], None, length, IfErr, IfOk};
ghost use Rattle.tesla_front.specs.OutcomeView.{stop_view};
ghost use Rattle.tesla_sender.specs.Made.{Stream, chains_of};
ghost use Rattle.tesla_sender.specs.Opening.{IsRefusal};
ghost use Rattle.tesla_sender.specs.Stands.{Stands};
ghost use Rattle.tesla_run_send.specs.Sender.{IsNoSender, OpensNoSender, OpensSender, ReadsNoStream, ReadsStream, stream_in, wrong_line};

use std::alloc::Global;
use std::marker::Brand;
use std::sync::ledger::{Blank, Ledger};
use tesla_base::Steps;
use tesla_commit::Setup;
use tesla_desk::Environment;
use tesla_front::{Fault, Stop, refused, seeds_under, setup_under};
use tesla_seeds::Seeds;
use tesla_sender::{Sender, SenderRefusal};

/// A setup, and a seed for each of its chains, which need not give the keys of the setup.
#[derive(Drop)]
pub struct SeededSetup {
    pub setup: Setup,
    pub seeds: Seeds,
}

/// Reads the setup under SETUP and a seed for each of its chains under SECRET, which is opened after SETUP was judged.
///
/// `Refused` with the first refused line of SETUP or of SECRET. `Failed` with `Read` or `Open` exactly where the count of
/// that rose, and with `NoMemory`.
pub fn read_seeded<D: Environment>(
    alloc: Global,
    setup: &str,
    secret: &str,
    desk: &mut D,
) -> Result<SeededSetup, Stop>
    ensures read { IfOk result (λ seeded. ReadsStream setup.now secret.now (stream_in seeded) (D.told desk.old) (D.told desk.new)) }
    ensures count { IfOk result (λ seeded. length seeded.seeds ≡ length seeded.setup.rows) }
    ensures refused { IfErr result (λ stop. ReadsNoStream setup.now secret.now (stop_view stop) (D.told desk.old) (D.told desk.new)) }
{
    let setup = setup_under(alloc, setup, desk)?;
    let seeds = seeds_under(alloc, secret, setup.count(), desk)?;
    Ok(SeededSetup { setup, seeds })
}

/// Opens the sender of the setup under SETUP with the seeds under SECRET, which has accepted nothing yet. SECRET is opened
/// after SETUP was judged, and all memory of the sender is taken once both were read.
///
/// `Refused` with the first refused line of SETUP or of SECRET, or with the line of the first seed that doesn't give the
/// key of the setup. `Failed` with `Read` or `Open` exactly where the count of that rose, and with `NoMemory`.
pub fn open_sender<D: Environment>(
    alloc: Global,
    setup: &str,
    secret: &str,
    desk: &mut D,
) -> Result<Sender, Stop>
    ensures opened { IfOk result (λ sender. OpensSender setup.now secret.now sender.stream (D.told desk.old) (D.told desk.new)) }
    ensures stands { IfOk result (λ sender. Stands sender []) }
    ensures refused { IfErr result (λ stop. OpensNoSender setup.now secret.now (stop_view stop) (D.told desk.old) (D.told desk.new)) }
{
    let seeded = read_seeded(alloc, setup, secret, desk)?;
    sender_of::<Brand>(alloc, seeded, Blank::new(1))
}

// The sender of a setup with a seed for each of its chains.
fn sender_of<L: Ledger>(alloc: Global, seeded: SeededSetup, blank: Blank) -> Result<Sender, Stop>
    requires name { blank.name ≡ L.name }
    requires parts { blank.parts ≡ L.parts }
    requires some { 0 < L.parts }
    requires count { length seeded.seeds ≡ length seeded.setup.rows }
    ensures stands { IfOk result (λ sender. Stands sender []) }
    ensures opened { IfOk result (λ sender. (sender.stream ≡ stream_in seeded) × (wrong_line (stream_in seeded) ≡ None)) }
    ensures refused { IfErr result (λ stop. IsNoSender (stream_in seeded) (stop_view stop)) }
{
    let mut steps = Steps::<L>::new(blank);
    let SeededSetup { setup, seeds } = seeded;
    match Sender::open(alloc, setup, &seeds, &mut steps) {
        Ok(sender) => Ok(sender),
        Err(refusal) => Err(no_sender(refusal)),
    }
}

/// What a command comes to whose sender isn't opened for this refusal: `Refused` with the line of the seed that doesn't
/// give the key of the setup, where that of chain 0 is the second, or `Failed` with `NoMemory`.
pub fn no_sender(refusal: SenderRefusal) -> Stop
    ensures { (stream : Stream) → IsRefusal (chains_of stream) refusal → IsNoSender stream (stop_view result) }
{
    match refusal {
        SenderRefusal::WrongSeed { chain, made: _ } => {
            let line = u64::from(chain.0) + 2;
            Stop::Refused(refused(3, "seeds", line, "WrongSeed"))
        }
        SenderRefusal::NoMemory => Stop::Failed(Fault::NoMemory),
    }
}
