//! A script that is read and judged, and what is kept of it.

ghost use Rattle.std.specs.Prelude.{◌≡◌, [], ◌∷◌, ℕ, List, Some, Err, IfErr, IfOk};
ghost use Rattle.tesla_desk.specs.Faults.{HasCause};
ghost use Rattle.tesla_desk.specs.Outside.{OfSource};
ghost use Rattle.tesla_front.specs.OutcomeView.{Refused, stop_view};
ghost use Rattle.tesla_front.specs.Openings.{Opens, OpensSome};
ghost use Rattle.tesla_front.specs.Refusal.{StopCauses};
ghost use Rattle.tesla_front.specs.declared.fault.Fault.TheVariants as faults;
ghost use Rattle.tesla_front.specs.declared.refusal.Stop.TheVariants as stops;
ghost use Rattle.tesla_sender.specs.Names.{NamesAfter};
ghost use Rattle.tesla_run_weave.specs.Steps.{IsReadIn, IsReadSource, ReadsTo};
ghost use Rattle.tesla_run_weave.specs.Weave.{IsNoScript, script_line};

use crate::WeaveKind;
use crate::collector::{Collector, Under};
use crate::nowhere::Nowhere;
use crate::plan::Plan;
use std::alloc::Global;
use std::marker::Brand;
use tesla_base::Kind;
use tesla_commit::Setup;
use tesla_convert::{Conversion, Ending, Stopped};
use tesla_desk::{Desk, Source};
use tesla_front::{Fault, Stop, refused};
use tesla_sender::Namer;

// The refusal of a script at a place.
fn script_refused(place: u64, kind: WeaveKind) -> Stop
    ensures { stop_view result ≡ Refused 3 (script_line place kind) }
{
    Stop::Refused(refused(3, "script", place, kind.name()))
}

// Reads a script from a source, with a namer that has accepted nothing yet.
fn collect<U: Under, S: Source>(alloc: Global, namer: Namer, source: &mut S) -> Result<Plan, Stop>
    requires setup { namer.setup ≡ U.setup }
    requires names { NamesAfter namer [] }
    requires fresh { S.faults source.old ≡ 0 }
    ensures reads { (bytes : List ℕ) → S.left source.old ≡ Some bytes → ReadsTo U.setup bytes (S.left source.new) result }
    ensures source { IsReadSource result }
    ensures cause { HasCause 0 (S.faults source.new) (result ≡ Err (stops.Failed faults.Read)) }
    ensures input { S.name source.new ≡ S.name source.old }
{
    let conversion = Conversion::new(Collector::<U>::new(alloc, namer));
    let mut out = Nowhere;
    let (collector, ended) = conversion.convert(source, &mut out);
    match ended {
        Ok(Ending::End) => Ok(collector.into_plan()),
        Ok(Ending::Refused { place, kind }) => Err(script_refused(place, kind)),
        Err(Stopped::Read) => Err(Stop::Failed(Fault::Read)),
        Err(Stopped::Memory) => Err(Stop::Failed(Fault::NoMemory)),
        Err(Stopped::Write) => unreachable!(),
    }
}

// Reads a script from a source, whose messages are named under the setup.
fn read_source<S: Source>(alloc: Global, setup: Setup, source: &mut S) -> Result<Plan, Stop>
    requires fresh { S.faults source.old ≡ 0 }
    ensures reads { (bytes : List ℕ) → S.left source.old ≡ Some bytes → ReadsTo setup bytes (S.left source.new) result }
    ensures source { IsReadSource result }
    ensures cause { HasCause 0 (S.faults source.new) (result ≡ Err (stops.Failed faults.Read)) }
    ensures input { S.name source.new ≡ S.name source.old }
{
    collect::<Brand, S>(alloc, Namer::new(setup), source)
}

/// What is kept of the script under a name, whose messages are named under the setup. The file is opened, read to its end
/// or to the first place that is refused, and closed.
///
/// `Refused` with the first place that the file or the stream refuses, `Failed` with `Read` or `Open` exactly where the
/// count of that rose, and with `NoMemory` where there was no room for the records.
pub fn read_script<D: Desk>(
    alloc: Global,
    setup: Setup,
    name: &str,
    desk: &mut D,
) -> Result<Plan, Stop>
    ensures found { IfOk result (λ plan. IsReadIn setup ((D.told desk.old).page name.now) plan) }
    ensures refused { IfErr result (λ stop. IsNoScript setup ((D.told desk.old).page name.now) ((D.told desk.new).left name.now) (stop_view stop)) }
    ensures opened { IfOk result (λ _. Opens (OfSource name.now ∷ []) 1 (D.told desk.old) (D.told desk.new)) }
    ensures opens { OpensSome (OfSource name.now ∷ []) (D.told desk.old) (D.told desk.new) }
    ensures pages { (n : List ℕ) → (D.told desk.new).page n ≡ (D.told desk.old).page n }
    ensures live { (D.told desk.new).live ≡ (D.told desk.old).live }
    ensures causes { StopCauses result (D.told desk.old).faults (D.told desk.new).faults }
{
    match desk.open_source(name) {
        Ok(mut source) => {
            let read = read_source(alloc, setup, &mut source);
            desk.close_source(source);
            read
        }
        Err(refusal) => Err(Stop::Failed(Fault::from(refusal))),
    }
}
