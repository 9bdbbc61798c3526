//! A capture that is played to a target, from a source to a sink.

ghost use Rattle.std.specs.Prelude.{◌≡◌, ◌<◌, [], IfSome};
ghost use Rattle.tesla_desk.specs.Faults.{HasCause, HasCauseBeside};
ghost use Rattle.tesla_front.specs.OutcomeView.{Failed, result_view};
ghost use Rattle.tesla_front.specs.declared.fault.Fault.TheVariants as faults;
ghost use Rattle.tesla_convert.specs.Meaning.{ConvertsBetween};
ghost use Rattle.tesla_run_replay.specs.Playing.{events_in, meaning_by, with_end};
ghost use Rattle.tesla_run_replay.specs.Steps.{TellsEnd};

use crate::converter::{ReplayConverter, ReplayLedger};
use crate::target::Target;
use std::sync::ledger::Blank;
use tesla_base::{Kind, Steps};
use tesla_capture::RecordKind;
use tesla_convert::{Conversion, Ending, Stopped};
use tesla_desk::{Sink, Source};
use tesla_front::{Fault, Lines, Stop, refused};

/// Plays a capture that is read from a source to a target, and writes what that tells to a sink: each record before the
/// first place that is refused, and where there is none the end. The blank is for the ledger that counts the evaluations
/// of HMAC and names the rule of the target.
///
/// `Done` with the lines of the target. `Refused` with the refused place of the capture. `Failed` with what went wrong
/// first: `Read` exactly where the source's count of faults rose, `Write` exactly where the sink's did, but for the last
/// write behind a failed read, and `NoMemory` only where the target's `may_want` is true.
pub fn play_target<L: ReplayLedger, T: Target + Drop, S: Source, O: Sink>(
    target: T,
    blank: Blank,
    source: &mut S,
    out: &mut O,
) -> Result<Lines, Stop>
    requires name { blank.name ≡ L.name }
    requires parts { blank.parts ≡ L.parts }
    requires some { 0 < L.parts }
    requires rule { L.rule ≡ T.rule target }
    requires has { T.has target [] }
    requires calls { T.calls target ≡ 0 }
    requires empty { IfSome (O.written out.old) (λ bytes. bytes ≡ []) }
    requires fresh { S.faults source.old ≡ 0 }
    requires sound { O.faults out.old ≡ 0 }
    ensures plays { ConvertsBetween (meaning_by T.may_want (T.rule target)) (S.left source.old) (S.left source.new) (O.written out.new) (O.faults out.new) (result_view result) }
    ensures reads { HasCause 0 (S.faults source.new) (result_view result ≡ Failed faults.Read) }
    ensures writes { HasCauseBeside ((result_view result ≡ Failed faults.Read) × (0 < O.faults out.new)) 0 (O.faults out.new) (result_view result ≡ Failed faults.Write) }
    ensures input { S.name source.new ≡ S.name source.old }
    ensures output { O.name out.new ≡ O.name out.old }
{
    let steps = Steps::<L>::new(blank);
    let converter = ReplayConverter::new(target, steps);
    let (converter, ended) = Conversion::new(converter).convert(source, out);
    ending_result(ended, converter.target())
}

// What a conversion that ended so comes to.
fn ending_result<T: Target>(
    ended: Result<Ending<RecordKind>, Stopped>,
    target: &T,
) -> Result<Lines, Stop>
    ensures { TellsEnd (T.rule target.now) (λ records. T.has target.now (with_end (T.rule target.now) (events_in records))) ended (result_view result) }
{
    match ended {
        Ok(Ending::End) => Ok(target.lines()),
        Ok(Ending::Refused { place, kind }) => {
            Err(Stop::Refused(refused(3, "capture", place, kind.name())))
        }
        Err(Stopped::Read) => Err(Stop::Failed(Fault::Read)),
        Err(Stopped::Write) => Err(Stop::Failed(Fault::Write)),
        Err(Stopped::Memory) => Err(Stop::Failed(Fault::NoMemory)),
    }
}
