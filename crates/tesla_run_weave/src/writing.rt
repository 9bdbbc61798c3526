//! The script with woven payloads, as it is written.

ghost use Rattle.std.specs.Prelude.{◌≡◌, ◌+◌, ◌<◌, ◌≤◌, ◌++◌, [], ◌∷◌, Err, IfOk, IfSome, None, drop, length, true, false};
ghost use Rattle.std.specs.List.{All, flat_map};
ghost use Rattle.tesla_capture.specs.Gathering.{Gathers, gathered};
ghost use Rattle.tesla_capture.specs.Script.{record_text, script_text};
ghost use Rattle.tesla_desk.specs.Faults.{HasCause};
ghost use Rattle.tesla_desk.specs.Outside.{AppendsPrefix, OfSink, with_bytes};
ghost use Rattle.tesla_front.specs.OutcomeView.{Failed, result_view};
ghost use Rattle.tesla_front.specs.Fault.{Causes};
ghost use Rattle.tesla_front.specs.Files.{WritesFile};
ghost use Rattle.tesla_front.specs.Refusal.{StopCauses};
ghost use Rattle.tesla_front.specs.declared.fault.Fault.TheVariants as faults;
ghost use Rattle.tesla_early.specs.Woven.{woven};
ghost use Rattle.tesla_run_weave.specs.Plan.{filled};
ghost use Rattle.tesla_run_weave.specs.Steps.{OpensOut, payloads_behind, plan_text, slot_text};
ghost use Rattle.tesla_run_weave.specs.Weave.{WritesWoven, messages_line};

use crate::plan::{Plan, Slot};
use std::alloc::Global;
use tesla_base::{Name, NoMemory, Text};
use tesla_capture::Gatherer;
use tesla_desk::{Desk, Sink};
use tesla_early::weave;
use tesla_front::{Fault, Lines, Stop, add_count};

// Puts a record: a message with the payload at this place, where there is one, or a disclosure. It gives the place of the
// next payload. `None`: a write failed.
fn put_slot<O: Sink>(
    slot: Slot,
    payloads: &[Text],
    at: usize,
    gatherer: &mut Gatherer,
    out: &mut O,
) -> Option<usize>
    requires sizes { All (λ payload. length payload ≤ 1200) payloads.now }
    requires within { at ≤ length payloads.now }
    ensures all { IfSome result (λ next. Gathers (O.written out.old) (O.written out.new) (gathered gatherer.new) (gathered gatherer.old ++ slot_text slot (drop at payloads.now))) }
    ensures next { IfSome result (λ next. (next ≤ length payloads.now) × (drop next payloads.now ≡ payloads_behind slot (drop at payloads.now))) }
    ensures prefix { result ≡ None → AppendsPrefix (O.written out.old) (O.written out.new) (gathered gatherer.old) }
    ensures cause { HasCause (O.faults out.old) (O.faults out.new) (result ≡ None) }
    ensures name { O.name out.new ≡ O.name out.old }
{
    match slot {
        Slot::Message(reading) => {
            if at >= payloads.len() {
                return Some(at);
            }
            if !gatherer.put_message(out, reading, payloads[at].bytes()) {
                return None;
            }
            Some(at + 1)
        }
        Slot::Disclosure(reading) => {
            if !gatherer.put_disclosure(out, reading) {
                return None;
            }
            Some(at)
        }
    }
}

// Puts the records with these payloads behind what is gathered. False: a write failed.
fn put_slots<O: Sink>(
    slots: &[Slot],
    payloads: &[Text],
    gatherer: &mut Gatherer,
    out: &mut O,
) -> bool
    requires { All (λ payload. length payload ≤ 1200) payloads.now }
    ensures all { result ≡ true → Gathers (O.written out.old) (O.written out.new) (gathered gatherer.new) (gathered gatherer.old ++ flat_map record_text (filled slots.now payloads.now)) }
    ensures prefix { result ≡ false → AppendsPrefix (O.written out.old) (O.written out.new) (gathered gatherer.old ++ flat_map record_text (filled slots.now payloads.now)) }
    ensures cause { HasCause (O.faults out.old) (O.faults out.new) (result ≡ false) }
    ensures name { O.name out.new ≡ O.name out.old }
{
    let mut at = 0;
    for k in 0..slots.len() {
        let Some(next) = put_slot(slots[k], payloads, at, gatherer, out) else {
            return false;
        };
        at = next;
    }
    true
}

// Writes the script of the records with these payloads. False: a write failed.
fn put_script<O: Sink>(slots: &[Slot], payloads: &[Text], out: &mut O) -> bool
    requires { All (λ payload. length payload ≤ 1200) payloads.now }
    ensures all { result ≡ true → O.written out.new ≡ with_bytes (O.written out.old) (script_text (filled slots.now payloads.now)) }
    ensures prefix { AppendsPrefix (O.written out.old) (O.written out.new) (script_text (filled slots.now payloads.now)) }
    ensures cause { HasCause (O.faults out.old) (O.faults out.new) (result ≡ false) }
    ensures name { O.name out.new ≡ O.name out.old }
{
    let mut gatherer = Gatherer::new();
    if !gatherer.put_script_head(out) {
        return false;
    }
    if !put_slots(slots, payloads, &mut gatherer, out) {
        return false;
    }
    gatherer.flush(out)
}

// Writes the script of the records with these payloads to a file, which is opened before and closed afterwards.
fn write_script<D: Desk>(
    name: &str,
    slots: &[Slot],
    payloads: &[Text],
    desk: &mut D,
) -> Result<(), Fault>
    requires { All (λ payload. length payload ≤ 1200) payloads.now }
    ensures writes { WritesFile (script_text (filled slots.now payloads.now)) ((D.told desk.old).page name.now) ((D.told desk.new).page name.now) result }
    ensures opens { OpensOut name.now (D.told desk.old) (D.told desk.new) (result ≡ Err Fault.NoMemory) }
    ensures live { (D.told desk.new).live ≡ (D.told desk.old).live }
    ensures causes { Causes result (D.told desk.old).faults (D.told desk.new).faults }
{
    match desk.open_sink(name) {
        Ok(mut out) => {
            let whole = put_script(slots, payloads, &mut out);
            desk.close_sink(out);
            if whole { Ok(()) } else { Err(Fault::Write) }
        }
        Err(refusal) => Err(Fault::from(refusal)),
    }
}

// The woven payloads of messages with these names and bodies, which are dropped then.
fn payloads_of(
    alloc: Global,
    names: Vec<Name>,
    bodies: Vec<Text>,
    gap: u32,
) -> Result<Vec<Text>, NoMemory>
    requires same { length names.items ≡ length bodies.items }
    requires gap { 1 ≤ gap }
    requires short { All (λ body. length body ≤ 1161) bodies.items }
    ensures woven { IfOk result (λ payloads. payloads.items ≡ woven gap names.items bodies.items) }
    ensures sizes { IfOk result (λ payloads. All (λ payload. length payload ≤ 1200) payloads.items) }
{
    weave(alloc, names.as_slice(), bodies.as_slice(), gap)
}

// The line that tells how many messages there are.
fn messages_line(count: u64) -> Lines
    ensures { result.bytes ≡ messages_line count }
{
    let mut lines = Lines::new();
    add_count(&mut lines, "messages", count);
    lines
}

/// Weaves the payloads of the messages of a plan, and writes the script to a file, which is opened once they are woven. The
/// names and the bodies are dropped before.
///
/// The line of how many messages there are. `Write` and `Open` exactly where the count of that rose: after a failed write
/// the file holds a prefix of the script. `NoMemory` comes only before the file is asked for.
pub fn write_woven<D: Desk>(
    alloc: Global,
    plan: Plan,
    gap: u32,
    name: &str,
    desk: &mut D,
) -> Result<Lines, Stop>
    requires { 1 ≤ gap }
    ensures writes { WritesWoven (plan_text gap plan) (length plan.bodies) ((D.told desk.old).page name.now) ((D.told desk.new).page name.now) 2 (result_view result) }
    ensures opens { OpensOut name.now (D.told desk.old) (D.told desk.new) (result_view result ≡ Failed faults.NoMemory) }
    ensures live { (D.told desk.new).live ≡ (D.told desk.old).live }
    ensures causes { StopCauses result (D.told desk.old).faults (D.told desk.new).faults }
{
    let Plan {
        slots,
        names,
        bodies,
    } = plan;
    let count = bodies.len() as u64;
    let Ok(payloads) = payloads_of(alloc, names, bodies, gap) else {
        return Err(Stop::Failed(Fault::NoMemory));
    };
    match write_script(name, slots.as_slice(), payloads.as_slice(), desk) {
        Ok(()) => Ok(messages_line(count)),
        Err(fault) => Err(Stop::Failed(fault)),
    }
}
