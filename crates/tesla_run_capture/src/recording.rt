//! The recording of a link: each datagram that leaves it becomes an arrival of a capture, with a take behind it.

ghost use Rattle.std.specs.Prelude.{◌≡◌, ◌<◌, Err, IfSome, List, ℕ, true};
ghost use Rattle.tesla_capture.specs.Capture.{head};
ghost use Rattle.tesla_desk.specs.Faults.{HasCause, HasCauseBeside};
ghost use Rattle.tesla_run_capture.specs.Recording.{HearsAll, HearsOn, IsNextPiece, Records};

use crate::recorder::Recorder;
use std::sync::Wait;
use tesla_base::MOST_DATAGRAM;
use tesla_desk::{Clock, Got, Link, Output};
use tesla_front::Fault;

/// Why a link is asked for nothing more.
#[derive(Clone, Copy, Debug, PartialEq, Eq)]
pub enum Hearing {
    /// Nothing was left, or the capture is full.
    Over,
    /// The link failed.
    LinkFailed,
    /// A write failed.
    OutputFailed,
}

// Records each datagram of the link until it ends or fails, a write fails or the capture is full. What is gathered is
// written where none comes for a while.
fn hear_all<R: Wait, K: Link, C: Clock, S: Output>(
    rt: &R,
    link: &mut K,
    clock: &mut C,
    output: &mut S,
    recorder: &mut Recorder,
) -> Hearing
    requires hears { HearsOn C.read_for recorder.old (K.left link.old) (K.left link.old) (C.told clock.old) (C.told clock.old) (S.written output.old) (S.written output.old) }
    requires number { K.has_brought link.old recorder.old.count ≡ true }
    requires asks { (number : ℕ) (bytes : List ℕ) → K.brought number bytes ≡ true → C.may_ask number bytes ≡ true }
    requires any_link { (link : K) → K.may_ask link ≡ true }
    requires begun { IfSome (S.written output.old) (λ bytes. bytes ≡ head) }
    requires due { (it : S) (piece : List ℕ) → S.name it ≡ S.name output.old → IsNextPiece C.read_for (K.left link.old) (C.told clock.old) (S.written it) piece → S.may_write it piece ≡ true }
    ensures hears { HearsAll C.read_for result recorder.new (K.left link.old) (K.left link.new) (C.told clock.old) (C.told clock.new) (S.written output.old) (S.written output.new) }
    ensures read { HasCause (K.faults link.old) (K.faults link.new) (result ≡ Hearing.LinkFailed) }
    ensures write { HasCause (S.faults output.old) (S.faults output.new) (result ≡ Hearing.OutputFailed) }
    ensures names { (K.name link.new ≡ K.name link.old) × (S.name output.new ≡ S.name output.old) }
{
    let mut buffer = [0; MOST_DATAGRAM];
    for _ in rt.forever() {
        if recorder.is_full() {
            return Hearing::Over;
        }
        match link.next(&mut buffer) {
            Got::Datagram(length) => {
                if !recorder.put(&buffer[..length], clock, output) {
                    return Hearing::OutputFailed;
                }
            }
            Got::Quiet => {
                if !recorder.write(output) {
                    return Hearing::OutputFailed;
                }
            }
            Got::End => return Hearing::Over,
            Got::Failed => return Hearing::LinkFailed,
        }
    }
    unreachable!()
}

/// Records a link that has brought nothing yet behind the head of a capture, which is all that the output has, and gives
/// how many datagrams there were. It waits for the link, and nothing is promised of when it ends. It takes no memory.
///
/// Whenever it writes, whether it ends or not, what was written and the piece are the capture of what the link has
/// brought so far, with readings of the clock that were asked for behind each (`IsNextPiece`).
///
/// `Read` exactly where the link's count of faults rose, and then what was gathered is written. `Write` where the output's
/// rose and the link's didn't; nothing is read or written after that.
pub fn record_link<R: Wait, K: Link, C: Clock, S: Output>(
    rt: &R,
    link: &mut K,
    clock: &mut C,
    output: &mut S,
) -> Result<u64, Fault>
    requires fresh { S.faults output.old ≡ 0 }
    requires none { K.has_brought link.old 0 ≡ true }
    requires asks { (number : ℕ) (bytes : List ℕ) → K.brought number bytes ≡ true → C.may_ask number bytes ≡ true }
    requires any_link { (link : K) → K.may_ask link ≡ true }
    requires begun { IfSome (S.written output.old) (λ bytes. bytes ≡ head) }
    requires due { (it : S) (piece : List ℕ) → S.name it ≡ S.name output.old → IsNextPiece C.read_for (K.left link.old) (C.told clock.old) (S.written it) piece → S.may_write it piece ≡ true }
    ensures records { Records result (K.left link.old) (K.left link.new) (C.told clock.old) (C.told clock.new) (S.written output.old) (S.written output.new) (S.faults output.new) }
    ensures read { HasCause (K.faults link.old) (K.faults link.new) (result ≡ Err Fault.Read) }
    ensures write { HasCauseBeside ((result ≡ Err Fault.Read) × (0 < S.faults output.new)) 0 (S.faults output.new) (result ≡ Err Fault.Write) }
    ensures names { (K.name link.new ≡ K.name link.old) × (S.name output.new ≡ S.name output.old) }
{
    let mut recorder = Recorder::new();
    match hear_all(rt, link, clock, output, &mut recorder) {
        Hearing::Over => {
            if !recorder.write(output) {
                return Err(Fault::Write);
            }
            Ok(recorder.count())
        }
        Hearing::LinkFailed => {
            recorder.write(output);
            Err(Fault::Read)
        }
        Hearing::OutputFailed => Err(Fault::Write),
    }
}
