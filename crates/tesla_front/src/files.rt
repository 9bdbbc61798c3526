//! Files that are opened, read from their front up to a limit, and closed.

ghost use Rattle.std.specs.Prelude.{◌≡◌, ◌<◌, ◌≤◌, ℕ, List, [], ◌∷◌, length, take, vec_len, Some, Err, IfOk};
ghost use Rattle.tesla_desk.specs.Faults.{HasCause};
ghost use Rattle.tesla_desk.specs.Outside.{OfSink, OfSource, after_bytes};
ghost use Rattle.tesla_front.specs.Openings.{Opens, OpensSome};
ghost use Rattle.tesla_front.specs.Fault.{Causes};
ghost use Rattle.tesla_front.specs.Files.{ReadsOn, ReadsFile, WritesFile};

use crate::Fault;
use std::alloc::Global;
use tesla_desk::{Desk, Environment, ReadStep, Source, write_all};

/// How many bytes one read asks for at most.
const PIECE: usize = 4096;

/// The next bytes of a source, up to `most` of them. No byte beyond these is asked for: what was read and what
/// is left are what there was. They are fewer than `most` only where the source ended.
///
/// `Read` only where the source's count of faults rose, `NoMemory` where there was no room for the bytes. What
/// was read before either is lost. Of what was read no copy stays but the one that is given, as it may be secret.
pub fn read_up_to<S: Source>(alloc: Global, source: &mut S, most: usize) -> Result<Vec<u8>, Fault>
    ensures bytes { IfOk result (λ read. (bytes : List ℕ) → S.left source.old ≡ Some bytes → read.items ≡ take most bytes) }
    ensures left { IfOk result (λ read. S.left source.old ≡ after_bytes read.items (S.left source.new)) }
    ensures most { IfOk result (λ read. vec_len read ≤ most) }
    ensures cause { HasCause (S.faults source.old) (S.faults source.new) (result ≡ Err Fault.Read) }
    ensures name { S.name source.new ≡ S.name source.old }
    ensures kind { (result ≡ Err Fault.Write → ⊥) × (result ≡ Err Fault.Open → ⊥) }
{
    let mut piece = [0u8; PIECE];
    let read = read_by_pieces(alloc, source, most, &mut piece);
    piece.fill(0);
    read
}

// Reads as `read_up_to` does, each time into this room. What the first read may give is taken room for beforehand, so
// that a short text isn't moved.
fn read_by_pieces<S: Source>(
    alloc: Global,
    source: &mut S,
    most: usize,
    piece: &mut [u8; PIECE],
) -> Result<Vec<u8>, Fault>
    ensures bytes { IfOk result (λ read. (bytes : List ℕ) → S.left source.old ≡ Some bytes → read.items ≡ take most bytes) }
    ensures left { IfOk result (λ read. S.left source.old ≡ after_bytes read.items (S.left source.new)) }
    ensures most { IfOk result (λ read. vec_len read ≤ most) }
    ensures cause { HasCause (S.faults source.old) (S.faults source.new) (result ≡ Err Fault.Read) }
    ensures name { S.name source.new ≡ S.name source.old }
    ensures kind { (result ≡ Err Fault.Write → ⊥) × (result ≡ Err Fault.Open → ⊥) }
{
    let Ok(mut bytes) = Vec::with_capacity(alloc, most.min(PIECE)) else {
        return Err(Fault::NoMemory);
    };
    while bytes.len() < most {
        let room = (most - bytes.len()).min(PIECE);
        if read_on(source, &mut piece[..room], &mut bytes)? == 0 {
            return Ok(bytes);
        }
    }
    Ok(bytes)
}

// Reads once into the room, which isn't empty, and appends what was read. It gives how many bytes these
// are: 0 exactly where nothing is left.
fn read_on<S: Source>(source: &mut S, room: &mut [u8], bytes: &mut Vec<u8>) -> Result<usize, Fault>
    requires { 0 < length room.old }
    ensures reads { IfOk result (λ n. ReadsOn n (length room.old) (S.left source.old) (S.left source.new) bytes.old.items bytes.new.items) }
    ensures cause { HasCause (S.faults source.old) (S.faults source.new) (result ≡ Err Fault.Read) }
    ensures name { S.name source.new ≡ S.name source.old }
    ensures kind { (result ≡ Err Fault.Write → ⊥) × (result ≡ Err Fault.Open → ⊥) }
{
    match source.read(room) {
        ReadStep::Got(count) => {
            if bytes.extend_from_slice(&room[..count]).is_err() {
                return Err(Fault::NoMemory);
            }
            Ok(count)
        }
        ReadStep::End => Ok(0),
        ReadStep::Failed => Err(Fault::Read),
    }
}

/// The bytes under a name, up to `most` of them. The file is opened, read and closed, and no other is.
///
/// `Open` only where the desk's count of openings rose, as where there is no such file, `Read` only where that
/// of reads rose, and `NoMemory` where there was no memory. Where it was opened it is closed in any case.
pub fn read_file<D: Environment>(
    alloc: Global,
    name: &str,
    most: usize,
    desk: &mut D,
) -> Result<Vec<u8>, Fault>
    ensures told { IfOk result (λ read. ReadsFile most ((D.told desk.old).page name.now) read.items) }
    ensures opened { IfOk result (λ _. Opens (OfSource name.now ∷ []) 1 (D.told desk.old) (D.told desk.new)) }
    ensures opens { OpensSome (OfSource name.now ∷ []) (D.told desk.old) (D.told desk.new) }
    ensures pages { (n : List ℕ) → (D.told desk.new).page n ≡ (D.told desk.old).page n }
    ensures live { (D.told desk.new).live ≡ (D.told desk.old).live }
    ensures causes { Causes result (D.told desk.old).faults (D.told desk.new).faults }
    ensures kind { result ≡ Err Fault.Write → ⊥ }
{
    let mut source = desk.open_source(name)?;
    let read = read_up_to(alloc, &mut source, most);
    desk.close_source(source);
    read
}

/// Writes a text to a file under a name, which is opened before and closed afterwards. It takes no memory but for the
/// opening.
///
/// `Open` exactly where the desk's count of openings rose, `Write` exactly where that of writes rose: then the file holds
/// a prefix of the text. `NoMemory` comes only before the file is opened, and it is as before then.
pub fn write_file<D: Desk>(name: &str, text: &[u8], desk: &mut D) -> Result<(), Fault>
    ensures writes { WritesFile text.now ((D.told desk.old).page name.now) ((D.told desk.new).page name.now) result }
    ensures opens { OpensSome (OfSink name.now ∷ []) (D.told desk.old) (D.told desk.new) }
    ensures live { (D.told desk.new).live ≡ (D.told desk.old).live }
    ensures causes { Causes result (D.told desk.old).faults (D.told desk.new).faults }
{
    match desk.open_sink(name) {
        Ok(mut out) => {
            let whole = write_all(&mut out, text);
            desk.close_sink(out);
            if whole { Ok(()) } else { Err(Fault::Write) }
        }
        Err(refusal) => Err(Fault::from(refusal)),
    }
}
