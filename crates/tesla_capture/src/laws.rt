//! Laws about files of records, as contracts of functions that do nothing.

ghost use Rattle.std.specs.Prelude.{◌≡◌, [], ◌∷◌, ◌++◌, List, ℕ, Option, Some, None};
ghost use Rattle.tesla_base.specs.Prefix.{AreBytes};
ghost use Rattle.tesla_desk.specs.Outside.{after_bytes};
ghost use Rattle.tesla_capture.specs.Grammar.{IsFile};
ghost use Rattle.tesla_capture.specs.Capture.{Record, IsCapture, capture};
ghost use Rattle.tesla_capture.specs.Script.{Record as ScriptRecord, IsScript, script};
ghost use Rattle.tesla_capture.specs.Outline.{outline_of};
ghost use Rattle.tesla_capture.specs.Records as files;
ghost use Rattle.tesla_capture.specs.Records.{AtEnd, Recorded, Refuses, kind_of};
ghost use Rattle.tesla_records.specs.declared.refusal.Refusal.{Refusal};
ghost use Rattle.tesla_capture.specs.declared.record.RecordFault.{RecordFault};
ghost use Rattle.tesla_capture.specs.Refused.{IsRefused};
ghost use Rattle.tesla_capture.specs.Steps.{GivesRecord, LeavesFrom, TakesNoRecord};
ghost use Rattle.tesla_capture.specs.Found.{AwaitsAt};
ghost use Rattle.tesla_capture.specs.Taken.{IsTaken, HoldsNoRefusal, IsReadUpTo};
ghost use Rattle.tesla_capture.specs.declared.record.RecordKind.{RecordKind};

use crate::format::{CaptureFormat, Format, ScriptFormat};

/// The outline of a file has its records, and each file in the grammar has one spelling; of another file it has
/// the whole records up to the first place that is refused, and the kind of that refusal.
pub fn files<F: Format>()
    // A file without a refused place is in the grammar.
    ensures found { (bytes : List ℕ) → AreBytes bytes → (files.outline_of F.grammar bytes).fault ≡ None → IsFile F.grammar bytes (files.outline_of F.grammar bytes).records }
    // A file in the grammar has no refused place, and the outline has its records.
    ensures only { (bytes : List ℕ) (records : List F.grammar.Record) → IsFile F.grammar bytes records → files.outline_of F.grammar bytes ≡ record { records = records; fault = None } }
    // A refused place has its cause.
    ensures refused { (bytes : List ℕ) (place : ℕ) (kind : RecordKind) → AreBytes bytes → (files.outline_of F.grammar bytes).fault ≡ Some (place, kind) → IsRefused F.grammar bytes (files.outline_of F.grammar bytes).records place kind }
    // What has such a cause is refused there, after these records.
    ensures refused_only { (bytes : List ℕ) (records : List F.grammar.Record) (place : ℕ) (kind : RecordKind) → IsRefused F.grammar bytes records place kind → files.outline_of F.grammar bytes ≡ record { records = records; fault = Some (place, kind) } }
{}

/// The outline of the rest of a file, one record after the other.
pub fn file_outlines<F: Format>()
    // A file that ended has no record left.
    ensures ended { (place : ℕ) (rest : List ℕ) → files.next_at F.grammar place rest ≡ AtEnd → files.outline_at F.grammar place rest ≡ record { records = []; fault = None } }
    // A record comes before those after it.
    ensures one { (place now : ℕ) (rest after : List ℕ) (first : F.grammar.Record) → files.next_at F.grammar place rest ≡ Recorded first now after → files.outline_at F.grammar place rest ≡ files.with_record first (files.outline_at F.grammar now after) }
    // A refused place ends the records.
    ensures refused { (place at : ℕ) (rest : List ℕ) (refusal : Refusal RecordFault) → files.next_at F.grammar place rest ≡ Refuses at refusal → files.outline_at F.grammar place rest ≡ record { records = []; fault = Some (at, kind_of refusal) } }
{}

/// The records that are taken from a file step by step, and what was read of it where a read fails.
pub fn taken<F: Format>()
    // Before the first step no record was taken.
    ensures none { (bytes : List ℕ) → IsTaken F.grammar bytes [] 0 bytes }
    // A record that a step gave was taken behind those before.
    ensures one { (bytes : List ℕ) (records : List F.grammar.Record) (place : ℕ) (rest : List ℕ) (given : F.grammar.Record) (now : ℕ) (left : Option (List ℕ)) → IsTaken F.grammar bytes records place rest → (gives : GivesRecord F.grammar given place rest now left) → IsTaken F.grammar bytes (records ++ given ∷ []) now gives.0 }
    // Where a step took the head alone, the records are those before.
    ensures head { (bytes : List ℕ) (records : List F.grammar.Record) (place : ℕ) (rest : List ℕ) (now : ℕ) (after : List ℕ) → IsTaken F.grammar bytes records place rest → TakesNoRecord F.grammar place rest now after → IsTaken F.grammar bytes records now after }
    // The outline of the file has these records before that of the rest.
    ensures outline { (bytes : List ℕ) (records : List F.grammar.Record) (place : ℕ) (rest : List ℕ) → IsTaken F.grammar bytes records place rest → files.outline_of F.grammar bytes ≡ files.with_records records (files.outline_at F.grammar place rest) }
    // Where a read failed, what was read holds no refused place, and its whole records are those that were taken.
    ensures cut { (bytes : List ℕ) (records : List F.grammar.Record) (place : ℕ) (rest pending read left : List ℕ) → IsTaken F.grammar bytes records place rest → AwaitsAt F.grammar place pending → rest ≡ pending ++ left → bytes ≡ read ++ left → HoldsNoRefusal F.grammar read × ((files.outline_of F.grammar read).records ≡ records) }
    // So it is where a step tells that a read failed.
    ensures fault { (bytes : List ℕ) (records : List F.grammar.Record) (place : ℕ) (rest : List ℕ) (now : ℕ) (pending : List ℕ) (left : Option (List ℕ)) (behind : List ℕ) → IsTaken F.grammar bytes records place rest → LeavesFrom F.grammar 0 place rest now (after_bytes pending left) → AwaitsAt F.grammar now pending → left ≡ Some behind → IsReadUpTo F.grammar bytes behind records }
{}

/// The outline of a file is its capture, and each capture has one spelling; of a file that is none it has
/// the whole records up to the first place that is refused, and the kind of that refusal.
pub fn captures()
    // A file without a refused place is a capture.
    ensures found { (bytes : List ℕ) → AreBytes bytes → (outline_of bytes).fault ≡ None → IsCapture bytes (outline_of bytes).records }
    // A capture has no refused place, and the outline has its records.
    ensures only { (bytes : List ℕ) (records : List Record) → IsCapture bytes records → outline_of bytes ≡ record { records = records; fault = None } }
    // A refused place has its cause.
    ensures refused { (bytes : List ℕ) (place : ℕ) (kind : RecordKind) → AreBytes bytes → (outline_of bytes).fault ≡ Some (place, kind) → IsRefused capture bytes (outline_of bytes).records place kind }
    // What has such a cause is refused there, after these records.
    ensures refused_only { (bytes : List ℕ) (records : List Record) (place : ℕ) (kind : RecordKind) → IsRefused capture bytes records place kind → outline_of bytes ≡ record { records = records; fault = Some (place, kind) } }
{
    files::<CaptureFormat>()
}

/// The outline of a file is its script, and each script has one spelling; of a file that is none it has the
/// whole records up to the first place that is refused, and the kind of that refusal.
pub fn scripts()
    // A file without a refused place is a script.
    ensures found { (bytes : List ℕ) → AreBytes bytes → (files.outline_of script bytes).fault ≡ None → IsScript bytes (files.outline_of script bytes).records }
    // A script has no refused place, and the outline has its records.
    ensures only { (bytes : List ℕ) (records : List ScriptRecord) → IsScript bytes records → files.outline_of script bytes ≡ record { records = records; fault = None } }
    // A refused place has its cause.
    ensures refused { (bytes : List ℕ) (place : ℕ) (kind : RecordKind) → AreBytes bytes → (files.outline_of script bytes).fault ≡ Some (place, kind) → IsRefused script bytes (files.outline_of script bytes).records place kind }
    // What has such a cause is refused there, after these records.
    ensures refused_only { (bytes : List ℕ) (records : List ScriptRecord) (place : ℕ) (kind : RecordKind) → IsRefused script bytes records place kind → files.outline_of script bytes ≡ record { records = records; fault = Some (place, kind) } }
{
    files::<ScriptFormat>()
}
