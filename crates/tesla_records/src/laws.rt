//! Laws about files of records, as contracts of functions that do nothing.

ghost use Rattle.std.specs.Prelude.{◌≡◌, [], ◌∷◌, ◌++◌, List, ℕ, Option, Some, None};
ghost use Rattle.tesla_base.specs.Prefix.{AreBytes};
ghost use Rattle.tesla_desk.specs.Outside.{after_bytes};
ghost use Rattle.tesla_records.specs.Grammar.{IsFile};
ghost use Rattle.tesla_records.specs.Records.{AtEnd, Recorded, Refuses, next_at, head_at, with_head, with_record, with_records, outline_at, outline_of};
ghost use Rattle.tesla_records.specs.Refused.{IsRefused};
ghost use Rattle.tesla_records.specs.Steps.{GivesRecord, LeavesFrom, TakesNoRecord, MovesHead, ReadsHead};
ghost use Rattle.tesla_records.specs.Found.{AwaitsAt};
ghost use Rattle.tesla_records.specs.Taken.{IsTaken, HoldsNoRefusal, IsReadUpTo};
ghost use Rattle.tesla_records.specs.declared.refusal.Refusal.{Refusal};

use crate::format::Format;

/// The outline of a file has its head and its records, and each file in the grammar has one spelling; of another file it
/// has the whole records up to the first place that is refused, and the cause of that refusal.
pub fn files<F: Format>()
    // A file without a refused place is in the grammar.
    ensures found { (bytes : List ℕ) → AreBytes bytes → (outline_of F.grammar bytes).fault ≡ None → (head : F.grammar.Head) × ((outline_of F.grammar bytes).head ≡ Some head) × IsFile F.grammar bytes head (outline_of F.grammar bytes).records }
    // A file in the grammar has no refused place, and the outline has its head and its records.
    ensures only { (bytes : List ℕ) (head : F.grammar.Head) (records : List F.grammar.Record) → IsFile F.grammar bytes head records → outline_of F.grammar bytes ≡ record { head = Some head; records = records; fault = None } }
    // A refused place has its cause.
    ensures refused { (bytes : List ℕ) (place : ℕ) (refusal : Refusal F.grammar.Kind) → AreBytes bytes → (outline_of F.grammar bytes).fault ≡ Some (place, refusal) → IsRefused F.grammar bytes (outline_of F.grammar bytes).head (outline_of F.grammar bytes).records place refusal }
    // What has such a cause is refused there, after this head and these records.
    ensures refused_only { (bytes : List ℕ) (head : Option F.grammar.Head) (records : List F.grammar.Record) (place : ℕ) (refusal : Refusal F.grammar.Kind) → IsRefused F.grammar bytes head records place refusal → outline_of F.grammar bytes ≡ record { head = head; records = records; fault = Some (place, refusal) } }
{}

/// The outline of the rest of a file, one record after the other. At place 0 it has the head that stands there.
pub fn file_outlines<F: Format>()
    // A file that ended has no record left.
    ensures ended { (place : ℕ) (rest : List ℕ) → next_at F.grammar place rest ≡ AtEnd → outline_at F.grammar place rest ≡ with_head (head_at F.grammar place rest) (record { head = None; records = []; fault = None }) }
    // A record comes before those after it.
    ensures one { (place now : ℕ) (rest after : List ℕ) (first : F.grammar.Record) → next_at F.grammar place rest ≡ Recorded first now after → outline_at F.grammar place rest ≡ with_head (head_at F.grammar place rest) (with_record first (outline_at F.grammar now after)) }
    // A refused place ends the records.
    ensures refused { (place at : ℕ) (rest : List ℕ) (refusal : Refusal F.grammar.Kind) → next_at F.grammar place rest ≡ Refuses at refusal → outline_at F.grammar place rest ≡ with_head (head_at F.grammar place rest) (record { head = None; records = []; fault = Some (at, refusal) }) }
{}

/// The records that are taken from a file step by step, and what was read of it where a read fails. The premises
/// on the head are those that [`RecordsReader::next`](crate::RecordsReader::next) ensures.
pub fn taken<F: Format>()
    // Before the first step no record was taken.
    ensures none { (bytes : List ℕ) → IsTaken F.grammar bytes None [] 0 bytes }
    // A record that a step gave was taken behind those before.
    ensures one { (bytes : List ℕ) (head other : Option F.grammar.Head) (records : List F.grammar.Record) (place : ℕ) (rest : List ℕ) (given : F.grammar.Record) (now : ℕ) (left : Option (List ℕ)) → IsTaken F.grammar bytes head records place rest → (gives : GivesRecord F.grammar given place rest now left) →
        MovesHead F.grammar place head now other → ReadsHead F.grammar place rest now other → IsTaken F.grammar bytes other (records ++ given ∷ []) now gives.0 }
    // Where a step took the head alone, the records are those before.
    ensures head { (bytes : List ℕ) (head other : Option F.grammar.Head) (records : List F.grammar.Record) (place : ℕ) (rest : List ℕ) (now : ℕ) (after : List ℕ) → IsTaken F.grammar bytes head records place rest → TakesNoRecord F.grammar place rest now after →
        MovesHead F.grammar place head now other → ReadsHead F.grammar place rest now other → IsTaken F.grammar bytes other records now after }
    // The outline of the file has this head and these records before those of the rest.
    ensures outline { (bytes : List ℕ) (head : Option F.grammar.Head) (records : List F.grammar.Record) (place : ℕ) (rest : List ℕ) → IsTaken F.grammar bytes head records place rest → outline_of F.grammar bytes ≡ with_head head (with_records records (outline_at F.grammar place rest)) }
    // Where a read failed, what was read holds no refused place, and its head and whole records are those that were taken.
    ensures cut { (bytes : List ℕ) (head : Option F.grammar.Head) (records : List F.grammar.Record) (place : ℕ) (rest pending read left : List ℕ) → IsTaken F.grammar bytes head records place rest → AwaitsAt F.grammar place pending → rest ≡ pending ++ left → bytes ≡ read ++ left →
        HoldsNoRefusal F.grammar read × ((outline_of F.grammar read).head ≡ head) × ((outline_of F.grammar read).records ≡ records) }
    // So it is where a step tells that a read failed.
    ensures fault { (bytes : List ℕ) (head other : Option F.grammar.Head) (records : List F.grammar.Record) (place : ℕ) (rest : List ℕ) (now : ℕ) (pending : List ℕ) (left : Option (List ℕ)) (behind : List ℕ) → IsTaken F.grammar bytes head records place rest → LeavesFrom F.grammar 0 place rest now (after_bytes pending left) →
        MovesHead F.grammar place head now other → ReadsHead F.grammar place rest now other → AwaitsAt F.grammar now pending → left ≡ Some behind → IsReadUpTo F.grammar bytes behind other records }
{}
