//! The law of seeds and their text, as the contract of a function that does nothing.

ghost use Rattle.std.specs.Prelude.{◌≡◌, ◌≤◌, List, ℕ, length};
ghost use Rattle.std.specs.List.{AllByRecursion};
ghost use Rattle.tesla_base.specs.declared.names.Key.{Key};
ghost use Rattle.tesla_seeds.specs.Judged.{seeds_judged};
ghost use Rattle.tesla_seeds.specs.Refused.{IsSeedsRefused};
ghost use Rattle.tesla_seeds.specs.Text.{IsKey, seeds_text, IsSeeds};
ghost use Rattle.tesla_seeds.specs.declared.refusal.SeedsKind.{SeedsKind};

/// Reading gives the seeds that a text spells where so many are wanted, and each list of seeds has one
/// spelling; of a text that is none it tells the first line that doesn't fit, and why.
pub fn seed_texts()
    // What is read is spelled so.
    ensures found { (text : List ℕ) (count : ℕ) (seeds : List Key) → seeds_judged count text ≡ Ok seeds → IsSeeds text count seeds }
    // What is spelled so is read.
    ensures only { (text : List ℕ) (count : ℕ) (seeds : List Key) → IsSeeds text count seeds → seeds_judged count text ≡ Ok seeds }
    // A refused line stands behind line 1 and the lines of seeds, and has its cause.
    ensures refused { (text : List ℕ) (count : ℕ) (line : ℕ) (kind : SeedsKind) → seeds_judged count text ≡ Err (line, kind) → IsSeedsRefused text count line kind }
    // What has such a cause is refused there.
    ensures refused_only { (text : List ℕ) (count : ℕ) (line : ℕ) (kind : SeedsKind) → IsSeedsRefused text count line kind → seeds_judged count text ≡ Err (line, kind) }
    // The spelling of up to 58 seeds is read: more are longer than 4,096 bytes.
    ensures written { (seeds : List Key) → length seeds ≤ 58 → AllByRecursion IsKey seeds → seeds_judged (length seeds) (seeds_text seeds) ≡ Ok seeds }
{}
