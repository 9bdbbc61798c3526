//! The law of setups, as the contract of a function that does nothing.

ghost use Rattle.std.specs.Prelude.{◌≡◌, List, ℕ};
ghost use Rattle.std.specs.List.{AllByRecursion};
ghost use Rattle.tesla_commit.specs.Parsing.{judged};
ghost use Rattle.tesla_commit.specs.Parts.{Parts, IsSetupOf};
ghost use Rattle.tesla_commit.specs.SetupRefused.{IsRefused};
ghost use Rattle.tesla_commit.specs.declared.refusal.SetupKind.{SetupKind};
ghost use Rattle.tesla_commit.specs.SetupText.{HasKey, IsSetup, setup_text};

/// Reading gives the setup that a text spells, and each setup has one spelling; of a text that is none it
/// tells the first line that doesn't fit, and why.
pub fn setups()
    // What is read is spelled so.
    ensures found { (text : List ℕ) (setup : Parts) → judged text ≡ Ok setup → IsSetup text setup }
    // What is spelled so is read.
    ensures only { (text : List ℕ) (setup : Parts) → IsSetup text setup → judged text ≡ Ok setup }
    // A refused line stands behind lines that a setup begins with, and has its cause.
    ensures refused { (text : List ℕ) (line : ℕ) (kind : SetupKind) → judged text ≡ Err (line, kind) → IsRefused text line kind }
    // What has such a cause is refused there.
    ensures refused_only { (text : List ℕ) (line : ℕ) (kind : SetupKind) → IsRefused text line kind → judged text ≡ Err (line, kind) }
    // What was written is read.
    ensures written { (setup : Parts) → IsSetupOf setup → AllByRecursion HasKey setup.rows → judged (setup_text setup) ≡ Ok setup }
{}
