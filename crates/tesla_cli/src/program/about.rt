//! The texts about the program, which `--help` and `--version` ask for.

ghost use Rattle.std.specs.Prelude.{◌≡◌, [], ◌∷◌, Some, IfSome, false, map, string_bytes};
ghost use Rattle.tesla_desk.specs.Faults.{HasCause};
ghost use Rattle.tesla_cli.specs.program.About.{word_of};

use crate::{FORMS, TOOLS};
use tesla_desk::{Sink, write_all};
use tesla_front::FormText;

/// A text about the program.
#[derive(Clone, Copy, Debug, PartialEq, Eq)]
pub enum About {
    /// What it is for, the forms of its commands, and its statuses.
    Help,
    /// Its name and version.
    Version,
}

const HEAD: &[u8] = b"Sends and receives streams that are authenticated with TESLA (RFC 4082).

";

const FOOT: &[u8] = b"tesla --help
tesla --version

Status: 0 done, 1 usage, 2 setup refused, 3 input refused, 4 read fault,
5 write fault, 6 no memory, 7 open fault, 8 answer refuted, 9 lag too large,
10 reply refused, 11 calls spent.
";

/// The text that one word alone asks for. `None` where the words are something else.
pub fn about_in(words: &[String]) -> Option<About>
    ensures found { IfSome result (λ about. map string_bytes words.now ≡ word_of about ∷ []) }
    ensures only { (about : About) → map string_bytes words.now ≡ word_of about ∷ [] → result ≡ Some about }
{
    match words {
        [word] if word.as_str() == "--help" => Some(About::Help),
        [word] if word.as_str() == "--version" => Some(About::Version),
        _ => None,
    }
}

// Writes the help on a form. False: a write failed.
fn write_form<S: Sink>(console: &mut S, form: &FormText) -> bool
    ensures cause { HasCause (S.faults console.old) (S.faults console.new) (result ≡ false) }
    ensures name { S.name console.new ≡ S.name console.old }
{
    write_all(console, b"tesla ")
        && write_all(console, form.words.as_bytes())
        && write_all(console, b"\n")
        && write_all(console, form.about.as_bytes())
}

// Writes the help on these forms. False: a write failed.
fn write_forms<S: Sink>(console: &mut S, forms: &[FormText]) -> bool
    ensures cause { HasCause (S.faults console.old) (S.faults console.new) (result ≡ false) }
    ensures name { S.name console.new ≡ S.name console.old }
{
    match forms {
        [form, forms @ ..] => {
            if !write_form(console, form) {
                return false;
            }
            write_forms(console, forms)
        }
        [] => true,
    }
}

// Writes the help on the forms of these tables. False: a write failed.
fn write_tables<S: Sink>(console: &mut S, tables: &[&[FormText]]) -> bool
    ensures cause { HasCause (S.faults console.old) (S.faults console.new) (result ≡ false) }
    ensures name { S.name console.new ≡ S.name console.old }
{
    match tables {
        [table, tables @ ..] => {
            if !write_forms(console, table) {
                return false;
            }
            write_tables(console, tables)
        }
        [] => true,
    }
}

/// Writes a text about the program, whose further commands have the forms of these tables. False: a write failed, and the sink's count
/// of faults rose.
pub fn write_about<S: Sink>(console: &mut S, about: About, further: &[&[FormText]]) -> bool
    ensures cause { HasCause (S.faults console.old) (S.faults console.new) (result ≡ false) }
    ensures name { S.name console.new ≡ S.name console.old }
{
    match about {
        About::Help => {
            write_all(console, HEAD)
                && write_forms(console, &FORMS)
                && write_tables(console, further)
                && write_forms(console, &TOOLS)
                && write_all(console, FOOT)
        }
        About::Version => write_all(console, b"tesla 0.1.0\n"),
    }
}
