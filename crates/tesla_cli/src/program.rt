//! The program: the words that the system hands over, `--help` and `--version`, and the commands over a desk.

ghost use Rattle.std.specs.Prelude.{◌≡◌, [], ◌∷◌, IfErr, IfOk, map, string_bytes};
ghost use Rattle.std.specs.Process.{exit_status};
ghost use Rattle.tesla_front.specs.OutcomeView.{outcome_view};
ghost use Rattle.tesla_front.specs.Command.{RunsAs};
ghost use Rattle.tesla_cli.specs.Commands.{KeepsLive};
ghost use Rattle.tesla_cli.specs.program.About.{Prints};
ghost use Rattle.tesla_cli.specs.program.Words.{LacksMemory, RunsProgram, forgotten};

mod about;
mod choice;

use about::{About, about_in, write_about};
use choice::run_chosen;
use std::alloc::{AllocError, Global};
use std::process::ExitCode;
use std::rt::Env;
use std::{env, io, str};
use tesla_desk::{CONSOLE, Desk};
use tesla_front::{Fault, FormText, Outcome, run_table, without_history};

/// How many bytes of a first word are looked at where another one isn't UTF-8: no command has a longer name.
const NAME: usize = 16;

/// The words after the program's name.
///
/// Where one of them isn't UTF-8 they are the first, as far as it can name a command, and an empty one. No form of a
/// command has an empty word, so the usage lines are told of those commands among which the first word stands.
pub fn words<R: Env + AllocGlobal>(rt: &R) -> Result<Vec<String>, AllocError> {
    match env::args(rt) {
        Ok(all) => {
            let mut words = Vec::new(rt.alloc());
            for word in all.skip(1) {
                words.push(word)?;
            }
            Ok(words)
        }
        Err(error) if error.kind() == io::ErrorKind::OutOfMemory => Err(AllocError),
        Err(_) => {
            let mut name = [0u8; NAME];
            words_of_no_form(rt.alloc(), first_word(rt, &mut name))
        }
    }
}

// The first word after the program's name, read into the room. It is empty where there is none, or it is longer than
// the room or isn't UTF-8.
fn first_word<'a, R: Env>(rt: &R, room: &'a mut [u8]) -> &'a str {
    match rt.arg(1, room) {
        Ok(count) => str::from_utf8(&room[..count]).unwrap_or(""),
        Err(_) => "",
    }
}

// Words that begin with this one and are no form of a command: the other one is empty.
fn words_of_no_form(alloc: Global, first: &str) -> Result<Vec<String>, AllocError>
    ensures { IfOk result (λ words. map string_bytes words.items ≡ first.now ∷ [] ∷ []) }
{
    let mut words = Vec::new(alloc);
    words.push(String::from_str(alloc, first)?)?;
    words.push(String::new(alloc))?;
    Ok(words)
}

// Runs words for which there is no memory: whatever they are, nothing is done.
fn run_forgotten<D: Desk>(_desk: &mut D) -> Outcome
    ensures runs { RunsAs forgotten [] (D.told _desk.old) (D.told _desk.new) (outcome_view result) }
    ensures live { (D.told _desk.new).live ≡ (D.told _desk.old).live }
{
    Outcome::Failed(Fault::NoMemory)
}

// Tells on the console that there was no memory, where the console can be opened.
fn tell_no_memory<D: Desk>(desk: &mut D) -> u8
    ensures lacks { LacksMemory (D.told desk.old) (D.told desk.new) result }
    ensures live { (D.told desk.new).live ≡ (D.told desk.old).live }
{
    let _ = run_table(
        &[],
        desk,
        &[],
        |_words: &[String], desk: &mut D|
            ensures runs { RunsAs forgotten [] (D.told desk.old) (D.told desk.new) (outcome_view result.outcome) }
            ensures live { (D.told desk.new).live ≡ (D.told desk.old).live }
        { without_history::<()>(run_forgotten(desk)) },
    );
    Fault::NoMemory.status()
}

// Prints a text about the program with the forms of these further tables, and gives the status of that: 0, 5 exactly
// where a write failed, 7 exactly where the console wasn't opened, or 6 where there was no memory for that.
fn print_about<D: Desk>(desk: &mut D, about: About, further: &[&[FormText]]) -> u8
    ensures prints { Prints (D.told desk.old) (D.told desk.new) result }
    ensures live { (D.told desk.new).live ≡ (D.told desk.old).live }
{
    match desk.open_sink(CONSOLE) {
        Ok(mut console) => {
            let done = write_about(&mut console, about, further);
            desk.close_sink(console);
            if done { 0 } else { Fault::Write.status() }
        }
        Err(refusal) => Fault::from(refusal).status(),
    }
}

// Runs the words: as those that ask for a text, and else by the table that they choose.
fn run_words<D: Desk>(alloc: Global, words: &[String], further: &[&[FormText]], desk: &mut D) -> u8
    ensures runs { RunsProgram (map string_bytes words.now) (D.told desk.old) (D.told desk.new) result }
    ensures live { KeepsLive (map string_bytes words.now) (D.told desk.old).live (D.told desk.new).live }
{
    match about_in(words) {
        Some(about) => print_about(desk, about, further),
        None => run_chosen(alloc, words, desk),
    }
}

/// Runs the words that the system handed over, over a desk, and gives the program's status.
///
/// `--help` and `--version` alone print a text; the help also has the forms of these further tables, of commands that
/// the caller runs by itself. All other words are run by `run_tools` where the first of them names a tool, and else by
/// `run_here`. Where there was no memory for the words, that is told, and the status is 6.
pub fn run_program<D: Desk>(
    alloc: Global,
    words: Result<Vec<String>, AllocError>,
    further: &[&[FormText]],
    desk: &mut D,
) -> ExitCode
    ensures runs { IfOk words (λ them. RunsProgram (map string_bytes them.items) (D.told desk.old) (D.told desk.new) (exit_status result)) }
    ensures live { IfOk words (λ them. KeepsLive (map string_bytes them.items) (D.told desk.old).live (D.told desk.new).live) }
    ensures memory { IfErr words (λ _. LacksMemory (D.told desk.old) (D.told desk.new) (exit_status result)) }
    ensures still { IfErr words (λ _. (D.told desk.new).live ≡ (D.told desk.old).live) }
{
    match words {
        Ok(words) => ExitCode::from(run_words(alloc, words.as_slice(), further, desk)),
        Err(_) => ExitCode::from(tell_no_memory(desk)),
    }
}
