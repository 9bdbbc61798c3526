//! The reason that is told.

use crate::asked::fault_in;
use std::fmt::{self, Display, Formatter};
use tesla_base::read_decimal;

/// Why words are none of a form.
#[derive(Clone, Copy, Debug)]
pub enum Reason<'a> {
    /// There is no word.
    NoWord,
    /// The first word names no command.
    NoCommand(&'a str),
    /// The words ask for help.
    Help(&'a str),
    /// There are so many words behind the command's name, where its form is this one.
    Number(&'a str, usize, &'a str),
    /// A word of the form, the word that stands for it, and what is wrong with that.
    Word(&'a str, &'a str, &'a str, &'static str),
    /// A word of the form, the word that stands for it, and the word of the form for which the same one stands.
    Same(&'a str, &'a str, &'a str, &'a str),
}

impl Display for Reason<'_> {
    fn fmt<W: fmt::Write>(&self, f: &mut Formatter<W>) -> fmt::Result {
        match self {
            Reason::NoWord => f.write_str(
                "there is no command: tesla --help tells which there are",
            ),
            Reason::NoCommand(word) => {
                write!(
                    f,
                    "{word:?} is no command: tesla --help tells which there are"
                )
            }
            Reason::Help(command) => write!(f, "{command}: tesla --help tells its words"),
            Reason::Number(command, count, form) => {
                write!(f, "{command}: {count} words, and its form is: tesla {form}")
            }
            Reason::Word(command, asked, word, fault) => {
                write!(f, "{command}: {asked} {word:?} {fault}")
            }
            Reason::Same(command, asked, word, other) => {
                write!(f, "{command}: {asked} {word:?} is also {other}")
            }
        }
    }
}

/// Why these words are none of the form, which the caller found by the first of them; `None` where nothing is known
/// against them.
pub fn reason_of<'a>(words: &'a [String], form: Option<&'static str>) -> Option<Reason<'a>> {
    let [name, rest @ ..] = words else {
        return Some(Reason::NoWord);
    };
    let Some(form) = form else {
        return Some(Reason::NoCommand(name.as_str()));
    };
    if rest
        .iter()
        .any(|word| word.as_str() == "--help" || word.as_str() == "-h")
    {
        return Some(Reason::Help(name.as_str()));
    }
    let most = form.split(' ').count().saturating_sub(1);
    let least = form
        .split(' ')
        .filter(|it| !it.starts_with('['))
        .count()
        .saturating_sub(1);
    if rest.len() < least || most < rest.len() {
        return Some(Reason::Number(name.as_str(), rest.len(), form));
    }
    match faulty(name.as_str(), rest, form) {
        Some(reason) => Some(reason),
        None => same(name.as_str(), rest, form),
    }
}

// The first word that is none of those that are asked for.
fn faulty<'a>(command: &'a str, words: &'a [String], form: &'static str) -> Option<Reason<'a>> {
    let mut before = 0;
    for (asked, word) in form.split(' ').skip(1).zip(words.iter()) {
        let word = word.as_str();
        if let Some(fault) = fault_in(command, asked, word) {
            return Some(Reason::Word(command, asked, word, fault));
        }
        if asked == "DELAY" || asked == "[DELAY]" {
            let delay = read_decimal(word.as_bytes()).unwrap_or(0);
            if delay <= before {
                return Some(Reason::Word(command, "DELAY", word, "isn't above the one before"));
            }
            before = delay;
        }
    }
    unequal(command, words, form)
}

// The word SECRETS, where it has another number of names than SETUPS.
fn unequal<'a>(command: &'a str, words: &'a [String], form: &'static str) -> Option<Reason<'a>> {
    let mut setups = None;
    for (asked, word) in form.split(' ').skip(1).zip(words.iter()) {
        let word = word.as_str();
        let count = Some(word.split(',').count());
        match asked {
            "SETUPS" => setups = count,
            "SECRETS" if setups != count => {
                let fault = "hasn't as many names as SETUPS";
                return Some(Reason::Word(command, asked, word, fault));
            }
            _ => {}
        }
    }
    None
}

// The output that is an input by its name, or a sink that is.
fn same<'a>(command: &'a str, words: &'a [String], form: &'static str) -> Option<Reason<'a>> {
    for (asked, word) in form.split(' ').skip(1).zip(words.iter()) {
        if !is_output(command, asked) {
            continue;
        }
        for (other, input) in form.split(' ').skip(1).zip(words.iter()) {
            let (word, input) = (word.as_str(), input.as_str());
            let is_same = match (asked, other) {
                ("SINKS", "SETUP") => word.split(',').any(|name| name == input),
                (_, "SETUPS" | "SECRETS") => input.split(',').any(|name| name == word),
                (_, "SINKS") => asked != "SINKS" && input.split(',').any(|name| name == word),
                _ => is_input(other) && asked != other && word == input,
            };
            if is_same {
                return Some(Reason::Same(command, asked, word, other));
            }
        }
    }
    None
}

// Whether a word of a form is the name of what is written.
fn is_output(command: &str, asked: &str) -> bool {
    match asked {
        "OUT"
        | "SETUP-OUT"
        | "SCRIPT-OUT"
        | "ASK-OUT"
        | "REPLY-OUT"
        | "TAIL"
        | "STATUS"
        | "SINKS" => true,
        "CAPTURE" => command == "send",
        "TRACE" => command == "trace",
        _ => false,
    }
}

// Whether it is the name of what is read, where an output may not have it.
fn is_input(asked: &str) -> bool {
    matches!(
        asked,
        "SETUP" | "SECRET" | "SCRIPT" | "CAPTURE" | "ASK" | "KEY"
    )
}
