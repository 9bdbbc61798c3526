//! The program `tesla`.
#![tactic(auto)]

use std::env;
use std::process::ExitCode;
use std::rt::Files;
use tesla_cli::program::{run_program, words};
use tesla_cli::{FORMS, TOOLS};
use tesla_cli_live::{
    is_live, is_live_tool, is_recorded, live, live_tools, recorded, run_live, run_live_tools,
    run_recorded,
};
use tesla_files_live::read_front;
use tesla_live::{Command, Events, Gates, LiveDesk, StreamEnd, label_of};
use tesla_reasons::{key_file, live_setups, reason_of, stream_in, weak_keys};

/// The variable of the environment that has the path at which something is put to end a live command.
const STOP: &str = "TESLA_STOP";

/// How much is read of a file whose keys are looked at: a byte more than a setup or seeds have.
const MOST_TEXT: usize = 4097;

fn main(rt: HostRuntime) -> ExitCode {
    let words = words(&rt);
    let (command, label, sinks) = match &words {
        Ok(words) => told_by(words.as_slice()),
        Err(_) => (Command::Other, "run", 0),
    };
    if let Ok(words) = &words {
        if !tell_reason(&rt, words.as_slice()) {
            tell_weak_keys(&rt, words.as_slice(), label);
        }
    }
    let stop = env::var(&rt, STOP).ok();
    let stream = match &words {
        Ok(words) => stream_of(&rt, words.as_slice()),
        Err(_) => None,
    };
    let gates = Gates::of(Events::new(stop, sinks, command.failure_policy()), stream);
    let mut desk = LiveDesk::labelled(&rt, &gates, command, label);
    if let Ok(words) = &words {
        if is_live(words.as_slice()) {
            let done = run_live(&rt, rt.alloc(), words.as_slice(), &mut desk);
            return ExitCode::from(done.status);
        }
        if is_recorded(words.as_slice()) {
            let done = run_recorded(&rt, rt.alloc(), words.as_slice(), &mut desk);
            return ExitCode::from(done.status);
        }
        if is_live_tool(words.as_slice()) {
            let done = run_live_tools(&rt, rt.alloc(), words.as_slice(), &mut desk);
            return ExitCode::from(done.status);
        }
    }
    let further = [
        live::FORMS.as_slice(),
        recorded::FORMS.as_slice(),
        live_tools::FORMS.as_slice(),
    ];
    run_program(rt.alloc(), words, &further, &mut desk)
}

// The command that the first word names, under which name it tells, and how many sinks of records its words have.
fn told_by(words: &[String]) -> (Command, &'static str, u64) {
    match words {
        [name, rest @ ..] => {
            let command = Command::named(name.as_str());
            (command, label_of(name.as_str()), sinks_in(command, rest))
        }
        [] => (Command::Other, "run", 0),
    }
}

// How many names stand in the word SINKS, which is the fifth one behind the name of a command that has sinks.
fn sinks_in(command: Command, words: &[String]) -> u64 {
    match (command, words) {
        (
            Command::Follow | Command::Receive | Command::Record | Command::Watch,
            [_, _, _, _, sinks, ..],
        ) => sinks.as_str().split(',').count() as u64,
        _ => 0,
    }
}

// Tells on standard error why the words are none of a form, and gives whether that is known. What is done with them is the
// tables' own.
fn tell_reason<R: Eprint>(rt: &R, words: &[String]) -> bool {
    if let [word] = words {
        if word.as_str() == "--help" || word.as_str() == "--version" {
            return false;
        }
    }
    match reason_of(words, form_in(words)) {
        Some(reason) => {
            let _ = eprintln!(rt; "tesla: {reason}");
            true
        }
        None => false,
    }
}

// Tells on standard error which keys give their chains no safety in the file that the words name, where that is a regular file,
// and never a key. The command reads the file itself, and what it does with the keys hangs on none of this.
fn tell_weak_keys<R: Files + Eprint + AllocGlobal>(rt: &R, words: &[String], label: &str) {
    let Some(file) = key_file(words, form_in(words)) else {
        return;
    };
    let mut text = [0; MOST_TEXT];
    let Some(length) = read_front(rt, file.name, &mut text) else {
        return;
    };
    let weak = weak_keys(rt.alloc(), file, &text[..length]);
    text.fill(0);
    for key in weak.iter() {
        let _ = eprintln!(rt; "tesla: {label}: {key}");
    }
}

// The stream with which a live command ends, by the setups that its words name, and when its first one begins, where these are regular
// files. What the command does hangs on none of this.
fn stream_of<R: Files + AllocGlobal>(rt: &R, words: &[String]) -> Option<StreamEnd> {
    let names = live_setups(words, form_in(words))?;
    let last = stream_named(rt, names.last)?;
    if names.first == names.last {
        return Some(last);
    }
    let first = stream_named(rt, names.first)?;
    Some(StreamEnd {
        stream: last.stream,
        begin: first.begin,
        end: last.end,
    })
}

// The stream of a setup, where this is the name of a regular file.
fn stream_named<R: Files + AllocGlobal>(rt: &R, name: &str) -> Option<StreamEnd> {
    let mut text = [0; MOST_TEXT];
    let length = read_front(rt, name, &mut text)?;
    let (stream, begin, end) = stream_in(rt.alloc(), &text[..length])?;
    Some(StreamEnd { stream, begin, end })
}

// The form of the command that the first word names; of several the one that has as many words as these, and else the first.
fn form_in(words: &[String]) -> Option<&'static str> {
    let [name, ..] = words else {
        return None;
    };
    let tables = [
        FORMS.as_slice(),
        TOOLS.as_slice(),
        live::FORMS.as_slice(),
        recorded::FORMS.as_slice(),
        live_tools::FORMS.as_slice(),
    ];
    let mut first = None;
    for table in tables {
        for form in table {
            if form.words.split(' ').next() != Some(name.as_str()) {
                continue;
            }
            if form.words.split(' ').count() == words.len() {
                return Some(form.words);
            }
            first = first.or(Some(form.words));
        }
    }
    first
}
