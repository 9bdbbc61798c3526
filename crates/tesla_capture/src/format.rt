//! The formats of files of records.

ghost use Rattle.std.specs.Prelude.{◌≡◌};
ghost use Rattle.tesla_capture.specs.Grammar.{Grammar};
ghost use Rattle.tesla_capture.specs.Capture.{capture};
ghost use Rattle.tesla_capture.specs.Script.{script};
ghost use Rattle.tesla_capture.specs.Formats.{IsGrammar, capture_is, script_is};

use crate::sizes::HEAD_SIZE;
use tesla_base::{MOST_DATAGRAM, MOST_PAYLOAD};

/// What one format has of its own.
pub trait Format {
    ghost grammar: { Grammar };

    /// The first bytes of every file: the magic, and the version.
    fn head() -> [u8; HEAD_SIZE]
        ensures { result ≡ grammar.head };

    /// How many bytes a record of kind 1 carries at most.
    fn longest() -> u16
        ensures { result ≡ grammar.longest };

    /// Whether a record of kind 2 has a reading.
    fn timed() -> bool
        ensures { result ≡ grammar.timed };

    ghost is: { IsGrammar grammar };
}

/// The format of captures: arrivals are of kind 1, takes of kind 2.
#[derive(Drop)]
pub struct CaptureFormat;

impl Format for CaptureFormat {
    ghost grammar = { capture };

    ghost is = { capture_is };

    fn head() -> [u8; HEAD_SIZE] {
        *b"TCAP\x01"
    }

    fn longest() -> u16 {
        MOST_DATAGRAM as u16
    }

    fn timed() -> bool {
        false
    }
}

/// The format of scripts: messages are of kind 1, disclosures of kind 2.
#[derive(Drop)]
pub struct ScriptFormat;

impl Format for ScriptFormat {
    ghost grammar = { script };

    ghost is = { script_is };

    fn head() -> [u8; HEAD_SIZE] {
        *b"TSCR\x01"
    }

    fn longest() -> u16 {
        MOST_PAYLOAD as u16
    }

    fn timed() -> bool {
        true
    }
}
