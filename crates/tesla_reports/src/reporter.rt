//! Lines on standard error.

use crate::cause::Cause;
use crate::moments::read_clock;

/// Where a run tells what happened: standard error, a line each, behind the program's name and the command's.
#[derive(Drop)]
pub struct Reporter<'a, R> {
    rt: &'a R,
    command: &'static str,
}

impl<'a, R> Reporter<'a, R> {
    /// Tells of the command of this name.
    pub fn new(rt: &'a R, command: &'static str) -> Reporter<'a, R> {
        Reporter { rt, command }
    }

    /// Another one for the same run.
    pub fn again(&self) -> Reporter<'a, R> {
        Reporter::new(self.rt, self.command)
    }

    /// The system that the run stands on.
    pub fn system(&self) -> &'a R {
        self.rt
    }
}

impl<'a, R: Eprint> Reporter<'a, R> {
    /// Tells that something can't be done with what has this name, and why.
    pub fn cannot(&self, what: &str, name: &str, cause: &Cause) {
        let _ = eprintln!(self.rt; "tesla: {}: cannot {what} {name:?}: {cause}", self.command);
    }

    /// The same of the part of this number, counted from 0.
    pub fn cannot_number(&self, what: &str, number: u64, name: &str, cause: &Cause) {
        let _ = eprintln!(self.rt;
            "tesla: {}: cannot {what} {number} {name:?}: {cause}",
            self.command
        );
    }

    /// Tells that what has this name can't be written, and why, and how it is tried again.
    pub fn cannot_write_yet(&self, name: &str, cause: &Cause, how: &str) {
        let _ = eprintln!(self.rt;
            "tesla: {}: cannot write {name:?}: {cause} ({how})",
            self.command
        );
    }

    /// Tells that what has this name, which couldn't be written before, was written.
    pub fn written_again(&self, name: &str) {
        let _ = eprintln!(self.rt; "tesla: {}: {name:?} is written again", self.command);
    }

    /// Tells that the file of this name may be read by others than its owner, by these bits of its mode.
    pub fn readable(&self, name: &str, mode: u32) {
        let _ = eprintln!(self.rt;
            "tesla: {}: {name:?} may be read by others (mode {mode:o})",
            self.command
        );
    }

    /// Tells that a part of a run, as `link 0`, failed, why, and when: in microseconds since 1970.
    pub fn failed(&self, part: &str, number: u64, name: &str, cause: &Cause) {
        let at = read_clock(libc::CLOCK_REALTIME).unwrap_or(0);
        let _ = eprintln!(self.rt;
            "tesla: {}: {part} {number} {name:?} failed at {at}: {cause}",
            self.command
        );
    }

    /// Tells that a part of a run went on behind an error, and how many such lines were left out before this one.
    pub fn passed(&self, part: &str, number: u64, name: &str, cause: &Cause, left_out: u64) {
        let _ = eprintln!(self.rt;
            "tesla: {}: {part} {number} {name:?}: {cause} ({left_out} such lines left out)",
            self.command
        );
    }

    /// Tells how many datagrams the system refused to send by the post of this number.
    pub fn unsent(&self, number: u64, name: &str, count: u64) {
        let _ = eprintln!(self.rt;
            "tesla: {}: post {number} {name:?}: unsent {count}",
            self.command
        );
    }
}
