//! A module for each part of the running system that a script can't try.

mod clocks;
mod gates;
mod sinks;
mod waits;
