//! How many bytes the parts of files have.

/// The head of every file: the magic, and the version.
pub const HEAD_SIZE: usize = 5;

/// The fields of a record of kind 1 before the bytes that it carries: its kind, its reading, and their number.
pub const CARRYING_SIZE: usize = 11;

/// A record of kind 2 that has a reading: its kind, and the reading.
pub const TIMED_SIZE: usize = 9;

/// The fields of a release record before its payload.
pub const RELEASE_HEAD_SIZE: usize = 17;

/// The fields of the record of a message that was accepted on arrival, before its payload.
pub const ACCEPTED_SIZE: usize = 9;

/// The fields of a record of a follower before its payload: its kind, its epoch, and those of a release record.
pub const FOLLOWED_HEAD_SIZE: usize = 22;
