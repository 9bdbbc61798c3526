//! The sizes that the formats fix.

/// The bytes of a key, and of a value of the one-way function: a value of SHA-256 (FIPS 180-4).
pub const KEY_BYTES: usize = 32;

/// The bytes of a tag of version 1: the first half of an HMAC-SHA-256, as RFC 2104, section 5 allows.
pub const TAG_BYTES: usize = 16;

/// The most bytes of a tag: a whole HMAC-SHA-256 (RFC 2104).
pub const MOST_TAG_BYTES: usize = 32;

/// The most bytes of a payload. With its rows of tags and keys it fits a datagram.
pub const MOST_PAYLOAD: usize = 1_200;

/// The most bytes of a datagram that is read or sent.
pub const MOST_DATAGRAM: usize = 2_048;
