//! Why a file isn't in its grammar.

/// Why a file is refused at a place.
#[derive(Clone, Copy, Debug, PartialEq, Eq)]
pub enum Refusal<K> {
    /// The file doesn't begin with a head, or ends within it.
    BadHead,
    /// The file ends within a record, before its 2^40th byte.
    Truncated,
    /// A record begins or goes on behind the first 2^40 bytes of the file.
    TooLarge,
    /// No record begins so, for this reason.
    BadRecord(K),
}
