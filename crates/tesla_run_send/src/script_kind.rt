//! Why a script is refused at a place.

ghost use Rattle.tesla_run_send.specs.ScriptKind.{script_kind_name, script_kind_of};

use tesla_base::Kind;
use tesla_capture::RecordKind;

/// Why a script is refused at a place, which is that of a record. The texts are the names.
#[derive(Clone, Copy, Debug, PartialEq, Eq)]
pub enum ScriptKind {
    /// The first five bytes are not the head of the format; a shorter file is refused so too.
    BadHead,
    /// The first byte of the record is neither 1 nor 2.
    BadKind,
    /// The file ends within the record, before its 2^40th byte.
    Truncated,
    /// The payload has more than 1,200 bytes.
    TooLong,
    /// The record begins or ends behind the first 2^40 bytes of the file.
    TooLarge,
    /// The message is to be sent before the start, or in interval 0.
    Early,
    /// The message is to be sent after the last interval.
    Over,
    /// What was sent last is of a later interval.
    Backward,
    /// The 65,536 numbers of the message's interval are used.
    IntervalFull,
}

impl Kind for ScriptKind {
    ghost printed = { script_kind_name };

    fn name(self) -> &'static str {
        match self {
            ScriptKind::BadHead => "BadHead",
            ScriptKind::BadKind => "BadKind",
            ScriptKind::Truncated => "Truncated",
            ScriptKind::TooLong => "TooLong",
            ScriptKind::TooLarge => "TooLarge",
            ScriptKind::Early => "Early",
            ScriptKind::Over => "Over",
            ScriptKind::Backward => "Backward",
            ScriptKind::IntervalFull => "IntervalFull",
        }
    }
}

impl From<RecordKind> for ScriptKind {
    ghost use Rattle.std.specs.Prelude.{◌≡◌};
    ghost use Rattle.tesla_run_send.specs.ScriptKind.{script_kind_of};

    ghost from_gives = { λ kind it. it ≡ script_kind_of kind };

    fn from(kind: RecordKind) -> ScriptKind {
        match kind {
            RecordKind::BadHead => ScriptKind::BadHead,
            RecordKind::BadKind => ScriptKind::BadKind,
            RecordKind::Truncated => ScriptKind::Truncated,
            RecordKind::TooLong => ScriptKind::TooLong,
            RecordKind::TooLarge => ScriptKind::TooLarge,
        }
    }
}
