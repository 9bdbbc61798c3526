//! Why a script isn't woven, at a place.

ghost use Rattle.tesla_run_weave.specs.WeaveKind.{weave_kind_name, weave_kind_of};

use tesla_base::Kind;
use tesla_capture::RecordKind;
use tesla_run_send::ScriptKind;

/// Why a script is refused at a place, which is that of a record. The texts are the names.
#[derive(Clone, Copy, Debug, PartialEq, Eq)]
pub enum WeaveKind {
    /// The script is refused there by `send` too.
    Script(ScriptKind),
    /// The body of the message has more than 1,161 bytes: there is no room for a promise before it.
    LongBody,
}

impl Kind for WeaveKind {
    ghost printed = { weave_kind_name };

    fn name(self) -> &'static str {
        match self {
            WeaveKind::Script(kind) => kind.name(),
            WeaveKind::LongBody => "LongBody",
        }
    }
}

impl From<RecordKind> for WeaveKind {
    ghost use Rattle.std.specs.Prelude.{◌≡◌};
    ghost use Rattle.tesla_run_weave.specs.WeaveKind.{weave_kind_of};

    ghost from_gives = { λ kind it. it ≡ weave_kind_of kind };

    fn from(kind: RecordKind) -> WeaveKind {
        WeaveKind::Script(ScriptKind::from(kind))
    }
}
