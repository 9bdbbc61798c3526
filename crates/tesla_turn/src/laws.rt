//! What the contracts of a turn say together.
ghost use Rattle.std.specs.Prelude.{◌≡◌, length};
ghost use Rattle.std.specs.List.{sum_by};
ghost use Rattle.tesla_turn.specs.History.{entries, HasCalls, AllJoined, IsMerge, known_calls};

use crate::close::Last;
use tesla_base::Chronicle;

/// What happened is one history. Where every pass was joined, it is a merge of the calls of the passes:
/// each call stands in it once, those of one pass in their order, and nothing else. The value that the
/// close gave stands for it.
///
/// The conditions are what `close` ensures.
pub fn one_history<V: Chronicle>(value: &V, last: &Last<V>)
    requires value { V.stands value.now (entries last.now.history) }
    requires calls { HasCalls last.now.history last.now.passes }
    requires joined { AllJoined last.now.passes }
    ensures stands { V.stands value.now (entries last.now.history) }
    ensures merge { IsMerge last.now.history (known_calls last.now.passes) }
    ensures size { length last.now.history ≡ sum_by length (known_calls last.now.passes) }
{}
