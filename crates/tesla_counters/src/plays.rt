//! What each step on the table tells.

ghost use Rattle.tesla_counters.specs.Steps.{entered, stored, looked, told, both_views, spent_view};

use crate::view::View;
use atomic_table::{Join, Play};

/// The reader's seat is made.
pub(crate) struct Enter<const N: usize>;

impl<const N: usize> Play<u8, View> for Enter<N> {
    ghost then = { entered N };
}

/// A count is set.
pub(crate) struct Put;

impl Play<u8, View> for Put {
    ghost then = { stored };
}

/// A count is read.
pub(crate) struct Look;

impl Play<u8, View> for Look {
    ghost then = { looked };
}

/// The writer learns that what its view has below the words is below its own counts.
pub(crate) struct Tell;

impl Play<u8, View> for Tell {
    ghost then = { told };
}

/// The reader's view goes into the writer's.
pub(crate) struct Merge;

impl Join<View> for Merge {
    ghost both = { both_views };

    ghost spent = { spent_view };
}
