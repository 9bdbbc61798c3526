//! What may go to another thread, or be shared between threads.

use crate::close::Last;
use crate::pass::Pass;
use crate::permitting::Permitting;
use crate::turn::Turn;

fn is_sent<T: Send>() {}

fn is_shared<T: Sync>() {}

/// Threads may share a turn over a value that may go to another thread, and a pass and the end of a turn
/// may go to another thread.
pub fn crosses<V: Permitting + Drop + Send>() {
    is_sent::<Turn<V>>();
    is_shared::<Turn<V>>();
    is_sent::<Pass<V>>();
    is_sent::<Last<V>>();
}
