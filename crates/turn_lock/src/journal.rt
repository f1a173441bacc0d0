//! The journal of a surface, as which contracts see the value under the lock.

use ground_model::{Entry, Limits, Listed};
use ground_num::Head;

/// A journal: the head, the limits, and the entries, oldest first.
/// Contracts alone speak of it, and no value of it is made.
pub struct Journal {
    pub head: Head,
    pub limits: Limits,
    pub entries: Listed<Entry>,
}
