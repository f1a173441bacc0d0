//! The levels above the leaves: each is a node over the level below it, a type of its own.

use crate::leaf::Leaf;
use crate::node::Node;

/// The second level, of up to 2^12 entries.
pub(crate) type Second<T> = Node<T, Leaf<T>>;

/// The third level, of up to 2^18 entries.
pub(crate) type Third<T> = Node<T, Second<T>>;

/// The fourth level, of up to 2^24 entries.
pub(crate) type Fourth<T> = Node<T, Third<T>>;

/// The fifth level, of up to 2^30 entries.
pub(crate) type Fifth<T> = Node<T, Fourth<T>>;
