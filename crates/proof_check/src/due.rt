//! The nodes that are due.
use crate::trail::Child;

/// A node that is due, by its parent: how many demands were made there, which child it is, and how
/// many nodes are above it.
#[derive(Clone, Copy, PartialEq, Eq)]
pub(crate) struct DueNode {
    pub(crate) asked: usize,
    pub(crate) child: Child,
    pub(crate) above: u32,
}
