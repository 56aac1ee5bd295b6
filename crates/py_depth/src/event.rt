//! How the nodes of a module are put together, step by step on a stack of outlines.

use shed_base::Place;

/// What a node is, as far as it matters where expressions turn out to be targets.
#[derive(Clone, Copy, Debug)]
pub enum Label {
    Plain,
    /// Brackets round one expression, which may turn out to be targets.
    Bracket,
    /// Items with commas between them, which may turn out to be targets, and then are no node.
    Tuple,
}

/// A step.
#[derive(Clone, Copy, Debug)]
pub enum Event {
    /// A node comes over so many from the top.
    Over(Label, Place, u8),
    /// So many from the top become a group.
    Gather(u8),
    /// The top one goes below the next, a node with this label, as its last.
    Join(Label),
    /// The top one goes into the next, a group, as its last.
    JoinGroup,
    /// The top node is none any more.
    Loosen,
    /// The top one turns out to be targets.
    Assign,
    /// The one below the top is let go.
    Forget,
}
