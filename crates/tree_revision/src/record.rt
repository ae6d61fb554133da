//! What a step asks of a surface, what is recorded of it, and what it is answered.

use native_state::StateChange;
use shadow_frame::Size;
use shadow_node::NodeEdit;
use sqlite_items::Items;
use std::sync::Arc;
use tree_build::ScriptNode;

/// A change that a commit makes.
#[derive(Drop)]
pub enum Op {
    /// Another forest, over the held revision.
    Complete { nodes: Items<ScriptNode> },
    /// A change of a family's native state.
    State { tag: u32, change: StateChange },
    /// A change of a node.
    Props { tag: u32, change: NodeEdit },
    /// Another size of the surface.
    Size { size: Size },
    /// An empty forest.
    Stop,
    /// From here on mounts stand still.
    Suspend,
    /// Mounts go on.
    Resume,
}

/// An admitted commit: whose it is, the revision that its caller held, and its change.
#[derive(Drop)]
pub struct Record {
    /// The actor's number.
    pub actor: u32,
    /// The step's number within its actor.
    pub call: u32,
    /// The number of the revision that the actor held.
    pub held: u64,
    pub op: Arc<Op>,
}

/// Why a commit is cancelled; the causes are tried in this order.
#[derive(Clone, Copy, Debug, PartialEq, Eq)]
pub enum Cancel {
    /// A kept tag is not in the held revision.
    Unkept { tag: u32 },
    /// A leaf is given a child.
    ChildOfLeaf { tag: u32 },
    /// Two nodes have this tag.
    TwiceTag { tag: u32 },
    /// A node has depth above 48.
    TooDeep,
    /// There are more than 2,000 nodes.
    TooManyNodes,
    /// The tag had another kind before.
    KindChanged { tag: u32 },
    /// There are more than 4,096 families.
    FamiliesFull,
    /// The tag is not mounted.
    NotMounted { tag: u32 },
    /// The tag's kind has no state.
    Stateless { tag: u32 },
    /// The state changed this often, and not as often as the change names.
    Stale { tag: u32, count: u64 },
}

/// What a step is answered.
#[derive(Clone, Copy, Debug, PartialEq, Eq)]
pub enum Answer {
    /// A hold: the revision of that number is held.
    Held { at: u64 },
    /// A commit: it is the record of that number, after that many tries.
    Admitted { number: u64, tries: u64 },
    /// A commit: it was cancelled at the revision of that number.
    Cancelled { at: u64, tries: u64, cause: Cancel },
    /// A mount: the views went from one revision to another.
    Mounted { base: u64, to: u64 },
    /// A mount: there was nothing newer.
    Empty { at: u64 },
}

fn needs_send<T: Send + Sync>(_value: &T) {}

/// Records are shared by threads.
pub fn is_shared_by_threads(record: &Record) {
    needs_send(record);
}
