//! Forests from the nodes of a script.
#![tactic(auto)]

mod builds;
mod checks;
mod held;
mod limits;
mod making;
#[cfg(test)]
mod tests;

pub use builds::{BuildRefusal, build};
use prop_table::{Label, NodeProps};
use shadow_kinds::Kind;
use shadow_node::NodeEdit;
use sqlite_items::Items;

/// A node that a script names.
#[derive(Drop)]
pub enum ScriptNode {
    /// A node that is written out.
    Written {
        tag: u32,
        kind: Kind,
        props: NodeProps,
        label: Label,
        children: Items<ScriptNode>,
    },
    /// The node of that tag in the held revision, with a change and other children where they are given.
    Kept {
        tag: u32,
        change: Option<NodeEdit>,
        children: Option<Items<ScriptNode>>,
    },
}
