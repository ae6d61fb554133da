//! Host views: what the platform shows, and the mutations that change it.
#![tactic(auto)]

ghost use Rattle.std.specs.Prelude.{◌≡◌, ◌↔◌, IsTrue};
ghost use Rattle.host_views.specs.Same.{is_same_view};

mod linked;
mod links;
mod mutations;
mod registry;
#[cfg(test)]
mod tests;

use native_state::StateCell;
use prop_table::{Label, NodeProps};
pub use registry::Registry;
use shadow_frame::Rect;
use shadow_kinds::{Kind, have_same_rows};
use sqlite_items::Items;
use std::sync::Arc;

/// A view of the platform.
#[derive(Drop)]
pub struct HostView {
    pub kind: Kind,
    pub props: NodeProps,
    pub label: Label,
    pub state: Option<StateCell>,
    /// The frame in the host parent.
    pub frame: Rect,
}

impl HostView {
    /// Whether two views are equal in every part.
    pub fn is_same(&self, other: &HostView) -> bool
        ensures parts { result ≡ is_same_view self.now other.now }
        ensures equal { IsTrue result ↔ (self.now ≡ other.now) }
    {
        self.has_same_parts(other)
    }

    fn has_same_parts(&self, other: &HostView) -> bool
        ensures { result ≡ is_same_view self.now other.now }
    {
        self.kind == other.kind
            && have_same_rows(&self.props, &other.props)
            && self.label.bytes() == other.label.bytes()
            && self.state == other.state
            && self.frame == other.frame
    }
}

/// A shared view.
pub type ViewRef = Arc<HostView>;

/// A view at its place; parent 0 is the root.
#[derive(Drop)]
pub struct PlacedView {
    pub tag: u32,
    pub parent: u32,
    pub index: u32,
    pub view: ViewRef,
}

/// The views of a surface, in host preorder: each before its children, and children in their order.
#[derive(Drop)]
pub struct HostTree {
    pub views: Items<PlacedView>,
}

/// A change of the platform's views.
#[derive(Drop)]
pub enum Mutation {
    Create { tag: u32, view: ViewRef },
    Delete { tag: u32 },
    Insert { parent: u32, tag: u32, index: u32 },
    Remove { parent: u32, tag: u32, index: u32 },
    Update { tag: u32, view: ViewRef },
}

fn needs_send<T: Send + Sync>(_value: &T) {}

/// Views, mutations and registries are shared by threads.
pub fn is_shared_by_threads(tree: &HostTree, mutation: &Mutation, registry: &Registry) {
    needs_send(tree);
    needs_send(mutation);
    needs_send(registry);
}
