//! A view with its links.

ghost use Rattle.std.specs.Prelude.{◌≡◌, ◌≤◌, ◌<◌, length, Some, IfOk, OnOk, OnErr};
ghost use Rattle.std.specs.List as list;
ghost use Rattle.host_views.specs.Links.{unlinked};

use crate::{HostView, ViewRef};
use page_map::Share;
use std::alloc::{AllocError, Global};
use std::marker::Model;
use std::sync::Arc;

/// A view, the tag of its parent where it has one, and the tags of its children in their order.
#[derive(Drop)]
pub struct LinkedView {
    view: ViewRef,
    parent: Option<u32>,
    children: Vec<u32>,
}

impl Model for LinkedView {
    ghost use Rattle.host_views.specs.Links.{PlainLinkedView};
    ghost use Rattle.host_views.specs.Code.{coded_linked};

    ghost Value = { PlainLinkedView };

    ghost coded = { coded_linked };

    ghost view = { λ linked. record { view = linked.view.value; parent = linked.parent; children = linked.children.items } };
}

/// A share has the same view, and children in memory of its own.
impl Share for LinkedView {
    fn share(&self) -> Result<LinkedView, AllocError> {
        Ok(LinkedView {
            view: Arc::try_clone(&self.view)?,
            parent: self.parent,
            children: self.children.clone()?,
        })
    }
}

impl LinkedView {
    /// The view without a parent and without children.
    pub fn new(alloc: Global, view: ViewRef) -> LinkedView
        ensures { result ≡ unlinked view.value }
    {
        LinkedView {
            view,
            parent: None,
            children: Vec::new(alloc),
        }
    }

    /// The view.
    pub fn view(&self) -> &HostView
        ensures { result.now ≡ self.now.view }
    {
        &self.view
    }

    /// The tag of its parent, where it has one.
    pub fn parent(&self) -> Option<u32>
        ensures { result ≡ self.now.parent }
    {
        self.parent
    }

    /// The tags of its children, in their order.
    pub fn children(&self) -> &[u32]
        ensures { result.now ≡ self.now.children }
    {
        self.children.as_slice()
    }

    /// Shows another view, with the same links.
    pub fn set_view(&mut self, view: ViewRef)
        ensures { self.new ≡ record { view = view.value; parent = self.old.parent; children = self.old.children } }
    {
        self.view = view;
    }

    /// Gives it another parent.
    pub fn set_parent(&mut self, parent: Option<u32>)
        ensures { self.new ≡ record { view = self.old.view; parent = parent; children = self.old.children } }
    {
        self.parent = parent;
    }

    /// Adds a child at that index. Where there is no memory, nothing is changed.
    pub fn insert_child(&mut self, index: usize, tag: u32) -> Result<(), AllocError>
        requires { index ≤ length self.old.children }
        ensures ok { OnOk result (self.new ≡ record { view = self.old.view; parent = self.old.parent; children = list.insert self.old.children index tag }) }
        ensures err { OnErr result (self.new ≡ self.old) }
    {
        self.children.insert(index, tag)?;
        Ok(())
    }

    /// Takes away the child at that index.
    pub fn remove_child(&mut self, index: usize)
        requires { index < length self.old.children }
        ensures { self.new ≡ record { view = self.old.view; parent = self.old.parent; children = list.remove self.old.children index } }
    {
        self.children.remove(index);
    }
}
