//! Views with their links, by their tags.

ghost use Rattle.std.specs.Prelude.{◌≡◌, ◌≤◌, ◌<◌, [], length, Some, IfOk, OnOk, OnErr, IsSomeAnd, IsTrue};
ghost use Rattle.std.specs.Option.{option_copied};
ghost use Rattle.std.specs.List as list;
ghost use Rattle.std.specs.FinMap as table;
ghost use Rattle.host_views.specs.Links.{linked_children, unlinked, with_linked_children, with_parent, with_view};

use crate::ViewRef;
use crate::linked::LinkedView;
use page_map::{PageMap, Share};
use std::alloc::{AllocError, Global};
use std::marker::Model;
use std::sync::Arc;

/// The tags of the root's children, and views with their links by their tags.
///
/// Nothing is said here of whether parents and children fit. A change is made in place where the
/// page of its view has no other owner; else that page is copied. Where there is no memory, nothing
/// is changed.
#[derive(Drop)]
pub struct Links {
    root: Vec<u32>,
    views: PageMap<LinkedView>,
}

impl Model for Links {
    ghost use Rattle.host_views.specs.Links.{PlainLinks};
    ghost use Rattle.host_views.specs.Code.{coded_links};

    ghost Value = { PlainLinks };

    ghost coded = { coded_links };

    ghost view = { λ links. record { root = links.root.items; views = links.views } };
}

impl Links {
    /// The root alone.
    pub fn new(alloc: Global) -> Links
        ensures { result ≡ record { root = []; views = table.empty } }
    {
        Links {
            root: Vec::new(alloc),
            views: PageMap::empty(),
        }
    }

    /// Where the tags of the root's children are kept.
    pub fn allocator(&self) -> Global {
        *self.root.allocator()
    }

    /// How many views there are.
    pub fn len(&self) -> usize
        ensures { result ≡ table.len self.now.views }
    {
        self.views.len()
    }

    /// The view of that tag, where it is there.
    pub fn get(&self, tag: u32) -> Option<&LinkedView>
        ensures { option_copied result ≡ table.get self.now.views tag }
    {
        self.views.get(tag)
    }

    /// The children of that tag; 0 is the root.
    pub fn children_of(&self, tag: u32) -> Option<&[u32]>
        ensures { option_copied result ≡ linked_children self.now tag }
    {
        if tag == 0 {
            return Some(self.root.as_slice());
        }
        match self.get(tag) {
            Some(linked) => Some(linked.children()),
            None => None,
        }
    }

    /// Adds a view without links.
    pub fn add(&mut self, alloc: Global, tag: u32, view: &ViewRef) -> Result<(), AllocError>
        ensures ok { OnOk result (self.new ≡ record { root = self.old.root; views = table.insert self.old.views tag (unlinked view.now.value) }) }
        ensures err { OnErr result (self.new ≡ self.old) }
    {
        let view = Arc::try_clone(view)?;
        let linked = LinkedView::new(alloc, view);
        self.views.insert(alloc, tag, linked)
    }

    /// Takes a view away; the links of others stay.
    pub fn remove(&mut self, alloc: Global, tag: u32) -> Result<(), AllocError>
        ensures ok { OnOk result (self.new ≡ record { root = self.old.root; views = table.remove self.old.views tag }) }
        ensures err { OnErr result (self.new ≡ self.old) }
    {
        self.views.remove(alloc, tag)?;
        Ok(())
    }

    /// Shows another view at that tag, with the same links. Where the tag is not there, nothing is changed.
    pub fn set_view(&mut self, alloc: Global, tag: u32, view: ViewRef) -> Result<(), AllocError>
        ensures ok { OnOk result (self.new ≡ with_view tag view.value self.old) }
        ensures err { OnErr result (self.new ≡ self.old) }
    {
        if let Some(linked) = self.views.get_mut(tag) {
            linked.set_view(view);
            return Ok(());
        }
        let Some(linked) = self.views.get(tag) else {
            return Ok(());
        };
        let mut linked = linked.share()?;
        linked.set_view(view);
        self.views.insert(alloc, tag, linked)
    }

    /// Gives the view of that tag another parent. Where the tag is not there, nothing is changed.
    pub fn set_parent(
        &mut self,
        alloc: Global,
        tag: u32,
        parent: Option<u32>,
    ) -> Result<(), AllocError>
        ensures ok { OnOk result (self.new ≡ with_parent tag parent self.old) }
        ensures err { OnErr result (self.new ≡ self.old) }
    {
        if let Some(linked) = self.views.get_mut(tag) {
            linked.set_parent(parent);
            return Ok(());
        }
        let Some(linked) = self.views.get(tag) else {
            return Ok(());
        };
        let mut linked = linked.share()?;
        linked.set_parent(parent);
        self.views.insert(alloc, tag, linked)
    }

    /// Adds a child at that index; parent 0 is the root.
    pub fn insert_child(
        &mut self,
        alloc: Global,
        parent: u32,
        index: usize,
        tag: u32,
    ) -> Result<(), AllocError>
        requires { IsSomeAnd (linked_children self.old parent) (λ children. index ≤ length children) }
        ensures ok { OnOk result (self.new ≡ with_linked_children parent (λ children. list.insert children index tag) self.old) }
        ensures err { OnErr result (self.new ≡ self.old) }
    {
        if parent == 0 {
            self.root.insert(index, tag)?;
            return Ok(());
        }
        if let Some(linked) = self.views.get_mut(parent) {
            return linked.insert_child(index, tag);
        }
        let Some(linked) = self.views.get(parent) else {
            return Ok(());
        };
        let mut linked = linked.share()?;
        linked.insert_child(index, tag)?;
        self.views.insert(alloc, parent, linked)
    }

    /// Takes away the child at that index; parent 0 is the root.
    pub fn remove_child(
        &mut self,
        alloc: Global,
        parent: u32,
        index: usize,
    ) -> Result<(), AllocError>
        requires { IsSomeAnd (linked_children self.old parent) (λ children. index < length children) }
        ensures ok { OnOk result (self.new ≡ with_linked_children parent (λ children. list.remove children index) self.old) }
        ensures err { OnErr result (self.new ≡ self.old) }
    {
        if parent == 0 {
            self.root.remove(index);
            return Ok(());
        }
        if let Some(linked) = self.views.get_mut(parent) {
            linked.remove_child(index);
            return Ok(());
        }
        let Some(linked) = self.views.get(parent) else {
            return Ok(());
        };
        let mut linked = linked.share()?;
        linked.remove_child(index);
        self.views.insert(alloc, parent, linked)
    }

    /// The same links: the views' pages are shared, and the root's children are copied.
    pub fn copy(&self) -> Result<Links, AllocError>
        ensures { IfOk result (λ copy. copy ≡ self.now) }
    {
        Ok(Links {
            root: self.root.clone()?,
            views: self.views.share()?,
        })
    }
}
