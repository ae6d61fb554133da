//! The registry of a platform's views.

ghost use Rattle.std.specs.Prelude.{◌≡◌, ◌≢◌, ◌≤◌, ◌↔◌, [], length, map, Some, IfOk, OnOk, OnErr, IsNone, IsSome, IsSomeAnd, IsTrue, slice_get};
ghost use Rattle.std.specs.Option.{option_copied, option_map};
ghost use Rattle.std.specs.FinMap as table;
ghost use Rattle.host_views.specs.Plain.{delete, insert, plain_mutation, remove, update};
ghost use Rattle.host_views.specs.Registry.{Fits, IsNoChild, MayApply, after_mutation, children_in, mutated};

use crate::links::Links;
use crate::mutations::apply_each;
use crate::{HostView, Mutation};
use std::alloc::{AllocError, Global};
use std::marker::Model;
use std::slice;

/// What a platform shows: views by their tags, each with the tags of its children in their order.
///
/// Tag 0 is the root, which has children and no view. No tag stands twice among the children.
#[derive(Drop)]
pub struct Registry {
    links: Links,
}

impl Model for Registry {
    ghost use Rattle.host_views.specs.Registry.{PlainRegistry};
    ghost use Rattle.host_views.specs.Links.{KeepsParents, registry_in};
    ghost use Rattle.host_views.specs.Code.{coded_registry};

    ghost Value = { PlainRegistry };

    ghost coded = { coded_registry };

    ghost view = { λ registry. registry_in registry.links };

    ghost invariant = { λ registry. KeepsParents registry.links };
}

impl Registry {
    /// The root alone, without children.
    pub fn start(alloc: Global) -> Result<Registry, AllocError>
        ensures { IfOk result (λ registry. registry ≡ record { root = []; views = table.empty }) }
    {
        Ok(Registry {
            links: Links::new(alloc),
        })
    }

    /// How many views there are.
    pub fn len(&self) -> usize
        ensures { result ≡ table.len self.now.views }
    {
        self.links.len()
    }

    /// The view of that tag; `None` for 0 and for a tag that is not present.
    pub fn view(&self, tag: u32) -> Option<&HostView>
        ensures view { option_copied result ≡ option_map (λ shown. shown.view) (table.get self.now.views tag) }
        ensures root { tag ≡ 0 → IsNone result }
    {
        match self.links.get(tag) {
            Some(linked) => Some(linked.view()),
            None => None,
        }
    }

    /// The tags of the children of that tag, in their order; `None` for a tag that is neither 0 nor present.
    pub fn children_of(&self, tag: u32) -> Option<&[u32]>
        ensures { option_copied result ≡ children_in self.now tag }
    {
        self.links.children_of(tag)
    }

    /// Whether the mutation may be applied:
    ///
    /// - a create, where its tag is neither 0 nor present;
    /// - a delete, where its tag is present, no one's child and without children;
    /// - an insert, where its parent is 0 or present, its tag is present, differs from the parent and is no one's child,
    ///   and its index is at most the number of the parent's children;
    /// - a remove, where its parent is 0 or present, and its tag stands at its index of the parent's children;
    /// - an update, where its tag is present and its kind is the same.
    pub fn fits(&self, mutation: &Mutation) -> bool
        ensures { IsTrue result ↔ Fits self.now (plain_mutation mutation.now) }
    {
        match mutation {
            Mutation::Create { tag, .. } => self.may_create(*tag),
            Mutation::Delete { tag } => self.may_delete(*tag),
            Mutation::Insert { parent, tag, index } => self.may_insert(*parent, *tag, *index),
            Mutation::Remove { parent, tag, index } => self.may_remove(*parent, *tag, *index),
            Mutation::Update { tag, view } => self.may_update(*tag, view),
        }
    }

    /// Applies a mutation that fits: what it names is changed, and nothing else.
    ///
    /// Where there is no memory, nothing is changed.
    pub fn apply(&mut self, mutation: &Mutation) -> Result<(), AllocError>
        requires { Fits self.old (plain_mutation mutation.now) }
        ensures ok { OnOk result (self.new ≡ after_mutation (plain_mutation mutation.now) self.old) }
        ensures err { OnErr result (self.new ≡ self.old) }
    {
        let alloc = self.links.allocator();
        self.apply_all(alloc, slice::from_ref(mutation))
    }

    /// Applies mutations in their turn, of which each fits then.
    ///
    /// A page of views that has another owner is copied once. Where there is no memory, nothing is changed.
    pub fn apply_all(&mut self, alloc: Global, mutations: &[Mutation]) -> Result<(), AllocError>
        requires { MayApply (map plain_mutation mutations.now) self.old }
        ensures ok { OnOk result (self.new ≡ mutated (map plain_mutation mutations.now) self.old) }
        ensures err { OnErr result (self.new ≡ self.old) }
    {
        let before = self.links.copy()?;
        match apply_each(&mut self.links, alloc, mutations) {
            Ok(()) => Ok(()),
            Err(error) => {
                self.links = before;
                Err(error)
            }
        }
    }

    /// An equal registry, which changes by itself; the pages of views are shared.
    pub fn copy(&self, _alloc: Global) -> Result<Registry, AllocError>
        ensures { IfOk result (λ copy. copy ≡ self.now) }
    {
        Ok(Registry {
            links: self.links.copy()?,
        })
    }
}

/// What is asked of each mutation.
impl Registry {
    /// Whether the tag is neither 0 nor present.
    fn may_create(&self, tag: u32) -> bool
        ensures { IsTrue result ↔ ((tag ≢ 0) × IsNone (table.get self.now.views tag)) }
    {
        tag != 0 && self.links.get(tag).is_none()
    }

    /// Whether the tag is present, no one's child and without children.
    fn may_delete(&self, tag: u32) -> bool
        ensures { IsTrue result ↔ Fits self.now (delete tag) }
    {
        match self.links.get(tag) {
            Some(linked) => linked.children().is_empty() && linked.parent().is_none(),
            None => false,
        }
    }

    /// Whether the parent is 0 or present, and the index at most the number of its children.
    fn has_place(&self, parent: u32, index: u32) -> bool
        ensures { IsTrue result ↔ IsSomeAnd (children_in self.now parent) (λ children. index ≤ length children) }
    {
        match self.children_of(parent) {
            Some(children) => index as usize <= children.len(),
            None => false,
        }
    }

    /// Whether the tag is present and no one's child.
    fn is_loose(&self, tag: u32) -> bool
        ensures { IsTrue result ↔ (IsSome (table.get self.now.views tag) × IsNoChild self.now tag) }
    {
        match self.links.get(tag) {
            Some(linked) => linked.parent().is_none(),
            None => false,
        }
    }

    /// Whether the tag may become the child at that index.
    fn may_insert(&self, parent: u32, tag: u32, index: u32) -> bool
        ensures { IsTrue result ↔ Fits self.now (insert parent tag index) }
    {
        self.has_place(parent, index) && tag != parent && self.is_loose(tag)
    }

    /// Whether the tag is the child at that index.
    fn may_remove(&self, parent: u32, tag: u32, index: u32) -> bool
        ensures { IsTrue result ↔ Fits self.now (remove parent tag index) }
    {
        match self.children_of(parent) {
            Some(children) => children.get(index as usize) == Some(&tag),
            None => false,
        }
    }

    /// Whether the tag is present, with a view of the same kind.
    fn may_update(&self, tag: u32, view: &HostView) -> bool
        ensures { IsTrue result ↔ Fits self.now (update tag view.now) }
    {
        match self.view(tag) {
            Some(shown) => shown.kind == view.kind,
            None => false,
        }
    }
}
