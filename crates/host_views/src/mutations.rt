//! What mutations that fit do to views with their links.
//!
//! Where there is no memory, some may be applied, and the last of them in part.

ghost use Rattle.std.specs.Prelude.{◌≡◌, OnOk, map};
ghost use Rattle.host_views.specs.Plain.{create, delete, insert, plain_mutation, remove, update};
ghost use Rattle.host_views.specs.Registry.{Fits, MayApply, after_mutation, mutated};
ghost use Rattle.host_views.specs.Links.{KeepsParents, registry_in};

use crate::links::Links;
use crate::{Mutation, ViewRef};
use std::alloc::{AllocError, Global};
use std::sync::Arc;

/// Applies each mutation in its turn.
pub(crate) fn apply_each(
    links: &mut Links,
    alloc: Global,
    mutations: &[Mutation],
) -> Result<(), AllocError>
    requires kept { KeepsParents links.old }
    requires fit { MayApply (map plain_mutation mutations.now) (registry_in links.old) }
    ensures kept { OnOk result (KeepsParents links.new) }
    ensures shown { OnOk result (registry_in links.new ≡ mutated (map plain_mutation mutations.now) (registry_in links.old)) }
{
    for mutation in mutations {
        apply_one(links, alloc, mutation)?;
    }
    Ok(())
}

/// Applies a mutation.
fn apply_one(links: &mut Links, alloc: Global, mutation: &Mutation) -> Result<(), AllocError>
    requires kept { KeepsParents links.old }
    requires fits { Fits (registry_in links.old) (plain_mutation mutation.now) }
    ensures kept { OnOk result (KeepsParents links.new) }
    ensures shown { OnOk result (registry_in links.new ≡ after_mutation (plain_mutation mutation.now) (registry_in links.old)) }
{
    match mutation {
        Mutation::Create { tag, view } => create_view(links, alloc, *tag, view),
        Mutation::Delete { tag } => delete_view(links, alloc, *tag),
        Mutation::Insert { parent, tag, index } => insert_view(links, alloc, *parent, *tag, *index),
        Mutation::Remove { parent, tag, index } => remove_view(links, alloc, *parent, *tag, *index),
        Mutation::Update { tag, view } => update_view(links, alloc, *tag, view),
    }
}

/// Adds a view without a parent and without children.
fn create_view(links: &mut Links, alloc: Global, tag: u32, view: &ViewRef) -> Result<(), AllocError>
    requires kept { KeepsParents links.old }
    requires fits { Fits (registry_in links.old) (create tag view.now.value) }
    ensures kept { OnOk result (KeepsParents links.new) }
    ensures shown { OnOk result (registry_in links.new ≡ after_mutation (create tag view.now.value) (registry_in links.old)) }
{
    links.add(alloc, tag, view)
}

/// Takes a view away.
fn delete_view(links: &mut Links, alloc: Global, tag: u32) -> Result<(), AllocError>
    requires kept { KeepsParents links.old }
    requires fits { Fits (registry_in links.old) (delete tag) }
    ensures kept { OnOk result (KeepsParents links.new) }
    ensures shown { OnOk result (registry_in links.new ≡ after_mutation (delete tag) (registry_in links.old)) }
{
    links.remove(alloc, tag)
}

/// Makes a view the child at that index.
fn insert_view(
    links: &mut Links,
    alloc: Global,
    parent: u32,
    tag: u32,
    index: u32,
) -> Result<(), AllocError>
    requires kept { KeepsParents links.old }
    requires fits { Fits (registry_in links.old) (insert parent tag index) }
    ensures kept { OnOk result (KeepsParents links.new) }
    ensures shown { OnOk result (registry_in links.new ≡ after_mutation (insert parent tag index) (registry_in links.old)) }
{
    links.insert_child(alloc, parent, index as usize, tag)?;
    links.set_parent(alloc, tag, Some(parent))
}

/// Takes the child at that index away from its parent.
fn remove_view(
    links: &mut Links,
    alloc: Global,
    parent: u32,
    tag: u32,
    index: u32,
) -> Result<(), AllocError>
    requires kept { KeepsParents links.old }
    requires fits { Fits (registry_in links.old) (remove parent tag index) }
    ensures kept { OnOk result (KeepsParents links.new) }
    ensures shown { OnOk result (registry_in links.new ≡ after_mutation (remove parent tag index) (registry_in links.old)) }
{
    links.remove_child(alloc, parent, index as usize)?;
    links.set_parent(alloc, tag, None)
}

/// Shows another view at that tag.
fn update_view(links: &mut Links, alloc: Global, tag: u32, view: &ViewRef) -> Result<(), AllocError>
    requires kept { KeepsParents links.old }
    requires fits { Fits (registry_in links.old) (update tag view.now.value) }
    ensures kept { OnOk result (KeepsParents links.new) }
    ensures shown { OnOk result (registry_in links.new ≡ after_mutation (update tag view.now.value) (registry_in links.old)) }
{
    let view = Arc::try_clone(view)?;
    links.set_view(alloc, tag, view)
}
