//! Removes and inserts: the children of each host parent.

ghost use Rattle.std.specs.Prelude.{◌≡◌, ◌≤◌, ℕ, ◌∷◌, length, drop, IfOk, OnOk};
ghost use Rattle.std.specs.List.{flat_map};
ghost use Rattle.host_views.specs.Plain.{children_at, host_tags};
ghost use Rattle.view_flatten.specs.Placed.{plain_places};
ghost use Rattle.view_mutation.specs.Mutations.{common_prefix, inserts_from, removes_from};
ghost use Rattle.view_mutation.specs.Children.{HaveFewChildren, inserts_by, children_by, removes_by, tags_in};
ghost use Rattle.view_mutation.specs.Lookups.{IsListed};
ghost use Rattle.view_mutation.specs.Pairs.{pairs_at};

use crate::pairs::{pairs_of, put_in_order};
use host_views::Mutation;
use sqlite_items::Items;
use std::alloc::{AllocError, Global};
use std::marker::Model;
use view_flatten::Placed;

/// The host parent and the tag of each place, in the order of the host parents; those of one host
/// parent as they stand.
#[derive(Drop)]
pub struct Children {
    pairs: Vec<(u32, u32)>,
}

impl Model for Children {
    ghost use Rattle.std.specs.Prelude.{List, ℕ};
    ghost use Rattle.std.specs.Coded.{coded_list, coded_ℕ, coded×};
    ghost use Rattle.std.specs.List.Sorted.{IsNonDecreasingBy};

    ghost Value = { List (ℕ × ℕ) };

    ghost coded = { coded_list (coded× coded_ℕ coded_ℕ) };

    ghost view = { λ children. children.pairs.items };

    ghost invariant = { λ children. IsNonDecreasingBy (λ pair. pair.0) children.pairs.items };
}

/// The children of each host parent of a tree.
pub fn children_of(alloc: Global, places: &[Placed<'_>]) -> Result<Children, AllocError>
    ensures { IfOk result (λ children. (parent : ℕ) → children_by children parent ≡ children_at (plain_places places.now) parent) }
{
    let mut pairs = Vec::with_capacity(alloc, places.len())?;
    for placed in places {
        pairs.push((placed.parent, placed.tag()))?;
    }
    put_in_order(&mut pairs)?;
    Ok(Children { pairs })
}

/// The children of a host parent; one that the tree does not have has none.
fn tags_at(children: &Children, parent: u32) -> &[(u32, u32)]
    ensures { result.now ≡ pairs_at children.now parent }
{
    pairs_of(&children.pairs, parent)
}

/// How many tags at the begin of both lists are the same.
fn staying(old: &[(u32, u32)], new: &[(u32, u32)]) -> usize
    ensures prefix { result ≡ common_prefix (tags_in old.now) (tags_in new.now) }
    ensures old { result ≤ length old.now }
    ensures new { result ≤ length new.now }
{
    let shorter = old.len().min(new.len());
    for at in 0..shorter {
        if old[at].1 != new[at].1 {
            return at;
        }
    }
    shorter
}

/// Adds removes of a host parent's children from that index on, the last one first.
fn add_removes_from(
    list: &mut Items<Mutation>,
    parent: u32,
    tags: &[(u32, u32)],
    stay: usize,
) -> Result<(), AllocError>
    requires stay { stay ≤ length tags.now }
    requires count { length tags.now ≤ 2000 }
    ensures { OnOk result (IsListed list.old (removes_from parent stay (tags_in (drop stay tags.now))) list.new) }
{
    for at in (stay..tags.len()).rev() {
        list.push(Mutation::Remove {
            parent,
            tag: tags[at].1,
            index: at as u32,
        })?;
    }
    Ok(())
}

/// Adds the removes at one host parent: its old children after those that stay.
fn add_removes_at(
    list: &mut Items<Mutation>,
    old: &Children,
    new: &Children,
    parent: u32,
) -> Result<(), AllocError>
    requires { HaveFewChildren (children_by old.now) }
    ensures { OnOk result (IsListed list.old (removes_by (children_by old.now) (children_by new.now) parent) list.new) }
{
    let tags = tags_at(old, parent);
    let stay = staying(tags, tags_at(new, parent));
    add_removes_from(list, parent, tags, stay)
}

/// Adds the removes at each host parent of the old tree.
pub fn add_removes(
    list: &mut Items<Mutation>,
    places: &[Placed<'_>],
    old: &Children,
    new: &Children,
) -> Result<(), AllocError>
    requires { HaveFewChildren (children_by old.now) }
    ensures { OnOk result (IsListed list.old (flat_map (removes_by (children_by old.now) (children_by new.now)) (0 ∷ host_tags (plain_places places.now))) list.new) }
{
    add_removes_at(list, old, new, 0)?;
    for placed in places {
        add_removes_at(list, old, new, placed.tag())?;
    }
    Ok(())
}

/// Adds inserts of a host parent's children from that index on.
fn add_inserts_from(
    list: &mut Items<Mutation>,
    parent: u32,
    tags: &[(u32, u32)],
    stay: usize,
) -> Result<(), AllocError>
    requires stay { stay ≤ length tags.now }
    requires count { length tags.now ≤ 2000 }
    ensures { OnOk result (IsListed list.old (inserts_from parent stay (tags_in (drop stay tags.now))) list.new) }
{
    for at in stay..tags.len() {
        list.push(Mutation::Insert {
            parent,
            tag: tags[at].1,
            index: at as u32,
        })?;
    }
    Ok(())
}

/// Adds the inserts at one host parent: its new children after those that stay.
fn add_inserts_at(
    list: &mut Items<Mutation>,
    old: &Children,
    new: &Children,
    parent: u32,
) -> Result<(), AllocError>
    requires { HaveFewChildren (children_by new.now) }
    ensures { OnOk result (IsListed list.old (inserts_by (children_by old.now) (children_by new.now) parent) list.new) }
{
    let tags = tags_at(new, parent);
    let stay = staying(tags_at(old, parent), tags);
    add_inserts_from(list, parent, tags, stay)
}

/// Adds the inserts at each host parent of the new tree.
pub fn add_inserts(
    list: &mut Items<Mutation>,
    places: &[Placed<'_>],
    old: &Children,
    new: &Children,
) -> Result<(), AllocError>
    requires { HaveFewChildren (children_by new.now) }
    ensures { OnOk result (IsListed list.old (flat_map (inserts_by (children_by old.now) (children_by new.now)) (0 ∷ host_tags (plain_places places.now))) list.new) }
{
    add_inserts_at(list, old, new, 0)?;
    for placed in places {
        add_inserts_at(list, old, new, placed.tag())?;
    }
    Ok(())
}
