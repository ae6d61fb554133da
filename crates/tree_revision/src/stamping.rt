//! The stamps of the next revision.
//!
//! Nodes are compared by what they are made of, and not by where they lie in memory. One walk over
//! the new forest, from the leaves up, finds which of its nodes stand as they did.

ghost use Rattle.std.specs.Prelude.{◌≡◌, ◌≤◌, ℕ, ◌++◌, length, take, drop, true, Decides, IsTrue, Some, None, map, nat_eq, if◌then◌else◌, IfOk, OnOk, unwrap_or};
ghost use Rattle.std.specs.FinMap as maps;
ghost use Rattle.std.specs.List.{IsDistinct};
ghost use Rattle.std.specs.List.Sorted.{IsNonDecreasingBy};
ghost use Rattle.std.specs.Option.{option_map, option_or};
ghost use Rattle.page_map.specs.Rising.{AreBelow, AreFrom};
ghost use Rattle.shadow_node.specs.Forest.{PlainForest};
ghost use Rattle.shadow_node.specs.Fields.{SettledFields, contents_of, tags_of};
ghost use Rattle.shadow_node.specs.Find.{first_settled};
ghost use Rattle.tree_revision.specs.ForestStamps.{HasTagsOf, AreStampsAfter, IsStampAfter};
ghost use Rattle.tree_revision.specs.Unchanged.{seen_below, shown_here, AreSeenIn, DoTreesStandIn, top_tags, tags_upward, AreStampsIn, IsStampIn, is_same_fields, seen_place, seen_by};

use page_map::Near;
use shadow_kinds::{have_same_rows, is_hidden};
use shadow_node::{Forest, NodeRef, ShadowNode, Stamps};
use std::alloc::{AllocError, Global};
use std::marker::Model;

/// A node of the old forest, and whether it is shown.
#[derive(Clone, Copy)]
struct Place<'a> {
    node: &'a NodeRef,
    shown: bool,
}

/// Places with the tags of their nodes.
type Places<'a> = Vec<(u32, Place<'a>)>;

/// Adds the place of a node.
fn add<'a>(places: &mut Places<'a>, node: &'a NodeRef, shown: bool) -> Result<(), AllocError>
    ensures { OnOk result ((tag : ℕ) → seen_by places.new.items tag ≡ option_or (seen_by places.old.items tag) (if nat_eq node.now.value.fields.fields.tag tag then Some (record { tree = node.now.value; shown = shown }) else None)) }
{
    places.push((node.tag(), Place { node, shown }))?;
    Ok(())
}

/// Whether a node is shown below ancestors that are all shown, or not.
fn is_shown_here(above: bool, node: &ShadowNode) -> bool
    ensures { result ≡ shown_here above node.now.fields }
{
    above && !is_hidden(node.props())
}

/// Adds the places of a forest in preorder.
fn add_all<'a>(places: &mut Places<'a>, forest: &'a Forest, above: bool) -> Result<(), AllocError>
    ensures { OnOk result ((tag : ℕ) → seen_by places.new.items tag ≡ option_or (seen_by places.old.items tag) (seen_below above tag forest.now)) }
{
    for node in forest.nodes() {
        let shown = is_shown_here(above, node);
        add(places, node, shown)?;
        add_all(places, node.children(), shown)?;
    }
    Ok(())
}

/// Whether no tag is above the next one.
fn are_in_order(places: &[(u32, Place<'_>)]) -> bool
    ensures { IsTrue result → IsNonDecreasingBy (λ place. place.0) places.now }
{
    places.is_sorted_by_key(|place| place.0)
}

/// Puts places in the order of their tags, and those of one tag as they stand.
fn put_in_order<'a>(places: &mut Places<'a>) -> Result<(), AllocError>
    ensures in_order { OnOk result (IsNonDecreasingBy (λ place. place.0) places.new.items) }
    ensures seen { OnOk result ((tag : ℕ) → seen_by places.new.items tag ≡ seen_by places.old.items tag) }
{
    if !are_in_order(places) {
        places.sort_by_key(|place| place.0)?;
    }
    Ok(())
}

/// How many of the places have tags below this one.
fn index_of(places: &[(u32, Place<'_>)], tag: u32) -> usize
    requires { IsNonDecreasingBy (λ place. place.0) places.now }
    ensures index { result ≤ length places.now }
    ensures below { AreBelow tag (take result places.now) }
    ensures rest { AreFrom tag (drop result places.now) }
{
    places.partition_point(|place| place.0 < tag)
}

/// The first place of a tag among places in the order of their tags.
fn first_of<'a>(places: &[(u32, Place<'a>)], tag: u32) -> Option<Place<'a>>
    requires { IsNonDecreasingBy (λ place. place.0) places.now }
    ensures { option_map seen_place result ≡ seen_by places.now tag }
{
    let (_, rest) = places.split_at(index_of(places, tag));
    match rest.split_first() {
        Some((first, _)) if first.0 == tag => Some(first.1),
        _ => None,
    }
}

/// Whether two nodes are equal, but for what is below them.
pub(crate) fn has_same_fields(was: &ShadowNode, node: &ShadowNode) -> bool
    ensures { result ≡ is_same_fields was.now.fields node.now.fields }
{
    was.tag() == node.tag()
        && was.kind() == node.kind()
        && have_same_rows(was.props(), node.props())
        && was.label().bytes() == node.label().bytes()
        && was.state() == node.state()
        && was.frame() == node.frame()
}

/// Whether the top nodes of two forests have the same tags, one by one.
fn have_same_tags(was: &Forest, now: &Forest) -> bool
    ensures { Decides result (top_tags was.now ≡ top_tags now.now) }
{
    let (olds, news) = (was.nodes(), now.nodes());
    if olds.len() != news.len() {
        return false;
    }
    for (at, old) in olds.iter().enumerate() {
        if old.tag() != news[at].tag() {
            return false;
        }
    }
    true
}

/// Whether a node of the old forest equals a node, where it is known whether each tree below that
/// one is the old tree of its tag.
fn is_equal(was: &ShadowNode, node: &ShadowNode, below: bool) -> bool
    ensures { (old : PlainForest SettledFields) → DoTreesStandIn old was.now.children → Decides below (DoTreesStandIn old node.now.children) → Decides result (was.now ≡ node.now) }
{
    below && have_same_tags(was.children(), node.children()) && has_same_fields(was, node)
}

/// A commit from one forest to another, with the places of the old one.
#[derive(Drop)]
struct Stamping<'a> {
    /// What contracts see.
    old: &'a Forest,
    /// What contracts see.
    new: &'a Forest,
    before: &'a Stamps,
    number: u64,
    places: Places<'a>,
}

impl<'a> Model for Stamping<'a> {
    ghost use Rattle.tree_revision.specs.Unchanged.{StampChange, coded_change, ArePlacesOf};

    ghost Value = { StampChange };

    ghost coded = { coded_change };

    ghost view = { λ s. record { old = s.old.now; new = s.new.now; before = s.before.now; number = s.number } };

    ghost invariant = { λ s. ArePlacesOf s.places.items s.old.now };
}

impl<'a> Stamping<'a> {
    fn new(
        alloc: Global,
        old: &'a Forest,
        new: &'a Forest,
        before: &'a Stamps,
        number: u64,
    ) -> Result<Stamping<'a>, AllocError>
        ensures { IfOk result (λ stamping. stamping ≡ record { old = old.now; new = new.now; before = before.now; number = number }) }
    {
        let mut places = Vec::new(alloc);
        add_all(&mut places, old, true)?;
        put_in_order(&mut places)?;
        Ok(Stamping {
            old,
            new,
            before,
            number,
            places,
        })
    }

    /// The first node of a tag in the old forest, and whether it is shown.
    fn find(&self, tag: u32) -> Option<Place<'a>>
        ensures { option_map seen_place result ≡ seen_below true tag self.now.old }
    {
        first_of(&self.places, tag)
    }

    /// The stamp that a tag had, or the number of the commit where it had none.
    fn stamp_before(&self, near: &mut Near, tag: u32) -> u64
        ensures { result ≡ unwrap_or (maps.get self.now.before tag) self.now.number }
    {
        match self.before.get_near(near, tag) {
            Some(stamp) => stamp,
            None => self.number,
        }
    }

    fn number(&self) -> u64
        ensures { result ≡ self.now.number }
    {
        self.number
    }

    /// Whether a node is the old one of its tag, with all below it, and its stamp after the commit;
    /// it is known whether each tree below it is the old one of its tag.
    fn stamped(&self, near: &mut Near, node: &ShadowNode, shown: bool, below: bool) -> (bool, u64)
        requires old { AreSeenIn self.now.old true self.now.old }
        requires before { HasTagsOf self.now.before self.now.old }
        requires below { Decides below (DoTreesStandIn self.now.old node.now.children) }
        requires new { seen_below true node.now.fields.fields.tag self.now.new ≡ Some (record { tree = node.now; shown = shown }) }
        ensures same { Decides result.0 (first_settled node.now.fields.fields.tag self.now.old ≡ Some node.now) }
        ensures stamp { IsStampIn self.now (node.now.fields.fields.tag, result.1) }
    {
        let tag = node.tag();
        let Some(was) = self.find(tag) else {
            return (false, self.number());
        };
        let same = is_equal(was.node, node, below);
        if same && was.shown == shown {
            (true, self.stamp_before(near, tag))
        } else {
            (same, self.number())
        }
    }

    /// Adds the stamps of a forest below ancestors that are all shown, or not, each after those
    /// below it. It answers whether each of its trees is the old one of its tag.
    fn stamp_all(
        &self,
        pairs: &mut Vec<(u32, u64)>,
        near: &mut Near,
        forest: &Forest,
        above: bool,
    ) -> Result<bool, AllocError>
        requires old { AreSeenIn self.now.old true self.now.old }
        requires before { HasTagsOf self.now.before self.now.old }
        requires new { AreSeenIn self.now.new above forest.now }
        ensures same { IfOk result (λ same. Decides same (DoTreesStandIn self.now.old forest.now)) }
        ensures tags { OnOk result (map (λ pair. pair.0) pairs.new.items ≡ map (λ pair. pair.0) pairs.old.items ++ tags_upward forest.now) }
        ensures stamps { OnOk result (AreStampsIn self.now pairs.old.items → AreStampsIn self.now pairs.new.items) }
    {
        let mut all_same = true;
        for node in forest.nodes() {
            let shown = is_shown_here(above, node);
            let below = self.stamp_all(pairs, near, node.children(), shown)?;
            let (same, stamp) = self.stamped(near, node, shown, below);
            pairs.push((node.tag(), stamp))?;
            all_same = all_same && same;
        }
        Ok(all_same)
    }
}

/// The stamps after a commit from one forest to another: a tag keeps its stamp where its node is
/// equal with all below it and is shown as before, and else has the commit's number.
///
/// The tags of each forest differ, and those of the old one have stamps.
pub(crate) fn stamps_after(
    alloc: Global,
    old: &Forest,
    new: &Forest,
    before: &Stamps,
    number: u64,
) -> Result<Stamps, AllocError>
    requires old { IsDistinct nat_eq (tags_of (contents_of old.now)) }
    requires new { IsDistinct nat_eq (tags_of (contents_of new.now)) }
    requires before { HasTagsOf before.now old.now }
    ensures { IfOk result (AreStampsAfter old.now new.now before.now number) }
{
    let stamping = Stamping::new(alloc, old, new, before, number)?;
    let mut pairs = Vec::new(alloc);
    let mut near = Near::start();
    stamping.stamp_all(&mut pairs, &mut near, new, true)?;
    Stamps::of(alloc, &pairs)
}
