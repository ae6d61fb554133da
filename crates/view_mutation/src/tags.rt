//! Deletes, creates and updates: the places by their tags.

ghost use Rattle.std.specs.Prelude.{◌≡◌, ℕ, [], ◌∷◌, IfOk, OnOk, Option};
ghost use Rattle.std.specs.List.{All};
ghost use Rattle.std.specs.Option.{option_copied, option_map};
ghost use Rattle.host_views.specs.Same.{is_same_view};
ghost use Rattle.view_flatten.specs.Placed.{plain_place, plain_places};
ghost use Rattle.view_mutation.specs.Mutations.{is_other_view};
ghost use Rattle.view_mutation.specs.Lookups.{IsListed, creates_by, deletes_by, view_by, place_at, place_by, updates_by};
ghost use Rattle.view_mutation.specs.SameSkipped.{IsSameAsBefore, IsSameButOrigin};

use crate::pairs::{first_of, put_in_order};
use host_views::Mutation;
use shadow_kinds::have_same_rows;
use sqlite_items::Items;
use std::alloc::{AllocError, Global};
use std::marker::Model;
use view_flatten::Placed;

/// The tags of a list of places with where each stands, in the order of the tags; those of one tag
/// as they stand.
#[derive(Drop)]
pub struct Index {
    pairs: Vec<(u32, usize)>,
}

impl Model for Index {
    ghost use Rattle.std.specs.Prelude.{List, ℕ};
    ghost use Rattle.std.specs.Coded.{coded_list, coded_ℕ, coded×};
    ghost use Rattle.std.specs.List.Sorted.{IsNonDecreasingBy};

    ghost Value = { List (ℕ × ℕ) };

    ghost coded = { coded_list (coded× coded_ℕ coded_ℕ) };

    ghost view = { λ index. index.pairs.items };

    ghost invariant = { λ index. IsNonDecreasingBy (λ pair. pair.0) index.pairs.items };
}

/// Where the places of each tag stand.
pub fn index_of(alloc: Global, places: &[Placed<'_>]) -> Result<Index, AllocError>
    ensures { IfOk result (λ index. (tag : ℕ) → place_by index places.now tag ≡ place_at places.now tag) }
{
    let mut pairs = Vec::with_capacity(alloc, places.len())?;
    for (at, placed) in places.iter().enumerate() {
        pairs.push((placed.tag(), at))?;
    }
    put_in_order(&mut pairs)?;
    Ok(Index { pairs })
}

/// The first place of a tag, where it is known.
fn place_of<'p, 'a>(places: &'p [Placed<'a>], index: &Index, tag: u32) -> Option<&'p Placed<'a>>
    ensures { option_copied result ≡ place_by index.now places.now tag }
{
    let at = first_of(&index.pairs, tag)?;
    places.get(*at)
}

/// Adds a delete, where the tag is not known.
fn add_delete(
    list: &mut Items<Mutation>,
    placed: &Placed<'_>,
    known: &[Placed<'_>],
    index: &Index,
) -> Result<(), AllocError>
    ensures { OnOk result (IsListed list.old (deletes_by (view_by index.now known.now) (plain_place placed.now ∷ [])) list.new) }
{
    let tag = placed.tag();
    if place_of(known, index, tag).is_some() {
        return Ok(());
    }
    list.push(Mutation::Delete { tag })?;
    Ok(())
}

/// Adds a delete of each view whose tag is not known.
pub fn add_deletes(
    list: &mut Items<Mutation>,
    old: &[Placed<'_>],
    known: &[Placed<'_>],
    index: &Index,
) -> Result<(), AllocError>
    ensures { OnOk result (IsListed list.old (deletes_by (view_by index.now known.now) (plain_places old.now)) list.new) }
{
    for placed in old {
        add_delete(list, placed, known, index)?;
    }
    Ok(())
}

/// Adds a create, where the tag is not known.
fn add_create(
    alloc: Global,
    list: &mut Items<Mutation>,
    placed: &Placed<'_>,
    known: &[Placed<'_>],
    index: &Index,
) -> Result<(), AllocError>
    ensures { OnOk result (IsListed list.old (creates_by (view_by index.now known.now) (plain_place placed.now ∷ [])) list.new) }
{
    let tag = placed.tag();
    if place_of(known, index, tag).is_some() {
        return Ok(());
    }
    let view = placed.view(alloc)?;
    list.push(Mutation::Create { tag, view })?;
    Ok(())
}

/// Adds a create of each view whose tag is not known.
pub fn add_creates(
    alloc: Global,
    list: &mut Items<Mutation>,
    new: &[Placed<'_>],
    known: &[Placed<'_>],
    index: &Index,
) -> Result<(), AllocError>
    ensures { OnOk result (IsListed list.old (creates_by (view_by index.now known.now) (plain_places new.now)) list.new) }
{
    for placed in new {
        add_create(alloc, list, placed, known, index)?;
    }
    Ok(())
}

/// Whether the views at two places are equal in every part. Those of nodes that were not entered
/// differ at most in where they begin.
pub fn is_same(was: &Placed<'_>, is: &Placed<'_>) -> bool
    requires { IsSameButOrigin was.now is.now }
    ensures { result ≡ is_same_view (plain_place was.now).view (plain_place is.now).view }
{
    if was.is_skipped && is.is_skipped {
        return was.origin == is.origin;
    }
    was.spot.kind() == is.spot.kind()
        && have_same_rows(was.spot.props(), is.spot.props())
        && was.spot.label().bytes() == is.spot.label().bytes()
        && was.spot.state() == is.spot.state()
        && was.frame() == is.frame()
}

/// Whether a view differs from the one that its tag had.
fn is_other(was: Option<&Placed<'_>>, is: &Placed<'_>) -> bool
    requires { IsSameAsBefore (option_copied was) is.now }
    ensures { result ≡ is_other_view (option_map (λ placed. (plain_place placed).view) (option_copied was.entry)) (plain_place is.now).view }
{
    match was {
        Some(was) => !is_same(was, is),
        None => false,
    }
}

/// Adds an update, where the view differs from what is known at its tag.
fn add_update(
    alloc: Global,
    list: &mut Items<Mutation>,
    placed: &Placed<'_>,
    known: &[Placed<'_>],
    index: &Index,
) -> Result<(), AllocError>
    requires { IsSameAsBefore (place_by index.now known.now (plain_place placed.now).tag) placed.now }
    ensures { OnOk result (IsListed list.old (updates_by (view_by index.now known.now) (plain_place placed.now ∷ [])) list.new) }
{
    let tag = placed.tag();
    if !is_other(place_of(known, index, tag), placed) {
        return Ok(());
    }
    let view = placed.view(alloc)?;
    list.push(Mutation::Update { tag, view })?;
    Ok(())
}

/// Adds an update of each view that differs from what is known at its tag.
pub fn add_updates(
    alloc: Global,
    list: &mut Items<Mutation>,
    new: &[Placed<'_>],
    known: &[Placed<'_>],
    index: &Index,
) -> Result<(), AllocError>
    requires { All (λ placed. IsSameAsBefore (place_by index.now known.now (plain_place placed).tag) placed) new.now }
    ensures { OnOk result (IsListed list.old (updates_by (view_by index.now known.now) (plain_places new.now)) list.new) }
{
    for placed in new {
        add_update(alloc, list, placed, known, index)?;
    }
    Ok(())
}
