//! An entry taken out of a page that would be less than half full.

ghost use Rattle.std.specs.Prelude.{◌≡◌, ◌+◌, ◌<◌, ◌≤◌, ◌++◌, length, IfOk, OnOk};
ghost use Rattle.page_map.specs.Pages.{AreFew, AreHalfFull, ArePages, IsAround, cut, joined};
ghost use Rattle.page_map.specs.Rising.{IsRising};

use crate::Share;
use crate::page::{PageRef, parted, place_of, push_parted, share_entries, share_pages, without};
use std::alloc::{AllocError, Global};

/// Pages parted round the one that a tag belongs in: those before, the entries of a neighbour
/// before it, its own, those of a neighbour behind it, and the pages behind. It has at most one
/// neighbour, and none only where it is alone.
fn around<V>(
    pages: &[PageRef<V>],
    tag: u32,
) -> (
    &[PageRef<V>],
    &[(u32, V)],
    &[(u32, V)],
    &[(u32, V)],
    &[PageRef<V>],
)
    requires pages { ArePages pages.now }
    requires few { AreFew pages.now }
    requires rises { IsRising (joined pages.now) }
    ensures { IsAround pages.now tag result.0.now result.1.now result.2.now result.3.now result.4.now }
{
    let (before, here, after) = parted(pages, tag);
    match before.split_last() {
        Some((page, before)) => (before, page.entries(), here, &[], after),
        None => match after.split_first() {
            Some((page, after)) => (before, &[], here, page.entries(), after),
            None => (before, &[], here, &[], after),
        },
    }
}

/// The entries of a page without the one of that tag, between those of its neighbours.
fn gathered<V: Share>(
    alloc: Global,
    low: &[(u32, V)],
    here: &[(u32, V)],
    high: &[(u32, V)],
    tag: u32,
) -> Result<Vec<(u32, V)>, AllocError>
    requires { IsRising here.now }
    ensures { IfOk result (λ all. all.items ≡ low.now ++ (cut tag here.now ++ high.now)) }
{
    let mut all = Vec::new(alloc);
    share_entries(&mut all, low)?;
    share_cut(&mut all, here, tag)?;
    share_entries(&mut all, high)?;
    Ok(all)
}

/// Shares each of the entries but the one of that tag, after those that are there.
fn share_cut<V: Share>(
    all: &mut Vec<(u32, V)>,
    entries: &[(u32, V)],
    tag: u32,
) -> Result<(), AllocError>
    requires { IsRising entries.now }
    ensures { OnOk result (all.new.items ≡ all.old.items ++ cut tag entries.now) }
{
    let (below, from) = entries.split_at(place_of(entries, tag));
    share_entries(all, below)?;
    share_entries(all, without(from, tag))?;
    Ok(())
}

/// Makes pages of the entries, where there are any.
fn push_any<V: Share>(
    alloc: Global,
    pages: &mut Vec<PageRef<V>>,
    entries: Vec<(u32, V)>,
) -> Result<(), AllocError>
    requires pages { ArePages pages.old.items }
    requires rises { IsRising entries.items }
    ensures joined { OnOk result (joined pages.new.items ≡ joined pages.old.items ++ entries.items) }
    ensures pages { OnOk result (ArePages pages.new.items) }
    ensures one { OnOk result (length entries.items ≤ 64 → length pages.new.items ≤ length pages.old.items + 1) }
    ensures half_full { OnOk result (32 ≤ length entries.items → AreHalfFull pages.old.items → AreHalfFull pages.new.items) }
{
    if entries.is_empty() {
        return Ok(());
    }
    let mut count = 0;
    push_parted(alloc, &mut count, pages, entries)
}

/// Pages without the entry of that tag: its page is joined with a neighbour, and all others are
/// shared.
pub(crate) fn pages_without<V: Share>(
    alloc: Global,
    pages: &[PageRef<V>],
    tag: u32,
) -> Result<Vec<PageRef<V>>, AllocError>
    requires pages { ArePages pages.now }
    requires few { AreFew pages.now }
    requires rises { IsRising (joined pages.now) }
    ensures joined { IfOk result (λ all. joined all.items ≡ cut tag (joined pages.now)) }
    ensures pages { IfOk result (λ all. ArePages all.items) }
    ensures few { IfOk result (λ all. AreFew all.items) }
{
    let (before, low, here, high, after) = around(pages, tag);
    let entries = gathered(alloc, low, here, high, tag)?;
    let mut all = Vec::new(alloc);
    share_pages(&mut all, before)?;
    push_any(alloc, &mut all, entries)?;
    share_pages(&mut all, after)?;
    Ok(all)
}
