//! Pages of entries.

ghost use Rattle.std.specs.Prelude.{◌≡◌, ℕ, ◌+◌, ◌*◌, ◌<◌, ◌≤◌, ◌^◌, ◌++◌, ◌∷◌, List, length, get_or, take, drop, IsTrue, ◌↔◌, IfOk, OnOk, OnErr};
ghost use Rattle.std.specs.Option.{option_copied};
ghost use Rattle.std.specs.FinMap.{find, put};
ghost use Rattle.std.specs.Ordering.{nat_cmp};
ghost use Rattle.counts.specs.Raised.{raised};
ghost use Rattle.page_map.specs.Pages.{AreFew, AreHalfFull, ArePages, IsCutWhere, IsPage, IsParted, IsPut, RisesWithin, Reaches, all_put, cut, first_tag, joined};
ghost use Rattle.page_map.specs.Rising.{AreAbove, AreBelow, AreFrom, Each, IsRising};

use crate::Share;
use std::alloc::{AllocError, Global};
use std::marker::Model;
use std::sync::Arc;

/// 1 to 64 entries in the order of their tags.
#[derive(Drop)]
pub(crate) struct Page<V> {
    pub(crate) entries: Vec<(u32, V)>,
}

/// A shared page.
pub(crate) type PageRef<V> = Arc<Page<V>>;

impl<V> Model for Page<V> {
    ghost use Rattle.std.specs.Prelude.{ℕ, List};

    ghost Value = { List (ℕ × V) };

    ghost use Rattle.page_map.specs.Pages.{IsPage};

    ghost view = { λ page. page.entries.items };

    ghost invariant = { λ page. IsPage page.entries.items };
}

impl<V> Page<V> {
    /// The entries in the order of their tags.
    pub(crate) fn entries(&self) -> &[(u32, V)]
        ensures entries { result.now ≡ self.now }
        ensures page { IsPage self.now }
    {
        &self.entries
    }

    /// The lowest tag.
    pub(crate) fn first_tag(&self) -> u32
        ensures { result ≡ first_tag self.now }
    {
        self.entries[0].0
    }
}

impl<V: Share> Page<V> {
    /// Sets an entry, and counts it where its tag had none; or hands the value back where there is
    /// no room for it.
    pub(crate) fn put(
        &mut self,
        count: &mut usize,
        tag: u32,
        value: V,
    ) -> Result<Option<V>, AllocError>
        requires { count.old ≤ 2 ^ 32 }
        ensures page { IsPage self.new }
        ensures put { IsPut self.old self.new tag value result }
        ensures counted { count.new + length self.old ≡ count.old + length self.new }
    {
        put_entry(&mut self.entries, count, tag, value)
    }

    /// Takes an entry out, and counts it, where at least that many are left.
    pub(crate) fn cut(&mut self, count: &mut usize, tag: u32, least: usize) -> bool
        requires least { 1 ≤ least }
        requires count { length self.old ≤ count.old }
        ensures page { IsPage self.new }
        ensures cut { IsCutWhere self.old self.new tag result }
        ensures counted { count.new + length self.old ≡ count.old + length self.new }
        ensures enough { least ≤ length self.old → least ≤ length self.new }
    {
        cut_entry(&mut self.entries, count, tag, least)
    }

    /// Makes a page, and counts its entries. There is no other way to a page.
    pub(crate) fn make(
        alloc: Global,
        count: &mut usize,
        entries: Vec<(u32, V)>,
    ) -> Result<PageRef<V>, AllocError>
        requires { IsPage entries.items }
        ensures page { IfOk result (λ page. page.value ≡ entries.items) }
        ensures count { OnOk result (count.new ≡ raised count.old (length entries.items)) }
        ensures refused { OnErr result (count.new ≡ count.old) }
    {
        let by = entries.len();
        let page = Arc::new(alloc, Page { entries })?;
        *count = count.saturating_add(by);
        Ok(page)
    }
}

/// How many of the entries have tags below this one.
pub(crate) fn place_of<V>(entries: &[(u32, V)], tag: u32) -> usize
    requires { IsRising entries.now }
    ensures place { result ≤ length entries.now }
    ensures below { AreBelow tag (take result entries.now) }
    ensures rest { AreFrom tag (drop result entries.now) }
{
    entries.partition_point(|entry| entry.0 < tag)
}

/// Sets an entry among those of a page, and counts it where its tag had none; or hands the value
/// back where there is no room for it.
fn put_entry<V: Share>(
    entries: &mut Vec<(u32, V)>,
    count: &mut usize,
    tag: u32,
    value: V,
) -> Result<Option<V>, AllocError>
    requires page { IsPage entries.old.items }
    requires count { count.old ≤ 2 ^ 32 }
    ensures page { IsPage entries.new.items }
    ensures put { IsPut entries.old.items entries.new.items tag value result }
    ensures counted { count.new + length entries.old.items ≡ count.old + length entries.new.items }
{
    let at = place_of(entries, tag);
    if has_tag(entries, at, tag) {
        entries[at].1 = value;
        return Ok(None);
    }
    if entries.len() == 64 {
        return Ok(Some(value));
    }
    entries.insert(at, (tag, value))?;
    *count += 1;
    Ok(None)
}

/// Takes an entry out of those of a page, and counts it, where at least that many are left.
fn cut_entry<V: Share>(
    entries: &mut Vec<(u32, V)>,
    count: &mut usize,
    tag: u32,
    least: usize,
) -> bool
    requires page { IsPage entries.old.items }
    requires least { 1 ≤ least }
    requires count { length entries.old.items ≤ count.old }
    ensures page { IsPage entries.new.items }
    ensures cut { IsCutWhere entries.old.items entries.new.items tag result }
    ensures counted { count.new + length entries.old.items ≡ count.old + length entries.new.items }
    ensures enough { least ≤ length entries.old.items → least ≤ length entries.new.items }
{
    let at = place_of(entries, tag);
    if entries.len() <= least {
        return false;
    }
    if has_tag(entries, at, tag) {
        entries.remove(at);
        *count -= 1;
        return true;
    }
    false
}

/// Whether the entry at that place has the tag.
pub(crate) fn has_tag<V>(entries: &[(u32, V)], at: usize, tag: u32) -> bool
    requires { at ≤ length entries.now }
    ensures { IsTrue result ↔ ((at < length entries.now) × ((entry : ℕ × V) → (get_or entries.now at entry).0 ≡ tag)) }
{
    match entries.get(at) {
        Some(entry) => entry.0 == tag,
        None => false,
    }
}

/// The value of a tag.
pub(crate) fn value_of<V>(entries: &[(u32, V)], tag: u32) -> Option<&V>
    requires { IsRising entries.now }
    ensures { option_copied result ≡ find nat_cmp tag entries.now }
{
    let (_, rest) = entries.split_at(place_of(entries, tag));
    match rest.split_first() {
        Some((first, _)) if first.0 == tag => Some(&first.1),
        _ => None,
    }
}

/// Shares each of the entries, after those that are there.
pub(crate) fn share_entries<V: Share>(
    all: &mut Vec<(u32, V)>,
    entries: &[(u32, V)],
) -> Result<(), AllocError>
    ensures { OnOk result (all.new.items ≡ all.old.items ++ entries.now) }
{
    for entry in entries {
        all.push((entry.0, entry.1.share()?))?;
    }
    Ok(())
}

/// These entries with a list of others in their places, both in the order of their tags.
///
/// An entry that had the tag of one of the list is left out.
fn merged<V: Share>(
    alloc: Global,
    entries: &[(u32, V)],
    new: &[(u32, V)],
) -> Result<Vec<(u32, V)>, AllocError>
    requires entries { IsRising entries.now }
    requires new { IsRising new.now }
    ensures put { IfOk result (λ all. all.items ≡ all_put entries.now new.now) }
    ensures at_least { IfOk result (λ all. length new.now ≤ length all.items) }
    ensures at_most { IfOk result (λ all. length all.items ≤ length entries.now + length new.now) }
    ensures in_range { OnOk result (AreBelow (2 ^ 32) new.now) }
{
    let mut all = Vec::new(alloc);
    let mut rest = entries;
    for entry in new {
        let tag = entry.0;
        let (below, from) = rest.split_at(place_of(rest, tag));
        share_entries(&mut all, below)?;
        all.push((tag, entry.1.share()?))?;
        rest = without(from, tag);
    }
    share_entries(&mut all, rest)?;
    Ok(all)
}

/// The entries without the first one, where that has the tag.
pub(crate) fn without<V>(entries: &[(u32, V)], tag: u32) -> &[(u32, V)]
    requires rises { IsRising entries.now }
    requires from { AreFrom tag entries.now }
    ensures put { (value : V) → put nat_cmp tag value entries.now ≡ (tag, value) ∷ result.now }
    ensures cut { result.now ≡ cut tag entries.now }
    ensures short { length result.now ≤ length entries.now }
{
    match entries.split_first() {
        Some((first, rest)) if first.0 == tag => rest,
        _ => entries,
    }
}

/// Pages parted at a tag: those below it, the entries of the page that it belongs in, and
/// those above it.
pub(crate) fn parted<V>(
    pages: &[PageRef<V>],
    tag: u32,
) -> (&[PageRef<V>], &[(u32, V)], &[PageRef<V>])
    requires pages { ArePages pages.now }
    requires rises { IsRising (joined pages.now) }
    ensures { IsParted pages.now tag result.0.now result.1.now result.2.now }
{
    let (reaching, above) = pages.split_at(pages.partition_point(|page| page.first_tag() <= tag));
    match reaching.split_last() {
        Some((page, below)) => (below, page.entries(), above),
        None => match above.split_first() {
            Some((page, above)) => (&[], page.entries(), above),
            None => (&[], &[], &[]),
        },
    }
}

/// How many of the entries have tags below all pages.
fn count_below<V>(new: &[(u32, V)], pages: &[PageRef<V>]) -> usize
    requires new { IsRising new.now }
    requires pages { ArePages pages.now }
    requires rises { IsRising (joined pages.now) }
    ensures place { result ≤ length new.now }
    ensures below { Each (λ entry. AreAbove entry.0 (joined pages.now)) (take result new.now) }
    ensures rest { Each (λ entry. Reaches pages.now entry.0) (drop result new.now) }
{
    match pages.split_first() {
        Some((page, _)) => place_of(new, page.first_tag()),
        None => new.len(),
    }
}

/// How many entries the pages hold.
pub(crate) fn count_of<V>(pages: &[PageRef<V>]) -> usize
    requires rises { IsRising (joined pages.now) }
    requires in_range { AreBelow (2 ^ 32) (joined pages.now) }
    ensures { result ≡ length (joined pages.now) }
{
    let mut count = 0;
    for page in pages {
        count += page.entries().len();
    }
    count
}

/// Shares each of the pages, after those that are there.
pub(crate) fn share_pages<V: Share>(
    all: &mut Vec<PageRef<V>>,
    pages: &[PageRef<V>],
) -> Result<(), AllocError>
    requires all { ArePages all.old.items }
    requires pages { ArePages pages.now }
    ensures joined { OnOk result (joined all.new.items ≡ joined all.old.items ++ joined pages.now) }
    ensures pages { OnOk result (ArePages all.new.items) }
    ensures count { OnOk result (length all.new.items ≡ length all.old.items + length pages.now) }
    ensures half_full { OnOk result (AreHalfFull all.old.items → AreHalfFull pages.now → AreHalfFull all.new.items) }
{
    for page in pages {
        all.push(Arc::try_clone(page)?)?;
    }
    Ok(())
}

/// Makes one more page, after those that are there.
fn push_page<V: Share>(
    alloc: Global,
    count: &mut usize,
    pages: &mut Vec<PageRef<V>>,
    entries: Vec<(u32, V)>,
) -> Result<(), AllocError>
    requires pages { ArePages pages.old.items }
    requires page { IsPage entries.items }
    ensures joined { OnOk result (joined pages.new.items ≡ joined pages.old.items ++ entries.items) }
    ensures pages { OnOk result (ArePages pages.new.items) }
    ensures count { OnOk result (length pages.new.items ≡ length pages.old.items + 1) }
    ensures half_full { OnOk result (32 ≤ length entries.items → AreHalfFull pages.old.items → AreHalfFull pages.new.items) }
    ensures counted { OnOk result (count.new ≡ raised count.old (length entries.items)) }
    ensures within { RisesWithin count.old count.new (length entries.items) }
{
    pages.push(Page::make(alloc, count, entries)?)?;
    Ok(())
}

/// Makes one page of the entries where they are at most 64, and else pages of 32 and a last one
/// that takes the last 64 or fewer.
pub(crate) fn push_parted<V: Share>(
    alloc: Global,
    count: &mut usize,
    pages: &mut Vec<PageRef<V>>,
    entries: Vec<(u32, V)>,
) -> Result<(), AllocError>
    requires pages { ArePages pages.old.items }
    requires rises { IsRising entries.items }
    requires some { 1 ≤ length entries.items }
    ensures joined { OnOk result (joined pages.new.items ≡ joined pages.old.items ++ entries.items) }
    ensures pages { OnOk result (ArePages pages.new.items) }
    ensures one { OnOk result (length entries.items ≤ 64 → length pages.new.items ≡ length pages.old.items + 1) }
    ensures half_full { OnOk result (32 ≤ length entries.items → AreHalfFull pages.old.items → AreHalfFull pages.new.items) }
    ensures counted { OnOk result (count.new ≡ raised count.old (length entries.items)) }
    ensures within { RisesWithin count.old count.new (length entries.items) }
{
    if entries.len() <= 64 {
        push_page(alloc, count, pages, entries)
    } else {
        push_shared(alloc, count, pages, &entries)
    }
}

/// Makes pages of copies of the entries: 32 in each but the last, which takes the last 64 or fewer.
fn push_shared<V: Share>(
    alloc: Global,
    count: &mut usize,
    pages: &mut Vec<PageRef<V>>,
    entries: &[(u32, V)],
) -> Result<(), AllocError>
    requires pages { ArePages pages.old.items }
    requires rises { IsRising entries.now }
    requires many { 32 ≤ length entries.now }
    ensures joined { OnOk result (joined pages.new.items ≡ joined pages.old.items ++ entries.now) }
    ensures pages { OnOk result (ArePages pages.new.items) }
    ensures half_full { OnOk result (AreHalfFull pages.old.items → AreHalfFull pages.new.items) }
    ensures counted { OnOk result (count.new ≡ raised count.old (length entries.now)) }
    ensures within { RisesWithin count.old count.new (length entries.now) }
{
    let mut rest = entries;
    while rest.len() > 64 {
        let (page, above) = rest.split_at(32);
        push_page(alloc, count, pages, shared_entries(alloc, page)?)?;
        rest = above;
    }
    push_page(alloc, count, pages, shared_entries(alloc, rest)?)
}

/// Copies of the entries.
pub(crate) fn shared_entries<V: Share>(
    alloc: Global,
    entries: &[(u32, V)],
) -> Result<Vec<(u32, V)>, AllocError>
    ensures { IfOk result (λ copies. copies.items ≡ entries.now) }
{
    let mut copies = Vec::with_capacity(alloc, entries.len())?;
    share_entries(&mut copies, entries)?;
    Ok(copies)
}

/// Pages with each entry of a list in its place, both in the order of their tags.
///
/// Each page that one of them belongs in is made anew once, and all others are shared.
pub(crate) fn pages_with<V: Share>(
    alloc: Global,
    count: &mut usize,
    kept: &[PageRef<V>],
    new: &[(u32, V)],
) -> Result<Vec<PageRef<V>>, AllocError>
    requires pages { ArePages kept.now }
    requires few { AreFew kept.now }
    requires rises { IsRising (joined kept.now) }
    requires in_range { AreBelow (2 ^ 32) (joined kept.now) }
    requires new { IsRising new.now }
    ensures joined { IfOk result (λ pages. joined pages.items ≡ all_put (joined kept.now) new.now) }
    ensures pages { IfOk result (λ pages. ArePages pages.items) }
    ensures few { IfOk result (λ pages. AreFew pages.items) }
    ensures in_range { IfOk result (λ pages. AreBelow (2 ^ 32) (joined pages.items)) }
    ensures counted { OnOk result (raised count.old (length new.now) ≤ count.new) }
    ensures within { RisesWithin count.old count.new (65 * length new.now) }
{
    let mut pages = Vec::new(alloc);
    let mut left = kept;
    let mut rest = new;
    while let Some((first, _)) = rest.split_first() {
        let (below, here, above) = parted(left, first.0);
        let (mine, later) = rest.split_at(count_below(rest, above));
        let entries = merged(alloc, here, mine)?;
        share_pages(&mut pages, below)?;
        push_parted(alloc, count, &mut pages, entries)?;
        left = above;
        rest = later;
    }
    share_pages(&mut pages, left)?;
    Ok(pages)
}
