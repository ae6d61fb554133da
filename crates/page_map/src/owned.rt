//! Changes in place: a page, or the list of them, is copied only where it has another owner.

ghost use Rattle.std.specs.Prelude.{◌≡◌, ◌+◌, ◌<◌, ◌≤◌, ◌^◌, length, get_or, take, drop, OnOk};
ghost use Rattle.page_map.specs.Pages.{ArePages, IsCopy, IsCut, IsPage, IsParted, IsPut, IsTable, SharedPage, joined};
ghost use Rattle.page_map.specs.Rising.{IsRising};

use crate::Share;
use crate::page::{Page, PageRef, share_pages, shared_entries};
use std::alloc::{AllocError, Global};
use std::sync::Arc;

/// Makes a list of pages one's own: it is copied where it has another owner.
fn own_list<V: Share>(alloc: Global, pages: &mut Arc<Vec<PageRef<V>>>) -> Result<(), AllocError>
    requires { ArePages pages.old.value.items }
    ensures { IsCopy pages.old.value.items pages.new.value.items }
{
    if Arc::strong_count(pages) != 1 {
        let mut own = Vec::with_capacity(alloc, pages.len())?;
        share_pages(&mut own, pages)?;
        *pages = Arc::new(alloc, own)?;
    }
    Ok(())
}

/// Makes a page one's own: it is copied where it has another owner.
fn own_page<V: Share>(alloc: Global, page: &mut PageRef<V>) -> Result<(), AllocError>
    requires { IsPage page.old.value }
    ensures { page.new.value ≡ page.old.value }
{
    if Arc::strong_count(page) != 1 {
        let own = shared_entries(alloc, page.entries())?;
        let mut count = 0;
        *page = Page::make(alloc, &mut count, own)?;
    }
    Ok(())
}

/// The place of the page that a tag belongs in.
pub(crate) fn page_place<V>(pages: &[PageRef<V>], tag: u32) -> usize
    requires pages { ArePages pages.now }
    requires rises { IsRising (joined pages.now) }
    requires some { 1 ≤ length pages.now }
    ensures place { result < length pages.now }
    ensures parted { (page : SharedPage V) → IsParted pages.now tag (take result pages.now) (get_or pages.now result page).value (drop (result + 1) pages.now) }
{
    pages
        .partition_point(|page| page.first_tag() <= tag)
        .saturating_sub(1)
}

/// Sets an entry in its page, or hands the value back where there is no room for it.
fn put_in_page<V: Share>(
    alloc: Global,
    page: &mut PageRef<V>,
    count: &mut usize,
    tag: u32,
    value: V,
) -> Result<Option<V>, AllocError>
    requires page { IsPage page.old.value }
    requires count { count.old ≤ 2 ^ 32 }
    ensures page { IsPage page.new.value }
    ensures put { IsPut page.old.value page.new.value tag value result }
    ensures counted { count.new + length page.old.value ≡ count.old + length page.new.value }
{
    own_page(alloc, page)?;
    match Arc::get_mut(page) {
        Some(page) => page.put(count, tag, value),
        None => Err(AllocError),
    }
}

/// Sets an entry in the page that it belongs in, or hands the value back where that has no room.
fn put_in_list<V: Share>(
    alloc: Global,
    pages: &mut Vec<PageRef<V>>,
    count: &mut usize,
    tag: u32,
    value: V,
) -> Result<Option<V>, AllocError>
    requires { IsTable pages.old.items count.old }
    ensures table { IsTable pages.new.items count.new }
    ensures put { IsPut (joined pages.old.items) (joined pages.new.items) tag value result }
{
    if pages.is_empty() {
        return Ok(Some(value));
    }
    let at = page_place(pages, tag);
    put_in_page(alloc, &mut pages[at], count, tag, value)
}

/// Sets an entry in place, or hands the value back where its page has no room.
pub(crate) fn put_in<V: Share>(
    alloc: Global,
    pages: &mut Arc<Vec<PageRef<V>>>,
    count: &mut usize,
    tag: u32,
    value: V,
) -> Result<Option<V>, AllocError>
    requires { IsTable pages.old.value.items count.old }
    ensures table { IsTable pages.new.value.items count.new }
    ensures put { IsPut (joined pages.old.value.items) (joined pages.new.value.items) tag value result }
{
    own_list(alloc, pages)?;
    match Arc::get_mut(pages) {
        Some(pages) => put_in_list(alloc, pages, count, tag, value),
        None => Err(AllocError),
    }
}

/// Takes an entry out of its page, where at least that many are left.
fn cut_in_page<V: Share>(
    alloc: Global,
    page: &mut PageRef<V>,
    count: &mut usize,
    tag: u32,
    least: usize,
) -> Result<bool, AllocError>
    requires page { IsPage page.old.value }
    requires least { 1 ≤ least }
    requires count { length page.old.value ≤ count.old }
    ensures page { IsPage page.new.value }
    ensures cut { IsCut page.old.value page.new.value tag result }
    ensures counted { count.new + length page.old.value ≡ count.old + length page.new.value }
    ensures enough { least ≤ length page.old.value → least ≤ length page.new.value }
{
    own_page(alloc, page)?;
    match Arc::get_mut(page) {
        Some(page) => Ok(page.cut(count, tag, least)),
        None => Err(AllocError),
    }
}

/// How many entries each page has to hold: 32 where there are two or more.
fn least_of<V>(pages: &[PageRef<V>]) -> usize
    ensures least { 1 ≤ result }
    ensures many { 2 ≤ length pages.now → result ≡ 32 }
{
    if pages.len() <= 1 { 1 } else { 32 }
}

/// Takes an entry out of the page that it belongs in, where that stays half full or is the only one.
fn cut_in_list<V: Share>(
    alloc: Global,
    pages: &mut Vec<PageRef<V>>,
    count: &mut usize,
    tag: u32,
) -> Result<bool, AllocError>
    requires { IsTable pages.old.items count.old }
    ensures table { IsTable pages.new.items count.new }
    ensures cut { IsCut (joined pages.old.items) (joined pages.new.items) tag result }
{
    if pages.is_empty() {
        return Ok(false);
    }
    let least = least_of(pages);
    let at = page_place(pages, tag);
    cut_in_page(alloc, &mut pages[at], count, tag, least)
}

/// Takes an entry out in place, where its page stays half full or is the only one.
pub(crate) fn cut_in<V: Share>(
    alloc: Global,
    pages: &mut Arc<Vec<PageRef<V>>>,
    count: &mut usize,
    tag: u32,
) -> Result<bool, AllocError>
    requires { IsTable pages.old.value.items count.old }
    ensures table { IsTable pages.new.value.items count.new }
    ensures cut { IsCut (joined pages.old.value.items) (joined pages.new.value.items) tag result }
{
    own_list(alloc, pages)?;
    match Arc::get_mut(pages) {
        Some(pages) => cut_in_list(alloc, pages, count, tag),
        None => Err(AllocError),
    }
}
