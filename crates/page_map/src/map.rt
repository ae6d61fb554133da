//! A finite map in shared pages.

ghost use Rattle.std.specs.Prelude.{◌≡◌, ◌+◌, ◌*◌, ◌≤◌, ◌==◌, ◌^◌, length, IfOk, OnOk, OnErr};
ghost use Rattle.std.specs.Option.{option_copied};
ghost use Rattle.std.specs.FinMap as map;
ghost use Rattle.page_map.specs.Entries.{IsCutFrom, IsPutIn, TagsDiffer, all_added};
ghost use Rattle.page_map.specs.Pages.{AreFew, ArePages, IsTableOf, joined};
ghost use Rattle.page_map.specs.Rising.{AreBelow, IsRising};

use crate::Share;
use crate::owned::{cut_in, put_in};
use crate::page::{PageRef, count_of, pages_with, parted, value_of};
use crate::thin::pages_without;
use std::alloc::{AllocError, Global};
use std::marker::Model;
use std::sync::Arc;

/// A finite map from tag to value.
///
/// It is a shared list of shared pages, so a change copies one page and the list.
#[derive(Drop)]
pub struct PageMap<V> {
    pub(crate) pages: Option<Arc<Vec<PageRef<V>>>>,
    count: usize,
}

impl<V> Model for PageMap<V> {
    ghost use Rattle.std.specs.Ordering.{nat_cmp};
    ghost use Rattle.std.specs.FinMap as map;
    ghost use Rattle.std.specs.Coded.{coded_ℕ};

    ghost Value = { map.FinMap nat_cmp V };

    ghost coded = { map.code coded_ℕ V.code };

    ghost use Rattle.page_map.specs.Pages.{IsTable, joined, listed};

    ghost view = { λ table. map.from_sorted (joined (listed table.pages)) };

    ghost invariant = { λ table. IsTable (listed table.pages) table.count };
}

impl<V> PageMap<V> {
    /// No entry. It takes no memory.
    pub fn empty() -> PageMap<V>
        ensures { result ≡ map.empty }
    {
        PageMap {
            pages: None,
            count: 0,
        }
    }

    /// The value of a tag, where there is one. It takes no memory.
    pub fn get(&self, tag: u32) -> Option<&V>
        ensures { option_copied result ≡ map.get self.now tag }
    {
        let (_, here, _) = parted(self.list(), tag);
        value_of(here, tag)
    }

    /// How many entries there are. It takes no memory.
    pub fn len(&self) -> usize
        ensures len { result ≡ map.len self.now }
        ensures few { result ≤ 2 ^ 32 }
    {
        self.count
    }

    /// Whether there is no entry. It takes no memory.
    pub fn is_empty(&self) -> bool
        ensures { result ≡ (map.len self.now == 0) }
    {
        self.len() == 0
    }

    /// How many pages there are, of which each of two or more holds 32 to 64 entries: at most 128
    /// for 4,096 entries. It takes no memory.
    pub fn pages(&self) -> usize
        ensures { 32 * result ≤ map.len self.now + 31 }
    {
        self.list().len()
    }

    /// The pages, in the order of their tags.
    pub(crate) fn list(&self) -> &[PageRef<V>]
        ensures { IsTableOf self.now result.now }
    {
        match &self.pages {
            Some(pages) => pages,
            None => &[],
        }
    }
}

impl<V: Share> PageMap<V> {
    /// The same map, shared: one count of owners rises.
    pub fn share(&self) -> Result<PageMap<V>, AllocError>
        ensures { IfOk result (λ same. same ≡ self.now) }
    {
        let pages = match &self.pages {
            Some(pages) => Some(Arc::try_clone(pages)?),
            None => None,
        };
        Ok(PageMap {
            pages,
            count: self.count,
        })
    }

    /// The map of a list of entries whose tags differ.
    pub fn of(alloc: Global, list: Vec<(u32, V)>) -> Result<PageMap<V>, AllocError>
        requires { TagsDiffer list.items }
        ensures { IfOk result (λ made. made ≡ all_added map.empty list.items) }
    {
        let mut list = list;
        list.sort_by_key(|entry| entry.0)?;
        let (made, _) = PageMap::empty().with_all(alloc, list)?;
        Ok(made)
    }

    /// The map with each entry of a list set, and how many entries were put into new pages.
    ///
    /// The list is in the order of its tags. Each page that one of them belongs in is made anew
    /// once, and all others are shared: at most 65 entries for each of the list are put into new
    /// pages.
    pub fn with_all(
        &self,
        alloc: Global,
        new: Vec<(u32, V)>,
    ) -> Result<(PageMap<V>, usize), AllocError>
        requires { IsRising new.items }
        ensures map { IfOk result (λ made. made.0 ≡ all_added self.now new.items) }
        ensures at_least { IfOk result (λ made. length new.items ≤ made.1) }
        ensures at_most { IfOk result (λ made. made.1 ≤ 65 * length new.items) }
    {
        let mut count = 0;
        let pages = pages_with(alloc, &mut count, self.list(), &new)?;
        Ok((PageMap::of_pages(alloc, pages)?, count))
    }

    /// Sets an entry in place. Only a page that has another owner is copied, and a full one is parted
    /// in two.
    ///
    /// For want of memory the map is as before.
    pub fn insert(&mut self, alloc: Global, tag: u32, value: V) -> Result<(), AllocError>
        ensures map { OnOk result (self.new ≡ map.insert self.old tag value) }
        ensures refused { OnErr result (self.new ≡ self.old) }
    {
        if let Some(value) = self.put(alloc, tag, value)? {
            let mut one = Vec::with_capacity(alloc, 1)?;
            one.push((tag, value))?;
            let (made, _) = self.with_all(alloc, one)?;
            *self = made;
        }
        Ok(())
    }

    /// Gives the page of a tag, and the list of pages, no other owner, so that `get_mut` may lend the
    /// tag's value: each of them is copied where it has one.
    pub fn own(&mut self, alloc: Global, tag: u32) -> Result<(), AllocError>
        ensures { self.new ≡ self.old }
    {
        let value = match self.get(tag) {
            Some(value) => value.share()?,
            None => return Ok(()),
        };
        self.insert(alloc, tag, value)?;
        Ok(())
    }

    /// Sets an entry where its page has room for it, and else hands the value back.
    fn put(&mut self, alloc: Global, tag: u32, value: V) -> Result<Option<V>, AllocError>
        ensures { IsPutIn self.old self.new tag value result }
    {
        match &mut self.pages {
            Some(pages) => put_in(alloc, pages, &mut self.count, tag, value),
            None => Ok(Some(value)),
        }
    }

    /// Takes an entry out in place, and answers its value. Only a page that has another owner is
    /// copied, and one that would be less than half full is joined with a neighbour.
    ///
    /// For want of memory the map is as before.
    pub fn remove(&mut self, alloc: Global, tag: u32) -> Result<Option<V>, AllocError>
        ensures value { IfOk result (λ taken. taken ≡ map.get self.old tag) }
        ensures map { OnOk result (self.new ≡ map.remove self.old tag) }
        ensures refused { OnErr result (self.new ≡ self.old) }
    {
        let value = match self.get(tag) {
            Some(value) => value.share()?,
            None => return Ok(None),
        };
        if !self.cut(alloc, tag)? {
            let rest = self.without(alloc, tag)?;
            *self = rest;
        }
        Ok(Some(value))
    }

    /// Takes an entry out where its page stays half full or is the only one.
    fn cut(&mut self, alloc: Global, tag: u32) -> Result<bool, AllocError>
        ensures { IsCutFrom self.old self.new tag result }
    {
        match &mut self.pages {
            Some(pages) => cut_in(alloc, pages, &mut self.count, tag),
            None => Ok(false),
        }
    }

    /// The map without the entry of that tag: its page is joined with a neighbour, and all others
    /// are shared.
    fn without(&self, alloc: Global, tag: u32) -> Result<PageMap<V>, AllocError>
        ensures { IfOk result (λ rest. rest ≡ map.remove self.now tag) }
    {
        let pages = pages_without(alloc, self.list(), tag)?;
        PageMap::of_pages(alloc, pages)
    }

    /// The map of these pages.
    fn of_pages(alloc: Global, pages: Vec<PageRef<V>>) -> Result<PageMap<V>, AllocError>
        requires pages { ArePages pages.items }
        requires few { AreFew pages.items }
        requires rises { IsRising (joined pages.items) }
        requires in_range { AreBelow (2 ^ 32) (joined pages.items) }
        ensures { IfOk result (λ made. made ≡ map.from_sorted (joined pages.items)) }
    {
        let count = count_of(&pages);
        Ok(PageMap {
            pages: Some(Arc::new(alloc, pages)?),
            count,
        })
    }
}
