//! A value that is lent for writing.

ghost use Rattle.std.specs.Prelude.{◌≡◌, ◌<◌, ℕ, length, get_or, take, IfSome, Some};
ghost use Rattle.std.specs.Borrow.{sem};
ghost use Rattle.std.specs.FinMap.{find, get};
ghost use Rattle.std.specs.Ordering.{nat_cmp};
ghost use Rattle.page_map.specs.Lent.{lends_get, lends_value};
ghost use Rattle.page_map.specs.Rising.{AreBelow};

use crate::PageMap;
use crate::owned::page_place;
use crate::page::{Page, has_tag, place_of};
use std::sync::Arc;

impl<V> Page<V> {
    /// The value of a tag at its place, for writing.
    fn value_mut(&mut self, at: usize, tag: u32) -> &mut V
        requires place { at < length self.old }
        requires below { AreBelow tag (take at self.old) }
        requires there { (entry : ℕ × V) → (get_or self.old at entry).0 ≡ tag }
        ensures* writes_back { sem 𝓛 (lends_value V.row self.entry tag result) }
        ensures value { Some result.now ≡ find nat_cmp tag self.old }
    {
        let entry = &mut self.entries[at];
        &mut entry.1
    }
}

impl<V> PageMap<V> {
    /// The value of a tag, for writing in place. It takes no memory.
    ///
    /// None comes where the tag has no entry, or where its page or the list of pages has another
    /// owner. After `own` these have none, unless the map was shared since.
    pub fn get_mut(&mut self, tag: u32) -> Option<&mut V>
        ensures* writes_back { sem 𝓛 (lends_get V.row self.entry tag result) }
        ensures value { IfSome result (λ value. Some value.now ≡ get self.old tag) }
    {
        match &mut self.pages {
            Some(pages) => match Arc::get_mut(pages) {
                Some(pages) => {
                    if pages.is_empty() {
                        return None;
                    }
                    let at = page_place(pages, tag);
                    let page = &mut pages[at];
                    match Arc::get_mut(page) {
                        Some(page) => {
                            let place = place_of(page.entries(), tag);
                            if has_tag(page.entries(), place, tag) {
                                Some(page.value_mut(place, tag))
                            } else {
                                None
                            }
                        }
                        None => None,
                    }
                }
                None => None,
            },
            None => None,
        }
    }
}
