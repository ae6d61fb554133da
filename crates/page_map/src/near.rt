//! Lookups that begin where the last one ended.

ghost use Rattle.std.specs.Prelude.{◌≡◌, IfSome, Some};
ghost use Rattle.std.specs.Option.{option_copied};
ghost use Rattle.std.specs.FinMap.{find, get};
ghost use Rattle.std.specs.Ordering.{nat_cmp};
ghost use Rattle.page_map.specs.Pages.{ArePages, joined};
ghost use Rattle.page_map.specs.Rising.{IsRising};

use crate::PageMap;
use crate::page::{PageRef, parted, place_of};

/// A page, and an entry in it.
#[derive(Clone, Copy)]
struct Place {
    page: usize,
    at: usize,
}

impl Place {
    /// The place behind this one, in a page of that many entries.
    fn behind(self, entries: usize) -> Place {
        let at = self.at.saturating_add(1);
        if at < entries {
            Place {
                page: self.page,
                at,
            }
        } else {
            Place {
                page: self.page.saturating_add(1),
                at: 0,
            }
        }
    }
}

/// A search begins at so many places.
const PLACES: usize = 4;

/// Where a search begins: the places behind the entries that were found last, so that a walk over
/// nodes whose tags go in a few rows finds each at once.
///
/// It changes no answer, only how long a lookup takes.
#[derive(Clone, Copy)]
pub struct Near {
    places: [Place; PLACES],
    /// Which of the places is behind the entry that was found last.
    last: usize,
}

impl Near {
    /// The first entry.
    pub fn start() -> Near {
        Near {
            places: [Place { page: 0, at: 0 }; PLACES],
            last: 0,
        }
    }

    /// Puts a place in the stead of the one after the last.
    fn add(&mut self, place: Place) {
        self.last = self.last.wrapping_add(1) % PLACES;
        self.places[self.last] = place;
    }
}

/// The entry of a tag at a place, with the number of entries in its page.
fn entry_at<V>(pages: &[PageRef<V>], place: Place, tag: u32) -> Option<(&V, usize)>
    requires { IsRising (joined pages.now) }
    ensures { IfSome result (λ found. Some found.0.now ≡ find nat_cmp tag (joined pages.now)) }
{
    let entries = pages.get(place.page)?.entries();
    match entries.get(place.at) {
        Some(entry) if entry.0 == tag => Some((&entry.1, entries.len())),
        _ => None,
    }
}

/// The value of a tag, where it stands at one of the places.
fn value_at<'a, V>(pages: &'a [PageRef<V>], near: &mut Near, tag: u32) -> Option<&'a V>
    requires { IsRising (joined pages.now) }
    ensures { IfSome result (λ value. Some value.now ≡ find nat_cmp tag (joined pages.now)) }
{
    for step in 0..PLACES {
        let slot = near.last.wrapping_add(step) % PLACES;
        let place = near.places[slot];
        if let Some((value, entries)) = entry_at(pages, place, tag) {
            near.places[slot] = place.behind(entries);
            near.last = slot;
            return Some(value);
        }
    }
    None
}

/// The value of a tag, looked for among all pages.
fn value_sought<'a, V>(pages: &'a [PageRef<V>], near: &mut Near, tag: u32) -> Option<&'a V>
    requires pages { ArePages pages.now }
    requires rises { IsRising (joined pages.now) }
    ensures { option_copied result ≡ find nat_cmp tag (joined pages.now) }
{
    let (before, here, _) = parted(pages, tag);
    let at = place_of(here, tag);
    let (_, rest) = here.split_at(at);
    match rest.split_first() {
        Some((first, _)) if first.0 == tag => {
            let page = before.len();
            near.add(Place { page, at }.behind(here.len()));
            Some(&first.1)
        }
        _ => None,
    }
}

impl<V> PageMap<V> {
    /// The value of a tag, where there is one, looked for first at a few places. It takes no memory.
    ///
    /// Where the entry at one of them has the tag, it takes constant time; else time in log n, as
    /// `get`.
    pub fn get_near(&self, near: &mut Near, tag: u32) -> Option<&V>
        ensures { option_copied result ≡ get self.now tag }
    {
        let pages = self.list();
        match value_at(pages, near, tag) {
            Some(value) => Some(value),
            None => value_sought(pages, near, tag),
        }
    }
}
