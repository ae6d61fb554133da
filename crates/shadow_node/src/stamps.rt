//! A number for each tag.

ghost use Rattle.std.specs.Prelude.{◌≡◌, IfOk};
ghost use Rattle.std.specs.FinMap as map;
ghost use Rattle.shadow_node.specs.Stamps.{DoTagsDiffer, all_stamped};

use page_map::{Near, PageMap};
use std::alloc::{AllocError, Global};
use std::marker::Model;

/// A finite map from tag to a number, in shared pages.
#[derive(Drop)]
pub struct Stamps {
    numbers: PageMap<u64>,
}

impl Model for Stamps {
    ghost use Rattle.std.specs.FinMap as map;
    ghost use Rattle.std.specs.Coded.{coded_ℕ};
    ghost use Rattle.shadow_node.specs.Stamps.{StampMap};

    ghost Value = { StampMap };

    ghost coded = { map.code coded_ℕ coded_ℕ };

    ghost view = { λ stamps. stamps.numbers };
}

impl Stamps {
    /// No stamp. It takes no memory.
    pub fn none() -> Stamps
        ensures { result ≡ map.empty }
    {
        Stamps {
            numbers: PageMap::empty(),
        }
    }

    /// The map of a list, in which no tag stands twice.
    #[tactic(auto, using(crate::proofs::OneByOne::set_one_by_one))]
    pub fn of(alloc: Global, list: &[(u32, u64)]) -> Result<Stamps, AllocError>
        requires { DoTagsDiffer list.now }
        ensures { IfOk result (λ stamps. stamps ≡ map.from_entries list.now) }
    {
        let numbers = PageMap::of(alloc, Vec::from_slice(alloc, list)?)?;
        Ok(Stamps { numbers })
    }

    /// The map with that number at each tag of a list.
    ///
    /// What is copied is in proportion to the list: the pages of its tags, and the list of pages.
    pub fn with_each(&self, alloc: Global, tags: &[u32], number: u64) -> Result<Stamps, AllocError>
        ensures { IfOk result (λ stamps. stamps ≡ all_stamped self.now number tags.now) }
    {
        let mut numbers = self.numbers.share()?;
        for &tag in tags {
            numbers.insert(alloc, tag, number)?;
        }
        Ok(Stamps { numbers })
    }

    /// The stamp of a tag; `None` exactly where it has none. It takes no memory.
    pub fn get(&self, tag: u32) -> Option<u64>
        ensures { result ≡ map.get self.now tag }
    {
        self.numbers.get(tag).copied()
    }

    /// The stamp of a tag, looked for first at a place. It takes no memory.
    ///
    /// It is fast where tags are asked in their order.
    pub fn get_near(&self, near: &mut Near, tag: u32) -> Option<u64>
        ensures { result ≡ map.get self.now tag }
    {
        self.numbers.get_near(near, tag).copied()
    }

    /// The same map, shared.
    pub fn share(&self) -> Result<Stamps, AllocError>
        ensures { IfOk result (λ stamps. stamps ≡ self.now) }
    {
        Ok(Stamps {
            numbers: self.numbers.share()?,
        })
    }
}
