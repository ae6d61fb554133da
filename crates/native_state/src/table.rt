//! The families of a surface.

ghost use Rattle.std.specs.Prelude.{◌≡◌, ◌+◌, ◌*◌, ◌≤◌, length, IfOk, OnOk};
ghost use Rattle.std.specs.FinMap as map;
ghost use Rattle.counts.specs.Raised.{raised};
ghost use Rattle.page_map.specs.Entries.{TagsDiffer, all_added};
ghost use Rattle.page_map.specs.Rising.{IsRising};
ghost use Rattle.native_state.specs.Families.{cell_in};

use crate::made::Made;
use crate::{Family, StateCell};
use page_map::{Near, PageMap, Share};
use std::alloc::{AllocError, Global};
use std::marker::Model;

/// The families of a surface: a finite map from tag to family.
///
/// It is a map in shared pages, so a change copies one page and the list of pages.
#[derive(Drop)]
pub struct FamilyTable {
    families: PageMap<Family>,
}

impl Model for FamilyTable {
    ghost use Rattle.std.specs.Ordering.{nat_cmp};
    ghost use Rattle.std.specs.FinMap as map;
    ghost use Rattle.std.specs.Coded.{coded_ℕ};
    ghost use Rattle.native_state.specs.declared.Family.{Family};
    ghost use Rattle.native_state.specs.contracts.Family as family;

    ghost Value = { map.FinMap nat_cmp Family };

    ghost coded = { map.code coded_ℕ (family.the_row).coded };

    ghost view = { λ table. table.families };
}

impl Share for Family {
    fn share(&self) -> Result<Family, AllocError> {
        Ok(*self)
    }
}

impl FamilyTable {
    /// No family.
    pub fn empty(_alloc: Global) -> Result<FamilyTable, AllocError>
        ensures { IfOk result (λ table. table ≡ map.empty) }
    {
        Ok(FamilyTable {
            families: PageMap::empty(),
        })
    }

    /// The family of a tag, where there is one. It takes no memory.
    pub fn get(&self, tag: u32) -> Option<Family>
        ensures { result ≡ map.get self.now tag }
    {
        self.families.get(tag).copied()
    }

    /// The family of a tag, where there is one, looked for first at a place. It takes no memory.
    ///
    /// It is fast where tags are asked in their order.
    pub fn get_near(&self, near: &mut Near, tag: u32) -> Option<Family>
        ensures { result ≡ map.get self.now tag }
    {
        self.families.get_near(near, tag).copied()
    }

    /// The cell of a tag's family; a tag without a family has one that never changed. It takes no
    /// memory.
    pub fn cell(&self, tag: u32) -> StateCell
        ensures { result ≡ cell_in self.now tag }
    {
        match self.get(tag) {
            Some(family) => family.cell,
            None => StateCell::start(),
        }
    }

    /// How many families there are. It takes no memory.
    pub fn len(&self) -> usize
        ensures { result ≡ map.len self.now }
    {
        self.families.len()
    }

    /// How many pages there are, of which each of two or more holds 32 to 64 families: at most 128
    /// for 4,096 families. It takes no memory.
    pub fn pages(&self) -> usize
        ensures { 32 * result ≤ map.len self.now + 31 }
    {
        self.families.pages()
    }

    /// The same map, shared.
    pub fn share(&self) -> Result<FamilyTable, AllocError>
        ensures { IfOk result (λ table. table ≡ self.now) }
    {
        Ok(FamilyTable {
            families: self.families.share()?,
        })
    }

    /// The map with this one family set at its tag.
    ///
    /// The page that the tag belongs in is copied, and parted in two where it was full.
    /// So at most 65 families are put into new pages, and all other pages are shared.
    pub fn with(
        &self,
        alloc: Global,
        made: &mut Made,
        tag: u32,
        family: Family,
    ) -> Result<FamilyTable, AllocError>
        ensures map { IfOk result (λ table. table ≡ map.insert self.now tag family) }
        ensures counted { OnOk result (raised made.old.families 1 ≤ made.new.families) }
        ensures never_falls { made.old.families ≤ made.new.families }
        ensures at_most { made.new.families ≤ made.old.families + 65 }
        ensures nodes { made.new.nodes ≡ made.old.nodes }
    {
        let new = Vec::from_slice(alloc, &[(tag, family)])?;
        self.with_rising(alloc, made, new)
    }

    /// The map with each family of the list set at its tag.
    ///
    /// At most 65 families for each of the list are put into new pages.
    pub fn with_new(
        &self,
        alloc: Global,
        made: &mut Made,
        list: &[(u32, Family)],
    ) -> Result<FamilyTable, AllocError>
        requires { TagsDiffer list.now }
        ensures map { IfOk result (λ table. table ≡ all_added self.now list.now) }
        ensures counted { OnOk result (raised made.old.families (length list.now) ≤ made.new.families) }
        ensures never_falls { made.old.families ≤ made.new.families }
        ensures at_most { made.new.families ≤ made.old.families + 65 * length list.now }
        ensures nodes { made.new.nodes ≡ made.old.nodes }
    {
        let mut new = Vec::from_slice(alloc, list)?;
        new.sort_by_key(|entry| entry.0)?;
        self.with_rising(alloc, made, new)
    }

    /// The map with each family of a list in the order of their tags.
    fn with_rising(
        &self,
        alloc: Global,
        made: &mut Made,
        new: Vec<(u32, Family)>,
    ) -> Result<FamilyTable, AllocError>
        requires { IsRising new.items }
        ensures map { IfOk result (λ table. table ≡ all_added self.now new.items) }
        ensures counted { OnOk result (raised made.old.families (length new.items) ≤ made.new.families) }
        ensures never_falls { made.old.families ≤ made.new.families }
        ensures at_most { made.new.families ≤ made.old.families + 65 * length new.items }
        ensures nodes { made.new.nodes ≡ made.old.nodes }
    {
        let (families, count) = self.families.with_all(alloc, new)?;
        made.families_made(count);
        Ok(FamilyTable { families })
    }
}
