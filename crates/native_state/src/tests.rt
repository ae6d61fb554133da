//! Changes of a cell, and families in their pages.

ghost use Rattle.std.specs.Prelude.{◌≡◌};

use crate::{Family, FamilyTable, Made, Stale, StateCell, StateChange, apply};
use shadow_frame::Point;
use std::alloc::{AllocError, Global};
use std::test::Fail;

fn at(count: u64, x: i64, y: i64) -> StateCell
    ensures { result.count ≡ count }
{
    StateCell {
        count,
        point: Point { x, y },
    }
}

#[test]
fn a_change_moves_a_cell(rt: HostRuntime) -> Result<(), Fail> {
    let far = Point {
        x: i64::MAX,
        y: i64::MIN,
    };
    let near = Point { x: 1, y: -1 };
    let table: [(u32, i64, i64, StateChange, Result<StateCell, Stale>); 9] = [
        (0, 0, 0, StateChange::Set { point: near }, Ok(at(1, 1, -1))),
        (7, 3, -4, StateChange::Add { by: near }, Ok(at(8, 4, -5))),
        (
            1,
            999_999,
            -999_999,
            StateChange::Add { by: near },
            Ok(at(2, 1_000_000, -1_000_000)),
        ),
        (
            1,
            1_000_000,
            -1_000_000,
            StateChange::Add { by: near },
            Ok(at(2, 1_000_000, -1_000_000)),
        ),
        (
            1,
            5,
            5,
            StateChange::Set { point: far },
            Ok(at(2, 1_000_000, -1_000_000)),
        ),
        (
            1,
            i64::MAX,
            i64::MIN,
            StateChange::Add { by: far },
            Ok(at(2, 1_000_000, -1_000_000)),
        ),
        (
            4,
            5,
            5,
            StateChange::SetIf {
                count: 4,
                point: far,
            },
            Ok(at(5, 1_000_000, -1_000_000)),
        ),
        (
            4,
            5,
            5,
            StateChange::SetIf {
                count: 5,
                point: near,
            },
            Err(Stale { count: 4 }),
        ),
        (
            4,
            5,
            5,
            StateChange::SetIf {
                count: 3,
                point: near,
            },
            Err(Stale { count: 4 }),
        ),
    ];
    for (count, x, y, change, after) in table {
        assert!(rt; apply(at(u64::from(count), x, y), change) == after);
    }
    Ok(())
}

fn family(kind: u8) -> Family {
    Family {
        kind,
        cell: StateCell::start(),
    }
}

/// A table with the tags 3, 6, 9 and so on.
fn threes(alloc: Global, made: &mut Made, count: u32) -> Result<FamilyTable, AllocError> {
    let mut table = FamilyTable::empty(alloc)?;
    let mut tag: u32 = 0;
    for _ in 0..count {
        tag = tag.saturating_add(3);
        table = table.with(alloc, made, tag, family(1))?;
    }
    Ok(table)
}

/// Whether each of the tags has that family, or none.
fn have(table: &FamilyTable, tags: &[u32], wanted: Option<Family>) -> bool {
    for tag in tags {
        if table.get(*tag) != wanted {
            return false;
        }
    }
    true
}

/// How many families and how many pages a table has.
fn counts_of(table: &FamilyTable) -> (usize, usize) {
    (table.len(), table.pages())
}

/// Whether tag 100 was added to a full page, which is parted.
fn is_parted(full: &FamilyTable, parted: &FamilyTable) -> bool {
    counts_of(full) == (64, 1)
        && counts_of(parted) == (65, 2)
        && have(full, &[100], None)
        && have(parted, &[100], Some(family(2)))
        && have(parted, &[1, 2, 4, 95, 97, 98, 193, u32::MAX], None)
        && have(parted, &[3, 6, 96, 99, 102, 192], Some(family(1)))
}

#[test]
fn a_full_page_is_parted(rt: HostRuntime) -> Result<(), Fail> {
    let mut made = Made::start(&rt);
    let full = threes(rt.alloc(), &mut made, 64)?;
    let parted = full.with(rt.alloc(), &mut made, 100, family(2))?;
    assert!(rt; is_parted(&full, &parted));
    assert_eq!(rt; made.families(), 2145, "2,080 for the first 64, and 65");
    Ok(())
}

#[test]
fn each_half_of_a_parted_page_is_copied_alone(rt: HostRuntime) -> Result<(), Fail> {
    let mut made = Made::start(&rt);
    let parted = threes(rt.alloc(), &mut made, 65)?;
    let before = made.families();
    let lower = parted.with(rt.alloc(), &mut made, 96, family(3))?;
    let upper = lower.with(rt.alloc(), &mut made, 99, family(4))?;
    assert!(rt; have(&upper, &[96], Some(family(3))) && have(&upper, &[99], Some(family(4))));
    assert_eq!(rt; made.families() - before, 32 + 33);
    Ok(())
}

/// Whether the family of tag 6144 was changed, and no other.
fn is_changed(table: &FamilyTable, after: &FamilyTable, changed: Family) -> bool {
    counts_of(table) == counts_of(after)
        && table.len() == 4096
        && table.pages() <= 128
        && have(after, &[6144], Some(changed))
        && have(table, &[6144], Some(family(1)))
        && have(after, &[6143], None)
        && after.cell(6144) == changed.cell
        && table.cell(6144) == StateCell::start()
        && after.cell(6143) == StateCell::start()
}

#[test]
fn one_change_among_the_most_families_copies_one_page(rt: HostRuntime) -> Result<(), Fail> {
    let mut made = Made::start(&rt);
    let table = threes(rt.alloc(), &mut made, 4096)?;
    let before = made.families();
    let changed = Family {
        kind: 1,
        cell: at(1, 5, 6),
    };
    let after = table.with(rt.alloc(), &mut made, 6144, changed)?;
    assert!(rt; is_changed(&table, &after, changed));
    assert!(rt; (1..=65).contains(&(made.families() - before)) && made.count() == 0);
    Ok(())
}

/// Whether the families of a list were added to a table of 100.
fn are_added(table: &FamilyTable, added: &FamilyTable, list: &[(u32, Family)]) -> bool {
    for (tag, family) in list {
        if !have(added, &[*tag], Some(*family)) || !have(table, &[*tag], None) {
            return false;
        }
    }
    added.len() == 104 && have(added, &[3, 96, 99, 300], Some(family(1)))
}

#[test]
fn a_list_is_added(rt: HostRuntime) -> Result<(), Fail> {
    let mut made = Made::start(&rt);
    let table = threes(rt.alloc(), &mut made, 100)?;
    let before = made.families();
    let list = [
        (301, family(5)),
        (1, family(6)),
        (98, family(7)),
        (97, family(8)),
    ];
    let added = table.with_new(rt.alloc(), &mut made, &list)?;
    assert!(rt; are_added(&table, &added, &list) && made.families() - before <= 4 * 65);
    let shared = added.share()?;
    assert!(rt; are_added(&table, &shared, &list));
    Ok(())
}

#[test]
fn an_empty_list_adds_nothing(rt: HostRuntime) -> Result<(), Fail> {
    let mut made = Made::start(&rt);
    let none = FamilyTable::empty(rt.alloc())?.with_new(rt.alloc(), &mut made, &[])?;
    assert_eq!(rt; counts_of(&none), (0, 0));
    Ok(())
}
