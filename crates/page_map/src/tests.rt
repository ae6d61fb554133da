//! Maps that share their pages.

use crate::{Joint, Near, PageMap};
use std::alloc::{AllocError, Global};
use std::test::Fail;

/// A map of the tags 0, 2, 4 and so on, to their halves.
fn halves(alloc: Global, count: u32) -> Result<PageMap<u64>, AllocError> {
    let mut map = PageMap::empty();
    for at in 0..count {
        if at < 2_000_000_000 {
            map.insert(alloc, 2 * at, u64::from(at))?;
        }
    }
    Ok(map)
}

#[test]
fn a_share_changes_by_itself(rt: HostRuntime) -> Result<(), Fail> {
    let alloc = rt.alloc();
    let map = halves(alloc, 4096)?;
    let mut other = map.share()?;
    other.insert(alloc, 4096, 7)?;
    other.insert(alloc, 1, 9)?;
    other.own(alloc, 8)?;
    if let Some(value) = other.get_mut(8) {
        *value = 11;
    }
    let (third, count) = other.with_all(alloc, vec![in alloc; (3, 4)]?)?;
    assert_eq!(rt; map.len(), 4096);
    assert_eq!(rt; other.len(), 4097);
    assert_eq!(rt; third.len(), 4098);
    assert_eq!(rt; map.get(4096).copied(), Some(2048));
    assert_eq!(rt; other.get(4096).copied(), Some(7));
    assert_eq!(rt; map.get(8).copied(), Some(4));
    assert_eq!(rt; other.get(8).copied(), Some(11));
    assert_eq!(rt; map.get(1).copied(), None);
    assert_eq!(rt; third.get(1).copied(), Some(9));
    assert_eq!(rt; third.get(3).copied(), Some(4));
    assert_eq!(rt; third.get(8190).copied(), Some(4095));
    assert!(rt; map.pages() <= 128);
    assert!(rt; 1 <= count && count <= 65);
    Ok(())
}

/// What a map of 200 halves has at a tag.
fn half(tag: u32) -> Option<u64> {
    if tag % 2 == 0 && tag < 400 {
        Some(u64::from(tag / 2))
    } else {
        None
    }
}

#[test]
fn a_place_changes_no_answer(rt: HostRuntime) -> Result<(), Fail> {
    let alloc = rt.alloc();
    let map = halves(alloc, 200)?;
    let mut near = Near::start();
    for tag in 0..410u32 {
        assert_eq!(rt; map.get_near(&mut near, tag).copied(), half(tag));
    }
    for at in 0..410u32 {
        let tag = 409 - at;
        assert_eq!(rt; map.get_near(&mut near, tag).copied(), half(tag));
    }
    // only the tags of entries, each where the last one ended
    near = Near::start();
    for at in 0..200u32 {
        assert_eq!(rt;
            map.get_near(&mut near, 2 * at).copied(),
            Some(u64::from(at))
        );
    }
    // one place for two maps
    let other = PageMap::of(alloc, vec![in alloc; (2, 90), (7, 91)]?)?;
    for tag in 0..410u32 {
        assert_eq!(rt; map.get_near(&mut near, tag).copied(), half(tag));
        let value = other.get_near(&mut near, tag).copied();
        assert_eq!(rt; value == Some(90), tag == 2);
        assert_eq!(rt; value == Some(91), tag == 7);
    }
    Ok(())
}

#[test]
fn entries_are_taken_out_down_to_none(rt: HostRuntime) -> Result<(), Fail> {
    let alloc = rt.alloc();
    let whole = halves(alloc, 300)?;
    let mut map = whole.share()?;
    for at in 0..300u32 {
        // one of each half in its turn: 0, 151, 2, 153 and so on
        let tag = 2 * ((at + 150 * (at % 2)) % 300);
        assert_eq!(rt; map.remove(alloc, tag)?, Some(u64::from(tag / 2)));
        assert_eq!(rt; map.remove(alloc, tag)?, None);
        assert!(rt; map.pages() <= map.len() / 32 + 1);
    }
    assert!(rt; map.is_empty());
    assert_eq!(rt; map.pages(), 0);
    assert_eq!(rt; whole.len(), 300);
    let joint = Joint::new(alloc, 5u64)?;
    let mut joints = PageMap::of(
        alloc,
        vec![in alloc; (9, joint), (4, Joint::new(alloc, 6u64)?)]?,
    )?;
    let value = joints.remove(alloc, 9)?;
    assert_eq!(rt; value.map(|joint| *joint.get()), Some(5));
    assert_eq!(rt; joints.get(4).map(|joint| *joint.get()), Some(6));
    Ok(())
}
