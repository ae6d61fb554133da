//! Counts below their last value and at it.

use crate::raise;

#[test]
fn a_count_stands_still_at_its_last_value(rt: HostRuntime) {
    for (count, by, want) in [
        (0, 0, 0),
        (3, 4, 7),
        (u64::MAX - 1, 1, u64::MAX),
        (u64::MAX, 5, u64::MAX),
    ] {
        assert_eq!(rt; raise(count, by), want);
    }
}
