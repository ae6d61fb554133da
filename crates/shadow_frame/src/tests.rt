//! Places at their edges.

ghost use Rattle.std.specs.Prelude.{◌≡◌};

use crate::{Axis, Point, Size, place, place_axis};

fn axis(start: Option<i64>, end: Option<i64>, size: Option<i64>) -> Axis
    ensures { result ≡ record { start = start; end = end; size = size } }
{
    Axis { start, end, size }
}

#[test]
fn axes_are_placed(rt: HostRuntime) {
    let none = axis(None, None, None);
    assert_eq!(rt; place_axis(axis(Some(10), Some(10), None), 15), (10, 0));
    assert_eq!(rt; place_axis(axis(None, Some(10), Some(20)), 100), (70, 20));
    assert_eq!(rt; place_axis(none, 100), (0, 0));
    assert_eq!(rt; place_axis(axis(Some(-5), Some(-5), None), 0), (-5, 10));
    assert_eq!(rt; place_axis(axis(Some(10), Some(20), Some(5)), 100), (10, 5));
    assert_eq!(rt; place_axis(axis(None, Some(20), None), 100), (80, 0));
    let top = axis(None, Some(0), Some(44));
    let parent = Size {
        width: 320,
        height: 480,
    };
    let frame = place(none, top, parent);
    assert_eq!(rt; frame.origin, Point { x: 0, y: 436 });
    assert_eq!(rt;
        frame.size,
        Size {
            width: 0,
            height: 44
        }
    );
}
