//! The kinds, and the rows that turn their traits.

use crate::{
    Kind, axes_of, code, forms_context, forms_view, from_code, from_word, has_state, is_hidden,
    is_leaf, word, z_of,
};
use prop_table::{NODE_TABLE, rows};

#[test]
fn kinds_have_words_and_codes(rt: HostRuntime) {
    for (kind, text, number, leaf, state) in [
        (Kind::View, "view", 0, false, false),
        (Kind::Text, "text", 1, true, false),
        (Kind::Image, "image", 2, true, false),
        (Kind::Scroll, "scroll", 3, false, true),
        (Kind::Input, "input", 4, true, true),
    ] {
        assert_eq!(rt; word(kind), text);
        assert_eq!(rt; from_word(text.as_bytes()), Some(kind));
        assert_eq!(rt; code(kind), number);
        assert_eq!(rt; from_code(number), Some(kind));
        assert_eq!(rt; is_leaf(kind), leaf);
        assert_eq!(rt; has_state(kind), state);
    }
    assert_eq!(rt; from_word(b"views"), None);
    assert_eq!(rt; from_code(5), None);
}

#[test]
fn rows_turn_traits(rt: HostRuntime) {
    let start = NODE_TABLE.start();
    assert!(rt; !forms_view(Kind::View, &start));
    assert!(rt; forms_view(Kind::Text, &start));
    assert_eq!(rt; z_of(&start), 0);
    assert!(rt; axes_of(&start).0.start.is_none());
    for (row, value, context, view, hidden) in [
        (rows::OPACITY, 99, true, true, false),
        (rows::Z, 0, true, true, false),
        (rows::CLIP, 1, true, true, false),
        (rows::COLLAPSABLE, 0, true, true, false),
        (rows::POINTER, 1, true, true, false),
        (rows::POINTER, 2, false, false, false),
        (rows::NATIVE_MARK, 1, true, true, false),
        (rows::ACCESSIBLE, 1, true, true, false),
        (rows::ELEVATION, 1, true, true, false),
        (rows::BACKGROUND, 16_777_216, false, true, false),
        (rows::BACKGROUND, 16_777_215, false, false, false),
        (rows::BORDER, 1, false, true, false),
        (rows::TEST_MARK, 1, false, true, false),
        (rows::SHADOW, 16_777_216, false, true, false),
        (rows::OUTLINE, 1, false, true, false),
        (rows::HIDDEN, 1, false, false, true),
    ] {
        assert!(rt; row < 22);
        let Ok(props) = NODE_TABLE.set(&start, row, Some(value)) else {
            assert!(rt; false, "row {row} takes {value}");
            return;
        };
        assert_eq!(rt; forms_context(Kind::View, &props), context, "row {row}");
        assert_eq!(rt; forms_view(Kind::View, &props), view, "row {row}");
        assert_eq!(rt; is_hidden(&props), hidden, "row {row}");
    }
}
