//! Tables of rows: what each is called, its range, and what it begins with.

ghost use Rattle.std.specs.Prelude.{◌≡◌, length, IsTrue};
ghost use Rattle.prop_table.specs.Rows.{have_short_names};

/// One row of a table.
#[derive(Clone, Copy, Debug)]
pub struct Row {
    /// What the row is called, in at most sixteen bytes.
    pub name: &'static str,
    /// The least number that it takes.
    pub low: i64,
    /// The greatest number that it takes.
    pub high: i64,
    /// What it begins with: a number, or `None` where it may be absent.
    pub start: Option<i64>,
}

/// A table of `N` rows, whose names have at most sixteen bytes.
#[derive(Clone, Copy)]
pub struct PropTable<const N: usize> {
    pub rows: &'static [Row],
    ghost sized: { length rows.now ≡ N },
    ghost short_names: { IsTrue (have_short_names rows.now) },
}

// A row, from its name, low, high and start.
macro_rules! row {
    ($name:literal, $low:expr, $high:expr, $start:expr) => {
        Row {
            name: $name,
            low: $low,
            high: $high,
            start: $start,
        }
    };
}

// The rows of version 1, and more after them.
macro_rules! rows_then {
    ($($more:expr),*) => {
        [
            row!("left", -1_000_000, 1_000_000, None),
            row!("top", -1_000_000, 1_000_000, None),
            row!("right", -1_000_000, 1_000_000, None),
            row!("bottom", -1_000_000, 1_000_000, None),
            row!("width", 0, 1_000_000, None),
            row!("height", 0, 1_000_000, None),
            row!("background", 0, 4_294_967_295, Some(0)),
            row!("border_color", 0, 4_294_967_295, Some(0)),
            row!("opacity", 0, 100, Some(100)),
            row!("z", -1000, 1000, None),
            row!("clip", 0, 1, Some(0)),
            row!("collapsable", 0, 1, Some(1)),
            row!("pointer", 0, 3, Some(0)),
            row!("border", 0, 100, Some(0)),
            row!("test_mark", 0, 1, Some(0)),
            row!("native_mark", 0, 1, Some(0)),
            $($more),*
        ]
    };
}

/// The table of script version 1.
pub const V1: PropTable<16> = PropTable {
    rows: &rows_then!(),
};

/// The table of script version 2.
pub const V2: PropTable<22> = PropTable {
    rows: &rows_then!(
        row!("hidden", 0, 1, Some(0)),
        row!("accessible", 0, 1, Some(0)),
        row!("elevation", 0, 24, Some(0)),
        row!("shadow", 0, 4_294_967_295, Some(0)),
        row!("outline", 0, 100, Some(0)),
        row!("outline_color", 0, 4_294_967_295, Some(0))
    ),
};

/// The table of a node's props.
pub const NODE_TABLE: PropTable<22> = V2;
