//! What an edit says of a row.

/// What an edit says of a row, but for the number.
#[derive(Clone, Copy, Debug, PartialEq, Eq)]
pub(crate) enum Mark {
    /// The row stays as it is.
    Unnamed,
    /// The row becomes absent.
    Absent,
    /// The row becomes a number.
    Given,
}
