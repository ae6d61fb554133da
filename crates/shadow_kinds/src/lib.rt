//! The kinds of node, and what each forms.
#![tactic(auto)]

#[cfg(test)]
mod tests;
mod traits;
mod words;

pub use traits::{
    axes_of, forms_context, forms_view, has_state, have_same_rows, is_hidden, is_leaf,
    shows_itself, z_of,
};
pub use words::{code, from_code, from_word, word};

/// What a node is.
#[derive(Clone, Copy, Debug, PartialEq, Eq)]
pub enum Kind {
    /// A box that may hold others.
    View,
    /// A text.
    Text,
    /// A picture.
    Image,
    /// A box whose content may be moved, which is its state.
    Scroll,
    /// A field to type into, whose content is its state.
    Input,
}
