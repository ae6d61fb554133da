//! A shared text.

ghost use Rattle.std.specs.Prelude.{◌≡◌, ◌≤◌, ◌<◌, [], length, IsTrue, IfOk, MatchResult};
ghost use Rattle.std.specs.Str.{is_utf8};
ghost use Rattle.prop_table.specs.Refusal.{refuses};
ghost use Rattle.prop_table.specs.Text.{IsLabelText};

use std::alloc::{AllocError, Global};
use std::marker::Model;
use std::sync::Arc;

/// A shared text of at most 256 bytes of UTF-8.
#[derive(Drop)]
pub struct Label {
    bytes: Option<Arc<Vec<u8>>>,
}

impl Model for Label {
    ghost use Rattle.std.specs.Prelude.{List, ℕ};
    ghost use Rattle.std.specs.Coded.{coded_list, coded_ℕ};

    ghost Value = { List ℕ };

    ghost coded = { coded_list coded_ℕ };

    ghost use Rattle.prop_table.specs.Text.{IsLabelText, bytes_of};

    ghost view = { bytes_of };

    ghost invariant = { λ label. IsLabelText (bytes_of label) };
}

/// Why a text is no label.
#[derive(Clone, Copy, Debug, PartialEq, Eq)]
pub enum LabelRefusal {
    /// It has more than 256 bytes.
    TooLong,
    /// There is no memory for it.
    Memory,
}

/// A label of a text of at most 256 bytes of UTF-8.
fn copied(alloc: Global, text: &[u8]) -> Result<Label, AllocError>
    requires { IsLabelText text.now }
    ensures { IfOk result (λ label. label ≡ text.now) }
{
    Ok(Label {
        bytes: Some(Arc::new(alloc, Vec::from_slice(alloc, text)?)?),
    })
}

impl Label {
    /// The empty text.
    pub fn none() -> Label
        ensures { result ≡ [] }
    {
        Label { bytes: None }
    }

    /// A text as a label. `TooLong` exactly where it has more than 256 bytes.
    pub fn make(alloc: Global, text: &str) -> Result<Label, LabelRefusal>
        ensures { MatchResult result (λ label. (label ≡ text.now) × (length text.now ≤ 256)) (refuses (length text.now)) }
    {
        if text.len() > 256 {
            return Err(LabelRefusal::TooLong);
        }
        match copied(alloc, text.as_bytes()) {
            Ok(label) => Ok(label),
            Err(AllocError) => Err(LabelRefusal::Memory),
        }
    }

    /// The text's bytes: at most 256, in UTF-8.
    pub fn bytes(&self) -> &[u8]
        ensures bytes { result.now ≡ self.now }
        ensures short { length self.now ≤ 256 }
        ensures utf8 { IsTrue (is_utf8 self.now) }
    {
        match &self.bytes {
            Some(bytes) => bytes.as_slice(),
            None => &[],
        }
    }

    /// The same text, shared.
    pub fn share(&self) -> Result<Label, AllocError>
        ensures { IfOk result (λ label. label ≡ self.now) }
    {
        match &self.bytes {
            Some(bytes) => Ok(Label {
                bytes: Some(Arc::try_clone(bytes)?),
            }),
            None => Ok(Label { bytes: None }),
        }
    }
}
