//! What each kind is called, and its number.

ghost use Rattle.std.specs.Prelude.{◌≡◌, ◌≢◌, ◌<◌, MatchOption, bytes_eq};
ghost use Rattle.shadow_kinds.specs.Words.{word_of, kind_of_word, code_of};
ghost use Rattle.shadow_kinds.specs.declared.Kind.{Kind};

use crate::Kind;

/// A kind's number, from 0 to 4.
pub fn code(kind: Kind) -> u8
    ensures value { result ≡ code_of kind }
    ensures bound { result < 5 }
{
    match kind {
        Kind::View => 0,
        Kind::Text => 1,
        Kind::Image => 2,
        Kind::Scroll => 3,
        Kind::Input => 4,
    }
}

/// The kind of that number, `None` exactly above 4.
pub fn from_code(code: u8) -> Option<Kind>
    ensures { MatchOption result (4 < code) (λ kind. code_of kind ≡ code) }
{
    match code {
        0 => Some(Kind::View),
        1 => Some(Kind::Text),
        2 => Some(Kind::Image),
        3 => Some(Kind::Scroll),
        4 => Some(Kind::Input),
        _ => None,
    }
}

/// A kind's word.
pub fn word(kind: Kind) -> &'static str
    ensures { result.now ≡ word_of kind }
{
    match kind {
        Kind::View => "view",
        Kind::Text => "text",
        Kind::Image => "image",
        Kind::Scroll => "scroll",
        Kind::Input => "input",
    }
}

/// Whether a text is that kind's word.
fn spells(text: &[u8], kind: Kind) -> bool
    ensures { result ≡ bytes_eq text.now (word_of kind) }
{
    text == word(kind).as_bytes()
}

/// The kind of that word, `None` exactly where no kind has it.
pub fn from_word(word: &[u8]) -> Option<Kind>
    ensures value { result ≡ kind_of_word word.now }
    ensures named { MatchOption result ((kind : Kind) → word_of kind ≢ word.now) (λ kind. word_of kind ≡ word.now) }
{
    if spells(word, Kind::View) {
        Some(Kind::View)
    } else if spells(word, Kind::Text) {
        Some(Kind::Text)
    } else if spells(word, Kind::Image) {
        Some(Kind::Image)
    } else if spells(word, Kind::Scroll) {
        Some(Kind::Scroll)
    } else if spells(word, Kind::Input) {
        Some(Kind::Input)
    } else {
        None
    }
}
