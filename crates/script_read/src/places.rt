//! Places in a JSON value, each as a JSON pointer from the value at hand.

ghost use Rattle.std.specs.Prelude.{◌≡◌, IfOk, map};
ghost use Rattle.serde_json.specs.View.{view};
ghost use Rattle.script_read.specs.Places.{first_of, refused as refused_of, unless as unless_of, at_member as at_member_of, at_item as at_item_of};
ghost use Rattle.std.specs.Prelude.{is_some};
ghost use Rattle.script_read.specs.Checks.{passes as passes_of};
ghost use Rattle.script_read.specs.Faults.{is_from as is_from_of, label_of};

use crate::members::{integer_in, text_in};
use itoa::Buffer;
use serde_json::Value;
use shadow_kinds::from_word;
use sqlite_items::Items;
use std::alloc::{AllocError, Global};

/// A JSON pointer from the value at hand.
pub(crate) type Pointer = Items<u8>;

/// Where the value at hand is refused: here, unless a test holds.
pub(crate) fn unless(alloc: Global, test: bool) -> Option<Pointer>
    ensures { result ≡ unless_of test }
{
    if test { None } else { Some(Items::new(alloc)) }
}

/// A place in the member of that name.
pub(crate) fn at_member(
    alloc: Global,
    name: &str,
    place: Option<Pointer>,
) -> Result<Option<Pointer>, AllocError>
    ensures { IfOk result (λ found. found ≡ at_member_of name.now place) }
{
    let Some(pointer) = place else {
        return Ok(None);
    };
    let mut text = Vec::from_slice(alloc, b"/")?;
    text.extend_from_slice(name.as_bytes())?;
    text.extend_from_slice(pointer.as_slice())?;
    Ok(Some(Items::from_vec(text)))
}

/// A place in the item of that number.
pub(crate) fn at_item(
    alloc: Global,
    index: usize,
    place: Option<Pointer>,
) -> Result<Option<Pointer>, AllocError>
    ensures { IfOk result (λ found. found ≡ at_item_of index place) }
{
    let mut digits = Buffer::new();
    at_member(alloc, digits.format(index), place)
}

/// What a member has to be, where it is there.
#[derive(Clone, Copy, Debug, PartialEq, Eq)]
pub(crate) enum Test {
    Integer,
    Text,
    Array,
    Object,
    /// A width or a height.
    Length,
    /// The word of a kind.
    Kind,
    Tag,
    /// A text of at most 256 bytes.
    Label,
}

/// Whether an integer is from `low` to `high`.
pub(crate) fn is_from(low: i64, high: i64, integer: i64) -> bool
    ensures { result ≡ is_from_of low high integer }
{
    low <= integer && integer <= high
}

/// Whether a value is a text of at most 256 bytes.
fn is_label(value: &Value) -> bool
    ensures { result ≡ is_some (label_of (view value.now)) }
{
    match value.as_str() {
        Some(text) => text.len() <= 256,
        None => false,
    }
}

/// Whether a value passes a test.
fn passes(test: Test, value: &Value) -> bool
    ensures { result ≡ passes_of test (view value.now) }
{
    match test {
        Test::Integer => value.as_i64().is_some(),
        Test::Text => value.is_string(),
        Test::Array => value.is_array(),
        Test::Object => value.is_object(),
        Test::Length => is_from(0, 1_000_000, integer_in(value)),
        Test::Kind => from_word(text_in(value).as_bytes()).is_some(),
        Test::Tag => is_from(1, 2_147_483_647, integer_in(value)),
        Test::Label => is_label(value),
    }
}

/// Where a member is refused that is there and fails a test.
pub(crate) fn refused(
    alloc: Global,
    value: &Value,
    name: &str,
    test: Test,
) -> Result<Option<Pointer>, AllocError>
    ensures { IfOk result (λ place. place ≡ refused_of name.now (passes_of test) (view value.now)) }
{
    match value.get(name) {
        Some(found) => at_member(alloc, name, unless(alloc, passes(test, found))),
        None => Ok(None),
    }
}

/// Where the first of some members is refused.
pub(crate) fn first_refused(
    alloc: Global,
    value: &Value,
    members: &[(&str, Test)],
) -> Result<Option<Pointer>, AllocError>
    ensures { IfOk result (λ place. place ≡ first_of (map (λ member. refused_of member.0.now (passes_of member.1) (view value.now)) members.now)) }
{
    for member in members {
        stop_at!(refused(alloc, value, member.0, member.1)?);
    }
    Ok(None)
}
