//! What a JSON value has under a name. Where it has nothing of the form that is asked for, 0 or
//! something empty is answered.

ghost use Rattle.std.specs.Prelude.{◌≡◌, map};
ghost use Rattle.serde_json.specs.Data.{null};
ghost use Rattle.serde_json.specs.View.{view};
ghost use Rattle.script_read.specs.Members.{names_found as names_found_of, has_form as has_form_of, integer_in as integer_in_of, natural_of as natural_of_of, natural_in as natural_in_of, text_in as text_in_of, items_in as items_in_of, member_at as member_at_of, integer_at as integer_at_of, natural_at as natural_at_of, text_at as text_at_of, items_at as items_at_of, item_in as item_in_of};

use serde_json::Value;

/// How many of the names are those of members.
fn names_found(value: &Value, names: &[&str]) -> usize
    ensures { result ≡ names_found_of (map (λ name. name.now) names.now) (view value.now) }
{
    names
        .iter()
        .filter(|name| value.get(**name).is_some())
        .count()
}

/// Whether a value is an object that has all of the required members, and beside them only
/// optional ones.
pub(crate) fn has_form(value: &Value, required: &[&str], optional: &[&str]) -> bool
    ensures { result ≡ has_form_of (map (λ name. name.now) required.now) (map (λ name. name.now) optional.now) (view value.now) }
{
    let Some(members) = value.as_object() else {
        return false;
    };
    names_found(value, required) == required.len()
        && members.len() == required.len() + names_found(value, optional)
}

/// The integer of a value.
pub(crate) fn integer_in(value: &Value) -> i64
    ensures { result ≡ integer_in_of (view value.now) }
{
    value.as_i64().unwrap_or(0)
}

/// An integer below 2^32; any other is as 0.
fn natural_of(integer: i64) -> u32
    ensures { result ≡ natural_of_of integer }
{
    if 0 <= integer && integer < 4_294_967_296 {
        integer as u32
    } else {
        0
    }
}

/// The integer below 2^32 of a value.
pub(crate) fn natural_in(value: &Value) -> u32
    ensures { result ≡ natural_in_of (view value.now) }
{
    natural_of(integer_in(value))
}

/// The text of a value.
pub(crate) fn text_in(value: &Value) -> &str
    ensures { result.now ≡ text_in_of (view value.now) }
{
    value.as_str().unwrap_or("")
}

/// The items of a value.
pub(crate) fn items_in(value: &Value) -> &[Value]
    ensures { map view result.now ≡ items_in_of (view value.now) }
{
    match value.as_array() {
        Some(items) => items.as_slice(),
        None => &[],
    }
}

/// The value of a member, or that null where the member is missing.
pub(crate) fn member_at<'a>(value: &'a Value, name: &str, missing: &'a Value) -> &'a Value
    requires { view missing.now ≡ null }
    ensures { view result.now ≡ member_at_of name.now (view value.now) }
{
    match value.get(name) {
        Some(found) => found,
        None => missing,
    }
}

/// The integer of a member.
pub(crate) fn integer_at(value: &Value, name: &str) -> i64
    ensures { result ≡ integer_at_of name.now (view value.now) }
{
    match value.get(name) {
        Some(found) => integer_in(found),
        None => 0,
    }
}

/// The integer below 2^32 of a member.
pub(crate) fn natural_at(value: &Value, name: &str) -> u32
    ensures { result ≡ natural_at_of name.now (view value.now) }
{
    natural_of(integer_at(value, name))
}

/// The text of a member.
pub(crate) fn text_at<'a>(value: &'a Value, name: &str) -> &'a str
    ensures { result.now ≡ text_at_of name.now (view value.now) }
{
    match value.get(name) {
        Some(found) => text_in(found),
        None => "",
    }
}

/// The items of a member.
pub(crate) fn items_at<'a>(value: &'a Value, name: &str) -> &'a [Value]
    ensures { map view result.now ≡ items_at_of name.now (view value.now) }
{
    match value.get(name) {
        Some(found) => items_in(found),
        None => &[],
    }
}

/// The integer of the item of that number.
pub(crate) fn item_integer(value: &Value, index: usize) -> i64
    ensures { result ≡ integer_in_of (item_in_of index (view value.now)) }
{
    match items_in(value).get(index) {
        Some(item) => integer_in(item),
        None => 0,
    }
}
