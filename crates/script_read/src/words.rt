//! The words of steps, and the members that a step of each word has.

ghost use Rattle.std.specs.Prelude.{◌≡◌};
ghost use Rattle.serde_json.specs.View.{view};
ghost use Rattle.script_read.specs.Words.{is_version_two as is_version_two_of, step_word as step_word_of, has_state_form as has_state_form_of, has_step_form as has_step_form_of};
ghost use Rattle.script_read.specs.Shape.{word_in as word_in_of};

use crate::members::{has_form, natural_at, text_at};
use serde_json::Value;

/// What a step does, by its word.
#[derive(Clone, Copy, Debug, PartialEq, Eq)]
pub(crate) enum Word {
    Complete,
    State,
    Props,
    Size,
    Stop,
    Hold,
    Mount,
    Suspend,
    Resume,
}

/// Whether a script is of version 2.
pub(crate) fn is_version_two(script: &Value) -> bool
    ensures { result ≡ is_version_two_of (view script.now) }
{
    natural_at(script, "version") == 2
}

/// The step's word that a text is; version 2 has two words of its own.
fn step_word(two: bool, text: &str) -> Option<Word>
    ensures { result ≡ step_word_of two text.now }
{
    match text {
        "complete" => Some(Word::Complete),
        "state" => Some(Word::State),
        "props" => Some(Word::Props),
        "size" => Some(Word::Size),
        "stop" => Some(Word::Stop),
        "hold" => Some(Word::Hold),
        "mount" => Some(Word::Mount),
        "suspend" if two => Some(Word::Suspend),
        "resume" if two => Some(Word::Resume),
        _ => None,
    }
}

/// The word of a step; `None` where it is unknown or no text.
pub(crate) fn word_in(two: bool, step: &Value) -> Option<Word>
    ensures { result ≡ word_in_of two (view step.now) }
{
    step_word(two, text_at(step, "do"))
}

/// Whether a state step has exactly one change.
fn has_state_form(step: &Value) -> bool
    ensures { result ≡ has_state_form_of (view step.now) }
{
    has_form(step, &["do", "on", "tag", "set"], &[])
        || has_form(step, &["do", "on", "tag", "add"], &[])
        || has_form(step, &["do", "on", "tag", "set_if"], &[])
}

/// Whether a step has the members of its word.
pub(crate) fn has_step_form(word: Word, step: &Value) -> bool
    ensures { result ≡ has_step_form_of word (view step.now) }
{
    match word {
        Word::Complete => has_form(step, &["do", "on", "tree"], &[]),
        Word::State => has_state_form(step),
        Word::Props => has_form(step, &["do", "on", "tag", "props"], &[]),
        Word::Size => has_form(step, &["do", "on", "width", "height"], &[]),
        Word::Stop | Word::Hold | Word::Mount | Word::Suspend | Word::Resume => {
            has_form(step, &["do", "on"], &[])
        }
    }
}
