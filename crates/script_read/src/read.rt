//! Scripts from bytes.

ghost use Rattle.std.specs.Prelude.{◌≡◌, IfOk};
ghost use Rattle.serde_json.specs.View.{view};
ghost use Rattle.tree_revision.specs.Sound.{IsSoundScript, IsWithinCounts};
ghost use Rattle.script_read.specs.Places.{Pointer};
ghost use Rattle.script_read.specs.Plain.{plain_script};
ghost use Rattle.script_read.specs.Value.{script_of};
ghost use Rattle.script_read.specs.Reads.{pointer_place as place_at_of, fault_of as fault_of_of, script_unless, script_in, ReadsScript};

use crate::build::build_script;
use crate::places::Pointer;
use crate::script::{Place, Script, ScriptFault, ScriptRefusal};
use crate::walk::{Check, in_actors};
use crate::whole::{
    bad_name, bad_surface, bad_turn, is_known_version, misshapen_script, too_many, two_mounters,
};
use serde_json::Value;
use sqlite_items::Items;
use std::alloc::{AllocError, Global};

/// The most bytes that a script has.
const MAX_BYTES: usize = 4_194_304;

/// The place of a pointer from the whole script, whose own place is `/`.
fn place_at(alloc: Global, pointer: Pointer) -> Result<Place, AllocError>
    ensures { IfOk result (λ place. place ≡ place_at_of pointer) }
{
    if pointer.is_empty() {
        let text = Items::from_slice(alloc, b"/")?;
        return Ok(Place { text });
    }
    Ok(Place { text: pointer })
}

// Answers a fault at the place that was found, if there is one.
macro_rules! fault_at {
    ($alloc:expr, $fault:path, $found:expr) => {
        if let Some(pointer) = $found {
            return Ok(Some($fault(place_at($alloc, pointer)?)));
        }
    };
}

/// The fault of a JSON value with the smallest number.
fn fault_of(alloc: Global, script: &Value) -> Result<Option<ScriptFault>, AllocError>
    ensures { IfOk result (λ fault. fault ≡ fault_of_of (view script.now)) }
{
    fault_at!(alloc, ScriptFault::Shape, misshapen_script(alloc, script)?);
    if !is_known_version(script) {
        return Ok(Some(ScriptFault::Version));
    }
    fault_at!(alloc, ScriptFault::TooMany, too_many(alloc, script)?);
    fault_at!(alloc, ScriptFault::BadName, bad_name(alloc, script)?);
    fault_at!(alloc, ScriptFault::BadSurface, bad_surface(alloc, script)?);
    fault_at!(
        alloc,
        ScriptFault::BadKind,
        in_actors(alloc, Check::Kinds, script)?
    );
    fault_at!(
        alloc,
        ScriptFault::BadProp,
        in_actors(alloc, Check::Props, script)?
    );
    fault_at!(
        alloc,
        ScriptFault::BadTag,
        in_actors(alloc, Check::Tags, script)?
    );
    if let Some(id) = two_mounters(script) {
        return Ok(Some(ScriptFault::TwoMounters(id)));
    }
    match bad_turn(script) {
        Some(position) => Ok(Some(ScriptFault::BadTurn(position))),
        None => Ok(None),
    }
}

/// The script of a value, or its first fault.
fn read_value(alloc: Global, script: &Value) -> Result<Script, ScriptRefusal>
    ensures read { ReadsScript (script_unless (fault_of_of (view script.now)) (script_of (view script.now))) result }
    ensures sound { IfOk result (λ script. IsSoundScript (plain_script script)) }
    ensures counts { IfOk result (λ script. IsWithinCounts (plain_script script)) }
{
    match fault_of(alloc, script)? {
        Some(fault) => Err(ScriptRefusal::Fault(fault)),
        None => Ok(build_script(alloc, script)?),
    }
}

/// The script that bytes are, in JSON, of version 1 or 2.
///
/// # Errors
///
/// `Fault` where the bytes have a fault: the first in the order of `ScriptFault`, at its first
/// place. `Memory` where there is no memory.
pub fn read_script(alloc: Global, bytes: &[u8]) -> Result<Script, ScriptRefusal>
    ensures read { ReadsScript (script_in bytes.now) result }
    ensures sound { IfOk result (λ script. IsSoundScript (plain_script script)) }
    ensures counts { IfOk result (λ script. IsWithinCounts (plain_script script)) }
{
    if bytes.len() > MAX_BYTES {
        return Err(ScriptRefusal::Fault(ScriptFault::TooLong));
    }
    match Value::from_slice(alloc, bytes) {
        Ok(script) => read_value(alloc, &script),
        Err(error) => {
            if error.is_memory() {
                Err(ScriptRefusal::Memory)
            } else {
                Err(ScriptRefusal::Fault(ScriptFault::NotJson))
            }
        }
    }
}
