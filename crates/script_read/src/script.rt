//! A script, and why a text is none.

ghost use Rattle.std.specs.Prelude.{◌≡◌};

use shadow_frame::Size;
use sqlite_items::Items;
use std::alloc::AllocError;
use std::sync::Arc;
use tree_revision::Op;

/// What is run: surfaces, actors, and the turns that the actors take.
#[derive(Drop)]
pub struct Script {
    /// The version of the script's format.
    pub version: u32,
    pub surfaces: Items<SurfacePlan>,
    pub actors: Items<ActorPlan>,
    /// Each turn is the number of an actor.
    pub turns: Items<u32>,
}

/// A surface as a script opens it.
#[derive(Clone, Copy, Debug, PartialEq, Eq)]
pub struct SurfacePlan {
    /// From 1 to 1,000,000.
    pub id: u32,
    /// From 0 to 1,000,000 points each way.
    pub size: Size,
}

/// An actor: its name, and its steps in order.
#[derive(Drop)]
pub struct ActorPlan {
    /// From 1 to 32 lower-case ASCII letters, digits, `_` and `-`.
    pub name: Items<u8>,
    pub steps: Items<Step>,
}

/// A step of an actor, on the surface of that id.
#[derive(Drop)]
pub struct Step {
    pub surface: u32,
    pub act: Act,
}

/// What a step does.
#[derive(Drop)]
pub enum Act {
    Commit(Arc<Op>),
    Hold,
    Mount,
}

/// A place in a script's text, as a JSON pointer; the place of the whole script is `/`.
#[derive(Debug, Drop)]
pub struct Place {
    pub text: Items<u8>,
}

impl PartialEq for Place {
    ghost use Rattle.std.specs.Prelude.{nat_eq};
    ghost use Rattle.std.specs.Ordering.{on};
    ghost use Rattle.std.specs.Cmp.Lexicographic.{pointwise};
    ghost use Rattle.std.specs.Cmp.Rules.{comparing};
    ghost use Rattle.std.proofs.Common.{rules};

    ghost eq = { on (λ place. place.text) (pointwise nat_eq) };

    ghost laws = { Prim.search (comparing, rules) };

    fn eq(&self, other: &Place) -> bool {
        self.text.as_slice() == other.text.as_slice()
    }
}

impl Eq for Place {
    ghost use Rattle.std.specs.Cmp.Rules.{comparing};
    ghost use Rattle.std.proofs.Common.{rules};

    ghost laws = { Prim.search (comparing, rules) };
}

/// Why bytes are no script that is run. Of several the first in this order is answered, at its
/// first place in the order of the document.
#[derive(Debug, PartialEq, Eq, Drop)]
pub enum ScriptFault {
    /// There are more than 4,194,304 bytes.
    TooLong,
    /// The bytes are no JSON value.
    NotJson,
    /// The value there is not of a script's form.
    Shape(Place),
    /// The version is neither 1 nor 2.
    Version,
    /// There are more than 8 surfaces, 16 actors, 2,048 steps or 65,536 turns.
    TooMany(Place),
    /// The actor's name there is not from 1 to 32 lower-case ASCII letters, digits, `_` and `-`, or
    /// an earlier actor has it.
    BadName(Place),
    /// The surface's id, width or height there is out of range, an earlier surface has the id, or
    /// no surface has it.
    BadSurface(Place),
    /// The kind there is none of the five.
    BadKind(Place),
    /// The object of props there names something else than props, or the prop there does not take
    /// its value.
    BadProp(Place),
    /// The tag there is not from 1 to 2,147,483,647.
    BadTag(Place),
    /// Two actors mount the surface of that id.
    TwoMounters(u32),
    /// The turn at that position is not the number of an actor.
    BadTurn(u32),
}

/// Why a script was not read.
#[derive(Debug, PartialEq, Eq, Drop)]
pub enum ScriptRefusal {
    Fault(ScriptFault),
    /// There was no memory.
    Memory,
}

impl From<AllocError> for ScriptRefusal {
    ghost use Rattle.script_read.specs.declared.script.ScriptRefusal.TheVariants.{Memory};

    ghost from_gives = { λ _ refusal. refusal ≡ Memory };

    fn from(_: AllocError) -> ScriptRefusal {
        ScriptRefusal::Memory
    }
}

fn needs_send<T: Send + Sync>(_value: &T) {}

/// Scripts are shared by threads.
pub fn is_shared_by_threads(script: &Script) {
    needs_send(script);
}
