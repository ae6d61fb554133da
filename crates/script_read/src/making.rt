//! Scripts that are made from a number.

ghost use Rattle.std.specs.Prelude.{◌≡◌, ◌+◌, ◌%◌, ◌<◌, ◌≤◌, [], ◌∷◌, map, Some, None, slice_set, IfOk};
ghost use Rattle.prop_table.specs.Table.{IsInRow, v2_rules};
ghost use Rattle.prop_table.specs.Rules.{rule_at};
ghost use Rattle.tree_build.specs.Script.{ScriptForest, written, kept, kept_with as kept_with_of, in_front, script_forest};
ghost use Rattle.tree_revision.specs.Records.{plain_op};
ghost use Rattle.script_read.specs.Plain.{plain_step, plain_actor, plain_surface, plain_script};
ghost use Rattle.script_read.specs.Making.{IsDrawn, drawn_list, for_each_below, starts_but, image_and_text as image_and_text_of, view_before, first_tree, turned_tree, commit_on, colored as colored_of, turned as turned_of, resized as resized_of, later_step as later_step_of, scroll_step as scroll_step_of, mount_step, drawn_below, tree_steps as tree_steps_of, scroll_steps as scroll_steps_of, made_surfaces, made_actors, made_script};
ghost use Rattle.script_read.specs.Writable.{IsWritable};

use crate::draws::Draws;
use crate::script::{Act, ActorPlan, Script, Step, SurfacePlan};
use native_state::StateChange;
use prop_table::rows::{BACKGROUND, BOTTOM, HEIGHT, LEFT, RIGHT, TOP, WIDTH};
use prop_table::{EditRows, Label, NodeProps, node_table};
use shadow_frame::{Point, Size};
use shadow_kinds::Kind;
use shadow_node::NodeEdit;
use sqlite_items::Items;
use std::alloc::{AllocError, Global};
use std::sync::Arc;
use tree_build::ScriptNode;
use tree_revision::Op;

/// How many views the list has.
const VIEWS: u32 = 200;

/// How many steps each actor has.
const STEPS: u32 = 100;

/// How many steps follow a first tree.
const LATER_STEPS: u32 = 99;

/// How many turns there are.
const TURNS: u32 = 2000;

/// The props with that number in that row.
fn with_row(props: NodeProps, row: usize, value: i64) -> NodeProps
    requires row { row < 22 }
    requires value { IsInRow (rule_at v2_rules row) (Some value) }
    ensures { result ≡ slice_set props row (Some value) }
{
    match node_table().set(&props, row, Some(value)) {
        Ok(after) => after,
        Err(_) => unreachable!(),
    }
}

/// Props at their start but for a place.
fn at(left: i64, top: i64) -> NodeProps
    requires left { IsInRow (rule_at v2_rules 0) (Some left) }
    requires top { IsInRow (rule_at v2_rules 1) (Some top) }
    ensures { result ≡ starts_but ((0, left) ∷ (1, top) ∷ []) }
{
    with_row(with_row(node_table().start(), LEFT, left), TOP, top)
}

/// A written node without a label.
fn plain_node(tag: u32, kind: Kind, props: NodeProps, children: Items<ScriptNode>) -> ScriptNode
    ensures { (rest : ScriptForest) → in_front result rest ≡ written (record { tag = tag; kind = kind; props = props; label = [] }) (script_forest children) rest }
{
    ScriptNode::Written {
        tag,
        kind,
        props,
        label: Label::none(),
        children,
    }
}

/// The children of view number `i`, an image and a text.
fn image_and_text(alloc: Global, i: u32) -> Result<Items<ScriptNode>, AllocError>
    requires { i < 200 }
    ensures { IfOk result (λ nodes. script_forest nodes ≡ image_and_text_of i) }
{
    let image = with_row(with_row(at(4, 4), WIDTH, 32), HEIGHT, 32);
    let text = with_row(with_row(at(40, 10), RIGHT, 4), HEIGHT, 20);
    let mut nodes = Items::new(alloc);
    nodes.push(plain_node(1000 + i, Kind::Image, image, Items::new(alloc)))?;
    nodes.push(plain_node(2000 + i, Kind::Text, text, Items::new(alloc)))?;
    Ok(nodes)
}

/// View number `i`.
fn view_node(alloc: Global, i: u32) -> Result<ScriptNode, AllocError>
    requires { i < 200 }
    ensures { IfOk result (λ node. in_front node ≡ view_before i) }
{
    let props = with_row(with_row(at(0, 40 * i as i64), RIGHT, 0), HEIGHT, 40);
    let children = image_and_text(alloc, i)?;
    Ok(plain_node(100 + i, Kind::View, props, children))
}

/// The 200 views.
#[tactic(auto, using(crate::proofs::Chains::none_each))]
fn view_nodes(alloc: Global) -> Result<Items<ScriptNode>, AllocError>
    ensures { IfOk result (λ nodes. map in_front nodes ≡ for_each_below 200 view_before) }
{
    let mut nodes = Items::new(alloc);
    for i in 0..VIEWS {
        nodes.push(view_node(alloc, i)?)?;
    }
    Ok(nodes)
}

/// A list that scrolls, with the 200 views in it.
fn first_nodes(alloc: Global) -> Result<Items<ScriptNode>, AllocError>
    ensures { IfOk result (λ nodes. script_forest nodes ≡ first_tree) }
{
    let props = with_row(with_row(at(0, 0), RIGHT, 0), BOTTOM, 0);
    let views = view_nodes(alloc)?;
    let mut nodes = Items::new(alloc);
    nodes.push(plain_node(2, Kind::Scroll, props, views))?;
    Ok(nodes)
}

/// The node of that tag, as it is.
fn unchanged_node(tag: u32) -> ScriptNode
    ensures { in_front result ≡ kept tag None }
{
    ScriptNode::Kept {
        tag,
        change: None,
        children: None,
    }
}

/// The node of that tag as it is, with other children.
#[tactic(auto, using(tree_build::proofs::Fronts::front_kept_with))]
fn kept_with(tag: u32, children: Items<ScriptNode>) -> ScriptNode
    ensures { (rest : ScriptForest) → in_front result rest ≡ kept_with_of tag None (script_forest children) rest }
{
    ScriptNode::Kept {
        tag,
        change: None,
        children: Some(children),
    }
}

/// The 200 views as they are, from view number `first` on and round.
#[tactic(auto, using(crate::proofs::Chains::none_each))]
fn kept_views(alloc: Global, first: u32) -> Result<Items<ScriptNode>, AllocError>
    requires { first < 200 }
    ensures { IfOk result (λ nodes. map in_front nodes ≡ for_each_below 200 (λ i. kept (100 + (first + i) % 200) None)) }
{
    let mut nodes = Items::new(alloc);
    for i in 0..VIEWS {
        nodes.push(unchanged_node(100 + (first + i) % VIEWS))?;
    }
    Ok(nodes)
}

/// The list as it is, with its views turned round.
fn turned_nodes(alloc: Global, first: u32) -> Result<Items<ScriptNode>, AllocError>
    requires { first < 200 }
    ensures { IfOk result (λ nodes. script_forest nodes ≡ turned_tree first) }
{
    let views = kept_views(alloc, first)?;
    let mut nodes = Items::new(alloc);
    nodes.push(kept_with(2, views))?;
    Ok(nodes)
}

/// A step that commits.
fn commit_step(alloc: Global, surface: u32, op: Op) -> Result<Step, AllocError>
    ensures { IfOk result (λ step. plain_step step ≡ commit_on surface (plain_op op)) }
{
    let op = Arc::new(alloc, op)?;
    Ok(Step {
        surface,
        act: Act::Commit(op),
    })
}

/// Another background for one of the views; the view is drawn first.
fn colored(alloc: Global, surface: u32, draws: &mut Draws) -> Result<Step, AllocError>
    ensures { IfOk result (λ step. IsDrawn (colored_of surface draws.old.number) (plain_step step) draws.new.number) }
{
    let tag = 100 + draws.below(VIEWS);
    let color = draws.below(16) as i64 * 268_435_456;
    let Ok(rows) = node_table().edit(&EditRows::empty(), BACKGROUND, Some(color)) else {
        unreachable!()
    };
    let change = NodeEdit { rows, label: None };
    commit_step(alloc, surface, Op::Props { tag, change })
}

/// The views turned round, from a view that is drawn.
fn turned(alloc: Global, surface: u32, draws: &mut Draws) -> Result<Step, AllocError>
    ensures { IfOk result (λ step. IsDrawn (turned_of surface draws.old.number) (plain_step step) draws.new.number) }
{
    let nodes = turned_nodes(alloc, draws.below(VIEWS))?;
    commit_step(alloc, surface, Op::Complete { nodes })
}

/// Another size of the surface; the width is drawn first.
fn resized(alloc: Global, surface: u32, draws: &mut Draws) -> Result<Step, AllocError>
    ensures { IfOk result (λ step. IsDrawn (resized_of surface draws.old.number) (plain_step step) draws.new.number) }
{
    let width = 300 + draws.below(200) as i64;
    let height = 300 + draws.below(200) as i64;
    let size = Size { width, height };
    commit_step(alloc, surface, Op::Size { size })
}

/// One of these three, which is drawn.
fn later_step(alloc: Global, surface: u32, draws: &mut Draws) -> Result<Step, AllocError>
    ensures { IfOk result (λ step. IsDrawn (later_step_of surface draws.old.number) (plain_step step) draws.new.number) }
{
    match draws.below(3) {
        0 => colored(alloc, surface, draws),
        1 => turned(alloc, surface, draws),
        _ => resized(alloc, surface, draws),
    }
}

/// A first tree, and 99 later steps.
#[tactic(auto, using(crate::proofs::Chains::none_drawn))]
fn tree_steps(alloc: Global, surface: u32, draws: &mut Draws) -> Result<Items<Step>, AllocError>
    ensures { IfOk result (λ steps. IsDrawn (tree_steps_of surface 99 draws.old.number) (map plain_step steps) draws.new.number) }
{
    let nodes = first_nodes(alloc)?;
    let mut steps = Items::new(alloc);
    steps.push(commit_step(alloc, surface, Op::Complete { nodes })?)?;
    for _ in 0..LATER_STEPS {
        steps.push(later_step(alloc, surface, draws)?)?;
    }
    Ok(steps)
}

/// Scrolls the list by -10 to 10 points.
fn scroll_step(alloc: Global, surface: u32, draws: &mut Draws) -> Result<Step, AllocError>
    ensures { IfOk result (λ step. IsDrawn (scroll_step_of surface draws.old.number) (plain_step step) draws.new.number) }
{
    let y = draws.below(21) as i64 - 10;
    let by = Point { x: 0, y };
    let change = StateChange::Add { by };
    commit_step(alloc, surface, Op::State { tag: 2, change })
}

/// 100 such steps.
#[tactic(auto, using(crate::proofs::Chains::none_drawn))]
fn scroll_steps(alloc: Global, surface: u32, draws: &mut Draws) -> Result<Items<Step>, AllocError>
    ensures { IfOk result (λ steps. IsDrawn (scroll_steps_of surface draws.old.number) (map plain_step steps) draws.new.number) }
{
    let mut steps = Items::new(alloc);
    for _ in 0..STEPS {
        steps.push(scroll_step(alloc, surface, draws)?)?;
    }
    Ok(steps)
}

/// 100 mounts, on the two surfaces in turn.
#[tactic(auto, using(crate::proofs::Chains::none_each))]
fn mount_steps(alloc: Global) -> Result<Items<Step>, AllocError>
    ensures { IfOk result (λ steps. map plain_step steps ≡ for_each_below 100 mount_step) }
{
    let mut steps = Items::new(alloc);
    for i in 0..STEPS {
        let surface = 1 + i % 2;
        let act = Act::Mount;
        steps.push(Step { surface, act })?;
    }
    Ok(steps)
}

/// 2,000 turns of the five actors.
#[tactic(auto, using(crate::proofs::Chains::none_drawn))]
fn drawn_turns(alloc: Global, draws: &mut Draws) -> Result<Items<u32>, AllocError>
    ensures { IfOk result (λ turns. IsDrawn (drawn_list (drawn_below 5) 2000 draws.old.number) turns draws.new.number) }
{
    let mut turns = Items::new(alloc);
    for _ in 0..TURNS {
        turns.push(draws.below(5))?;
    }
    Ok(turns)
}

fn surface(id: u32, width: i64, height: i64) -> SurfacePlan
    ensures { plain_surface result ≡ record { id = id; size = record { width = width; height = height } } }
{
    let size = Size { width, height };
    SurfacePlan { id, size }
}

/// The two surfaces.
fn surfaces(alloc: Global) -> Result<Items<SurfacePlan>, AllocError>
    ensures { IfOk result (λ surfaces. map plain_surface surfaces ≡ made_surfaces) }
{
    let mut surfaces = Items::new(alloc);
    surfaces.push(surface(1, 320, 480))?;
    surfaces.push(surface(2, 480, 320))?;
    Ok(surfaces)
}

/// An actor of that name.
fn actor(alloc: Global, name: &[u8], steps: Items<Step>) -> Result<ActorPlan, AllocError>
    ensures { IfOk result (λ actor. plain_actor actor ≡ record { name = name.now; steps = map plain_step steps }) }
{
    let name = Items::from_slice(alloc, name)?;
    Ok(ActorPlan { name, steps })
}

/// The actors, each with its steps.
fn actors(alloc: Global, draws: &mut Draws) -> Result<Items<ActorPlan>, AllocError>
    ensures { IfOk result (λ actors. IsDrawn (made_actors draws.old.number) (map plain_actor actors) draws.new.number) }
{
    let mut actors = Items::new(alloc);
    actors.push(actor(alloc, b"js1", tree_steps(alloc, 1, draws)?)?)?;
    actors.push(actor(alloc, b"js2", tree_steps(alloc, 2, draws)?)?)?;
    actors.push(actor(alloc, b"st1", scroll_steps(alloc, 1, draws)?)?)?;
    actors.push(actor(alloc, b"st2", scroll_steps(alloc, 2, draws)?)?)?;
    actors.push(actor(alloc, b"ui", mount_steps(alloc)?)?)?;
    Ok(actors)
}

/// The script of a number: two surfaces, and five actors with 100 steps each that take 2,000 turns.
/// The number decides all that is drawn.
pub fn make_script(alloc: Global, number: u32) -> Result<Script, AllocError>
    requires { number ≤ 1000000 }
    ensures script { IfOk result (λ script. plain_script script ≡ made_script number) }
    ensures writable { IfOk result (λ script. IsWritable (plain_script script)) }
{
    let mut draws = Draws::start(number);
    let surfaces = surfaces(alloc)?;
    let actors = actors(alloc, &mut draws)?;
    let turns = drawn_turns(alloc, &mut draws)?;
    Ok(Script {
        version: 1,
        surfaces,
        actors,
        turns,
    })
}
