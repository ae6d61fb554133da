//! A walk over a forest that counts the nodes it enters.

ghost use Rattle.std.specs.Prelude.{◌≡◌, ◌<◌, ◌≤◌, ◌^◌};
ghost use Rattle.std.specs.Iterator.{at_most};
ghost use Rattle.prop_table.specs.Table.{AreNodeProps};
ghost use Rattle.shadow_node.specs.Forest.{node_count};
ghost use Rattle.shadow_node.specs.Stamps.{stamp_in};
ghost use Rattle.view_flatten.specs.Walks.{HandsOut, entered_more};

use counts::raise;
use native_state::StateCell;
use page_map::Near;
use prop_table::{Label, NodeProps};
use shadow_frame::Rect;
use shadow_kinds::Kind;
use shadow_node::{Forest, NodeRef, Stamps};
use std::marker::Model;

/// A walk over a forest; it counts the nodes whose children it has handed out.
#[derive(Drop)]
pub struct Walk<'a> {
    forest: &'a Forest,
    stamps: &'a Stamps,
    entered: u64,
    /// Where the next stamp is looked for first.
    near: Near,
}

/// Some nodes of a walk, in order.
#[derive(Drop)]
pub struct Spots<'a> {
    nodes: &'a [NodeRef],
    stamps: &'a Stamps,
}

/// A node of a walk, without what lies below it.
#[derive(Drop)]
pub struct Spot<'a> {
    node: &'a NodeRef,
    stamps: &'a Stamps,
}

impl<'a> Model for Walk<'a> {
    ghost use Rattle.view_flatten.specs.Walks.{PlainWalk, coded_walk};

    ghost Value = { PlainWalk };

    ghost coded = { coded_walk };

    ghost view = { λ walk. record { forest = walk.forest.now; stamps = walk.stamps.now; entered = walk.entered } };
}

impl<'a> Model for Spots<'a> {
    ghost use Rattle.shadow_node.specs.Falls.{forest_at};
    ghost use Rattle.view_flatten.specs.Walks.{PlainSpots, coded_spots};

    ghost Value = { PlainSpots };

    ghost coded = { coded_spots };

    ghost view = { λ spots. record { forest = forest_at spots.nodes.now; stamps = spots.stamps.now } };
}

impl<'a> Model for Spot<'a> {
    ghost use Rattle.view_flatten.specs.Walks.{PlainSpot, coded_spot};

    ghost Value = { PlainSpot };

    ghost coded = { coded_spot };

    ghost view = { λ spot. record { tree = spot.node.now.value; stamps = spot.stamps.now } };
}

impl<'a> Walk<'a> {
    /// A walk that has entered nothing yet. It takes no memory.
    pub fn over(forest: &'a Forest, stamps: &'a Stamps) -> Walk<'a>
        ensures { result ≡ record { forest = forest.now; stamps = stamps.now; entered = 0 } }
    {
        Walk {
            forest,
            stamps,
            entered: 0,
            near: Near::start(),
        }
    }

    /// The same walk, which goes on by itself.
    pub fn again(&self) -> Walk<'a>
        ensures { result ≡ self.now }
    {
        Walk {
            forest: self.forest,
            stamps: self.stamps,
            entered: self.entered,
            near: self.near,
        }
    }

    /// The top nodes in order. They are handed out without being counted.
    pub fn top(&self) -> Spots<'a>
        ensures { result ≡ record { forest = self.now.forest; stamps = self.now.stamps } }
    {
        Spots {
            nodes: self.forest.nodes(),
            stamps: self.stamps,
        }
    }

    /// Enters a node: its children in order, with one more node counted.
    ///
    /// There is no other way to the children of a node.
    pub fn enter(&mut self, spot: &Spot<'a>) -> Spots<'a>
        ensures children { result ≡ record { forest = spot.now.tree.children; stamps = spot.now.stamps } }
        ensures counted { self.new ≡ entered_more self.old 1 }
    {
        self.entered = raise(self.entered, 1);
        spot.children()
    }

    /// The stamp of a node, which is looked up when it is asked; 0 where the walk's stamps have none.
    ///
    /// It is fast where nodes are asked in the order of their tags.
    pub fn stamp_of(&mut self, spot: &Spot<'a>) -> u64
        ensures stamp { result ≡ stamp_in spot.now.stamps spot.now.tree.fields.fields.tag }
        ensures same { self.new ≡ self.old }
    {
        spot.stamps
            .get_near(&mut self.near, spot.tag())
            .unwrap_or(0)
    }

    /// How many nodes were entered; from 2^64 - 1 on the count stands still.
    pub fn entered(&self) -> u64
        ensures { result ≡ self.now.entered }
    {
        self.entered
    }
}

impl<'a> Iterator for Spots<'a> {
    type Item = Spot<'a>;

    ghost next_gives = { HandsOut };

    ghost remaining = { λ spots. at_most (node_count spots.forest) };

    fn next(&mut self) -> Option<Spot<'a>> {
        let (node, others) = self.nodes.split_first()?;
        self.nodes = others;
        Some(Spot {
            node,
            stamps: self.stamps,
        })
    }
}

impl<'a> Spot<'a> {
    /// From 1 to 2,147,483,647.
    pub fn tag(&self) -> u32
        ensures tag { result ≡ self.now.tree.fields.fields.tag }
        ensures low { 1 ≤ result }
        ensures high { result < 2 ^ 31 }
    {
        self.node.tag()
    }

    pub fn kind(&self) -> Kind
        ensures { result ≡ self.now.tree.fields.fields.kind }
    {
        self.node.kind()
    }

    pub fn props(&self) -> &NodeProps
        ensures props { result.now ≡ self.now.tree.fields.fields.props }
        ensures in_range { AreNodeProps result.now }
    {
        self.node.props()
    }

    pub fn label(&self) -> &Label
        ensures { result.now ≡ self.now.tree.fields.fields.label }
    {
        self.node.label()
    }

    pub fn state(&self) -> Option<StateCell>
        ensures { result ≡ self.now.tree.fields.state }
    {
        self.node.state()
    }

    /// The frame in the parent.
    pub fn frame(&self) -> Rect
        ensures { result ≡ self.now.tree.fields.frame }
    {
        self.node.frame()
    }

    /// The node's stamp, which is looked up when it is asked; 0 where the walk's stamps have none.
    pub fn stamp(&self) -> u64
        ensures { result ≡ stamp_in self.now.stamps self.now.tree.fields.fields.tag }
    {
        self.stamps.get(self.tag()).unwrap_or(0)
    }

    /// The same node.
    pub fn again(&self) -> Spot<'a>
        ensures { result ≡ self.now }
    {
        Spot {
            node: self.node,
            stamps: self.stamps,
        }
    }

    /// The nodes below, in order.
    fn children(&self) -> Spots<'a>
        ensures { result ≡ record { forest = self.now.tree.children; stamps = self.now.stamps } }
    {
        Spots {
            nodes: self.node.children().nodes(),
            stamps: self.stamps,
        }
    }
}
