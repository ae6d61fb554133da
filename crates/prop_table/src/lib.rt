//! The props of a node, by a table of rows.
#![tactic(auto)]

mod edit;
mod label;
mod lookup;
mod mark;
mod props;
pub mod rows;
mod table;
mod tables;
#[cfg(test)]
mod tests;
mod text;

pub use edit::{PropEdit, widen, widen_edit};
pub use label::{Label, LabelRefusal};
pub use lookup::OutOfRange;
pub use props::{Props, changed};
pub use table::{NODE_TABLE, PropTable, Row, V1, V2};
pub use tables::{node_table, v1_table};

/// The props of a node.
pub type NodeProps = Props<22>;

/// An edit of a node's props.
pub type EditRows = PropEdit<22>;
