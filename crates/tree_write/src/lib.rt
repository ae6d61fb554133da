//! Trees that a host writes, node by node: each value is refused by the call that is given it.
#![tactic(auto)]

#[cfg(test)]
mod tests;
mod trees;
mod written;

pub use trees::{Kept, Tree};
pub use written::{PropRefusal, TagOutOfRange, Written};
