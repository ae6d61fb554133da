//! What tools ask of a surface: where a node is, what lies over it, and what its history leads to.
#![tactic(auto)]

mod hitting;
pub mod laws;
mod measuring;
mod places;
mod rebuild;
#[cfg(test)]
mod tests;

pub use hitting::hit;
pub use measuring::measure;
pub use rebuild::Rebuild;
