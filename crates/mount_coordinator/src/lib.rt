//! Mounting: the base that stands mounted, and the registry of its views.
#![tactic(auto)]

mod coordinator;
#[cfg(test)]
mod entered_tests;
pub mod laws;
#[cfg(test)]
mod tests;

pub use coordinator::{Coordinator, Pulled, Transaction};
