//! What a host calls: a surface that threads share, a handle for each thread that commits, and the
//! mounter of the one thread that mounts.
#![tactic(auto)]

mod handle;
mod mounter;
mod parts;
mod sending;
mod shared;
#[cfg(test)]
mod tests;

pub use handle::{CommitRefusal, Committed};
pub use parts::{Handle, Mounter, Surface};
pub use sending::{handles_are_sent, mounters_are_sent, surfaces_are_sent};
