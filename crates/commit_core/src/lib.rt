//! A commit as two events, a look and an offer, and a surface's history in one hand.
#![tactic(auto)]

mod committer;
mod hook;
pub mod laws;
mod plain;
mod plain_parts;
mod sending;

pub use committer::{Committer, HookedCommitter, Progress};
pub use hook::{AsWritten, Hook};
pub use plain_parts::{PlainPass, PlainPort, PlainSpine};
pub use sending::{commits_are_sent, hooked_commits_are_sent};

#[cfg(test)]
mod tests;
