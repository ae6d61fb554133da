//! A surface's history that threads share by one word and one slot.
//!
//! The word is twice the number of admitted records, and one more while some pass has the turn. The
//! slot has the records and the newest revision. Several passes, each with one thread, step on the
//! word without a lock, and no call waits.
#![tactic(auto)]

mod mark;
mod pass;
mod rule;
mod sending;
mod spine;
mod spine_parts;
mod spine_port;
mod steps;
mod store;
#[cfg(test)]
mod tests;

pub use pass::SpinePass;
pub use sending::{passes_are_sent, spines_are_shared};
pub use spine_parts::Spine;
pub use spine_port::SpinePort;
pub use store::Store;
