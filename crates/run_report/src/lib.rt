//! Journals of runs, and their texts.
#![tactic(auto)]

mod answers;
mod history;
mod journal;
pub mod laws;
mod line;
pub mod mounting;
mod mounts;
mod pieces;
mod report;
mod summary;
#[cfg(test)]
mod tests;
mod views;

pub use journal::{ActorPart, Journal, MountPart, StepName, StepPart, SurfacePart};
pub use pieces::{Piece, write_pieces, write_tag_line};
pub use report::write_report;
pub use summary::write_summary;
