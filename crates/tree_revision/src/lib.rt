//! Revisions of a surface, and the records that lead from one to the next.
#![tactic(auto)]

mod after;
mod family_changes;
pub mod laws;
mod next;
mod port;
mod record;
mod revision;
mod stamping;
#[cfg(test)]
mod tests;

pub use next::{PrepareRefusal, prepare};
pub use port::{LookRefusal, OfferRefusal, Port};
pub use record::{Answer, Cancel, Op, Record};
pub use revision::Revision;
