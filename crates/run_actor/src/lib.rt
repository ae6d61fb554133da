//! An actor of a run, one event at a time, at the port of its step's surface.
#![tactic(auto)]

mod actors;
mod desks;
mod gate;
mod run;
mod sending;

pub use actors::{Actor, Event};
pub use desks::Desk;
pub use gate::{FreeGate, Gate};
pub use run::run_actor;
pub use sending::actors_are_sent;
