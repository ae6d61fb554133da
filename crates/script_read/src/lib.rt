//! Scripts: what is run, as it is read from JSON.
#![tactic(auto)]

// Answers the place that was found, if there is one.
macro_rules! stop_at {
    ($found:expr) => {
        if let Some(place) = $found {
            return Ok(Some(place));
        }
    };
}

mod build;
mod draws;
mod faults;
mod making;
#[cfg(test)]
mod making_tests;
mod members;
mod nodes;
mod places;
mod props;
mod read;
mod script;
mod shape;
#[cfg(test)]
mod tests;
mod walk;
mod whole;
mod words;
mod writing;
#[cfg(test)]
mod writing_tests;

pub use making::make_script;
pub use read::read_script;
pub use script::{Act, ActorPlan, Place, Script, ScriptFault, ScriptRefusal, Step, SurfacePlan};
pub use writing::write_script;
