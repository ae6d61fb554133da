//! Finite maps from tag to value, in shared pages.
#![tactic(auto)]

mod lent;
mod map;
mod near;
mod owned;
mod page;
mod share;
#[cfg(test)]
mod tests;
mod thin;

pub use map::PageMap;
pub use near::Near;
pub use share::{Joint, Share};

fn needs_send<T: Send + Sync>(_value: &T) {}

/// Maps of values that threads may share are shared by threads.
pub fn is_shared_by_threads<V: Send + Sync>(map: &PageMap<V>, joint: &Joint<V>) {
    needs_send(map);
    needs_send(joint);
}
