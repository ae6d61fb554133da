//! Watchers, which are told of each frame that changed.

ghost use Rattle.std.specs.Prelude.{◌≡◌, [], map, IfOk};
ghost use Rattle.frame_watch.specs.MemoryWatchers.{Keeps, watcher_view_of};
ghost use Rattle.frame_watch.specs.Watchers.{WatcherView, Hears, HearsEach, AreTold, entries_of};

use crate::FrameChange;
use counts::raise;
use std::alloc::{AllocError, Global};
use std::marker::Model;

/// Hears of frames that changed, one a call.
///
/// A watcher has a count of refusals that never falls and, where it tells them, its entries.
pub trait Watcher: Drop {
    ghost watcher_view: { Self → WatcherView };

    /// Adds an entry: the frame changed on that surface, by the mount after which the revision of
    /// that number stands there. After a refusal nothing is added and the count rose.
    fn changed(&mut self, surface: u32, to: u64, change: &FrameChange) -> Result<(), AllocError>
        ensures { Hears (record { surface = surface; to = to; change = change.now })
            (watcher_view self.old) (watcher_view self.new) result };
}

/// What a watcher heard: a surface, the number of the revision that stands mounted there from then
/// on, and a frame that changed.
#[derive(Clone, Copy, Debug, PartialEq, Eq)]
pub struct Heard {
    pub surface: u32,
    pub to: u64,
    pub change: FrameChange,
}

/// A watcher that keeps what it hears in memory, and tells it.
///
/// It refuses where there is no memory for one more entry, and nowhere else.
#[derive(Drop)]
pub struct MemoryWatcher {
    heard: Vec<Heard>,
    refusals: u64,
}

impl Model for MemoryWatcher {
    ghost use Rattle.frame_watch.specs.MemoryWatchers.{MemoryWatcherState};

    ghost Value = { MemoryWatcherState };

    ghost view = { λ watcher. record { heard = watcher.heard.items; refusals = watcher.refusals } };
}

impl MemoryWatcher {
    /// It has heard nothing, and refused nothing.
    pub fn start(alloc: Global) -> Result<MemoryWatcher, AllocError>
        ensures { IfOk result (λ watcher. watcher ≡ record { heard = []; refusals = 0 }) }
    {
        Ok(MemoryWatcher {
            heard: Vec::new(alloc),
            refusals: 0,
        })
    }

    /// What it heard, in its order.
    pub fn heard(&self) -> &[Heard]
        ensures { result.now ≡ self.now.heard }
    {
        &self.heard
    }

    /// How often it refused. From 2^64 - 1 on the count stands still.
    pub fn refusals(&self) -> u64
        ensures { result ≡ self.now.refusals }
    {
        self.refusals
    }
}

impl Watcher for MemoryWatcher {
    ghost watcher_view = { watcher_view_of };

    fn changed(&mut self, surface: u32, to: u64, change: &FrameChange) -> Result<(), AllocError>
        ensures told { Hears (record { surface = surface; to = to; change = change.now })
            (watcher_view_of self.old) (watcher_view_of self.new) result }
        ensures exact { Keeps (record { surface = surface; to = to; change = change.now })
            self.old self.new result }
    {
        let entry = Heard {
            surface,
            to,
            change: *change,
        };
        if self.heard.push(entry).is_err() {
            self.refusals = raise(self.refusals, 1);
            return Err(AllocError);
        }
        Ok(())
    }
}

/// Tells each watcher of each change, in their order, on that surface, after the mount of the
/// revision of that number.
///
/// After a refusal, which comes only where the count of one of the watchers rose, each heard the
/// first of the changes, none or all perhaps. Nothing is allocated here.
pub fn tell(
    watchers: &mut Vec<Box<dyn Watcher>>,
    surface: u32,
    to: u64,
    list: &[FrameChange],
) -> Result<(), AllocError>
    ensures { AreTold (entries_of surface to list.now)
        (map watcher_view watchers.old.items) (map watcher_view watchers.new.items) result }
{
    for at in 0..watchers.len() {
        tell_one(&mut watchers[at], surface, to, list)?;
    }
    Ok(())
}

/// Tells one watcher of each change, in their order.
fn tell_one(
    watcher: &mut Box<dyn Watcher>,
    surface: u32,
    to: u64,
    list: &[FrameChange],
) -> Result<(), AllocError>
    ensures { HearsEach (entries_of surface to list.now)
        (watcher_view watcher.old) (watcher_view watcher.new) result }
{
    for change in list {
        tell_change(watcher, surface, to, change)?;
    }
    Ok(())
}

/// Tells one watcher of one change.
fn tell_change(
    watcher: &mut Box<dyn Watcher>,
    surface: u32,
    to: u64,
    change: &FrameChange,
) -> Result<(), AllocError>
    ensures { Hears (record { surface = surface; to = to; change = change.now })
        (watcher_view watcher.old) (watcher_view watcher.new) result }
{
    watcher.changed(surface, to, change)
}
