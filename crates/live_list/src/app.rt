//! The app: a surface, two threads that commit to it, and one that mounts it.

ghost use Rattle.tree_revision.specs.InRange.{IsOpInRange};
ghost use Rattle.tree_revision.specs.Records.{plain_op};

use crate::platform::{HostPlatform, PlatformFault, follow};
use crate::screen::{LIST, list_with};
use crate::text_platform::{TextPlatform, platforms_are_sent};
use native_state::StateChange;
use shadow_frame::{Point, Size};
use std::alloc::{AllocError, Global};
use std::sync::{Arc, Wait};
use std::thread;
use std::thread::Threads;
use surface::{Committed, Handle, Mounter, Surface, handles_are_sent, mounters_are_sent};
use tree_revision::Op;

/// How many rows come, and how often the list is scrolled.
const ROWS: u32 = 12;

const SCROLLS: u32 = 8;
/// How often the mounting thread looks while the others commit.
const LOOKS: u32 = 40;
/// How far one scroll goes, in points.
const STEP: Point = Point { x: 0, y: 5 };

const SCREEN: Size = Size {
    width: 200,
    height: 100,
};

/// Why the app ended early.
#[derive(Clone, Copy, Debug, PartialEq, Eq)]
pub enum AppFault {
    Memory,
    /// A commit was cancelled.
    Cancelled,
    /// The surface has no permit for one more commit.
    Full,
    /// A tree could not be written.
    Tree,
    /// The platform did not follow a mutation.
    Platform,
}

impl From<AllocError> for AppFault {
    fn from(_: AllocError) -> AppFault {
        AppFault::Memory
    }
}

impl From<PlatformFault> for AppFault {
    fn from(fault: PlatformFault) -> AppFault {
        match fault {
            PlatformFault::Memory => AppFault::Memory,
            PlatformFault::Missing => AppFault::Platform,
        }
    }
}

/// Commits a change, where there is a permit for it.
fn commit<R: Threads + Wait>(
    rt: &R,
    alloc: Global,
    handle: &mut Handle,
    op: Op,
) -> Result<(), AppFault>
    requires { IsOpInRange (plain_op op) }
{
    if handle.permits() == 0 {
        return Err(AppFault::Full);
    }
    let Ok(op) = Arc::new(alloc, op) else {
        return Err(AppFault::Memory);
    };
    match handle.commit(rt, alloc, op)? {
        Committed::Admitted { .. } => Ok(()),
        Committed::Cancelled { .. } => Err(AppFault::Cancelled),
    }
}

/// Adds the rows, one commit each.
fn add_rows<R: Threads + Wait>(rt: &R, alloc: Global, handle: &mut Handle) -> Result<(), AppFault> {
    for row in 1..=ROWS {
        let Some(op) = list_with(alloc, row) else {
            return Err(AppFault::Tree);
        };
        commit(rt, alloc, handle, op)?;
    }
    Ok(())
}

/// Scrolls the list, one commit each time.
fn scroll<R: Threads + Wait>(rt: &R, alloc: Global, handle: &mut Handle) -> Result<(), AppFault> {
    for _ in 0..SCROLLS {
        let change = StateChange::Add { by: STEP };
        commit(rt, alloc, handle, Op::State { tag: LIST, change })?;
    }
    Ok(())
}

/// Mounts what is newest, and has the platform follow.
fn mount<R: Wait>(
    rt: &R,
    alloc: Global,
    mounter: &mut Mounter,
    platform: &mut TextPlatform,
) -> Result<(), AppFault> {
    if let Some(transaction) = mounter.mount(rt, alloc)? {
        for mutation in transaction.mutations.as_slice() {
            follow(platform, mutation)?;
        }
    }
    Ok(())
}

/// Mounts again and again while others commit.
fn show<R: Wait>(
    rt: &R,
    alloc: Global,
    mounter: &mut Mounter,
    platform: &mut TextPlatform,
) -> Result<(), AppFault> {
    for _ in 0..LOOKS {
        mount(rt, alloc, mounter, platform)?;
        thread::yield_now();
    }
    Ok(())
}

/// What the threads of the app keep, each its own part.
#[derive(Drop)]
struct App {
    adder: Handle,
    scroller: Handle,
    mounter: Mounter,
    platform: TextPlatform,
}

impl App {
    /// A surface with its two handles, and a mounter with the root alone on the platform.
    fn open(alloc: Global) -> Result<App, AppFault> {
        let (mut owner, first) = Surface::open(alloc, SCREEN, 1 + u64::from(ROWS + SCROLLS), 4)?;
        let adder = owner.split(1 + u64::from(ROWS))?;
        let scroller = owner.split(u64::from(SCROLLS))?;
        let mounter = owner.split(0)?;
        Ok(App {
            adder: Handle::start(adder, 0, first.share()?),
            scroller: Handle::start(scroller, 1, first.share()?),
            mounter: Mounter::start(alloc, mounter, first)?,
            platform: TextPlatform::start(alloc)?,
        })
    }

    /// Runs the threads to their ends.
    fn work<R: Threads + Wait + Sync>(&mut self, rt: &R, alloc: Global) -> Result<(), AppFault> {
        let App {
            adder,
            scroller,
            mounter,
            platform,
        } = self;
        handles_are_sent();
        mounters_are_sent();
        platforms_are_sent();
        let (added, others) = thread::join(
            rt,
            || add_rows(rt, alloc, adder),
            || scroll_and_show(rt, alloc, scroller, mounter, platform),
        );
        added?;
        others
    }
}

/// Scrolls the list on one thread, and mounts on another.
fn scroll_and_show<R: Threads + Wait + Sync>(
    rt: &R,
    alloc: Global,
    scroller: &mut Handle,
    mounter: &mut Mounter,
    platform: &mut TextPlatform,
) -> Result<(), AppFault> {
    handles_are_sent();
    mounters_are_sent();
    platforms_are_sent();
    let (scrolled, shown) = thread::join(
        rt,
        || scroll(rt, alloc, scroller),
        || show(rt, alloc, mounter, platform),
    );
    scrolled?;
    shown
}

/// What stands at the end.
#[derive(Drop)]
pub struct Shown {
    pub platform: TextPlatform,
    /// The number of the revision that stands mounted, which is how many commits were admitted.
    pub commits: u64,
}

/// Runs the app to its end: all rows came, the list was scrolled, and all that stands mounted is on
/// the platform.
pub fn run_app<R: Threads + Wait + Sync>(rt: &R, alloc: Global) -> Result<Shown, AppFault> {
    let mut app = App::open(alloc)?;
    let Some(empty) = list_with(alloc, 0) else {
        return Err(AppFault::Tree);
    };
    commit(rt, alloc, &mut app.adder, empty)?;
    app.work(rt, alloc)?;
    mount(rt, alloc, &mut app.mounter, &mut app.platform)?;
    let App {
        mounter,
        platform,
        ..
    } = app;
    Ok(Shown {
        platform,
        commits: mounter.base(),
    })
}
