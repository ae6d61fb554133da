//! A list on three threads: one adds rows, one scrolls, and one mounts and draws what stands mounted.
#![tactic(auto)]

mod app;
mod platform;
mod screen;
mod text_platform;

use app::{AppFault, run_app};
use std::io;

fn main(rt: HostRuntime) -> io::Result<()> {
    match run_app(&rt, rt.alloc()) {
        Ok(shown) => {
            shown.platform.draw(&rt)?;
            println!(rt; "{} commits, {} views", shown.commits, shown.platform.len())
        }
        Err(AppFault::Memory) => println!(rt; "no memory"),
        Err(AppFault::Cancelled) => println!(rt; "a commit was cancelled"),
        Err(AppFault::Full) => println!(rt; "the surface has no room"),
        Err(AppFault::Tree) => println!(rt; "a tree has a wrong value"),
        Err(AppFault::Platform) => println!(rt; "the platform has no such view"),
    }
}
