//! A platform that draws its views as lines of text.

ghost use denote.Param.Send.{IsSend};
ghost use denote.Hole.{as_row};
ghost use Rattle.live_list.specs.contracts.text_platform.TextPlatform as platform_type;

use crate::platform::{HostPlatform, PlatformFault};
use host_views::{HostView, ViewRef};
use indexmap::IndexMap;
use shadow_kinds::word;
use std::alloc::Global;
use std::sync::Arc;
use std::{io, str};

/// The tag of the root, in which all other views lie.
const ROOT: u32 = 0;

/// A view on the screen, and the tags of those that lie in it, from back to front.
#[derive(Drop)]
struct TextView {
    /// What it shows; the root shows nothing.
    view: Option<ViewRef>,
    children: Vec<u32>,
}

/// Views that are drawn as lines of text.
#[derive(Drop)]
pub struct TextPlatform {
    alloc: Global,
    views: IndexMap<u32, TextView>,
}

impl TextPlatform {
    /// A platform with the root alone.
    pub fn start(alloc: Global) -> Result<TextPlatform, PlatformFault> {
        let mut platform = TextPlatform {
            alloc,
            views: IndexMap::new(alloc),
        };
        platform.add(ROOT, None)?;
        Ok(platform)
    }

    /// Adds a view with nothing in it.
    fn add(&mut self, tag: u32, view: Option<ViewRef>) -> Result<(), PlatformFault> {
        let children = Vec::new(self.alloc);
        match self.views.insert(tag, TextView { view, children }) {
            Ok(_) => Ok(()),
            Err(_) => Err(PlatformFault::Memory),
        }
    }

    /// How many views there are beside the root.
    pub fn len(&self) -> usize {
        self.views.len().saturating_sub(1)
    }

    /// Draws all views: each on a line of its own, and those that lie in it below, further right.
    pub fn draw(&self, rt: &HostRuntime) -> io::Result<()> {
        let mut ahead = vec![in self.alloc; (ROOT, 0u32)]?;
        for _ in 0..self.views.len() {
            let Some((tag, depth)) = ahead.pop() else {
                return Ok(());
            };
            let Some(text_view) = self.views.get(&tag) else {
                return Ok(());
            };
            if let Some(view) = &text_view.view {
                draw_view(rt, view, depth)?;
            }
            for child in text_view.children.iter().rev() {
                ahead.push((*child, depth.saturating_add(1)))?;
            }
        }
        Ok(())
    }
}

impl HostPlatform for TextPlatform {
    fn create(&mut self, tag: u32, view: &ViewRef) -> Result<(), PlatformFault> {
        let Ok(view) = Arc::try_clone(view) else {
            return Err(PlatformFault::Memory);
        };
        self.add(tag, Some(view))
    }

    fn delete(&mut self, tag: u32) -> Result<(), PlatformFault> {
        match self.views.swap_remove(&tag) {
            Some(_) => Ok(()),
            None => Err(PlatformFault::Missing),
        }
    }

    fn insert(&mut self, parent: u32, tag: u32, index: usize) -> Result<(), PlatformFault> {
        let Some(parent) = self.views.get_mut(&parent) else {
            return Err(PlatformFault::Missing);
        };
        if index > parent.children.len() {
            return Err(PlatformFault::Missing);
        }
        match parent.children.insert(index, tag) {
            Ok(()) => Ok(()),
            Err(_) => Err(PlatformFault::Memory),
        }
    }

    fn remove(&mut self, parent: u32, index: usize) -> Result<(), PlatformFault> {
        let Some(parent) = self.views.get_mut(&parent) else {
            return Err(PlatformFault::Missing);
        };
        if index >= parent.children.len() {
            return Err(PlatformFault::Missing);
        }
        parent.children.remove(index);
        Ok(())
    }

    fn update(&mut self, tag: u32, view: &ViewRef) -> Result<(), PlatformFault> {
        let Ok(view) = Arc::try_clone(view) else {
            return Err(PlatformFault::Memory);
        };
        let Some(text_view) = self.views.get_mut(&tag) else {
            return Err(PlatformFault::Missing);
        };
        text_view.view = Some(view);
        Ok(())
    }
}

/// Draws one view on a line: its kind, its frame in the view around it, how far it is scrolled, and
/// its label.
fn draw_view(rt: &HostRuntime, view: &HostView, depth: u32) -> io::Result<()> {
    for _ in 1..depth {
        print!(rt; "  ")?;
    }
    let (origin, size) = (view.frame.origin, view.frame.size);
    let kind = word(view.kind);
    print!(rt;
        "{kind} {} {} {} {}",
        origin.x, origin.y, size.width, size.height
    )?;
    if let Some(state) = view.state {
        print!(rt; " scrolled to {}", state.point.y)?;
    }
    match str::from_utf8(view.label.bytes()) {
        Ok("") => println!(rt),
        Ok(label) => println!(rt; " {label}"),
        Err(_) => println!(rt),
    }
}

/// A value of that type may go to another thread.
fn needs_send<T: Send>(_none: Option<&T>)
    ensures { IsSend T.row }
{}

/// The platform may go to another thread.
pub fn platforms_are_sent()
    ensures { IsSend (as_row platform_type.the_field) }
{
    needs_send::<TextPlatform>(None);
}
