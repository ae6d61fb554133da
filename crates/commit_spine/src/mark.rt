//! What tells one spine from another surface's.

use shadow_frame::Size;

/// What a spine is told once: the surface's first size, how many records there is room for, and how
/// many shares there are.
#[derive(Clone, Copy, Debug)]
pub struct SpineMark {
    pub first: Size,
    pub room: u64,
    pub seats: u32,
}
