//! Which nodes a walk does not enter.

ghost use Rattle.std.specs.Prelude.{◌≡◌};
ghost use Rattle.view_flatten.specs.Sites.{is_context};
ghost use Rattle.view_flatten.specs.Skips.{DoTagsRise, skips};

use crate::walks::{Spot, Walk};

/// Which nodes a walk does not enter.
#[derive(Clone, Copy)]
pub enum Skip<'a> {
    /// Each node is entered.
    Nothing,
    /// Contexts whose stamp is at most that base are not entered.
    Since(u64),
    /// Nodes of these tags, which rise, are not entered.
    Tags(&'a [u32]),
}

impl<'a> Skip<'a> {
    /// Whether a walk does not enter a node. It takes time in log n for n tags.
    pub(crate) fn skips<'b>(&self, walk: &mut Walk<'b>, spot: &Spot<'b>, is_host: bool) -> bool
        requires rise { DoTagsRise self.now }
        requires context { is_host ≡ is_context spot.now.tree.fields }
        ensures skips { result ≡ skips self.now spot.now.stamps spot.now.tree.fields }
        ensures same { walk.new ≡ walk.old }
    {
        match self {
            Skip::Nothing => false,
            Skip::Since(base) => is_host && walk.stamp_of(spot) <= *base,
            Skip::Tags(tags) => tags.binary_search(&spot.tag()).is_ok(),
        }
    }
}
