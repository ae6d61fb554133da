//! A revision of a surface.

ghost use Rattle.std.specs.Prelude.{◌≡◌, [], IfOk};
ghost use Rattle.tree_settle.specs.Limits.{IsSizeInRange, IsForestInLimits};
ghost use Rattle.tree_revision.specs.Settled.{opened};
ghost use Rattle.tree_revision.specs.Stands.{StandsFor};

use native_state::FamilyTable;
use shadow_frame::Size;
use shadow_node::{Forest, Stamps};
use std::alloc::{AllocError, Global};
use std::marker::Model;
use std::sync::Arc;

/// What a revision is made of.
#[derive(Drop)]
pub(crate) struct Content {
    pub(crate) number: u64,
    pub(crate) size: Size,
    pub(crate) forest: Forest,
    pub(crate) families: FamilyTable,
    /// Of each mounted tag the number from which on it stands as it does.
    pub(crate) stamps: Stamps,
}

impl Model for Content {
    ghost use Rattle.tree_revision.specs.Settled.{SettledRevision, coded_revision, IsWithinLimits};

    ghost Value = { SettledRevision };

    ghost coded = { coded_revision };

    ghost view = { λ c. record { number = c.number; size = c.size; forest = c.forest; families = c.families; stamps = c.stamps } };

    ghost invariant = { λ c. IsWithinLimits (record { number = c.number; size = c.size; forest = c.forest; families = c.families; stamps = c.stamps }) };
}

impl Content {
    /// The same content, shared.
    pub(crate) fn share(&self) -> Result<Content, AllocError>
        ensures { IfOk result (λ content. content ≡ self.now) }
    {
        Ok(Content {
            number: self.number,
            size: self.size,
            forest: self.forest.share()?,
            families: self.families.share()?,
            stamps: self.stamps.share()?,
        })
    }

    /// Number 0 is the content before the first commit.
    fn is_first(&self)
        ensures { self.now.number ≡ 0 → self.now ≡ opened self.now.size }
    {
        let _number = &self.number;
    }
}

/// A surface after some number of commits: its size, its forest with each node's state and frame,
/// the family of each tag that was ever mounted, and the stamp of each tag that is. It keeps the
/// revision that may be mounted too.
#[derive(Drop)]
pub struct Revision {
    pub(crate) content: Content,
    /// The revision before mounting was suspended, where it is.
    pub(crate) still: Option<Arc<Content>>,
}

impl Model for Revision {
    ghost use Rattle.std.specs.Prelude.{◌<◌, IfSome, unwrap_or};
    ghost use Rattle.std.specs.Option.{option_map};
    ghost use Rattle.tree_revision.specs.Settled.{KeptRevision, coded_kept};

    ghost Value = { KeptRevision };

    ghost coded = { coded_kept };

    ghost view = { λ r. record { newest = r.content; mountable = unwrap_or (option_map (λ still. still.value) r.still) r.content } };

    ghost invariant = { λ r. IfSome r.still (λ still. still.value.number < r.content.number) };
}

impl Revision {
    /// A surface of that size before its first commit: number 0, an empty forest, no families and no
    /// stamps.
    pub fn opening(alloc: Global, size: Size) -> Result<Revision, AllocError>
        requires { IsSizeInRange size }
        ensures value { IfOk result (λ first. first ≡ record { newest = opened size; mountable = opened size }) }
        ensures stands { IfOk result (λ first. StandsFor size first []) }
    {
        Ok(Revision {
            content: Content {
                number: 0,
                size,
                forest: Forest::empty(),
                families: FamilyTable::empty(alloc)?,
                stamps: Stamps::none(),
            },
            still: None,
        })
    }

    /// The same revision, shared.
    pub fn share(&self) -> Result<Revision, AllocError>
        ensures { IfOk result (λ revision. revision ≡ self.now) }
    {
        let still = match &self.still {
            Some(still) => Some(Arc::try_clone(still)?),
            None => None,
        };
        Ok(Revision {
            content: self.content.share()?,
            still,
        })
    }

    /// The revision that may be mounted: the same one, or the one before mounting was suspended.
    pub fn mountable(&self) -> Result<Revision, AllocError>
        ensures { IfOk result (λ revision. revision ≡ record { newest = self.now.mountable; mountable = self.now.mountable }) }
    {
        let content = match &self.still {
            Some(still) => still.share()?,
            None => self.content.share()?,
        };
        Ok(Revision {
            content,
            still: None,
        })
    }

    /// How many commits were admitted before it.
    pub fn number(&self) -> u64
        ensures { result ≡ self.now.newest.number }
    {
        self.content.number
    }

    /// The surface's size.
    pub fn size(&self) -> Size
        ensures { result ≡ self.now.newest.size }
    {
        self.content.size
    }

    /// The nodes.
    pub fn forest(&self) -> &Forest
        ensures forest { result.now ≡ self.now.newest.forest }
        ensures limits { IsForestInLimits result.now }
    {
        &self.content.forest
    }

    /// The families of all tags that were ever mounted.
    pub fn families(&self) -> &FamilyTable
        ensures { result.now ≡ self.now.newest.families }
    {
        &self.content.families
    }

    /// Of each mounted tag its stamp: the least number from which on a mount sees of it what it
    /// sees in this revision.
    pub fn stamps(&self) -> &Stamps
        ensures { result.now ≡ self.now.newest.stamps }
    {
        &self.content.stamps
    }

    /// A revision of number 0 is the one before the first commit.
    pub fn stands_for_none(&self)
        requires { self.now.newest.number ≡ 0 }
        ensures { StandsFor self.now.newest.size self.now [] }
    {
        self.content.is_first();
    }
}

fn needs_send<T: Send + Sync>(_value: &T) {}

/// Revisions are shared by threads.
pub fn is_shared_by_threads(revision: &Revision) {
    needs_send(revision);
}
