//! A surface's history, as one holder sees it.

ghost use Rattle.std.specs.Prelude.{◌≤◌, [], ◌∷◌, ◌++◌};
ghost use Rattle.tree_revision.specs.Records.{plain_record};
ghost use Rattle.tree_revision.specs.Stands.{StandsFor};
ghost use Rattle.tree_revision.specs.Ports.{Told, Lasts, IsLookAnswer, IsOfferAnswer};

use crate::record::Record;
use crate::revision::Revision;

/// Why a look is not answered.
#[derive(Clone, Copy, Debug, PartialEq, Eq)]
pub enum LookRefusal {
    /// Another holder has the turn.
    Busy,
    /// There was no memory.
    Memory,
}

/// Why an offer is not admitted; both values are handed back.
#[derive(Drop)]
pub enum OfferRefusal {
    /// Another holder has the turn.
    Busy {
        entry: Record,
        next: Revision,
    },
    /// The number `found` was reached, above what was seen.
    Behind {
        found: u64,
        entry: Record,
        next: Revision,
    },
}

/// A surface's history, as one holder sees it: a list of records that grows, of which it has seen
/// the first ones.
pub trait Port {
    ghost told: { Self → Told };

    /// The newest revision, which stands for all that is seen from now on.
    ///
    /// After a refusal all that is told stays, but for the counts.
    fn try_look(&mut self) -> Result<Revision, LookRefusal>
        ensures lasts { Lasts (told self.old) (told self.new) }
        ensures answer { IsLookAnswer (told self.old) (told self.new) result };

    /// Offers a record and the revision after it, directly after what was seen. It is answered the
    /// record's number.
    ///
    /// It takes no memory. After a refusal all that is told stays, but for the counts.
    fn try_offer(&mut self, entry: Record, next: Revision) -> Result<u64, OfferRefusal>
        requires permit { 1 ≤ (told self.old).permits }
        requires stands { StandsFor (told self.old).first next ((told self.old).seen ++ plain_record entry ∷ []) }
        ensures lasts { Lasts (told self.old) (told self.new) }
        ensures answer { IsOfferAnswer (told self.old) (told self.new) entry next result };
}
