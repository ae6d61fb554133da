//! The base that stands mounted, and how it is led to a newer revision.

ghost use Rattle.std.specs.Prelude.{◌≡◌, ℕ, List, [], map, IfOk, OnOk, OnErr};
ghost use Rattle.std.specs.FinMap as table;
ghost use Rattle.shadow_frame.specs.declared.Size.{Size};
ghost use Rattle.host_views.specs.Plain.{plain_mutation};
ghost use Rattle.host_views.specs.Registry.{registry_of};
ghost use Rattle.view_flatten.specs.HostTree.{host_tree_of};
ghost use Rattle.view_mutation.specs.Mutations.{mutations_between};
ghost use Rattle.view_mutation.specs.Leads.{LeadOn};
ghost use Rattle.view_mutation.specs.Since.{AreTagged};
ghost use Rattle.counts.specs.Raised.{raised};
ghost use Rattle.shadow_node.specs.Stamps.{stamp_in};
ghost use Rattle.shadow_node.specs.Entered.{AreAlikeSince};
ghost use Rattle.tree_revision.specs.Records.{PlainRecord};
ghost use Rattle.tree_revision.specs.Stands.{StandsFor};
ghost use Rattle.tree_revision.specs.Ports.{Lasts};
ghost use Rattle.mount_coordinator.specs.Mounted.{IsBaseOf, IsBaseIn, entered_from};
ghost use Rattle.mount_coordinator.specs.Answers.{MayFinish, IsFinishAnswer, IsPullAnswer};

use counts::raise;
use host_views::{Mutation, Registry};
use sqlite_items::Items;
use std::alloc::{AllocError, Global};
use std::marker::Model;
use tree_revision::{LookRefusal, Port, Revision};
use view_mutation::{Walk, mutations_since};

/// What leads the platform's views from one revision to a newer one.
#[derive(Drop)]
pub struct Transaction {
    /// The number of the revision that stood mounted.
    pub base: u64,
    /// The number of the revision that stands mounted from now on, above `base`.
    pub to: u64,
    /// The changes of the platform's views, in their order.
    pub mutations: Items<Mutation>,
}

/// What a pull gives.
#[derive(Drop)]
pub enum Pulled {
    /// The views went on.
    Transaction(Transaction),
    /// There is nothing newer than the base, which has that number.
    Empty { at: u64 },
    /// Another holder has the turn.
    Busy,
}

/// The base, which is the revision that stands mounted and may be mounted itself, and the registry
/// of the platform's views, which are those of the base.
#[derive(Drop)]
pub struct Coordinator {
    base: Revision,
    registry: Registry,
    /// How many nodes the transactions so far have entered.
    entered: u64,
}

impl Model for Coordinator {
    ghost use Rattle.mount_coordinator.specs.Mounted.{PlainCoordinator, coded_coordinator};

    ghost Value = { PlainCoordinator };

    ghost coded = { coded_coordinator };

    ghost use Rattle.mount_coordinator.specs.Mounted.{StandMounted};

    ghost view = { λ c. record { base = c.base.newest; entered = c.entered } };

    ghost invariant = { λ c. StandMounted c.base c.registry };
}

impl Coordinator {
    /// A surface's first revision stands mounted, with the root alone, and nothing was entered.
    pub fn start(alloc: Global, first: Revision) -> Result<Coordinator, AllocError>
        requires { first.newest.number ≡ 0 }
        ensures value { IfOk result (λ started. started ≡ record { base = first.newest; entered = 0 }) }
        ensures mounted { IfOk result (λ started. (size : Size) (entries : List PlainRecord) → StandsFor size first entries → IsBaseOf size started.base entries) }
    {
        first.stands_for_none();
        Ok(Coordinator {
            base: first,
            registry: Registry::start(alloc)?,
            entered: 0,
        })
    }

    /// Looks once, and leads the base on to the front's mountable revision, where that is newer.
    ///
    /// The base stands for the first of the records that the port has seen; so it does after every
    /// answer. Where nothing is newer, another holder has the turn, or there is no memory, the
    /// coordinator is as before.
    pub fn pull<P: Port>(&mut self, alloc: Global, port: &mut P) -> Result<Pulled, AllocError>
        requires { IsBaseIn (P.told port.old).first (P.told port.old).seen self.old.base }
        ensures lasts { Lasts (P.told port.old) (P.told port.new) }
        ensures mounted { IsBaseIn (P.told port.old).first (P.told port.new).seen self.new.base }
        ensures answer { IsPullAnswer (P.told port.old) (P.told port.new) self.old self.new result }
    {
        let front = match port.try_look() {
            Ok(front) => front,
            Err(LookRefusal::Busy) => return Ok(Pulled::Busy),
            Err(LookRefusal::Memory) => return Err(AllocError),
        };
        match self.finish(alloc, front)? {
            Some(transaction) => Ok(Pulled::Transaction(transaction)),
            None => Ok(Pulled::Empty { at: self.base() }),
        }
    }

    /// Leads the base on to the front's mountable revision; `None` where that has the base's number.
    ///
    /// The front stands for a list of records, and the base for the first of them. Where it is
    /// `None`, or there is no memory, the coordinator is as before.
    pub fn finish(
        &mut self,
        alloc: Global,
        front: Revision,
    ) -> Result<Option<Transaction>, AllocError>
        requires { MayFinish self.old front }
        ensures { (first : Size) (entries : List PlainRecord) → StandsFor first front entries → IsBaseIn first entries self.old.base
            → IsFinishAnswer first entries self.old self.new result }
    {
        let to = front.mountable()?;
        if to.number() == self.base.number() {
            return Ok(None);
        }
        let transaction = self.lead_to(alloc, to)?;
        Ok(Some(transaction))
    }

    /// The number of the base.
    pub fn base(&self) -> u64
        ensures { result ≡ self.now.base.number }
    {
        self.base.number()
    }

    /// The platform's views.
    pub fn registry(&self) -> &Registry
        ensures { result.now ≡ registry_of (host_tree_of self.now.base.forest) }
    {
        &self.registry
    }

    /// How many nodes the transactions so far have entered: each those of its base and of the newer
    /// revision that can have changed since the base. From 2^64 - 1 on the count stands still.
    pub fn entered(&self) -> u64
        ensures { result ≡ self.now.entered }
    {
        self.entered
    }

    /// Leads the base on to that revision.
    ///
    /// Where there is no memory for the mutations, the registry is left as it is.
    fn lead_to(&mut self, alloc: Global, to: Revision) -> Result<Transaction, AllocError>
        requires mountable { to.mountable ≡ to.newest }
        requires leads { LeadOn (host_tree_of self.old.base.forest) (host_tree_of to.newest.forest) }
        requires old_tags { AreTagged self.old.base.forest }
        requires new_tags { AreTagged to.newest.forest }
        requires alike { AreAlikeSince (stamp_in to.newest.stamps) self.old.base.number self.old.base.forest to.newest.forest }
        ensures base { IfOk result (λ transaction. transaction.base ≡ self.old.base.number) }
        ensures to { IfOk result (λ transaction. transaction.to ≡ to.newest.number) }
        ensures mutations { IfOk result (λ transaction. map plain_mutation transaction.mutations
            ≡ mutations_between (host_tree_of self.old.base.forest) (host_tree_of to.newest.forest)) }
        ensures moved { OnOk result (self.new.base ≡ to.newest) }
        ensures entered { OnOk result (self.new.entered ≡ raised self.old.entered (entered_from self.old.base to.newest)) }
        ensures stays { OnErr result (self.new ≡ self.old) }
    {
        let (mutations, entered) = mutations_to(alloc, &self.base, &to)?;
        self.registry.apply_all(alloc, mutations.as_slice())?;
        let transaction = Transaction {
            base: self.base.number(),
            to: to.number(),
            mutations,
        };
        self.base = to;
        self.entered = raise(self.entered, entered);
        Ok(transaction)
    }
}

/// The mutations that lead from a base to a newer revision, and how many nodes are entered for them.
#[tactic(auto, using(crate::proofs::Counted::raised_together))]
fn mutations_to(
    alloc: Global,
    base: &Revision,
    to: &Revision,
) -> Result<(Items<Mutation>, u64), AllocError>
    requires old_tags { AreTagged base.now.newest.forest }
    requires new_tags { AreTagged to.now.newest.forest }
    requires alike { AreAlikeSince (stamp_in to.now.newest.stamps) base.now.newest.number base.now.newest.forest to.now.newest.forest }
    ensures list { IfOk result (λ found. map plain_mutation found.0 ≡ mutations_between (host_tree_of base.now.newest.forest) (host_tree_of to.now.newest.forest)) }
    ensures entered { IfOk result (λ found. found.1 ≡ raised 0 (entered_from base.now.newest to.now.newest)) }
{
    let mut old = Walk::over(base.forest(), base.stamps());
    let mut new = Walk::over(to.forest(), to.stamps());
    let list = mutations_since(alloc, base.number(), &mut old, &mut new)?;
    Ok((list, raise(old.entered(), new.entered())))
}

fn needs_send<T: Send>(_value: &T) {}

/// Coordinators are sent to threads.
pub fn is_sent_to_threads(coordinator: &Coordinator) {
    needs_send(coordinator);
}
