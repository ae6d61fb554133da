//! Laws of mounting: the host trees of a history.

ghost use Rattle.std.specs.Prelude.{List, ◌++◌};
ghost use Rattle.shadow_frame.specs.declared.Size.{Size};
ghost use Rattle.host_views.specs.HostTree.{IsHostTree};
ghost use Rattle.view_flatten.specs.HostTree.{host_tree_of};
ghost use Rattle.view_mutation.specs.Leads.{LeadOn};
ghost use Rattle.tree_revision.specs.Records.{PlainRecord};
ghost use Rattle.tree_revision.specs.Stands.{settled_of};
ghost use Rattle.tree_revision.specs.Lawful.{IsLawful};

/// For every lawful history, its flattening is a host tree.
pub fn lawful_histories_have_host_trees()
    ensures { (first : Size) (entries : List PlainRecord) → IsLawful first entries → IsHostTree (host_tree_of (settled_of first entries)) }
{}

/// For every lawful history and each of its fronts: each mutation from the host tree of the front to that of the whole
/// may be applied in its turn, and all of them, applied to the registry of the one, give the registry of the other.
pub fn lawful_histories_lead_on()
    ensures { (first : Size) (entries more : List PlainRecord) → IsLawful first (entries ++ more)
        → LeadOn (host_tree_of (settled_of first entries)) (host_tree_of (settled_of first (entries ++ more))) }
{}
