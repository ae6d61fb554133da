//! What the definitions of this crate promise.

ghost use Rattle.std.specs.Prelude.{◌≡◌, ℕ, nat_eq};
ghost use Rattle.std.specs.List.{IsDistinct};
ghost use Rattle.shadow_node.specs.Entered.{AreAlikeSince, count_outside, is_kept_since, is_unchanged_since};
ghost use Rattle.shadow_node.specs.Fields.{SettledFields, contents_of, tags_of};
ghost use Rattle.shadow_node.specs.Forest.{PlainForest};
ghost use Rattle.shadow_node.specs.Pruned.{has_one_of, pruned, skipped_tags};
ghost use Rattle.host_views.specs.HostTree.{IsHostTree};
ghost use Rattle.host_views.specs.Plain.{PlainHostTree};
ghost use Rattle.view_flatten.specs.HostTree.{host_tree_of};
ghost use Rattle.view_mutation.specs.Leads.{HaveOneKind, LeadOn};
ghost use Rattle.view_mutation.specs.Mutations.{mutations_between};
ghost use Rattle.view_mutation.specs.Since.{AreTagged};

/// For every two host trees in which a tag has one kind: each mutation between them may be applied in its turn,
/// and all of them, applied to the registry of the one, give the registry of the other.
pub fn mutations_lead_on()
    ensures { (old new : PlainHostTree) → IsHostTree old → IsHostTree new → HaveOneKind old new → LeadOn old new }
{}

/// For every two forests that are alike since a base, whose tags differ and are at least 1: the mutations between their
/// host trees are those between the forests without what lies below the contexts that are unchanged since the base.
pub fn skipping_keeps_mutations()
    ensures { (stamps : ℕ → ℕ) (base : ℕ) (old new : PlainForest SettledFields)
        → IsDistinct nat_eq (tags_of (contents_of old)) → IsDistinct nat_eq (tags_of (contents_of new))
        → AreTagged old → AreTagged new → AreAlikeSince stamps base old new
        → mutations_between (host_tree_of old) (host_tree_of new)
        ≡ mutations_between (host_tree_of (pruned (has_one_of (skipped_tags (is_unchanged_since stamps base) new)) old))
        (host_tree_of (pruned (is_unchanged_since stamps base) new)) }
{}

/// For the same forests: as many nodes of the old one lie outside all contexts that are unchanged since the base as
/// outside those that a walk over the new one reaches.
pub fn skipping_keeps_counts()
    ensures { (stamps : ℕ → ℕ) (base : ℕ) (old new : PlainForest SettledFields)
        → IsDistinct nat_eq (tags_of (contents_of old)) → IsDistinct nat_eq (tags_of (contents_of new))
        → AreTagged old → AreTagged new → AreAlikeSince stamps base old new
        → count_outside (is_kept_since stamps base new) old
        ≡ count_outside (has_one_of (skipped_tags (is_unchanged_since stamps base) new)) old }
{}
