//! A law of mounting: which views a forest has at least.

ghost use Rattle.std.specs.Prelude.{◌≡◌, true};
ghost use Rattle.std.specs.List.{AllByRecursion};
ghost use Rattle.shadow_kinds.specs.Traits.{has_state_of};
ghost use Rattle.shadow_node.specs.Forest.{PlainForest};
ghost use Rattle.shadow_node.specs.Fields.{SettledFields};
ghost use Rattle.shadow_node.specs.Shown.{descendants, is_shown};
ghost use Rattle.view_flatten.specs.Places.{HasItsPlace};
ghost use Rattle.view_flatten.specs.HostTree.{host_tree_of};

/// For every forest, as each revision of a history has one: each mounted node that is shown and whose kind has a state
/// has its place in the host tree, with its view.
pub fn shown_states_have_views()
    ensures { (forest : PlainForest SettledFields)
        → AllByRecursion (λ here. has_state_of here.settled.fields.kind ≡ true → is_shown here ≡ true → HasItsPlace (host_tree_of forest) here) (descendants forest) }
{}
