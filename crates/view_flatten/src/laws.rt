//! What the definition of a forest's host tree promises.

ghost use Rattle.std.specs.Prelude.{◌≡◌, ◌≤◌, ◌+◌, ℕ, List, ◌∷◌, ◌++◌, Contains, filter, map, nat_eq};
ghost use Rattle.std.specs.List.{AllByRecursion, IsDistinct};
ghost use Rattle.shadow_node.specs.Forest.{PlainForest};
ghost use Rattle.shadow_node.specs.Fields.{contents_of, tags_of, SettledFields};
ghost use Rattle.host_views.specs.HostTree.{IsHostTree};
ghost use Rattle.host_views.specs.Plain.{children_at};
ghost use Rattle.view_flatten.specs.HostTree.{by_z, host_parent, host_tree_of, viewed};
ghost use Rattle.shadow_node.specs.Shown.{Descendant};
ghost use Rattle.view_flatten.specs.Places.{HasItsPlace, IsOfOne, count_below_z, count_up_to_z, placed_at};
ghost use Rattle.view_flatten.specs.Sites.{AreLevel, level_site, root, sites_from};

/// For every forest whose tags differ and are at least 1, its host tree is one: the tags of its views differ,
/// and the parent of each is the root or another view of the tree.
pub fn forests_make_host_trees()
    ensures { (forest : PlainForest SettledFields) → IsDistinct nat_eq (tags_of (contents_of forest))
        → AllByRecursion (λ tag. 1 ≤ tag) (tags_of (contents_of forest)) → IsHostTree (host_tree_of forest) }
{}

/// For every forest, each node that has a view has its place in the host tree: its view stands there below its host parent.
pub fn viewed_nodes_have_their_places()
    ensures { (forest : PlainForest SettledFields) → AllByRecursion (HasItsPlace (host_tree_of forest)) (viewed forest) }
{}

/// For every forest, each view of its host tree is that of a node that has one, and stands below that node's host parent.
pub fn views_are_of_nodes()
    ensures { (forest : PlainForest SettledFields) → AllByRecursion (IsOfOne (viewed forest)) (host_tree_of forest) }
{}

/// For every forest whose tags differ and are at least 1, the children of each host parent in its host tree are the nodes
/// of that host parent that have a view, by z, and where z is equal in preorder.
pub fn children_go_by_z()
    ensures { (forest : PlainForest SettledFields) → IsDistinct nat_eq (tags_of (contents_of forest))
        → AllByRecursion (λ tag. 1 ≤ tag) (tags_of (contents_of forest)) → (parent : ℕ)
        → children_at (host_tree_of forest) parent
        ≡ map (λ here. here.settled.fields.tag) (by_z (filter (λ here. nat_eq (host_parent here.above) parent) (viewed forest))) }
{}

/// For every forest, the index of each view is the number of views of its host parent that come before it by z, and where
/// z is equal in preorder: of those before it in preorder the ones with no greater z, of those after it the ones with a lower z.
pub fn indexes_go_by_z()
    ensures { (forest : PlainForest SettledFields) (before after : List Descendant) (here : Descendant) → viewed forest ≡ before ++ here ∷ after
        → Contains (host_tree_of forest) (placed_at (count_up_to_z here before + count_below_z here after) here) }
{}

/// For every forest whose tags differ and are at least 1 and whose views all have z 0, its host tree is its views
/// in preorder.
pub fn level_trees_go_in_preorder()
    ensures { (forest : PlainForest SettledFields) → IsDistinct nat_eq (tags_of (contents_of forest))
        → AllByRecursion (λ tag. 1 ≤ tag) (tags_of (contents_of forest)) → AreLevel (sites_from root forest)
        → map level_site (host_tree_of forest) ≡ sites_from root forest }
{}
