//! What the definition of the topmost view promises.

ghost use Rattle.std.specs.Prelude.{◌≤◌, [], nat_eq};
ghost use Rattle.std.specs.List.{AllByRecursion, IsDistinct};
ghost use Rattle.shadow_node.specs.Forest.{PlainForest};
ghost use Rattle.shadow_node.specs.Fields.{SettledFields, contents_of, tags_of};
ghost use Rattle.view_flatten.specs.HostTree.{host_tree_of, viewed};
ghost use Rattle.tree_query.specs.HostLines.{HaveLinesOfNodes};

/// For every forest whose tags differ and are at least 1, the host ancestors of each view of its
/// host tree, as they are found among the views before it, are its node's ancestors that form a
/// context, the nearest first.
pub fn host_lines_are_of_ancestors()
    ensures { (forest : PlainForest SettledFields) → IsDistinct nat_eq (tags_of (contents_of forest))
        → AllByRecursion (λ tag. 1 ≤ tag) (tags_of (contents_of forest)) → HaveLinesOfNodes (viewed forest) [] (host_tree_of forest) }
{}
