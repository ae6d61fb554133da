//! Worked examples: the report of each script, computed from the definitions alone.
#![tactic(auto)]

ghost use Rattle.std.specs.Prelude.{◌≡◌};
ghost use Rattle.run_report.specs.Machine.{journal_of_turns};
ghost use Rattle.run_report.specs.Text.{report_text};
ghost use Rattle.worked_examples.specs.FirstPath as first_path_example;
ghost use Rattle.worked_examples.specs.EmptyTreeTwoMounts as empty_tree_two_mounts_example;
ghost use Rattle.worked_examples.specs.StateCarriedOverRetry as state_carried_over_retry_example;
ghost use Rattle.worked_examples.specs.TwoAddsWithRetry as two_adds_with_retry_example;
ghost use Rattle.worked_examples.specs.StaleSetIf as stale_set_if_example;
ghost use Rattle.worked_examples.specs.StateAfterUnmount as state_after_unmount_example;
ghost use Rattle.worked_examples.specs.KeptTwiceAndKeptUnknown as kept_twice_and_kept_unknown_example;
ghost use Rattle.worked_examples.specs.ZOrdersChildren as z_orders_children_example;
ghost use Rattle.worked_examples.specs.ChildrenReordered as children_reordered_example;
ghost use Rattle.worked_examples.specs.SurfaceStopped as surface_stopped_example;
ghost use Rattle.worked_examples.specs.HiddenAndShownAgain as hidden_and_shown_again_example;
ghost use Rattle.worked_examples.specs.SuspendedMounting as suspended_mounting_example;

/// A view in a view that forms no view of its own, completed and mounted.
pub fn first_path()
    ensures { report_text (journal_of_turns first_path_example.script) ≡ first_path_example.report }
{}

/// An empty tree, and two mounts: the first without mutations, the second empty.
pub fn empty_tree_two_mounts()
    ensures { report_text (journal_of_turns empty_tree_two_mounts_example.script) ≡ empty_tree_two_mounts_example.report }
{}

/// A state set between the look and the offer of a complete is carried over its retry.
pub fn state_carried_over_retry()
    ensures { report_text (journal_of_turns state_carried_over_retry_example.script) ≡ state_carried_over_retry_example.report }
{}

/// Two actors add to one state, and the one that comes too late tries again.
pub fn two_adds_with_retry()
    ensures { report_text (journal_of_turns two_adds_with_retry_example.script) ≡ two_adds_with_retry_example.report }
{}

/// A state is set only where it changed as often as the change names.
pub fn stale_set_if()
    ensures { report_text (journal_of_turns stale_set_if_example.script) ≡ stale_set_if_example.report }
{}

/// A state change of a node that was unmounted.
pub fn state_after_unmount()
    ensures { report_text (journal_of_turns state_after_unmount_example.script) ≡ state_after_unmount_example.report }
{}

/// A tree that keeps a node twice, and one that keeps a node which is not there.
pub fn kept_twice_and_kept_unknown()
    ensures { report_text (journal_of_turns kept_twice_and_kept_unknown_example.script) ≡ kept_twice_and_kept_unknown_example.report }
{}

/// The children of one host parent stand by z, and where z is equal in preorder.
pub fn z_orders_children()
    ensures { report_text (journal_of_turns z_orders_children_example.script) ≡ z_orders_children_example.report }
{}

/// The children after an equal prefix are removed and inserted again.
pub fn children_reordered()
    ensures { report_text (journal_of_turns children_reordered_example.script) ≡ children_reordered_example.report }
{}

/// A surface is stopped, and a tree that keeps a node of it is cancelled.
pub fn surface_stopped()
    ensures { report_text (journal_of_turns surface_stopped_example.script) ≡ surface_stopped_example.report }
{}

/// A hidden view, shown and hidden again, with what lies in it.
pub fn hidden_and_shown_again()
    ensures { report_text (journal_of_turns hidden_and_shown_again_example.script) ≡ hidden_and_shown_again_example.report }
{}

/// Commits go on while mounts stand still.
pub fn suspended_mounting()
    ensures { report_text (journal_of_turns suspended_mounting_example.script) ≡ suspended_mounting_example.report }
{}
