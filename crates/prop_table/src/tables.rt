//! The tables as contracts see them.

ghost use Rattle.std.specs.Prelude.{◌≡◌};
ghost use Rattle.prop_table.specs.Table.{v1_rules, v2_rules};
ghost use Rattle.prop_table.specs.Rules.{rules_of};

use crate::table::{NODE_TABLE, PropTable, V1};

/// The table of script version 1.
pub fn v1_table() -> PropTable<16>
    ensures { rules_of result ≡ v1_rules }
{
    V1
}

/// The table of a node, that of script version 2.
pub fn node_table() -> PropTable<22>
    ensures { rules_of result ≡ v2_rules }
{
    NODE_TABLE
}
