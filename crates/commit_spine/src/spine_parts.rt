//! What a spine is kept in.

ghost use Rattle.std.specs.Prelude.{◌≡◌};

use crate::mark::SpineMark;
use crate::rule::{Kept, OneHistory};
use crate::store::Store;
use atomic_table::Table;
use std::alloc::Global;

/// A surface's history, which the holders of its passes share.
#[derive(Drop)]
pub struct Spine {
    pub(crate) table: Table<Option<Store>, Kept, SpineMark, OneHistory, Global>,
    ghost one_word: { table.shared.table_id.words ≡ 1 },
    ghost one_slot: { table.shared.table_id.slots ≡ 1 },
}
