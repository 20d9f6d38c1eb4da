ghost use Rattle.rulebook.specs.Tables.{IsReduced, IsClean};

use encoder::Table;

// The canonical table of a set: complete, every state reached, no two states of one class, numbered in the order of discovery,
// and nothing beside.
#[derive(Drop)]
pub(super) struct Rulebook {
    pub(super) table: Table,
    ghost reduced: { IsReduced table.inner },
    ghost clean: { IsClean table.inner },
}
