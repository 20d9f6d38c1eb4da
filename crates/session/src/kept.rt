ghost use Rattle.std.specs.Prelude.{◌≡◌, false, is_some};
ghost use Rattle.table.specs.TableFiles.{table_fault, file_meaning};

use table::FlatTable;

// A table file that passed its check, with the number of states that it means. It is not checked again.
#[derive(Drop)]
pub(super) struct KeptTable {
    pub(super) bytes: Vec<u8>,
    pub(super) states: u16,
    ghost sound: { is_some (table_fault bytes.items) ≡ false },
    ghost counted: { states ≡ (file_meaning bytes.items).states },
}

impl KeptTable {
    pub(super) fn flat(&self) -> FlatTable<'_>
        ensures { result.bytes.now ≡ self.now.bytes.items }
    {
        FlatTable::make(self.bytes.as_slice(), self.states)
    }
}
