ghost use Rattle.std.specs.Prelude.{◌≡◌, false, is_some, None};
ghost use Rattle.ruling.specs.Checks.{Answers};
ghost use Rattle.table.specs.TableFiles.{table_fault, dead_in, led, file_meaning};
ghost use Rattle.table.specs.FlatTables.{ruled_file};

use super::check::check_table;
use super::head::Head;
use ruling::{Refusal, Ruling, fits_rank};

// A table file that is read where it lies, with the number of states that it means.
#[derive(Clone, Copy)]
pub struct FlatTable<'a> {
    bytes: &'a [u8],
    states: u16,
    ghost sound: { is_some (table_fault bytes.now) ≡ false },
    ghost counted: { states ≡ (file_meaning bytes.now).states },
}

impl<'a> FlatTable<'a> {
    // The table of these bytes, once `check_table` has passed them with this number of states.
    pub fn make(bytes: &'a [u8], states: u16) -> FlatTable<'a>
        requires { (table_fault bytes.now ≡ None) × (states ≡ (file_meaning bytes.now).states) }
        ensures kept { (result.bytes.now ≡ bytes.now) × (result.states ≡ states) }
        ensures means { (ruled_file result.bytes.now result.sound).plain ≡ file_meaning bytes.now }
    {
        FlatTable { bytes, states }
    }

    // The table of these bytes, or their first fault.
    pub fn read(bytes: &'a [u8]) -> Result<FlatTable<'a>, Refusal>
        ensures { Answers (table_fault bytes.now) (λ table. table.bytes.now ≡ bytes.now) result }
    {
        let states = check_table(bytes)?;
        Ok(FlatTable::make(bytes, states))
    }

    fn head(&self) -> Head<'a>
        ensures { result.bytes.now ≡ self.now.bytes.now }
    {
        Head { bytes: self.bytes }
    }

    // Where missing rules lead: the state after those that the file writes.
    fn dead_state(&self) -> u16
        ensures { result ≡ dead_in self.now.bytes.now }
    {
        self.head().states() as u16
    }

    // Where a cell leads.
    fn lead(&self, cell: u8) -> u16
        ensures { result ≡ led (dead_in self.now.bytes.now) cell }
    {
        if cell == 255 {
            self.dead_state()
        } else {
            cell as u16
        }
    }
}

impl<'a> Ruling for FlatTable<'a> {
    ghost meaning = { λ t. ruled_file t.bytes.now t.sound };

    fn states(&self) -> u16 {
        self.states
    }

    fn rank(&self, kind: u8) -> Option<u8> {
        self.head().ranks().get(kind as usize).copied()
    }

    fn target(&self, kind: u8, a: u16, b: u16) -> Option<u16> {
        let rank = self.rank(kind)?;
        if !fits_rank(rank, self.states, a, b) {
            return None;
        }
        let dead = self.dead_state();
        if a >= dead || b >= dead {
            return Some(dead);
        }
        let head = self.head();
        let block = head.block(kind as usize);
        let number = head.cell_number(rank, a as usize, b as usize);
        Some(self.lead(self.bytes[block.offset + number]))
    }

    // The dead state is marked no.
    fn mark(&self, state: u16) -> Option<bool> {
        if state >= self.states {
            return None;
        }
        let head = self.head();
        Some(state < self.dead_state() && head.mark(state as usize))
    }
}
