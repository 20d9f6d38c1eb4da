ghost use Rattle.std.specs.Prelude.{◌≡◌, ◌<◌, is_some, nat_eq};
ghost use Rattle.std.specs.Option.{option_map};
ghost use Rattle.ruling.specs.Checks.{Answers, lowest};
ghost use Rattle.ruling.specs.declared.refusal.Refusal.TheVariants.{TableByte};
ghost use Rattle.table.specs.TableFiles.{kind_count_in, states_in, offset_at, length_at, byte_at, wrong_cell, cells_fault, missing, file_meaning};

use super::directory::Blocks;
use ruling::Refusal;

impl<'a> Blocks<'a> {
    // The cells of one kind: 6.
    fn check_block(&self, kind: usize) -> Result<(), Refusal>
        requires { kind < kind_count_in self.now.head.bytes.now }
        ensures { Answers (option_map (λ p. TableByte p) (lowest (λ p. wrong_cell (states_in self.now.head.bytes.now) (byte_at self.now.head.bytes.now p)) (offset_at self.now.head.bytes.now kind) (length_at self.now.head.bytes.now kind))) (λ _. Unit {0}) result }
    {
        let states = self.head.bytes[1];
        let block = self.head.block(kind);
        let wrong = block.first_found(self.head.bytes, |cell| cell >= states && cell != 255);
        wrong.map_or(Ok(()), |at| Err(Refusal::TableByte(at)))
    }

    // The cells, kind by kind: 6.
    pub(super) fn check_cells(&self) -> Result<(), Refusal>
        ensures { Answers (cells_fault self.now.head.bytes.now 0 (kind_count_in self.now.head.bytes.now)) (λ _. Unit {0}) result }
    {
        for kind in 0..self.head.kind_count() {
            self.check_block(kind)?;
        }
        Ok(())
    }

    // Whether a rule of one kind is missing.
    fn misses_rule(&self, kind: usize) -> bool
        requires { kind < kind_count_in self.now.head.bytes.now }
        ensures { result ≡ is_some (lowest (λ p. nat_eq (byte_at self.now.head.bytes.now p) 255) (offset_at self.now.head.bytes.now kind) (length_at self.now.head.bytes.now kind)) }
    {
        let block = self.head.block(kind);
        let missing = block.first_found(self.head.bytes, |cell| cell == 255);
        missing.is_some()
    }

    // Whether a rule is missing. Bytes between blocks are no cells.
    fn has_missing(&self) -> bool
        ensures { result ≡ missing self.now.head.bytes.now }
    {
        (0..self.head.kind_count()).any(|kind| self.misses_rule(kind))
    }

    // The number of states that the file means.
    pub(super) fn state_count(&self) -> u16
        ensures { result ≡ (file_meaning self.now.head.bytes.now).states }
    {
        self.head.states() as u16 + u16::from(self.has_missing())
    }
}
