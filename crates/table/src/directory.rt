ghost use Rattle.std.specs.Prelude.{◌≡◌, ◌+◌, ◌-◌, ◌^◌, ◌<◌, min, length};
ghost use Rattle.ruling.specs.Checks.{Answers};
ghost use Rattle.ruling.specs.KindLists.{KindList};
ghost use Rattle.table.specs.TableFiles.{states_in, kind_count_in, ranks_in, cell_number, offset_at, length_at, word_at, pair_place, pair_fault, directory_fault};
ghost use Rattle.table.specs.FileParts.{BlocksInside};

use super::head::Head;
use super::part::Part;
use ruling::Refusal;

// A file with the blocks of its kinds, once its directory is right.
#[derive(Clone, Copy)]
pub(super) struct Blocks<'a> {
    pub(super) head: Head<'a>,
    ghost inside: { BlocksInside head.bytes.now },
}

// A number in two bytes, the low byte first.
fn read_word(bytes: &[u8], at: usize) -> usize
    requires { at + 1 < length bytes.now }
    ensures value { result ≡ word_at bytes.now at }
    ensures small { result < 65536 }
{
    u16::from_le_bytes([bytes[at], bytes[at + 1]]) as usize
}

// The number of cells of a kind of this rank, as far as 64 bits can say it.
pub fn cell_count(states: usize, rank: u8) -> usize
    ensures { result ≡ min (states ^ rank) (2 ^ 64 - 1) }
{
    states.saturating_pow(rank as u32)
}

impl<'a> Head<'a> {
    // Where the pair of a kind stands.
    fn pair_place(&self, kind: usize) -> usize
        requires { kind < kind_count_in self.now.bytes.now }
        ensures { result ≡ pair_place self.now.bytes.now kind }
    {
        4 + self.kind_count() + self.states() + 4 * kind
    }

    // A kind's block, as its pair says.
    pub(super) fn block(&self, kind: usize) -> Part
        requires { kind < kind_count_in self.now.bytes.now }
        ensures offset { result.offset ≡ offset_at self.now.bytes.now kind }
        ensures length { result.length ≡ length_at self.now.bytes.now kind }
        ensures small { result.offset + result.length < 131072 }
    {
        let at = self.pair_place(kind);
        Part {
            offset: read_word(self.bytes, at),
            length: read_word(self.bytes, at + 2),
        }
    }

    // The place of a cell within its kind's block.
    pub(super) fn cell_number(&self, rank: u8, a: usize, b: usize) -> usize
        requires { (a < states_in self.now.bytes.now) × (b < states_in self.now.bytes.now) }
        ensures { result ≡ cell_number (states_in self.now.bytes.now) rank a b }
    {
        match rank {
            0 => 0,
            1 => a,
            _ => a * self.states() + b,
        }
    }

    // One pair, where the block before ends at `from`: 5. It answers where its own block ends.
    fn check_pair(&self, from: usize, kind: usize) -> Result<usize, Refusal>
        requires { (KindList (ranks_in self.now.bytes.now)) × (kind < kind_count_in self.now.bytes.now) }
        ensures { Answers (pair_fault self.now.bytes.now from kind) (λ to. to ≡ offset_at self.now.bytes.now kind + length_at self.now.bytes.now kind) result }
    {
        let at = self.pair_place(kind);
        let block = self.block(kind);
        if block.offset < from {
            return Err(Refusal::TableDirectory(at));
        }
        if block.length != cell_count(self.states(), self.rank(kind)) {
            return Err(Refusal::TableDirectory(at + 2));
        }
        let to = block.offset + block.length;
        if self.bytes.len() < to {
            return Err(Refusal::TableDirectory(at));
        }
        Ok(to)
    }

    // The directory: each pair, then what follows the last block: 5.
    pub(super) fn check_directory(&self) -> Result<Blocks<'a>, Refusal>
        requires { KindList (ranks_in self.now.bytes.now) }
        ensures { Answers (directory_fault self.now.bytes.now) (λ blocks. blocks.head.bytes.now ≡ self.now.bytes.now) result }
    {
        let kinds = self.kind_count();
        let mut from = 4 + 5 * kinds + self.states();
        for kind in 0..kinds {
            from = self.check_pair(from, kind)?;
        }
        if from < self.bytes.len() {
            return Err(Refusal::TableDirectory(from));
        }
        Ok(Blocks { head: *self })
    }
}
