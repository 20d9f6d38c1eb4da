ghost use Rattle.std.specs.Prelude.{◌≡◌, ◌*◌, ◌<◌, ◌≤◌, [], ◌++◌, length, slice_index_or};
ghost use Rattle.ruling.specs.Written.{row, joined, mark_byte, low_high, body_at, directory};
ghost use Rattle.encoder.specs.Tables.{kinds_held, table_meaning};
ghost use Rattle.encoder.specs.Encodings.{table_blocks};

use super::places::place_of_cell;
use super::table_in_memory::Table;

// The length from which on a row is copied by one call.
const LONG_ROW: usize = 8;

// A pair of the directory.
fn pair(offset: usize, cells: usize) -> [u8; 4]
    requires { (offset < 65536) × (cells < 65536) }
    ensures { result ≡ low_high offset ++ low_high cells }
{
    let [a, b] = (offset as u16).to_le_bytes();
    let [c, d] = (cells as u16).to_le_bytes();
    [a, b, c, d]
}

impl Table {
    // The marks, one byte a state.
    pub(super) fn write_marks(&self, out: &mut [u8])
        requires { length out.old ≡ self.now.inner.states }
        ensures { out.new ≡ row self.now.inner.states (λ s. mark_byte ((table_meaning self.now.inner).mark s)) }
    {
        // By number: over a `zip` with the marks the invariant has no number to speak of.
        for (state, byte) in out.iter_mut().enumerate() {
            *byte = u8::from(self.inner.marks[state]);
        }
    }

    // The directory: the pairs of the kinds, in order, with no gaps between the blocks.
    pub(super) fn write_directory(&self, out: &mut [u8])
        requires { length out.old ≡ 4 * length (kinds_held self.now.inner) }
        ensures { out.new ≡ directory (body_at self.now.inner.states (length (kinds_held self.now.inner))) (table_blocks self.now.inner) }
    {
        let mut offset = self.body_at();
        for kind in 0..self.inner.count as usize {
            let cells = self.block_len(kind);
            out[4 * kind..4 * kind + 4].copy_from_slice(&pair(offset, cells));
            offset += cells;
        }
    }

    // The cells of a kind and a first child. Few cells are written by number: that costs less than a call that copies memory.
    fn write_row(&self, kind: u8, first: u8, out: &mut [u8])
        requires { (kind < 16) × ((first < 32) × (length out.old ≤ 32)) }
        ensures { out.new ≡ row (length out.old) (λ b. (table_meaning self.now.inner).target kind first b) }
    {
        let at = place_of_cell(kind, first, 0);
        let cells = out.len();
        if cells >= LONG_ROW {
            out.copy_from_slice(&self.inner.cells[at..at + cells]);
            return;
        }
        for (second, byte) in out.iter_mut().enumerate() {
            *byte = self.inner.cells[at + second];
        }
    }

    // The cells of a kind whose rows have one cell each: a slice for each would cost more than the cell.
    fn write_column(&self, kind: u8, out: &mut [u8])
        requires { (kind < 16) × (length out.old ≤ 32) }
        ensures { out.new ≡ row (length out.old) (λ a. (table_meaning self.now.inner).target kind a 0) }
    {
        for (first, byte) in out.iter_mut().enumerate() {
            *byte = self.cell(kind, first as u8, 0);
        }
    }

    // The cells of a kind, a row for each first child.
    fn write_block(&self, kind: usize, out: &mut [u8])
        requires { (kind < length (kinds_held self.now.inner)) × (length out.old ≡ length (slice_index_or (table_blocks self.now.inner) kind [])) }
        ensures { out.new ≡ slice_index_or (table_blocks self.now.inner) kind [] }
    {
        let firsts = self.choices(kind, 1);
        let seconds = self.choices(kind, 2);
        if seconds == 1 {
            self.write_column(kind as u8, out);
            return;
        }
        for first in 0..firsts {
            let from = first * seconds;
            self.write_row(kind as u8, first as u8, &mut out[from..from + seconds]);
        }
    }

    // The cells of all kinds. By place, since the blocks differ in length.
    pub(super) fn write_blocks(&self, out: &mut [u8])
        requires { length out.old ≡ length (joined (table_blocks self.now.inner)) }
        ensures { out.new ≡ joined (table_blocks self.now.inner) }
    {
        let mut from = 0;
        for kind in 0..self.inner.count as usize {
            let to = from + self.block_len(kind);
            self.write_block(kind, &mut out[from..to]);
            from = to;
        }
    }
}
