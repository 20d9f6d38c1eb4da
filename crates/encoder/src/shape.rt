ghost use Rattle.std.specs.Prelude.{◌≡◌, ◌<◌, ◌≤◌, [], length, slice_index_or};
ghost use Rattle.ruling.specs.Written.{body_at, joined};
ghost use Rattle.encoder.specs.Tables.{kinds_held};
ghost use Rattle.encoder.specs.Encodings.{table_blocks};

use super::table_in_memory::Table;

impl Table {
    // Where the first block of its file begins.
    pub(super) fn body_at(&self) -> usize
        ensures value { result ≡ body_at self.now.inner.states (length (kinds_held self.now.inner)) }
        ensures few { result ≤ 116 }
    {
        4 + 5 * self.inner.count as usize + self.inner.states as usize
    }

    // The number of cells of a kind, a factor for each child: a power is a loop, and the encoder asks often.
    pub(super) fn block_len(&self, kind: usize) -> usize
        requires { kind < length (kinds_held self.now.inner) }
        ensures value { result ≡ length (slice_index_or (table_blocks self.now.inner) kind []) }
        ensures few { result ≤ 1024 }
    {
        self.choices(kind, 1) * self.choices(kind, 2)
    }

    // The number of cells of all kinds.
    pub(super) fn cells_len(&self) -> usize
        ensures value { result ≡ length (joined (table_blocks self.now.inner)) }
        ensures few { result ≤ 16384 }
    {
        (0..self.inner.count as usize)
            .map(|kind| self.block_len(kind))
            .sum()
    }
}
