ghost use Rattle.std.specs.Prelude.{◌≡◌, ◌<◌, ◌≤◌, true, cond, length, nat_le, slice_index, take};
ghost use Rattle.ruling.specs.KindLists.{Ranks, has_leaf};
ghost use Rattle.ruling.specs.Meanings.{Complete};
ghost use Rattle.encoder.specs.Tables.{kinds_held, table_meaning, ruled_table};

use super::places::place_of_cell;
use super::table_data::TableData;
use ruling::{Ruling, fits_rank};

// A table in memory: 1 to 16 kinds of rank 0 to 2, one of rank 0; 1 to 32 states; a target for every argument list.
#[derive(Drop)]
pub struct Table {
    pub inner: TableData,
    ghost some: { 0 < inner.count },
    ghost few: { inner.count ≤ 16 },
    ghost counted: { length (kinds_held inner) ≡ inner.count },
    ghost ranked: { Ranks (kinds_held inner) },
    ghost leaf: { has_leaf (kinds_held inner) ≡ true },
    ghost filled: { 0 < inner.states },
    ghost limited: { inner.states ≤ 32 },
    ghost complete: { Complete (kinds_held inner) (table_meaning inner) },
}

impl Table {
    // The ranks of its kinds.
    pub(super) fn ranks(&self) -> &[u8]
        ensures { result.now ≡ kinds_held self.now.inner }
    {
        &self.inner.ranks[..self.inner.count as usize]
    }

    // The marks of its states.
    pub(super) fn marks(&self) -> &[bool]
        ensures { result.now ≡ take self.now.inner.states self.now.inner.marks }
    {
        &self.inner.marks[..self.inner.states as usize]
    }

    pub(super) fn cell(&self, kind: u8, a: u8, b: u8) -> u8
        requires { (kind < 16) × ((a < 32) × (b < 32)) }
        ensures { result ≡ (table_meaning self.now.inner).target kind a b }
    {
        self.inner.cells[place_of_cell(kind, a, b)]
    }

    // The number of states that a kind's child takes, its first or its second: all, or the one 0 where it has no such child.
    pub(super) fn choices(&self, kind: usize, child: u8) -> usize
        requires { kind < 16 }
        ensures value { result ≡ cond (nat_le child (slice_index self.now.inner.ranks kind)) self.now.inner.states 1 }
        ensures bounds { (0 < result) × (result ≤ 32) }
    {
        if self.inner.ranks[kind] >= child {
            self.inner.states as usize
        } else {
            1
        }
    }
}

impl Ruling for Table {
    ghost meaning = { λ t. ruled_table t.inner t.some t.few t.counted t.ranked t.filled t.limited t.complete };

    fn states(&self) -> u16 {
        self.inner.states as u16
    }

    fn rank(&self, kind: u8) -> Option<u8> {
        self.ranks().get(kind as usize).copied()
    }

    fn target(&self, kind: u8, a: u16, b: u16) -> Option<u16> {
        let rank = self.rank(kind)?;
        if !fits_rank(rank, self.states(), a, b) {
            return None;
        }
        Some(self.cell(kind, a as u8, b as u8) as u16)
    }

    fn mark(&self, state: u16) -> Option<bool> {
        self.marks().get(state as usize).copied()
    }
}
