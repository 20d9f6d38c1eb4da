ghost use Rattle.std.specs.Prelude.{◌≡◌, ℕ, ◌+◌, ◌<◌, true, length};
ghost use Rattle.ruling.specs.Meanings.{Fits};
ghost use Rattle.ruling.specs.KindLists.{has_leaf};
ghost use Rattle.ruling.specs.WrittenTables.{TableOf};
ghost use Rattle.encoder.specs.Tables.{cell_place, table_meaning, CopyOf, Clean};
ghost use Rattle.reduction.specs.Numberings.{ruled_by, OverNumbered, NumberedBy, Closed, meaning_by};
ghost use Rattle.reduction.specs.Filling.{cell_at, Filling, AllFilled, MarksFilled};

use super::argument_list::ArgumentList;
use super::numbering::Numbering;
use super::questions::mark_of;
use encoder::{Table, TableData, place_of_cell, ranks_of};
use ruling::{Ruling, kinds_of};

impl<'a, R: Ruling> Numbering<'a, R> {
    // The cell of an argument list.
    fn cell(&self, list: ArgumentList) -> u8
        requires { OverNumbered self.now list }
        ensures { result ≡ cell_at (meaning_by self.now) (cell_place list.kind list.first list.second) }
    {
        self.number_at(list).unwrap_or(0)
    }

    // The cells of a kind with the first child `first`, and so many second ones.
    fn fill_row(&self, kind: u8, first: u8, seconds: u8, cells: &mut [u8; 16384])
        requires fits { (b : ℕ) → b < seconds → Fits (ruled_by self.now).kinds (length self.now.rep.items) kind first b }
        requires filling { Filling (meaning_by self.now) cells.old kind first 0 }
        ensures { Filling (meaning_by self.now) cells.new kind first seconds }
    {
        for second in 0..seconds {
            let list = ArgumentList {
                kind,
                first,
                second,
            };
            cells[place_of_cell(kind, first, second)] = self.cell(list);
        }
    }

    // The cells of a kind.
    fn fill_kind(&self, kind: u8, cells: &mut [u8; 16384])
        requires { Filling (meaning_by self.now) cells.old kind 0 0 }
        ensures { Filling (meaning_by self.now) cells.new (kind + 1) 0 0 }
    {
        let (firsts, seconds) = self.spans(kind);
        for first in 0..firsts {
            self.fill_row(kind, first, seconds, cells);
        }
    }

    // The cells of all kinds; those of no argument list are 0. By argument list: the ruling is asked of nothing else.
    fn cells(&self) -> [u8; 16384]
        ensures { AllFilled (meaning_by self.now) result }
    {
        let mut cells = [0; 16384];
        for kind in 0..16u8 {
            self.fill_kind(kind, &mut cells);
        }
        cells
    }

    // The marks of the numbered classes; the rest are no.
    fn marks(&self) -> [bool; 32]
        ensures { MarksFilled (meaning_by self.now) result 32 }
    {
        let mut marks = [false; 32];
        // By number: over a `zip` with the marks the invariant has no number to speak of.
        for (number, state) in self.rep.as_slice().iter().enumerate() {
            marks[number] = mark_of(self.ruling, *state);
        }
        marks
    }

    // The fields of the table of the numbered classes.
    fn table_data(&self) -> TableData
        ensures { CopyOf (meaning_by self.now) result }
    {
        TableData {
            count: kinds_of(self.ruling).len() as u8,
            ranks: ranks_of(self.ruling),
            states: self.count(),
            marks: self.marks(),
            cells: self.cells(),
        }
    }

    // The table of the numbered classes.
    pub(super) fn table(&self) -> Table
        requires leaf { has_leaf (ruled_by self.now).kinds ≡ true }
        requires numbered { NumberedBy self.now }
        requires closed { Closed self.now }
        ensures table { TableOf (ruled_by self.now).kinds (ruled_by self.now) (table_meaning result.inner) }
        ensures clean { Clean result.inner }
    {
        Table {
            inner: self.table_data(),
        }
    }
}
