ghost use Rattle.std.specs.Prelude.{◌≡◌, ◌<◌, false, slice_index, slice_index_or};
ghost use Rattle.counts.specs.Grids.{cell_at};

use samples::Rules;
use std::alloc::{AllocError, Global};

// Rules over so many states: a cell for each kind and two states, and marks. What is missing is 0, or no.
#[derive(Drop)]
pub(super) struct Grid {
    pub(super) states: u16,
    cells: Vec<u16>,
    pub(super) marks: Vec<bool>,
    ghost some: { 0 < states },
}

impl Grid {
    // Rules over so many kinds and states: each cell is this target, and no state is marked.
    pub(super) fn filled(
        heap: Global,
        kinds: u8,
        states: u16,
        target: u16,
    ) -> Result<Grid, AllocError>
        requires { 0 < states }
    {
        let count = states as usize;
        let cells = vec![in heap; target; kinds as usize * count * count]?;
        let marks = vec![in heap; false; count]?;
        Ok(Grid {
            states,
            cells,
            marks,
        })
    }

    // The place of the cell of a kind and two states.
    fn place(&self, kind: u8, a: u16, b: u16) -> usize
        ensures { result ≡ cell_at self.now.states kind a b }
    {
        let count = self.states as usize;
        (kind as usize * count + a as usize) * count + b as usize
    }

    // The cell of a kind and two states, to be read and written.
    pub(super) fn cell_mut(&mut self, kind: u8, a: u16, b: u16) -> Option<&mut u16> {
        let place = self.place(kind, a, b);
        self.cells.get_mut(place)
    }
}

impl Rules for Grid {
    ghost leads = { λ g _ k a b. slice_index g.cells.items (cell_at g.states k a b) };

    ghost marks = { λ g _ s. slice_index_or g.marks.items s false };

    fn lead(&self, _states: u16, kind: u8, a: u16, b: u16) -> u32 {
        let place = self.place(kind, a, b);
        self.cells.get(place).copied().unwrap_or(0) as u32
    }

    fn mark(&self, _states: u16, state: u16) -> bool {
        self.marks.get(state as usize).copied().unwrap_or(false)
    }
}
