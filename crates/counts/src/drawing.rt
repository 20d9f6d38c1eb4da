ghost use Rattle.std.specs.Prelude.{◌<◌};

use super::draws::Draws;
use super::grid::Grid;
use samples::Opening;
use std::alloc::{AllocError, Global};

// The number of states that stand at a place below a kind of this rank, the first place being 1.
fn choices(states: u16, rank: u8, place: u8) -> u16 {
    if rank < place { 1 } else { states }
}

impl Grid {
    fn draw_rules(&mut self, draws: &mut Draws, kind: u8, rank: u8) {
        for a in 0..choices(self.states, rank, 1) {
            for b in 0..choices(self.states, rank, 2) {
                let target = draws.draw() % self.states;
                if let Some(cell) = self.cell_mut(kind, a, b) {
                    *cell = target;
                }
            }
        }
    }

    // Drawn rules over so many states: the cells of the argument lists as draws modulo their number, kinds in order, then the first
    // state, then the second; then the marks, as draws modulo 2.
    pub(super) fn drawn(
        heap: Global,
        opening: &Opening,
        states: u16,
        seed: u32,
    ) -> Result<Grid, AllocError>
        requires { 0 < states }
    {
        let mut draws = Draws::from(seed);
        let mut grid = Grid::filled(heap, opening.kinds.len() as u8, states, 0)?;
        for kind in 0..16u8 {
            if let Some(rank) = opening.kinds.rank(kind) {
                grid.draw_rules(&mut draws, kind, rank);
            }
        }
        for mark in &mut grid.marks {
            *mark = draws.draw() % 2 == 1;
        }
        Ok(grid)
    }
}
