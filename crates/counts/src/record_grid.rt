use super::draws::Draws;
use super::grid::Grid;
use std::alloc::{AllocError, Global};

// The number of kinds of the record.
const KINDS: u8 = 4;

// The state of what is no part of it.
const NO_PART: u16 = 31;

fn rank_of(kind: u8) -> usize {
    match kind {
        0 | 1 => 0,
        2 => 1,
        _ => 2,
    }
}

// Whether a node of this kind fits behind so many standing parts: it has its children, and the parts that then stand can still
// be joined to one by the nodes that are left.
fn fits(standing: usize, kind: u8, left: usize) -> bool {
    standing
        .checked_sub(rank_of(kind))
        .is_some_and(|others| others <= left)
}

// The first kind that fits, from the drawn one on; kind 0 follows kind 3.
fn fitting_kind(drawn: u8, standing: usize, left: usize) -> u8 {
    (drawn..KINDS)
        .chain(0..drawn)
        .find(|kind| fits(standing, *kind, left))
        .unwrap_or(0)
}

impl Grid {
    // Puts a node behind the parts that stand: the part that ends with it has the state of an equal part before it, or else its place.
    fn add_node(&mut self, parts: &mut Vec<u16>, kind: u8, at: u16) -> Result<(), AllocError> {
        let rank = rank_of(kind);
        let b = if rank == 2 { parts.pop() } else { None }.unwrap_or(0);
        let a = if rank >= 1 { parts.pop() } else { None }.unwrap_or(0);
        let mut state = at;
        if let Some(cell) = self.cell_mut(kind, a, b) {
            if *cell == NO_PART {
                *cell = at;
            }
            state = *cell;
        }
        parts.push(state)?;
        Ok(())
    }

    // The rules of one record of 31 nodes over ranks 0 0 1 2, with 32 states: a part's state is the lowest position at which an
    // equal part ends, what is no part leads to 31, and the whole record's state alone is marked.
    // The record is drawn from a seed, node by node: a draw modulo 4 is the kind, or else the next one that fits.
    pub(super) fn of_record(heap: Global, seed: u32) -> Result<Grid, AllocError> {
        let mut draws = Draws::from(seed);
        let mut grid = Grid::filled(heap, KINDS, 32, NO_PART)?;
        let mut parts = Vec::new(heap);
        for at in 0..31u16 {
            let drawn = (draws.draw() % KINDS as u16) as u8;
            let kind = fitting_kind(drawn, parts.len(), 30 - at as usize);
            grid.add_node(&mut parts, kind, at)?;
        }
        let root = parts.pop();
        for (state, mark) in (0..32u16).zip(&mut grid.marks) {
            *mark = root == Some(state);
        }
        Ok(grid)
    }
}
