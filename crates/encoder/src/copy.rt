ghost use Rattle.std.specs.Prelude.{◌≡◌, ℕ, ◌/◌, ◌%◌, ◌<◌, ◌≤◌, false, is_some, IfSome, slice_index, slice_index_or};
ghost use Rattle.std.specs.Option.{unwrap_or};
ghost use Rattle.ruling.specs.Questions.{targeted, marked};
ghost use Rattle.encoder.specs.Tables.{table_meaning, Equal, tabled, CopyOf};

use super::places::cell_parts;
use super::table_data::TableData;
use super::table_in_memory::Table;
use ruling::{Ruling, check_leaf_kind, kinds_of, ranks_of};
use std::array;

const MOST_STATES: u16 = 32;

// The marks of the states, and no where there is no state.
fn marks_of<R: Ruling>(ruling: &R) -> [bool; 32]
    ensures { (s : ℕ) → s < 32 → slice_index_or result s false ≡ unwrap_or (marked (R.Ruling.meaning ruling.now).plain s) false }
{
    array::from_fn(|state| ruling.mark(state as u16).unwrap_or(false))
}

// The cell at a place, and 0 where there is no argument list.
fn cell_or_zero<R: Ruling>(ruling: &R, place: usize) -> u8
    requires { (place < 16384) × ((R.Ruling.meaning ruling.now).plain.states ≤ 32) }
    ensures { result ≡ unwrap_or (targeted (R.Ruling.meaning ruling.now).plain (place / 1024) (place / 32 % 32) (place % 32)) 0 }
{
    let (kind, a, b) = cell_parts(place);
    ruling.target(kind, a, b).unwrap_or(0) as u8
}

fn cells_of<R: Ruling>(ruling: &R) -> [u8; 16384]
    requires { (R.Ruling.meaning ruling.now).plain.states ≤ 32 }
    ensures { (i : ℕ) → i < 16384 → slice_index result i ≡ unwrap_or (targeted (R.Ruling.meaning ruling.now).plain (i / 1024) (i / 32 % 32) (i % 32)) 0 }
{
    array::from_fn(|place| cell_or_zero(ruling, place))
}

fn data_of<R: Ruling>(ruling: &R) -> TableData
    requires { (R.Ruling.meaning ruling.now).plain.states ≤ 32 }
    ensures { CopyOf (R.Ruling.meaning ruling.now).plain result }
{
    TableData {
        count: kinds_of(ruling).len() as u8,
        ranks: ranks_of(ruling),
        states: ruling.states() as u8,
        marks: marks_of(ruling),
        cells: cells_of(ruling),
    }
}

impl Table {
    // The table with the ruling's kinds, states, marks and targets; none where it has more than 32 states or no kind of rank 0.
    pub fn copied<R: Ruling>(ruling: &R) -> Option<Table>
        ensures made { is_some result ≡ tabled (R.Ruling.meaning ruling.now).plain }
        ensures copy { IfSome result (λ t. CopyOf (R.Ruling.meaning ruling.now).plain t.inner) }
        ensures same { IfSome result (λ t. Equal (table_meaning t.inner) (R.Ruling.meaning ruling.now).plain) }
    {
        if ruling.states() > MOST_STATES {
            return None;
        }
        let inner = data_of(ruling);
        if check_leaf_kind(&inner.ranks[..inner.count as usize]).is_err() {
            return None;
        }
        Some(Table { inner })
    }
}
