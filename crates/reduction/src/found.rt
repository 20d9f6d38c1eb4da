ghost use Rattle.std.specs.Prelude.{ℕ, ◌<◌, ◌≤◌, length, slice_index};

use arrayvec::ArrayVec;
use ruling::Ruling;

// The states of a ruling found so far, in the order of discovery; `seen` says of each state whether it is there.
#[derive(Drop)]
pub struct Search<'a, R: Ruling> {
    pub(super) ruling: &'a R,
    pub(super) order: ArrayVec<u16, 1089>,
    pub(super) seen: [bool; 1089],
    ghost few: { length order.items ≤ (R.Ruling.meaning ruling.now).plain.states },
    ghost below: { (i : ℕ) → slice_index order.items i < (R.Ruling.meaning ruling.now).plain.states },
}
