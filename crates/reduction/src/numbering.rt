ghost use Rattle.std.specs.Prelude.{ℕ, ◌<◌, ◌≤◌, length, slice_index};

use super::partition::Partition;
use arrayvec::ArrayVec;
use ruling::Ruling;

// The numbers given so far to the classes of a ruling's states: of each number a state of its class, of each class its number.
#[derive(Drop)]
pub struct Numbering<'a, R: Ruling> {
    pub(super) ruling: &'a R,
    pub(super) partition: &'a Partition,
    pub(super) rep: ArrayVec<u16, 32>,
    pub(super) number: [Option<u8>; 32],
    ghost few: { length rep.items ≤ 32 },
    ghost states: { (i : ℕ) → slice_index rep.items i < (R.Ruling.meaning ruling.now).plain.states },
    ghost classes: { length partition.now.leader.items ≤ 32 },
}
