ghost use Rattle.reduction.specs.Dividing.{Sorted};

use super::live::Live;
use super::partition::Partition;
use ruling::Ruling;

// The classes of a ruling's reached states, as far as they are told apart, the live states, and room for a sweep:
// for the keys, and for the classes that are shared.
#[derive(Drop)]
pub struct Division<'a, R: Ruling> {
    pub(super) ruling: &'a R,
    pub(super) partition: Partition,
    pub(super) live: Live,
    pub(super) keys: [u16; 1089],
    pub(super) shared: [bool; 1089],
    ghost sorted: { ∥ Sorted (R.Ruling.meaning ruling.now).plain partition.class partition.leader.items live.states.items ∥₁ },
}
