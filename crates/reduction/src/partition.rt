ghost use Rattle.std.specs.Prelude.{◌≡◌, ◌≤◌, length};
ghost use Rattle.reduction.specs.Dividing.{Parts};

use arrayvec::ArrayVec;

// Classes of states, numbered from 0, as far as they are told apart: each state's class, and of each class one member, its leader.
#[derive(Drop)]
pub struct Partition {
    pub(super) class: [u16; 1089],
    pub(super) leader: ArrayVec<u16, 1089>,
    ghost parts: { Parts class leader.items },
}

impl Partition {
    // How many classes there are.
    pub(super) fn count(&self) -> usize
        ensures value { result ≡ length self.now.leader.items }
        ensures fits { result ≤ 1089 }
    {
        self.leader.len()
    }
}
