ghost use Rattle.std.specs.Prelude.{◌≡◌, ℕ, ◌<◌, ◌≤◌, false, length, All, filter, slice_index, slice_index_or};
ghost use Rattle.reduction.specs.Dividing.{Shared};
ghost use Rattle.reduction.specs.Divisions.{FewerOf};

use super::live::Live;
use super::partition::Partition;
use arrayvec::ArrayVec;

// Notes the classes that have a live state beside their leader. The room is lent, and cleared only as far as there are classes.
fn note_shared(live: &Live, partition: &Partition, shared: &mut [bool; 1089])
    ensures { Shared live.now.states.items partition.now.class partition.now.leader.items shared.new }
{
    shared[..partition.count()].fill(false);
    for state in live.states.as_slice() {
        let class = partition.class[*state as usize] as usize;
        if partition.leader[class] != *state {
            shared[class] = true;
        }
    }
}

impl Live {
    // All listed states.
    pub(super) fn all(list: &[u16]) -> Live
        requires few { length list.now ≤ 1089 }
        requires small { All (λ s. s < 1089) list.now }
        ensures { result.states.items ≡ list.now }
    {
        let mut states = ArrayVec::new();
        states.try_extend_from_slice(list).unwrap();
        Live { states }
    }

    // Keeps those whose class is shared. In their own room: a list made anew would be cleared and moved at each division.
    fn keep_shared(&mut self, class: &[u16; 1089], shared: &[bool; 1089])
        ensures { self.new.states.items ≡ filter (λ s. slice_index_or shared.now (slice_index class.now s) false) self.old.states.items }
    {
        self.states.retain(
            |state| -> bool
                ensures kept { state.new ≡ state.old }
                ensures shared { result ≡ slice_index_or shared.entry.now (slice_index class.entry.now state.old) false }
            {
                let class = class.get(*state as usize).copied().unwrap_or(0);
                shared.get(class as usize).copied().unwrap_or(false)
            },
        );
    }

    // Drops those that are alone in their class.
    pub(super) fn refresh(&mut self, partition: &Partition, shared: &mut [bool; 1089])
        ensures { FewerOf self.old.states.items partition.now self.new.states.items }
    {
        note_shared(self, partition, shared);
        self.keep_shared(&partition.class, shared);
    }
}
