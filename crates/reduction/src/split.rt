ghost use Rattle.std.specs.Prelude.{◌≡◌, ℕ, ◌+◌, ◌<◌, ◌≤◌, not, length, ◌==◌, Contains, slice_index};
ghost use Rattle.reduction.specs.Dividing.{Moved};
ghost use Rattle.reduction.specs.Divisions.{Unchanged, LevelFor, LevelOf, SplitOf};

use super::live::Live;
use super::partition::Partition;

// Moves the live states of class `from` with key `value` to class `to`.
fn part(live: &Live, class: &mut [u16; 1089], key: &[u16; 1089], from: u16, value: u16, to: u16)
    ensures { Moved live.now.states.items key.now class.old from value to class.new }
{
    for state in live.states.as_slice() {
        let state = *state as usize;
        if class[state] == from && key[state] == value {
            class[state] = to;
        }
    }
}

impl Partition {
    // Whether a state has another key than the leader of its class.
    fn is_odd(&self, key: &[u16; 1089], state: u16) -> bool
        requires { state < 1089 }
        ensures { result ≡ not (slice_index key.now state == slice_index key.now (slice_index self.now.leader.items (slice_index self.now.class state))) }
    {
        let leader = self.leader[self.class[state as usize] as usize];
        key[state as usize] != key[leader as usize]
    }

    // Makes a class of the live states with the class and the key of this one, which leads it.
    fn divide(&mut self, live: &Live, key: &[u16; 1089], state: u16)
        requires state { Contains live.now.states.items state }
        requires odd { ¬ LevelFor key.now self.old state }
        ensures split { SplitOf live.now.states.items key.now self.old self.new }
        ensures one { length self.new.leader.items ≡ length self.old.leader.items + 1 }
        ensures level { LevelFor key.now self.new state }
        ensures kept { (p : ℕ) → LevelFor key.now self.old p → LevelFor key.now self.new p }
    {
        let from = self.class[state as usize];
        let value = key[state as usize];
        let to = self.leader.len() as u16;
        part(live, &mut self.class, key, from, value, to);
        self.leader.push(state);
    }

    // Divides the class of a live state, if its key is not the leader's.
    fn look(&mut self, live: &Live, key: &[u16; 1089], state: u16)
        requires { Contains live.now.states.items state }
        ensures split { SplitOf live.now.states.items key.now self.old self.new }
        ensures still { length self.new.leader.items ≡ length self.old.leader.items → Unchanged self.old self.new }
        ensures level { LevelFor key.now self.new state }
        ensures kept { (p : ℕ) → LevelFor key.now self.old p → LevelFor key.now self.new p }
    {
        if self.is_odd(key, state) {
            self.divide(live, key, state);
        }
    }

    // Divides each class by the keys of its live members: those with the leader's key stay.
    pub(super) fn split(&mut self, live: &Live, key: &[u16; 1089])
        ensures split { SplitOf live.now.states.items key.now self.old self.new }
        ensures still { length self.new.leader.items ≡ length self.old.leader.items → Unchanged self.old self.new }
        ensures level { LevelOf live.now.states.items key.now self.new }
    {
        for state in live.states.as_slice() {
            self.look(live, key, *state);
        }
    }
}
