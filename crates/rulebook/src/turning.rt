ghost use Rattle.std.specs.Prelude.{◌≡◌, ℕ, ◌<◌, length, false, not, Ok, slice_index_or};
ghost use Rattle.rulebook.specs.Calls.{turn, change, count};
ghost use Rattle.rulebook.specs.Histories.{Follows};
ghost use Rattle.rulebook.specs.Changes.{meaning_of};

use super::rulebook::Rulebook;

// The other marks.
fn turn_marks(marks: &mut [bool])
    ensures { (s : ℕ) → s < length marks.old → slice_index_or marks.new s false ≡ not (slice_index_or marks.old s false) }
{
    for mark in marks.iter_mut() {
        *mark = !*mark;
    }
}

impl Rulebook {
    // Makes the set that of all other records over the kinds, and answers the number of states.
    pub(super) fn turn(&mut self) -> u8
        ensures { Follows (meaning_of self.old) (Ok (change turn)) (count result) (meaning_of self.new) }
    {
        let states = self.table.inner.states;
        let mut marks = self.table.inner.marks;
        turn_marks(&mut marks[..states as usize]);
        self.table.inner.marks = marks;
        states
    }
}
