ghost use Rattle.std.specs.Prelude.{◌≡◌, Ok};
ghost use Rattle.ruling.specs.Checks.{Kept};
ghost use Rattle.rulebook.specs.Calls.{load, change, answered, count};
ghost use Rattle.rulebook.specs.Histories.{Follows};
ghost use Rattle.rulebook.specs.Changes.{meaning_of, Gives};

use super::rulebook::Rulebook;
use reduction::reduce;
use ruling::{Refusal, Ruling, check_same_kinds, kinds_of};

impl Rulebook {
    // The rulebook of a ruling's set.
    fn loaded<R: Ruling>(&self, ruling: &R) -> Result<Rulebook, Refusal>
        ensures { Gives self.now (load (R.Ruling.meaning ruling.now)) result }
    {
        check_same_kinds(ruling, &kinds_of(self))?;
        let table = reduce(ruling)?;
        Ok(Rulebook { table })
    }

    // Replaces the set by that of a ruling, and answers the number of states: 7, then 12.
    pub(super) fn load<R: Ruling>(&mut self, ruling: &R) -> Result<u8, Refusal>
        ensures stands { Follows (meaning_of self.old) (Ok (change (load (R.Ruling.meaning ruling.now)))) (answered count result) (meaning_of self.new) }
        ensures kept { Kept result self.old self.new }
    {
        let changed = self.loaded(ruling)?;
        let states = changed.table.inner.states;
        *self = changed;
        Ok(states)
    }
}
