ghost use Rattle.ruling.specs.Checks.{Kept};
ghost use Rattle.rulebook.specs.Calls.{Made, answered, count};
ghost use Rattle.rulebook.specs.Histories.{Follows};
ghost use Rattle.rulebook.specs.Changes.{meaning_of, LoadOf};

use super::rulebook::Rulebook;
use ruling::Refusal;
use table::FlatTable;

impl Rulebook {
    // Replaces the set by that of a table file, and answers the number of states: the file's faults, then 7, then 12.
    pub(super) fn load_table(&mut self, bytes: &[u8]) -> Result<u8, Refusal>
        ensures stands { (c : Made) → LoadOf bytes.now c → Follows (meaning_of self.old) c (answered count result) (meaning_of self.new) }
        ensures kept { Kept result self.old self.new }
    {
        let file = FlatTable::read(bytes)?;
        self.load(&file)
    }
}
