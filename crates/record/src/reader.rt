ghost use Rattle.std.specs.Prelude.{◌≡◌, ◌+◌, ◌^◌, ◌<◌, ◌≤◌, slice_index};
ghost use Rattle.ruling.specs.Checks.{Answers, Kept};
ghost use Rattle.ruling.specs.Listed.{list_of};
ghost use Rattle.record.specs.Counting.{node_fault};

use ruling::{Kinds, Refusal};

// What stands while a record is read: the number of parts.
#[derive(Clone, Copy, Debug)]
pub(crate) struct Reader {
    standing: usize,
}

impl Reader {
    pub(crate) fn new() -> Reader
        ensures { result.standing ≡ 0 }
    {
        Reader { standing: 0 }
    }

    // The number of parts that stand.
    pub(crate) fn parts(&self) -> usize
        ensures { result ≡ self.now.standing }
    {
        self.standing
    }

    // Reads the node at place `at`: as many parts as its rank says become one. No more parts stand than nodes were read.
    pub(crate) fn read(&mut self, kinds: &Kinds, byte: u8, at: usize) -> Result<(), Refusal>
        requires { (self.old.standing ≤ at) × (at + 1 < 2 ^ 64) }
        ensures answer { Answers (node_fault (list_of kinds.now) at self.old.standing byte) (λ _. self.new.standing + slice_index (list_of kinds.now) byte ≡ self.old.standing + 1) result }
        ensures kept { Kept result self.old self.new }
    {
        let need = kinds.rank(byte).ok_or(Refusal::NoKind(at))? as usize;
        if self.standing < need {
            return Err(Refusal::TooFewParts(at));
        }
        self.standing = self.standing - need + 1;
        Ok(())
    }
}
