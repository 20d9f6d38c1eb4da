ghost use Rattle.std.specs.Prelude.{◌≡◌, ◌<◌, ◌==◌};
ghost use Rattle.ruling.specs.Checks.{Answers, first};
ghost use Rattle.ruling.specs.KindLists.{KindList, rank_fault, leaf_fault};
ghost use Rattle.table.specs.TableFiles.{head_fault, states_in, kind_count_in, ranks_in, rank_at, byte_at, mark_place, mark_fault};
ghost use Rattle.table.specs.FileParts.{Headed};

use super::part::Part;
use ruling::{Refusal, check_opening};

const EDITION: u8 = 1;

const LONGEST: usize = 65535;

const MOST_STATES: u8 = 32;

const MOST_KINDS: u8 = 16;

// A file whose first four bytes are right, and that reaches the end of its directory.
#[derive(Clone, Copy)]
pub(super) struct Head<'a> {
    pub(super) bytes: &'a [u8],
    ghost headed: { Headed bytes.now },
}

// The length and the first four bytes: 4.
pub(super) fn check_head(bytes: &[u8]) -> Result<Head<'_>, Refusal>
    ensures { Answers (head_fault bytes.now) (λ head. head.bytes.now ≡ bytes.now) result }
{
    let len = bytes.len();
    if len > LONGEST {
        return Err(Refusal::TableHead(LONGEST));
    }
    if len < 4 {
        return Err(Refusal::TableHead(len));
    }
    let states = bytes[1];
    let kinds = bytes[2];
    if bytes[0] != EDITION {
        return Err(Refusal::TableHead(0));
    }
    if states == 0 || states > MOST_STATES {
        return Err(Refusal::TableHead(1));
    }
    if kinds == 0 || kinds > MOST_KINDS {
        return Err(Refusal::TableHead(2));
    }
    if bytes[3] != 0 {
        return Err(Refusal::TableHead(3));
    }
    if len < 4 + 5 * kinds as usize + states as usize {
        return Err(Refusal::TableHead(len));
    }
    Ok(Head { bytes })
}

impl<'a> Head<'a> {
    // The number of states that the file writes.
    pub(super) fn states(&self) -> usize
        ensures { result ≡ states_in self.now.bytes.now }
    {
        self.bytes[1] as usize
    }

    pub(super) fn kind_count(&self) -> usize
        ensures { result ≡ kind_count_in self.now.bytes.now }
    {
        self.bytes[2] as usize
    }

    // The ranks, one byte a kind.
    pub(super) fn ranks(&self) -> &'a [u8]
        ensures { result.now ≡ ranks_in self.now.bytes.now }
    {
        &self.bytes[4..4 + self.kind_count()]
    }

    pub(super) fn rank(&self, kind: usize) -> u8
        requires { kind < kind_count_in self.now.bytes.now }
        ensures { result ≡ rank_at self.now.bytes.now kind }
    {
        self.bytes[4 + kind]
    }

    pub(super) fn mark(&self, state: usize) -> bool
        requires { state < states_in self.now.bytes.now }
        ensures { result ≡ (byte_at self.now.bytes.now (mark_place self.now.bytes.now state) == 1) }
    {
        self.bytes[4 + self.kind_count() + state] == 1
    }

    // The ranks: 2, then 3.
    pub(super) fn check_kinds(&self) -> Result<(), Refusal>
        ensures { Answers (first (rank_fault (ranks_in self.now.bytes.now)) (leaf_fault (ranks_in self.now.bytes.now))) (λ _. KindList (ranks_in self.now.bytes.now)) result }
    {
        check_opening(self.ranks())
    }

    // The marks, one byte a state: 6.
    pub(super) fn check_marks(&self) -> Result<(), Refusal>
        ensures { Answers (mark_fault self.now.bytes.now) (λ _. Unit {0}) result }
    {
        let marks = Part {
            offset: 4 + self.kind_count(),
            length: self.states(),
        };
        let wrong = marks.first_found(self.bytes, |mark| mark > 1);
        wrong.map_or(Ok(()), |at| Err(Refusal::TableByte(at)))
    }
}
