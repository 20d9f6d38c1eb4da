ghost use Rattle.std.specs.Prelude.{◌≡◌, ◌≤◌, length, None};
ghost use Rattle.ruling.specs.KindLists.{opening_fault};
ghost use Rattle.encoder.specs.Tables.{CopyOf};
ghost use Rattle.rulebook.specs.Histories.{opened, Stands};
ghost use Rattle.rulebook.specs.Tables.{empty_meaning};
ghost use Rattle.rulebook.specs.Changes.{meaning_of};

use super::rulebook::Rulebook;
use encoder::{Table, TableData};
use ruling::padded;

// One state, marked no, and every target leads to it.
fn empty_data(ranks: &[u8]) -> TableData
    requires { length ranks.now ≤ 16 }
    ensures { CopyOf (empty_meaning ranks.now) result }
{
    TableData {
        count: ranks.len() as u8,
        ranks: padded(ranks),
        states: 1,
        marks: [false; 32],
        cells: [0; 16384],
    }
}

impl Rulebook {
    // The rulebook of the empty set, over a kind list that passed its check.
    pub(super) fn open(ranks: &[u8]) -> Rulebook
        requires { opening_fault ranks.now ≡ None }
        ensures { Stands (opened ranks.now) (meaning_of result) }
    {
        let inner = empty_data(ranks);
        let table = Table { inner };
        Rulebook { table }
    }
}
