ghost use Rattle.std.specs.Prelude.{◌≡◌, true};
ghost use Rattle.ruling.specs.KindLists.{has_leaf};
ghost use Rattle.ruling.specs.Theorems.{Plugging, AllReached, Smallest, OneTable, SameBytes, TableOfEach, OneWritten, SettledSame, ApproximationsEnd, NeedOfClasses, OneNeed};
ghost use Rattle.reduction.specs.Reductions.{Reduces, OneReduction};

use super::begin::classes;
use super::numbering::Numbering;
use super::visit::reached;
use super::watch::{Phase, Unwatched, Watch};
use encoder::Table;
use ruling::{Refusal, Ruling};

const MOST_STATES: usize = 32;

// The canonical table of the ruling's set; 12 with the number of states that the set needs, where that is above 32.
// The watch is told as each part of the work ends.
pub fn reduce_watched<R: Ruling, W: Watch>(ruling: &R, watch: &mut W) -> Result<Table, Refusal>
    requires { has_leaf (R.Ruling.meaning ruling.now).plain.kinds ≡ true }
    ensures { Reduces (R.Ruling.meaning ruling.now).plain result }
{
    let list = reached(ruling);
    watch.ended(Phase::Reached);
    let partition = classes(ruling, list.as_slice());
    watch.ended(Phase::Classes);
    let count = partition.count();
    if count > MOST_STATES {
        return Err(Refusal::TooManyStates(count));
    }
    let numbering = Numbering::by_discovery(ruling, &partition);
    watch.ended(Phase::Numbering);
    let table = numbering.table();
    watch.ended(Phase::Table);
    Ok(table)
}

// The canonical table of the ruling's set; 12 with the number of states that the set needs, where that is above 32. Beside the
// answer: what is proved of the definitions alone.
pub fn reduce<R: Ruling>(ruling: &R) -> Result<Table, Refusal>
    requires { has_leaf (R.Ruling.meaning ruling.now).plain.kinds ≡ true }
    ensures reduces { Reduces (R.Ruling.meaning ruling.now).plain result }
    ensures one { OneReduction }
    ensures plugging { Plugging }
    ensures reached { AllReached }
    ensures smallest { Smallest }
    ensures unique { OneTable }
    ensures bytes { SameBytes }
    ensures each { TableOfEach }
    ensures written { OneWritten }
    ensures settled { SettledSame }
    ensures end { ApproximationsEnd }
    ensures classes { NeedOfClasses }
    ensures need { OneNeed }
{
    reduce_watched(ruling, &mut Unwatched)
}
