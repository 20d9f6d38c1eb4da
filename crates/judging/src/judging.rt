ghost use Rattle.std.specs.Prelude.{◌≡◌, length};
ghost use Rattle.ruling.specs.Trees.{node_count};
ghost use Rattle.ruling.specs.Meanings.{accepts};
ghost use Rattle.ruling.specs.Checks.{Kept};
ghost use Rattle.record.specs.Held.{kinds_of, tree_of};
ghost use Rattle.judging.specs.Walking.{walked};
ghost use Rattle.judging.specs.Judging.{judged, judged_bytes, measured};

use super::states::States;
use super::tally::{Size, Tally};
use super::walking::walk;
use record::Record;
use ruling::{Refusal, Ruling, check_same_kinds, kinds_of};

// Whether a record over the ruling's kinds is accepted.
fn is_accepted<R: Ruling>(
    ruling: &R,
    record: &Record<'_>,
    slots: &mut [u16],
) -> Result<bool, Refusal>
    requires { (R.Ruling.meaning ruling.now).plain.kinds ≡ kinds_of «record».now }
    ensures answer { result ≡ walked (accepts (R.Ruling.meaning ruling.now).plain (tree_of «record».now)) (node_count (tree_of «record».now)) (length slots.old) }
    ensures kept { Kept result slots.old slots.new }
{
    let state = walk(&States { ruling }, record, slots)?;
    Ok(ruling.mark(state).unwrap_or(false))
}

// Whether a checked record is accepted: 7 where it was read under another kind list, then 13.
pub fn judge<R: Ruling>(ruling: &R, record: &Record<'_>, slots: &mut [u16]) -> Result<bool, Refusal>
    ensures answer { result ≡ judged (R.Ruling.meaning ruling.now).plain (kinds_of «record».now) (tree_of «record».now) (length slots.old) }
    ensures kept { Kept result slots.old slots.new }
{
    check_same_kinds(ruling, &record.kinds())?;
    is_accepted(ruling, record, slots)
}

// Whether the record in these bytes, read under the ruling's kinds, is accepted: 8, 9, 10, 11, then 13.
pub fn judge_bytes<R: Ruling>(ruling: &R, bytes: &[u8], slots: &mut [u16]) -> Result<bool, Refusal>
    ensures answer { result ≡ judged_bytes (R.Ruling.meaning ruling.now).plain bytes.now (length slots.old) }
    ensures kept { Kept result slots.old slots.new }
{
    let record = Record::read(bytes, kinds_of(ruling))?;
    is_accepted(ruling, &record, slots)
}

// A record's number of nodes and its height: 13.
pub fn measure(record: &Record<'_>, slots: &mut [Size]) -> Result<Size, Refusal>
    ensures answer { result ≡ measured (tree_of «record».now) (length slots.old) }
    ensures kept { Kept result slots.old slots.new }
{
    walk(&Tally, record, slots)
}
