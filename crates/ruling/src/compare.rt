ghost use Rattle.std.specs.Prelude.{◌≡◌, ℕ, ◌<◌, length, None, slice_index};
ghost use Rattle.std.specs.Option.{unwrap_or};
ghost use Rattle.ruling.specs.Checks.{Answers};
ghost use Rattle.ruling.specs.KindLists.{differing, kinds_fault};
ghost use Rattle.ruling.specs.Listed.{list_of};
ghost use Rattle.ruling.specs.Questions.{rank_in};

use super::kinds::Kinds;
use super::refusal::Refusal;
use super::ruling::Ruling;

// The lowest kind whose rank differs, or that is in one list only.
fn first_difference<R: Ruling>(ruling: &R, kinds: &Kinds) -> Option<u8>
    ensures lowest { result ≡ differing (R.Ruling.meaning ruling.now).plain.kinds (list_of kinds.now) }
    ensures none { result ≡ None → (R.Ruling.meaning ruling.now).plain.kinds ≡ list_of kinds.now }
{
    (0..16u8).find(|kind| ruling.rank(*kind) != kinds.rank(*kind))
}

// Whether a kind list is that of a ruling: 7, the lowest kind that differs or is in one list only.
pub fn check_same_kinds<R: Ruling>(ruling: &R, kinds: &Kinds) -> Result<(), Refusal>
    ensures { Answers (kinds_fault (R.Ruling.meaning ruling.now).plain.kinds (list_of kinds.now)) (λ _. (R.Ruling.meaning ruling.now).plain.kinds ≡ list_of kinds.now) result }
{
    first_difference(ruling, kinds).map_or(Ok(()), |kind| Err(Refusal::KindsDiffer(kind as usize)))
}

fn kind_count<R: Ruling>(ruling: &R) -> u8
    ensures { result ≡ length (R.Ruling.meaning ruling.now).plain.kinds }
{
    (0..16u8)
        .find(|kind| ruling.rank(*kind).is_none())
        .unwrap_or(16)
}

// The ranks of a ruling's kinds, with zeros behind.
pub fn ranks_of<R: Ruling>(ruling: &R) -> [u8; 16]
    ensures { (k : ℕ) → k < 16 → slice_index result k ≡ unwrap_or (rank_in (R.Ruling.meaning ruling.now).plain.kinds k) 0 }
{
    std::array::from_fn(|kind| ruling.rank(kind as u8).unwrap_or(0))
}

// The kind list of a ruling.
pub fn kinds_of<R: Ruling>(ruling: &R) -> Kinds
    ensures { list_of result ≡ (R.Ruling.meaning ruling.now).plain.kinds }
{
    Kinds {
        count: kind_count(ruling),
        ranks: ranks_of(ruling),
    }
}
