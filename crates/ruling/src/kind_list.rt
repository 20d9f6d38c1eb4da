ghost use Rattle.std.specs.Prelude.{◌≡◌, ℕ, ◌<◌, ◌≤◌, length, nat_lt, slice_index};
ghost use Rattle.std.specs.Option.{unwrap_or};
ghost use Rattle.ruling.specs.Questions.{rank_in};
ghost use Rattle.ruling.specs.Checks.{lowest, Answers};
ghost use Rattle.ruling.specs.KindLists.{KindList, has_leaf, list_fault, rank_fault, leaf_fault, opening_fault};
ghost use Rattle.ruling.specs.Listed.{list_of};

use super::kinds::Kinds;
use super::refusal::Refusal;

// The lowest kind with a rank above 2.
fn first_above(ranks: &[u8]) -> Option<usize>
    ensures { result ≡ lowest (λ k. nat_lt 2 (slice_index ranks.now k)) 0 (length ranks.now) }
{
    ranks.iter().position(|rank| *rank > 2)
}

// Fault 2: a rank above 2.
fn check_small(ranks: &[u8]) -> Result<(), Refusal>
    ensures { Answers (rank_fault ranks.now) (λ _. Unit {0}) result }
{
    first_above(ranks).map_or(Ok(()), |kind| Err(Refusal::RankAbove(kind)))
}

fn has_leaf(ranks: &[u8]) -> bool
    ensures { result ≡ has_leaf ranks.now }
{
    // By `any`: with `contains` the C judge takes a third longer over a short record.
    ranks.iter().any(|rank| *rank == 0)
}

// Whether these ranks are a kind list: 1, then 2.
pub fn check_ranks(ranks: &[u8]) -> Result<(), Refusal>
    ensures { Answers (list_fault ranks.now) (λ _. KindList ranks.now) result }
{
    let count = ranks.len();
    if count == 0 || count > 16 {
        return Err(Refusal::KindCount(count));
    }
    check_small(ranks)
}

// Whether some kind has rank 0: 3.
pub fn check_leaf_kind(ranks: &[u8]) -> Result<(), Refusal>
    ensures { Answers (leaf_fault ranks.now) (λ _. Unit {0}) result }
{
    if has_leaf(ranks) {
        Ok(())
    } else {
        Err(Refusal::NoLeafKind)
    }
}

// Whether a rulebook opens with these ranks: 1, 2, 3.
pub fn check_opening(ranks: &[u8]) -> Result<(), Refusal>
    ensures { Answers (opening_fault ranks.now) (λ _. KindList ranks.now) result }
{
    check_ranks(ranks)?;
    check_leaf_kind(ranks)
}

// The rank of a kind; none where there is no such kind.
fn rank_at(ranks: &[u8], kind: usize) -> Option<u8>
    ensures { result ≡ rank_in ranks.now kind }
{
    ranks.get(kind).copied()
}

// The ranks, with zeros behind.
pub fn padded(ranks: &[u8]) -> [u8; 16]
    ensures { (k : ℕ) → k < 16 → slice_index result k ≡ unwrap_or (rank_in ranks.now k) 0 }
{
    std::array::from_fn(|kind| rank_at(ranks, kind).unwrap_or(0))
}

// The kind list of these ranks, checked: 1, then 2.
impl TryFrom<&[u8]> for Kinds {
    type Error = Refusal;

    ghost try_from_gives = { λ ranks. Answers (list_fault ranks.now) (λ kinds. list_of kinds ≡ ranks.now) };

    fn try_from(ranks: &[u8]) -> Result<Kinds, Refusal> {
        check_ranks(ranks)?;
        Ok(Kinds::make(ranks))
    }
}

impl Kinds {
    // The kind list of these ranks, once `check_ranks` has passed them.
    pub fn make(ranks: &[u8]) -> Kinds
        requires { KindList ranks.now }
        ensures { list_of result ≡ ranks.now }
    {
        Kinds {
            count: ranks.len() as u8,
            ranks: padded(ranks),
        }
    }

    // The ranks, that of kind 0 first.
    fn ranks(&self) -> &[u8]
        ensures { result.now ≡ list_of self.now }
    {
        &self.ranks[..self.count as usize]
    }

    // The number of kinds.
    pub fn len(&self) -> usize
        ensures { result ≡ length (list_of self.now) }
    {
        self.ranks().len()
    }

    // The rank of a kind; none where there is no such kind.
    pub fn rank(&self, kind: u8) -> Option<u8>
        ensures { result ≡ rank_in (list_of self.now) kind }
    {
        rank_at(self.ranks(), kind as usize)
    }
}
