ghost use Rattle.std.specs.Prelude.{◌≡◌, length};
ghost use Rattle.ruling.specs.Checks.{Kept};
ghost use Rattle.ruling.specs.Listed.{list_of};
ghost use Rattle.ruling.specs.Trees.{node_count};
ghost use Rattle.record.specs.Held.{tree_of};
ghost use Rattle.stack.specs.Stacks.{live};
ghost use Rattle.judging.specs.Reckonings.{reckoned};
ghost use Rattle.judging.specs.Walking.{Steps, Works, walked};

use super::reckoning::Reckoning;
use record::Record;
use ruling::{Kinds, Refusal};
use stack::Stack;

// One node: the values of its children are replaced by its own.
fn step<R: Reckoning>(
    reckoning: &R,
    kinds: &Kinds,
    stack: &mut Stack<'_, R::Value>,
    kind: u8,
    at: usize,
) -> Result<(), Refusal>
    ensures steps { Steps (reckoned (R.Reckoning.at_leaf reckoning.now) (R.Reckoning.at_stem reckoning.now) (R.Reckoning.at_fork reckoning.now)) (list_of kinds.now) at kind (length stack.old.slots.now) (live stack.old.len stack.old.slots.now) (live stack.new.len stack.new.slots.now) result }
    ensures room { length stack.new.slots.now ≡ length stack.old.slots.now }
{
    match kinds.rank(kind).ok_or(Refusal::NoKind(at))? {
        0 => stack.push(reckoning.leaf(kind)),
        1 => {
            let a = stack.pop().ok_or(Refusal::TooFewParts(at))?;
            stack.push(reckoning.stem(kind, a))
        }
        _ => {
            let b = stack.pop().ok_or(Refusal::TooFewParts(at))?;
            let a = stack.pop().ok_or(Refusal::TooFewParts(at))?;
            stack.push(reckoning.fork(kind, a, b))
        }
    }
}

// Works the bytes of a record up from its leaves, with a value for each part that stands.
pub(crate) fn work<R: Reckoning>(
    reckoning: &R,
    kinds: &Kinds,
    bytes: &[u8],
    slots: &mut [R::Value],
) -> Result<R::Value, Refusal>
    ensures { Works (reckoned (R.Reckoning.at_leaf reckoning.now) (R.Reckoning.at_stem reckoning.now) (R.Reckoning.at_fork reckoning.now)) (list_of kinds.now) bytes.now (length slots.old) result }
{
    let mut stack = Stack::new(slots);
    for (at, kind) in bytes.iter().enumerate() {
        step(reckoning, kinds, &mut stack, *kind, at)?;
    }
    stack.pop().ok_or(Refusal::SeveralParts(bytes.len()))
}

// Reckons a record's value: 13 where there are fewer slots than nodes.
pub fn walk<R: Reckoning>(
    reckoning: &R,
    record: &Record<'_>,
    slots: &mut [R::Value],
) -> Result<R::Value, Refusal>
    ensures answer { result ≡ walked (reckoned (R.Reckoning.at_leaf reckoning.now) (R.Reckoning.at_stem reckoning.now) (R.Reckoning.at_fork reckoning.now) (tree_of «record».now)) (node_count (tree_of «record».now)) (length slots.old) }
    ensures kept { Kept result slots.old slots.new }
{
    let need = record.len();
    if slots.len() < need {
        return Err(Refusal::BufferTooShort(need));
    }
    work(reckoning, &record.kinds(), record.bytes(), slots)
}
