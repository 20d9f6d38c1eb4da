ghost use Rattle.std.specs.Prelude.{◌≡◌, ◌<◌, length, IfOk};
ghost use Rattle.judging.specs.Judging.{judged_bytes};
ghost use Rattle.ruling.specs.Questions.{rank_in, targeted, marked};
ghost use Rattle.session.specs.Sessions.{number_or, mark_or, verdict_or, size_or, measured_bytes};

use judging::{Size, judge_bytes, measure};
use record::Record;
use ruling::{Refusal, Ruling, kinds_of};
use script::Answer;
use std::alloc::{AllocError, Global};

// Judges a record with a lent stack of this length. The stack is made here and for measuring, a line each: the slots differ.
pub(super) fn ask_judge<R: Ruling>(
    heap: Global,
    ruling: &R,
    bytes: &[u8],
    room: u32,
) -> Result<Answer, AllocError>
    ensures { IfOk result (λ a. a ≡ verdict_or (judged_bytes (R.Ruling.meaning ruling.now).plain bytes.now room)) }
{
    let mut slots = Vec::from_elem(heap, 0u16, room as usize)?;
    let verdict = judge_bytes(ruling, bytes, slots.as_mut_slice());
    Ok(verdict.map_or_else(Answer::Refused, Answer::Verdict))
}

fn measure_bytes<R: Ruling>(ruling: &R, bytes: &[u8], slots: &mut [Size]) -> Result<Size, Refusal>
    ensures { result ≡ measured_bytes (R.Ruling.meaning ruling.now).plain.kinds bytes.now (length slots.old) }
{
    measure(&Record::read(bytes, kinds_of(ruling))?, slots)
}

// Measures a record, read under the ruling's kinds, with a lent stack of this length.
pub(super) fn ask_measure<R: Ruling>(
    heap: Global,
    ruling: &R,
    bytes: &[u8],
    room: u32,
) -> Result<Answer, AllocError>
    ensures { IfOk result (λ a. a ≡ size_or (measured_bytes (R.Ruling.meaning ruling.now).plain.kinds bytes.now room)) }
{
    let mut slots = Vec::from_elem(
        heap,
        Size {
            nodes: 0,
            height: 0,
        },
        room as usize,
    )?;
    let size = measure_bytes(ruling, bytes, slots.as_mut_slice());
    Ok(size.map_or_else(
        Answer::Refused,
        |size| Answer::Measured {
            nodes: size.nodes,
            height: size.height,
        },
    ))
}

// The rank of a kind of any width.
pub(super) fn ask_rank<R: Ruling>(ruling: &R, kind: u32) -> Answer
    ensures { result ≡ number_or (rank_in (R.Ruling.meaning ruling.now).plain.kinds kind) }
{
    let kind = u8::try_from(kind).ok();
    let rank = kind.and_then(|kind| ruling.rank(kind));
    rank.map_or(Answer::Nothing, |rank| Answer::Number(rank.into()))
}

// The target of numbers of any width.
pub(super) fn ask_target<R: Ruling>(ruling: &R, kind: u32, a: u32, b: u32) -> Answer
    ensures { result ≡ number_or (targeted (R.Ruling.meaning ruling.now).plain kind a b) }
{
    let (Ok(kind), Ok(a), Ok(b)) = (u8::try_from(kind), u16::try_from(a), u16::try_from(b)) else {
        return Answer::Nothing;
    };
    ruling
        .target(kind, a, b)
        .map_or(Answer::Nothing, Answer::Number)
}

// The mark of a state of any width.
pub(super) fn ask_mark<R: Ruling>(ruling: &R, state: u32) -> Answer
    ensures { result ≡ mark_or (marked (R.Ruling.meaning ruling.now).plain state) }
{
    let state = u16::try_from(state).ok();
    let mark = state.and_then(|state| ruling.mark(state));
    mark.map_or(Answer::Nothing, Answer::Verdict)
}
