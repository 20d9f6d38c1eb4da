use super::measurement::Measurement;
use super::questions::Questions;
use super::tally::Tally;
use reduction::reduce_watched;
use ruling::Ruling;
use samples::{Counted, Rules, Sample};
use std::cell::Cell;

// The number of argument lists of a ruling.
fn all_lists<R: Ruling>(ruling: &R) -> u64 {
    let states = ruling.states() as u64;
    (0..16u8)
        .filter_map(|kind| ruling.rank(kind))
        .map(|rank| states.saturating_pow(rank as u32))
        .fold(0, |lists, more| lists.saturating_add(more))
}

// Reduces a sample and counts the target questions.
pub(super) fn measure<T: Rules>(sample: &Sample<T>) -> Measurement {
    let asked = Cell::new(0);
    let counted = Counted {
        ruling: sample,
        asked: &asked,
    };
    let mut tally = Tally {
        asked: &asked,
        questions: Questions {
            lists: all_lists(sample),
            ..Questions::default()
        },
    };
    let states = reduce_watched(&counted, &mut tally).map(|table| table.inner.states);
    Measurement {
        questions: tally.questions,
        states,
    }
}
