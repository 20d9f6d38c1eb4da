use super::questions::Questions;
use ruling::Refusal;
use std::fmt;

// The questions of a reduction, and the number of states of its table, or the refusal with the number that it would need.
#[derive(Clone, Copy)]
pub struct Measurement {
    pub questions: Questions,
    pub states: Result<u8, Refusal>,
}

impl Measurement {
    // The number of classes.
    pub(super) fn classes(&self) -> usize {
        match self.states {
            Ok(states) => states as usize,
            Err(refusal) => refusal.notice().place,
        }
    }
}

impl fmt::Display for Measurement {
    fn fmt<W: fmt::Write>(&self, f: &mut fmt::Formatter<W>) -> fmt::Result {
        let questions = self.questions;
        let word = if self.states.is_ok() {
            "states"
        } else {
            "need"
        };
        let classes = self.classes();
        write!(f, "{questions}; {word} {classes}")
    }
}
