use super::questions::Questions;
use reduction::{Phase, Watch};
use std::cell::Cell;

// Takes the count as each part ends, and begins the next from 0.
#[derive(Drop)]
pub struct Tally<'a> {
    pub asked: &'a Cell<u64>,
    pub questions: Questions,
}

impl<'a> Watch for Tally<'a> {
    fn ended(&mut self, phase: Phase) {
        let asked = self.asked.replace(0);
        match phase {
            Phase::Reached => self.questions.reached = asked,
            Phase::Classes => self.questions.classes = asked,
            Phase::Numbering => self.questions.numbering = asked,
            Phase::Table => self.questions.table = asked,
        }
    }
}
