use super::measurement::Measurement;
use super::questions::Questions;
use std::fmt;
use std::ops::AddAssign;

// The sums over several reductions: their number, their classes and their questions.
#[derive(Drop, Default)]
pub struct Total {
    pub reductions: u64,
    pub classes: u64,
    pub questions: Questions,
}

impl AddAssign<Measurement> for Total {
    fn add_assign(&mut self, measured: Measurement) {
        self.reductions = self.reductions.saturating_add(1);
        self.classes = self.classes.saturating_add(measured.classes() as u64);
        self.questions += measured.questions;
    }
}

impl fmt::Display for Total {
    fn fmt<W: fmt::Write>(&self, f: &mut fmt::Formatter<W>) -> fmt::Result {
        write!(
            f,
            "{} reductions, {}; classes {} in all",
            self.reductions, self.questions, self.classes
        )
    }
}
