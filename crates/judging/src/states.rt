ghost use Rattle.judging.specs.States.{state_at};

use super::reckoning::Reckoning;
use ruling::Ruling;

// Reckons the states of a ruling's run.
#[derive_where(Clone, Copy)]
pub struct States<'a, R> {
    pub ruling: &'a R,
}

impl<'a, R: Ruling> Reckoning for States<'a, R> {
    type Value = u16;

    ghost at_leaf = { λ s k. state_at (R.Ruling.meaning s.ruling.now).plain k 0 0 };

    ghost at_stem = { λ s k a. state_at (R.Ruling.meaning s.ruling.now).plain k a 0 };

    ghost at_fork = { λ s k a b. state_at (R.Ruling.meaning s.ruling.now).plain k a b };

    fn leaf(&self, kind: u8) -> u16 {
        self.ruling.target(kind, 0, 0).unwrap_or(0)
    }

    fn stem(&self, kind: u8, a: u16) -> u16 {
        self.ruling.target(kind, a, 0).unwrap_or(0)
    }

    fn fork(&self, kind: u8, a: u16, b: u16) -> u16 {
        self.ruling.target(kind, a, b).unwrap_or(0)
    }
}
