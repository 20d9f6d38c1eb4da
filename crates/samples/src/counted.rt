use ruling::Ruling;
use std::cell::Cell;

// A ruling whose target questions are counted. It means what the ruling below means.
#[derive(Drop)]
pub struct Counted<'a, R> {
    pub ruling: &'a R,
    pub asked: &'a Cell<u64>,
}

impl<'a, R: Ruling> Ruling for Counted<'a, R> {
    ghost meaning = { λ c. R.Ruling.meaning c.ruling.now };

    fn states(&self) -> u16 {
        self.ruling.states()
    }

    fn rank(&self, kind: u8) -> Option<u8> {
        self.ruling.rank(kind)
    }

    fn target(&self, kind: u8, a: u16, b: u16) -> Option<u16> {
        self.asked.update(|asked| asked.wrapping_add(1));
        self.ruling.target(kind, a, b)
    }

    fn mark(&self, state: u16) -> Option<bool> {
        self.ruling.mark(state)
    }
}
