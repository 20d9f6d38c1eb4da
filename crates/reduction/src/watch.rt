// The parts of a reduction, in their order. Where the need is above 32 the first two are all.
#[derive(Clone, Copy, PartialEq, Eq, Debug)]
pub enum Phase {
    Reached,
    Classes,
    Numbering,
    Table,
}

// Is told as each part of a reduction ends; for measurements. A trait: of a closure the reduction would ask that it can be called.
pub trait Watch {
    fn ended(&mut self, phase: Phase);
}

// Watches nothing.
#[derive(Drop)]
pub struct Unwatched;

impl Watch for Unwatched {
    fn ended(&mut self, phase: Phase) {}
}
