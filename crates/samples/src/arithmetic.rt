ghost use Rattle.samples.specs.Arithmetics.{lead_of, mark_of};

use super::rules::Rules;

// Rules by arithmetic on the kind and the states.
#[derive(Clone, Copy, Debug, PartialEq, Eq)]
pub enum Arithmetic {
    // 1 and the children's states, summed modulo the number of states; 0 is marked
    Counting,
    // the same targets; every 33rd state is marked
    Classes33,
    // the kind and the children's states, summed modulo the number of states; all are marked
    Alike,
    // the kind and the child's state, summed modulo the number of states; the last state is marked
    Cycle,
    // kind 0 leads to the last state, another to the state below that of the first child, 0 to 0; 0 is marked
    Slow,
}

impl Rules for Arithmetic {
    ghost leads = { lead_of };

    ghost marks = { mark_of };

    fn lead(&self, states: u16, kind: u8, a: u16, b: u16) -> u32 {
        let n = states as u32;
        match *self {
            Arithmetic::Counting | Arithmetic::Classes33 => (1 + a as u32 + b as u32) % n,
            Arithmetic::Alike => (kind as u32 + a as u32 + b as u32) % n,
            Arithmetic::Cycle => (kind as u32 + a as u32) % n,
            Arithmetic::Slow if kind == 0 => n - 1,
            Arithmetic::Slow => (a as u32).saturating_sub(1),
        }
    }

    fn mark(&self, states: u16, state: u16) -> bool {
        match *self {
            Arithmetic::Counting | Arithmetic::Slow => state == 0,
            Arithmetic::Classes33 => state % 33 == 0,
            Arithmetic::Alike => true,
            Arithmetic::Cycle => state as u32 + 1 == states as u32,
        }
    }
}
