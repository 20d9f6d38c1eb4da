ghost use Rattle.samples.specs.Products.{lead_both, mark_both};

use super::marking::Marking;
use super::rules::Rules;
use ruling::Ruling;

// The rules of two rulings side by side: with N states of the second, state a · N + b stands for a and b.
#[derive(Drop)]
pub struct Product<'a, P, Q> {
    pub left: &'a P,
    pub right: &'a Q,
    pub marking: Marking,
}

impl<'a, P: Ruling, Q: Ruling> Rules for Product<'a, P, Q> {
    ghost leads = { λ p _ k a b. lead_both (P.Ruling.meaning p.left.now).plain (Q.Ruling.meaning p.right.now).plain k a b };

    ghost marks = { λ p _ s. mark_both p.marking (P.Ruling.meaning p.left.now).plain (Q.Ruling.meaning p.right.now).plain s };

    fn lead(&self, _states: u16, kind: u8, a: u16, b: u16) -> u32 {
        let n = self.right.states();
        let left = self.left.target(kind, a / n, b / n).unwrap_or(0);
        let right = self.right.target(kind, a % n, b % n).unwrap_or(0);
        left as u32 * n as u32 + right as u32
    }

    fn mark(&self, _states: u16, state: u16) -> bool {
        let n = self.right.states();
        let left = self.left.mark(state / n).unwrap_or(false);
        let right = self.right.mark(state % n).unwrap_or(false);
        match self.marking {
            Marking::Both => left && right,
            Marking::Either => left || right,
        }
    }
}
