ghost use Rattle.std.specs.Prelude.{length};
ghost use Rattle.reduction.specs.Numbering.{Spans};
ghost use Rattle.reduction.specs.Numberings.{ruled_by};

use super::numbering::Numbering;
use ruling::Ruling;

impl<'a, R: Ruling> Numbering<'a, R> {
    // How many first and second children the argument lists of a kind have, over the numbered classes; an unused one has the one number 0.
    pub(super) fn spans(&self, kind: u8) -> (u8, u8)
        ensures { Spans (ruled_by self.now).kinds (length self.now.rep.items) kind result.0 result.1 }
    {
        match self.ruling.rank(kind) {
            None => (0, 0),
            Some(0) => (1, 1),
            Some(1) => (self.count(), 1),
            Some(_) => (self.count(), self.count()),
        }
    }
}
