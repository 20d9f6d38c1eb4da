ghost use Rattle.encoder.specs.Tables.{ruled_table};

use super::rulebook::Rulebook;
use ruling::Ruling;

impl Ruling for Rulebook {
    ghost meaning = { λ b. ruled_table b.table.inner b.table.some b.table.few b.table.counted b.table.ranked b.table.filled b.table.limited b.table.complete };

    fn states(&self) -> u16 {
        self.table.states()
    }

    fn rank(&self, kind: u8) -> Option<u8> {
        self.table.rank(kind)
    }

    fn target(&self, kind: u8, a: u16, b: u16) -> Option<u16> {
        self.table.target(kind, a, b)
    }

    fn mark(&self, state: u16) -> Option<bool> {
        self.table.mark(state)
    }
}
