ghost use Rattle.trials.specs.NoRoad.{no_road};

use ruling::Ruling;

// No road anywhere, over path, road, sign and join: state 1 has a road below it. The rules are written in code, not in a table.
pub struct NoRoad;

impl Ruling for NoRoad {
    ghost meaning = { λ _. no_road };

    fn states(&self) -> u16 {
        2
    }

    fn rank(&self, kind: u8) -> Option<u8> {
        match kind {
            0 | 1 => Some(0),
            2 => Some(1),
            3 => Some(2),
            _ => None,
        }
    }

    fn target(&self, kind: u8, a: u16, b: u16) -> Option<u16> {
        match (kind, a, b) {
            (0, 0, 0) => Some(0),
            (1, 0, 0) => Some(1),
            (2, 0..=1, 0) => Some(a),
            (3, 0..=1, 0..=1) => Some(a.max(b)),
            _ => None,
        }
    }

    fn mark(&self, state: u16) -> Option<bool> {
        match state {
            0 => Some(true),
            1 => Some(false),
            _ => None,
        }
    }
}
