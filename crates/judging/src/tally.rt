ghost use Rattle.judging.specs.Tallies.{leaf_size, stem_size, fork_size};

use super::reckoning::Reckoning;

// A record's number of nodes and its height, a leaf having height 0.
#[derive(Clone, Copy, Debug, PartialEq, Eq)]
pub struct Size {
    pub nodes: u64,
    pub height: u64,
}

// Reckons the size of a record, up to what 64 bits hold.
#[derive(Clone, Copy)]
pub struct Tally;

impl Reckoning for Tally {
    type Value = Size;

    ghost at_leaf = { λ _ _. leaf_size };

    ghost at_stem = { λ _ _ a. stem_size a };

    ghost at_fork = { λ _ _ a b. fork_size a b };

    fn leaf(&self, _kind: u8) -> Size {
        Size {
            nodes: 1,
            height: 0,
        }
    }

    fn stem(&self, _kind: u8, a: Size) -> Size {
        Size {
            nodes: a.nodes.saturating_add(1),
            height: a.height.saturating_add(1),
        }
    }

    fn fork(&self, _kind: u8, a: Size, b: Size) -> Size {
        Size {
            nodes: a.nodes.saturating_add(b.nodes).saturating_add(1),
            height: a.height.max(b.height).saturating_add(1),
        }
    }
}
