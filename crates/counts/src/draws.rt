// Draws from a seed: each replaces x by 69069 · x + 1 modulo 2^32 and gives its upper 16 bits.
#[derive(Drop)]
pub(super) struct Draws {
    x: u32,
}

impl From<u32> for Draws {
    fn from(seed: u32) -> Draws {
        Draws { x: seed }
    }
}

impl Draws {
    // A method, and no iterator: there is always a next draw.
    pub(super) fn draw(&mut self) -> u16 {
        self.x = self.x.wrapping_mul(69069).wrapping_add(1);
        (self.x >> 16) as u16
    }
}
