ghost use Rattle.std.specs.Prelude.{◌≡◌};
ghost use Rattle.ruling.specs.Questions.{rank_in, targeted, marked};
ghost use Rattle.ruling.specs.Rulings.{Ruled};

// A ruling of any make. It shows what it means, well formed, and answers four questions as its meaning has it.
// A question leaves the ruling as it is.
pub trait Ruling {
    ghost meaning: { Self → Ruled };

    // The number of states.
    fn states(&self) -> u16
        ensures { result ≡ (meaning self.now).plain.states };

    // The rank of a kind; none where the ruling has no such kind.
    fn rank(&self, kind: u8) -> Option<u8>
        ensures { result ≡ rank_in (meaning self.now).plain.kinds kind };

    // The target of an argument list, the unused states being 0; none where this is no argument list.
    fn target(&self, kind: u8, a: u16, b: u16) -> Option<u16>
        ensures { result ≡ targeted (meaning self.now).plain kind a b };

    // The mark of a state; none where there is no such state.
    fn mark(&self, state: u16) -> Option<bool>
        ensures { result ≡ marked (meaning self.now).plain state };
}
