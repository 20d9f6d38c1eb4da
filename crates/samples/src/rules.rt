ghost use Rattle.std.specs.Prelude.{◌≡◌, ℕ, ◌<◌, Bool};

// The rules of a sample of so many states: where an argument list leads, and whether a state is marked.
// What is no state counts as state 0.
pub trait Rules {
    ghost leads: { Self → ℕ → ℕ → ℕ → ℕ → ℕ };

    ghost marks: { Self → ℕ → ℕ → Bool };

    fn lead(&self, states: u16, kind: u8, a: u16, b: u16) -> u32
        requires { 0 < states }
        ensures { result ≡ leads self.now states kind a b };

    fn mark(&self, states: u16, state: u16) -> bool
        ensures { result ≡ marks self.now states state };
}
