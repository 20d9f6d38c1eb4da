ghost use Rattle.std.specs.Prelude.{◌≡◌, ℕ, ◌+◌, ◌≤◌, Bool, length, slice_index};
ghost use Rattle.ruling.specs.Checks.{lowest};

// A part of a file: where it begins, and how many bytes it has.
#[derive(Clone, Copy)]
pub(super) struct Part {
    pub(super) offset: usize,
    pub(super) length: usize,
}

impl Part {
    // The place in the file of the first byte of the part that passes the test.
    pub(super) fn first_found<F: Fn(u8) -> bool>(self, bytes: &[u8], test: F) -> Option<usize>
        ghost passes: { ℕ → Bool }
        requires within { self.offset + self.length ≤ length bytes.now }
        requires callable { F.IsAlwaysCallable test }
        requires computes { (x : ℕ) (r : Bool) → F.post test x r → r ≡ passes x }
        ensures { result ≡ lowest (λ p. passes (slice_index bytes.now p)) self.offset self.length }
    {
        (self.offset..self.offset + self.length).find(|at| test(bytes[*at]))
    }
}
