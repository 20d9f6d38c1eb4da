ghost use Rattle.std.specs.Prelude.{◌≡◌};
ghost use Rattle.ruling.specs.Questions.{fitting};

// Whether a and b are states below n for a kind of this rank, the unused ones 0.
pub fn fits_rank(rank: u8, n: u16, a: u16, b: u16) -> bool
    ensures { result ≡ fitting n rank a b }
{
    match rank {
        0 => a == 0 && b == 0,
        1 => a < n && b == 0,
        2 => a < n && b < n,
        _ => false,
    }
}
