ghost use Rattle.std.specs.Prelude.{◌≡◌, ℕ, ◌<◌, ◌≤◌, slice_index};

// A kind list: 1 to 16 kinds, numbered from 0, each with a rank of 0 to 2, its number of children. Zeros stand behind.
// An array and a count: a checked record copies its kind list, and a vector of fixed room is no `Copy`.
#[derive(Clone, Copy, Debug, PartialEq, Eq)]
pub struct Kinds {
    pub(super) count: u8,
    pub(super) ranks: [u8; 16],
    ghost some: { 0 < count },
    ghost few: { count ≤ 16 },
    ghost blank: { (k : ℕ) → count ≤ k → slice_index ranks k ≡ 0 },
    ghost small: { (k : ℕ) → k < count → slice_index ranks k ≤ 2 },
}
