ghost use Rattle.std.specs.Prelude.{◌<◌, ◌≤◌};

use super::opening::Opening;

// A ruling of 1 to 1,089 states by rules.
#[derive(Drop)]
pub struct Sample<T> {
    pub opening: Opening,
    pub states: u16,
    pub rules: T,
    ghost some: { 0 < states },
    ghost few: { states ≤ 1089 },
}
