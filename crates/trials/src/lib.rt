// Tests of the crates below, and a make of ruling that none of them knows.
#![tactic(auto)]

mod no_road;
#[cfg(test)]
mod reductions;
#[cfg(test)]
mod tests;

pub use no_road::NoRoad;
