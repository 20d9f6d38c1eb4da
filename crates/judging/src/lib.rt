// Walking records: reckonings, the one walk, judge and measure.
#![tactic(auto)]

mod judging;
mod reckoning;
mod states;
mod tally;
mod walking;

pub use judging::{judge, judge_bytes, measure};
pub use reckoning::Reckoning;
pub use states::States;
pub use tally::{Size, Tally};
pub use walking::walk;
