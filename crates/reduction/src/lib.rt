// From any ruling to the one smallest table of its set.
#![tactic(auto)]

mod argument_list;
mod begin;
mod context;
mod division;
mod fill;
mod found;
mod keys;
mod live;
mod number;
mod numbering;
mod partition;
mod questions;
mod refine;
mod refresh;
mod spans;
mod split;
mod sweep;
mod visit;
mod watch;
mod whole;

pub use watch::{Phase, Watch};
pub use whole::{reduce, reduce_watched};
