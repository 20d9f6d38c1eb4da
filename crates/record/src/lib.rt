// Records: reading them, checked records and their children. The definitions are in specs/.
#![tactic(auto)]

mod check;
mod children;
mod held;
mod reader;
mod record;

pub use check::{MAX_NODES, check_record};
pub use children::Span;
pub use record::Record;
