// A script's session: it keeps a table file, makes calls and answers lines.
#![tactic(auto)]

mod kept;
mod questions;
mod serving;
mod session;

pub use session::Session;
