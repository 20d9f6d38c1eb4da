// The table file: its check, and the ruling that is read from it.
#![tactic(auto)]

mod cells;
mod check;
mod directory;
mod flat_table;
mod head;
mod part;

pub use check::check_table;
pub use directory::cell_count;
pub use flat_table::FlatTable;
