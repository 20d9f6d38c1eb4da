// Tables in memory, and the files that are written from them.
#![tactic(auto)]

mod copy;
mod encoding;
mod places;
mod shape;
mod table_data;
mod table_in_memory;
mod write_parts;

pub use encoding::{encode, encoded_len};
pub use places::place_of_cell;
pub use ruling::ranks_of;
pub use table_data::TableData;
pub use table_in_memory::Table;
