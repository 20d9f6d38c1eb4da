// The fields of a table, with room for 16 kinds and 32 states. What is unused is 0.
// Arrays in a plain struct, which is written whole: so the count stands beside the ranks, and they are no `Kinds`.
#[derive(Drop)]
pub struct TableData {
    pub count: u8,
    pub ranks: [u8; 16],
    pub states: u8,
    pub marks: [bool; 32],
    pub cells: [u8; 16384],
}
