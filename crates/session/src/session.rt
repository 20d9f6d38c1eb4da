use super::kept::KeptTable;

// What a script has come to: the table file that was accepted last.
#[derive(Drop)]
pub struct Session {
    pub(super) kept: Option<KeptTable>,
}
