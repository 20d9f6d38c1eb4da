// An argument list over numbered classes: a kind and the numbers of its children's classes, the unused ones 0.
#[derive(Clone, Copy, PartialEq, Eq, Debug)]
pub struct ArgumentList {
    pub(super) kind: u8,
    pub(super) first: u8,
    pub(super) second: u8,
}
