// Which states of two rulings side by side are marked.
#[derive(Clone, Copy, Debug, PartialEq, Eq)]
pub enum Marking {
    // those that both rulings mark
    Both,
    // those that either marks
    Either,
}
