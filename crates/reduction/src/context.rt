// Where a state is put below a kind: alone below a sign, or below a join as the left or the right child, beside a brother.
#[derive(Clone, Copy, PartialEq, Eq, Debug)]
pub enum Context {
    Under { kind: u8 },
    Left { kind: u8, brother: u16 },
    Right { kind: u8, brother: u16 },
}
