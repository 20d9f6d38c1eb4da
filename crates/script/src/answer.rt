use ruling::Refusal;

// The answer to a line of a script.
#[derive(Clone, Copy, Debug, PartialEq, Eq)]
pub enum Answer {
    // a table was kept, with so many states
    Kept(u16),
    // yes or no
    Verdict(bool),
    // the size of a record, by its two numbers: this crate knows no walk and not its type for sizes
    Measured { nodes: u64, height: u64 },
    // a number of states, a rank or a target
    Number(u16),
    // the question has no answer
    Nothing,
    Refused(Refusal),
    // the line is no call, or there is nothing to ask
    NoCall,
}
