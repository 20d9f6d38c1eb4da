use std::fmt;
use std::ops::AddAssign;

// The number of argument lists of a ruling, and the target questions of each part of its reduction.
#[derive(Clone, Copy, Debug, Default, PartialEq, Eq)]
pub struct Questions {
    pub lists: u64,
    pub reached: u64,
    pub classes: u64,
    pub numbering: u64,
    pub table: u64,
}

impl AddAssign for Questions {
    fn add_assign(&mut self, more: Questions) {
        self.lists = self.lists.saturating_add(more.lists);
        self.reached = self.reached.saturating_add(more.reached);
        self.classes = self.classes.saturating_add(more.classes);
        self.numbering = self.numbering.saturating_add(more.numbering);
        self.table = self.table.saturating_add(more.table);
    }
}

impl fmt::Display for Questions {
    fn fmt<W: fmt::Write>(&self, f: &mut fmt::Formatter<W>) -> fmt::Result {
        write!(
            f,
            "lists {}, reached {}, classes {}, numbering {}, table {}",
            self.lists, self.reached, self.classes, self.numbering, self.table
        )
    }
}
