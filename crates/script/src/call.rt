ghost use Rattle.std.specs.Prelude.{◌≡◌};
ghost use Rattle.script.specs.Verbs.{word_of};

// What a call does; a word of its own begins it.
#[derive(Clone, Copy, Debug, PartialEq, Eq)]
pub(super) enum Verb {
    Table,
    Judge,
    Measure,
    States,
    Rank,
    Target,
    Mark,
}

impl Verb {
    pub(super) const ALL: [Verb; 7] = [
        Verb::Table,
        Verb::Judge,
        Verb::Measure,
        Verb::States,
        Verb::Rank,
        Verb::Target,
        Verb::Mark,
    ];

    pub(super) fn word(self) -> &'static [u8]
        ensures { result.now ≡ word_of self }
    {
        match self {
            Verb::Table => b"table",
            Verb::Judge => b"judge",
            Verb::Measure => b"measure",
            Verb::States => b"states",
            Verb::Rank => b"rank",
            Verb::Target => b"target",
            Verb::Mark => b"mark",
        }
    }
}

// A call with what it is given: the bytes of a table or a record, the length of a lent stack, the numbers of a question.
#[derive(Debug, PartialEq, Eq, Drop)]
pub enum Call {
    Table(Vec<u8>),
    Judge(Vec<u8>, u32),
    Measure(Vec<u8>, u32),
    States,
    Rank(u32),
    Target(u32, u32, u32),
    Mark(u32),
}

// What a line says: nothing, no call, or a call. By names of its own: an Option in an Option would not tell the first two apart.
#[derive(Debug, PartialEq, Eq, Drop)]
pub enum Line {
    Blank,
    NoCall,
    Call(Call),
}
