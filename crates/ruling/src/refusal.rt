ghost use Rattle.std.specs.Prelude.{◌≡◌};
ghost use Rattle.ruling.specs.Refusals.{told};

use super::layer::Layer;

// Why a call is refused: one variant for each cause, with what its place needs.
#[derive(Clone, Copy, Debug, PartialEq, Eq)]
pub enum Refusal {
    // a kind list is empty or has more than 16 kinds: its length
    KindCount(usize),
    // a rank is above 2: the lowest such kind
    RankAbove(usize),
    // no kind has rank 0
    NoLeafKind,
    // a table file is too long or too short, or one of its first four bytes is wrong: that byte or length
    TableHead(usize),
    // a pair of the directory is wrong, or bytes follow the last block: the place in the file
    TableDirectory(usize),
    // a mark or a cell is wrong: that byte
    TableByte(usize),
    // two kind lists differ: the lowest kind that differs or is in one list only
    KindsDiffer(usize),
    // a record is empty or above the call's limit: 0, or the limit
    RecordLength(usize),
    // a byte of a record is no kind: that byte
    NoKind(usize),
    // fewer parts stand than the rank needs: that byte
    TooFewParts(usize),
    // several parts stand at the end of a record: its length
    SeveralParts(usize),
    // a changed set needs more than 32 states: the states needed
    TooManyStates(usize),
    // a buffer or a stack is too short: the length needed
    BufferTooShort(usize),
    // a pair would have more than 1,089 states: their number
    PairTooLarge(usize),
}

// What a refusal tells: its number, the layer that found it, and the place.
#[derive(Clone, Copy, Debug, PartialEq, Eq)]
pub struct Notice {
    pub number: u8,
    pub layer: Layer,
    pub place: usize,
}

impl Refusal {
    pub fn notice(&self) -> Notice
        ensures { result ≡ told self.now }
    {
        let (number, layer, place) = match *self {
            Refusal::KindCount(length) => (1, Layer::Kinds, length),
            Refusal::RankAbove(kind) => (2, Layer::Kinds, kind),
            Refusal::NoLeafKind => (3, Layer::Kinds, 0),
            Refusal::TableHead(at) => (4, Layer::Table, at),
            Refusal::TableDirectory(at) => (5, Layer::Table, at),
            Refusal::TableByte(at) => (6, Layer::Table, at),
            Refusal::KindsDiffer(kind) => (7, Layer::Ruling, kind),
            Refusal::RecordLength(bound) => (8, Layer::Record, bound),
            Refusal::NoKind(at) => (9, Layer::Record, at),
            Refusal::TooFewParts(at) => (10, Layer::Record, at),
            Refusal::SeveralParts(length) => (11, Layer::Record, length),
            Refusal::TooManyStates(need) => (12, Layer::Book, need),
            Refusal::BufferTooShort(need) => (13, Layer::Buffer, need),
            Refusal::PairTooLarge(states) => (14, Layer::Ruling, states),
        };
        Notice {
            number,
            layer,
            place,
        }
    }
}
