ghost use Rattle.std.specs.Prelude.{Some};
ghost use Rattle.ruling.specs.Layers.{layer_text};

use std::fmt;

// The layer that finds a fault.
#[derive(Clone, Copy, Debug, PartialEq, Eq)]
pub enum Layer {
    // the list of kinds
    Kinds,
    // the table file
    Table,
    // the ruling that a call is given
    Ruling,
    // the bytes of a record
    Record,
    // the rulebook
    Book,
    // a buffer or a stack that the caller lends
    Buffer,
}

impl fmt::Display for Layer {
    ghost output = { λ layer. Some (layer_text layer) };

    fn fmt<W: fmt::Write>(&self, f: &mut fmt::Formatter<W>) -> fmt::Result {
        f.write_str(match self {
            Layer::Kinds => "kinds",
            Layer::Table => "table",
            Layer::Ruling => "ruling",
            Layer::Record => "record",
            Layer::Book => "book",
            Layer::Buffer => "buffer",
        })
    }
}
