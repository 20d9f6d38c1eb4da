ghost use Rattle.std.specs.Prelude.{◌≡◌, ◌/◌, ◌%◌, ◌<◌};
ghost use Rattle.encoder.specs.Tables.{cell_place};

// The room of a first child, and of a kind, among the cells.
const CHILD_ROOM: usize = 32;

const KIND_ROOM: usize = 1024;

// The place of the cell of a kind and two children.
pub fn place_of_cell(kind: u8, a: u8, b: u8) -> usize
    ensures { result ≡ cell_place kind a b }
{
    kind as usize * KIND_ROOM + a as usize * CHILD_ROOM + b as usize
}

// The kind and the children whose cell stands at a place.
pub(super) fn cell_parts(place: usize) -> (u8, u16, u16)
    requires { place < 16384 }
    ensures { (result.0 ≡ place / 1024) × ((result.1 ≡ place / 32 % 32) × (result.2 ≡ place % 32)) }
{
    (
        (place / KIND_ROOM) as u8,
        (place / CHILD_ROOM % CHILD_ROOM) as u16,
        (place % CHILD_ROOM) as u16,
    )
}
