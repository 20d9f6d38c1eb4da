ghost use Rattle.std.specs.Prelude.{◌≡◌, ◌+◌, ◌^◌, ◌<◌, true, length, is_ok};
ghost use Rattle.ruling.specs.Trees.{node_count};
ghost use Rattle.ruling.specs.Listed.{list_of};
ghost use Rattle.record.specs.Reading.{read_record, tree_in};

use ruling::Kinds;

// A checked record: a part of the caller's bytes that was found to be one record of at most 4,096 nodes.
// It keeps the kind list that it was read under, and where it begins in the caller's bytes.
#[derive(Clone, Copy, Debug, PartialEq, Eq)]
pub struct Record<'a> {
    pub(super) bytes: &'a [u8],
    pub(super) place: usize,
    pub(super) kinds: Kinds,
    ghost read: { is_ok (read_record (list_of kinds) 4096 bytes.now) ≡ true },
    ghost counted: { length bytes.now ≡ node_count (tree_in (list_of kinds) bytes.now) },
    ghost ends: { place + length bytes.now < 2 ^ 64 },
}
