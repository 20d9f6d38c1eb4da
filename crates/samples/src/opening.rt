ghost use Rattle.std.specs.Prelude.{◌≡◌, true};
ghost use Rattle.ruling.specs.KindLists.{KindList, has_leaf};
ghost use Rattle.ruling.specs.Listed.{list_of};

use ruling::Kinds;

// A kind list with a leaf kind.
#[derive(Clone, Copy)]
pub struct Opening {
    pub kinds: Kinds,
    ghost list: { KindList (list_of kinds) },
    ghost leaf: { has_leaf (list_of kinds) ≡ true },
}
