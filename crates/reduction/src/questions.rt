ghost use Rattle.std.specs.Prelude.{◌≡◌, ◌<◌};
ghost use Rattle.ruling.specs.Meanings.{Fits};

use ruling::Ruling;

// Questions whose answer is known to be there. It is taken apart by let-else, and never unwrapped.

// The target of what is known to be an argument list.
pub(super) fn target_of<R: Ruling>(ruling: &R, kind: u8, a: u16, b: u16) -> u16
    requires { Fits (R.Ruling.meaning ruling.now).plain.kinds (R.Ruling.meaning ruling.now).plain.states kind a b }
    ensures { result ≡ (R.Ruling.meaning ruling.now).plain.target kind a b }
{
    let Some(state) = ruling.target(kind, a, b) else {
        unreachable!();
    };
    state
}

// The mark of what is known to be a state.
pub(super) fn mark_of<R: Ruling>(ruling: &R, state: u16) -> bool
    requires { state < (R.Ruling.meaning ruling.now).plain.states }
    ensures { result ≡ (R.Ruling.meaning ruling.now).plain.mark state }
{
    let Some(mark) = ruling.mark(state) else {
        unreachable!();
    };
    mark
}
