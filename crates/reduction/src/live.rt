ghost use Rattle.std.specs.Prelude.{◌<◌, All};

use arrayvec::ArrayVec;

// The live states: every reached state that is not known to be alone in its class.
#[derive(Drop)]
pub struct Live {
    pub(super) states: ArrayVec<u16, 1089>,
    ghost small: { All (λ s. s < 1089) states.items },
}
