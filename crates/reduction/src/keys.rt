ghost use Rattle.std.specs.Prelude.{All, slice_index};

use super::live::Live;

// Reads the key of each live state, to the place of its number. The room is lent, so that a sweep need not clear it.
pub(super) fn read_keys<F: Fn(u16) -> u16>(live: &Live, key_of: F, keys: &mut [u16; 1089])
    requires { All (λ s. F.pre key_of s) live.now.states.items }
    ensures { All (λ s. F.post key_of s (slice_index keys.new s)) live.now.states.items }
{
    for state in live.states.as_slice() {
        keys[*state as usize] = key_of(*state);
    }
}
