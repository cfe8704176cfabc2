// The tests of a decoder's state, and the checks before a call.
ghost use Rattle.std.specs.Prelude.{◌≡◌};
ghost use Rattle.terms.specs.Told.{told_checked};
ghost use Rattle.decoder.specs.Tests.{sound, balanced};
ghost use Rattle.decoder.specs.Checks.{admit_says};

use terms::{Decoder, Refusal};

// Are the bytes those that were taken, and is every number within its bounds? No sum is made that could wrap.
fn is_balanced(state: Decoder) -> bool
    ensures { result ≡ balanced state }
{
    if Decoder::LIMIT < state.taken {
        return false;
    }
    if state.taken < state.whole {
        return false;
    }
    let rest = state.taken - state.whole;
    if rest < state.damaged {
        return false;
    }
    if rest - state.damaged != state.pending {
        return false;
    }
    if state.damaged < state.count {
        return false;
    }
    if Decoder::DAMAGE * state.count < state.damaged {
        return false;
    }
    state.room <= Decoder::ROOM
}

// The tests of a state.
pub fn is_sound(state: Decoder) -> bool
    ensures { result ≡ sound state }
{
    let held = state.held;
    if !utf8_pending::is_tail(held, state.pending) {
        return false;
    }
    is_balanced(state)
}

// May a state take a call that brings so many bytes and lends a list of so many numbers?
pub(crate) fn admit(state: Decoder, more: usize, row: usize) -> Result<(), Refusal>
    ensures { told_checked result ≡ admit_says state more row }
{
    decoder_shared::admit(is_sound(state), state.taken, state.room, more, row)
}
