// What the decoders share: the checks before a call, an entry in the list of damages; and the laws of their calls, over any form.
#![tactic(auto)]

ghost use Rattle.std.specs.Prelude.{◌≡◌};
ghost use Rattle.decoder_shared.specs.Entry.{entered};
ghost use Rattle.terms.specs.Told.{number_of, told_checked};
ghost use Rattle.decoder_shared.specs.Checks.{checks};

use terms::{Cause, Decoder, Refusal};

mod tally;

pub use tally::{Settled, Tally};

// A refusal gives the state back too, so the answer beside it is the Result, and not all that a call gives.

// What a start gives: whether its room was refused, and the state.
#[derive(Clone, Copy)]
pub struct Started<S> {
    pub answer: Result<(), Refusal>,
    pub state: S,
}

// What a feed gives: the places written, or a refusal; and the state then.
#[derive(Clone, Copy)]
pub struct Fed<S> {
    pub answer: Result<usize, Refusal>,
    pub state: S,
}

// The places that finish wrote, and the totals of the text: elements in whole segments and in damage, and damages.
#[derive(Clone, Copy, PartialEq, Eq)]
pub struct Totals {
    pub written: usize,
    pub whole: usize,
    pub damaged: usize,
    pub count: usize,
}

// What finish gives, and the state then.
#[derive(Clone, Copy)]
pub struct Finished<S> {
    pub answer: Result<Totals, Refusal>,
    pub state: S,
}

// May a state, sound or not, that has taken so many elements and has such a room take a call that brings more and lends a list of so
// many numbers? No sum is made that could wrap.
pub fn admit(sound: bool, taken: usize, room: usize, more: usize, row: usize) -> Result<(), Refusal>
    ensures { told_checked result ≡ checks sound taken room more row }
{
    if !sound {
        return Err(Refusal::BadState);
    }
    if Decoder::LIMIT < taken {
        return Err(Refusal::OverLimit);
    }
    if Decoder::LIMIT - taken < more {
        return Err(Refusal::OverLimit);
    }
    if row / Decoder::ENTRY < room {
        return Err(Refusal::ListRoom);
    }
    Ok(())
}

// Entry i of a list, where i is below the room and the list has places for it.
#[inline]
pub fn enter(list: &mut [u32], room: usize, i: usize, start: u32, length: u32, cause: Cause)
    ensures { list.new ≡ entered room list.old i start length (number_of cause) }
{
    if room <= i {
        return;
    }
    if list.len() / Decoder::ENTRY <= i {
        return;
    }
    let at = Decoder::ENTRY * i;
    list[at] = start;
    list[at + 1] = length;
    list[at + 2] = cause.number();
}
