// The builder's state: its tests, its last settled place, and whether a call is granted.
ghost use Rattle.std.specs.Prelude.{◌≡◌, ◌≤◌};
ghost use Rattle.terms.specs.Told.{told_checked};
ghost use Rattle.utf8_pending.specs.Tail.{is_tail};
ghost use Rattle.place.specs.Measures.{reader};
ghost use Rattle.index_build.specs.State.{fresh_builder, settled_place, sound, build_says};

use place::Place;
use terms::{Decoder, Refusal};

// What the builder keeps between two pieces.
#[derive(Clone, Copy, PartialEq, Eq)]
pub struct Builder {
    // the pending bytes, unused ones 0, and how many there are
    pub held: [u8; Decoder::PENDING],
    pub pending: usize,
    // bytes taken, and the units, code points and lines at the last settled place
    pub taken: usize,
    pub units: usize,
    pub points: usize,
    pub lines: usize,
}

impl Builder {
    // The state before the first piece.
    pub fn fresh() -> Builder
        ensures { result ≡ fresh_builder }
    {
        Builder {
            held: [0; Decoder::PENDING],
            pending: 0,
            taken: 0,
            units: 0,
            points: 0,
            lines: 0,
        }
    }

    // The last settled place.
    pub(crate) fn settled_place(self) -> Place
        requires { self.pending ≤ self.taken }
        ensures { result ≡ settled_place self }
    {
        Place {
            bytes: self.taken - self.pending,
            units: self.units,
            points: self.points,
            lines: self.lines,
        }
    }

    // The tests of a state. No sum is made that could wrap.
    fn is_sound(self) -> bool
        ensures { result ≡ sound self }
    {
        is_kept(self.held, self.pending)
            && self.taken <= Decoder::LIMIT
            && self.pending <= self.taken
            && self.lines <= self.points
            && self.points <= self.units
            && self.units <= self.taken - self.pending
    }

    // May it take so many bytes more, with so many numbers in the row?
    pub(crate) fn check(self, more: usize, room: usize) -> Result<(), Refusal>
        ensures { told_checked result ≡ build_says self more room }
    {
        if !self.is_sound() {
            return Err(Refusal::BadState);
        }
        if Decoder::LIMIT - self.taken < more {
            return Err(Refusal::OverLimit);
        }
        let needed = index_checkpoint::needed(self.taken + more);
        if room < needed {
            return Err(Refusal::NoRoom { needed });
        }
        Ok(())
    }
}

// What a call that builds answers, and the state then.
#[derive(Clone, Copy, PartialEq, Eq)]
pub struct Built {
    pub answer: Result<(), Refusal>,
    pub state: Builder,
}

// Are these the pending bytes of a builder: those of a decoder, or a lone 0D? (Tried as one `&&`: the proof did not close.)
fn is_kept(held: [u8; Decoder::PENDING], n: usize) -> bool
    ensures { result ≡ is_tail reader held n }
{
    if utf8_pending::is_tail(held, n) {
        return true;
    }
    if n != 1 {
        return false;
    }
    if held[0] != 0x0D {
        return false;
    }
    if held[1] != 0 {
        return false;
    }
    held[2] == 0
}
