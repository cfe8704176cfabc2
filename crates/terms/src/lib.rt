// The terms in which every call answers: the limits, what stands first in a text, and the refusals by their numbers.
#![tactic(auto)]

ghost use Rattle.std.specs.Prelude.{◌≡◌, [], ◌∷◌, get_or};
ghost use Rattle.terms.specs.Limits.{fresh_of};
ghost use Rattle.terms.specs.Told.{number_of, size_of, caused, told_refusal};

// The decoder of a byte text that comes in pieces: what it keeps between two pieces. The limits belong to it.
#[repr(C)]
#[derive(Clone, Copy, PartialEq, Eq)]
pub struct Decoder {
    // the pending bytes, unused ones 0, and how many there are
    pub held: [u8; Decoder::PENDING],
    pub pending: usize,
    // bytes taken, and of these the bytes in whole segments and in damage
    pub taken: usize,
    pub whole: usize,
    pub damaged: usize,
    // damages, and the most of them that the list has room for
    pub count: usize,
    pub room: usize,
}

impl Decoder {
    // The most bytes, units or code points that a text has.
    pub const LIMIT: usize = 16_777_216;
    // The most entries that a damage list has room for.
    pub const ROOM: usize = 4_096;
    // The numbers that an entry takes in its list: start, length and cause.
    pub const ENTRY: usize = 3;
    // The most bytes that are pending.
    pub const PENDING: usize = 3;
    // The most bytes of a damage.
    pub const DAMAGE: usize = 3;

    // The state before the first piece.
    pub fn fresh(room: usize) -> Decoder
        ensures { result ≡ fresh_of room }
    {
        Decoder {
            held: [0; Decoder::PENDING],
            pending: 0,
            taken: 0,
            whole: 0,
            damaged: 0,
            count: 0,
            room,
        }
    }
}

// Why elements are damage, as the number that a list of damages has: 1 to 4 where a reader tells it.
#[derive(Clone, Copy, PartialEq, Eq)]
pub struct Cause(pub u32);

impl Cause {
    // An element that only goes on with sequences, and none goes on here.
    pub const STRAY: Cause = Cause(1);
    // An element that stands in no sequence.
    pub const FOREIGN: Cause = Cause(2);
    // A begun sequence that another element stops.
    pub const STOPPED: Cause = Cause(3);
    // A begun sequence that the end of the text stops.
    pub const ENDED: Cause = Cause(4);

    // The number.
    pub fn number(self) -> u32
        ensures { result ≡ number_of self }
    {
        self.0
    }
}

// What stands first in a text: nothing, as it is empty; a whole segment of so many elements; damage of so many, and its cause; or damage
// that ends the text and begins a well-formed sequence, so that more text could still make it whole.
#[derive(Clone, Copy, PartialEq, Eq)]
pub enum First {
    Nothing,
    Whole(usize),
    Damage(usize, Cause),
    Begun(usize),
}

impl First {
    // How many elements it has.
    #[inline]
    pub fn size(self) -> usize
        ensures { result ≡ size_of self }
    {
        match self {
            First::Nothing => 0,
            First::Whole(n) => n,
            First::Damage(n, _) => n,
            First::Begun(n) => n,
        }
    }

    // Why it is damaged, if it is.
    #[inline]
    pub fn cause(self) -> Option<Cause>
        ensures { result ≡ caused self }
    {
        match self {
            First::Nothing => None,
            First::Whole(_) => None,
            First::Damage(_, cause) => Some(cause),
            First::Begun(_) => Some(Cause::ENDED),
        }
    }
}

// The code point that stands first in a text, U+FFFD for damage, and how many elements it takes.
#[derive(Clone, Copy, PartialEq, Eq)]
pub struct Point {
    pub number: u32,
    pub size: usize,
}

// Why a call refuses, in the order of the numbers 1 to 10.
#[derive(Clone, Copy, PartialEq, Eq)]
pub enum Refusal {
    Damaged {
        start: usize,
        length: usize,
        cause: Cause,
    },
    OverLimit,
    NoRoom {
        needed: usize,
    },
    PastEnd,
    Inside,
    Unusable {
        checkpoint: usize,
    },
    ListRoom,
    BadState,
    NoScalar {
        position: usize,
    },
    NotInPage {
        offset: usize,
    },
}

impl Refusal {
    // Refusal 1 with the first damage.
    pub fn damaged(start: usize, length: usize, cause: Cause) -> Refusal
        ensures { told_refusal result ≡ 1 ∷ start ∷ length ∷ number_of cause ∷ [] }
    {
        Refusal::Damaged {
            start,
            length,
            cause,
        }
    }

    // Its number, 1 to 10.
    pub fn number(self) -> usize
        ensures { result ≡ get_or (told_refusal self) 0 0 }
    {
        match self {
            Refusal::Damaged { .. } => 1,
            Refusal::OverLimit => 2,
            Refusal::NoRoom { .. } => 3,
            Refusal::PastEnd => 4,
            Refusal::Inside => 5,
            Refusal::Unusable { .. } => 6,
            Refusal::ListRoom => 7,
            Refusal::BadState => 8,
            Refusal::NoScalar { .. } => 9,
            Refusal::NotInPage { .. } => 10,
        }
    }

    // The first value that it tells, 0 where it tells none.
    pub fn first_value(self) -> usize
        ensures { result ≡ get_or (told_refusal self) 1 0 }
    {
        match self {
            Refusal::Damaged { start, .. } => start,
            Refusal::NoRoom { needed } => needed,
            Refusal::Unusable { checkpoint } => checkpoint,
            Refusal::NoScalar { position } => position,
            Refusal::NotInPage { offset } => offset,
            _ => 0,
        }
    }

    // The second value that it tells, 0 where it tells none.
    pub fn second_value(self) -> usize
        ensures { result ≡ get_or (told_refusal self) 2 0 }
    {
        match self {
            Refusal::Damaged { length, .. } => length,
            _ => 0,
        }
    }

    // The third value that it tells, 0 where it tells none.
    pub fn third_value(self) -> usize
        ensures { result ≡ get_or (told_refusal self) 3 0 }
    {
        match self {
            Refusal::Damaged { cause, .. } => cause.number() as usize,
            _ => 0,
        }
    }
}
