// Places: the boundaries of a byte text, with what lies before them in the four measures, and the step from one to the next.
#![tactic(auto)]

ghost use Rattle.std.specs.Prelude.{◌≡◌, [], ◌∷◌};
ghost use Rattle.terms.specs.Told.{told_checked};
ghost use Rattle.utf8.specs.Classes.{by_classes};
ghost use Rattle.place.specs.Measures.{place};
ghost use Rattle.place.specs.Walk.{number, measure, units_by_size, stepped_by, fair, over, going};

use terms::{Decoder, Refusal};

// Offsets in the four measures: none is passed for another.
#[derive(Clone, Copy, PartialEq, Eq)]
pub struct Bytes(pub usize);

#[derive(Clone, Copy, PartialEq, Eq)]
pub struct Units(pub usize);

#[derive(Clone, Copy, PartialEq, Eq)]
pub struct Points(pub usize);

#[derive(Clone, Copy, PartialEq, Eq)]
pub struct Lines(pub usize);

// An offset in one of them.
#[derive(Clone, Copy, PartialEq, Eq)]
pub enum Offset {
    Byte(Bytes),
    Unit(Units),
    Point(Points),
    Line(Lines),
}

impl Offset {
    // Its number.
    pub fn number(self) -> usize
        ensures { result ≡ number self }
    {
        match self {
            Offset::Byte(n) => n.0,
            Offset::Unit(n) => n.0,
            Offset::Point(n) => n.0,
            Offset::Line(n) => n.0,
        }
    }

    // What a place counts in its measure.
    pub fn count(self, p: Place) -> usize
        ensures { result ≡ measure self p }
    {
        match self {
            Offset::Byte(_) => p.bytes,
            Offset::Unit(_) => p.units,
            Offset::Point(_) => p.points,
            Offset::Line(_) => p.lines,
        }
    }
}

// A boundary with four counts of what lies before it.
#[derive(Clone, Copy, PartialEq, Eq)]
pub struct Place {
    pub bytes: usize,
    pub units: usize,
    pub points: usize,
    pub lines: usize,
}

impl Place {
    // The start of a text.
    pub fn start() -> Place
        ensures { result ≡ place 0 0 0 0 }
    {
        Place {
            bytes: 0,
            units: 0,
            points: 0,
            lines: 0,
        }
    }

    // The counts that are not in bytes are within the limit.
    pub fn fair(self) -> bool
        ensures { result ≡ fair self }
    {
        self.units <= Decoder::LIMIT
            && self.points <= Decoder::LIMIT
            && self.lines <= Decoder::LIMIT
    }

    // So many bytes more go past the limit.
    pub fn over(self, more: usize) -> bool
        ensures { result ≡ over self more }
    {
        Decoder::LIMIT < self.bytes || Decoder::LIMIT - self.bytes < more
    }

    // May the text from here on be walked? Refusal 2 where it goes past the limit, then 8 where a count is not fair.
    pub fn check(self, rest: &[u8]) -> Result<(), Refusal>
        ensures { told_checked result ≡ going self rest.now (0 ∷ []) }
    {
        if self.over(rest.len()) {
            return Err(Refusal::OverLimit);
        }
        if !self.fair() {
            return Err(Refusal::BadState);
        }
        Ok(())
    }
}

// A segment is two units exactly if it has four bytes.
pub fn units_of(size: usize) -> usize
    ensures { result ≡ units_by_size size }
{
    if size == 4 { 2 } else { 1 }
}

// The place one segment behind p, by any table of classes; the rest of the text is given from p on, and how many lines end behind
// that segment. Counts are modulo 2^64.
pub fn step_by(p: Place, rest: &[u8], classes: &[u8; 256], ends: usize) -> Place
    ensures { result ≡ stepped_by (by_classes classes.now) p rest.now ends }
{
    if rest.len() == 0 {
        return p;
    }
    let size = utf8::segment_by(rest, classes).size();
    Place {
        bytes: std::num::wrapping_add_usize(p.bytes, size),
        units: std::num::wrapping_add_usize(p.units, units_of(size)),
        points: std::num::wrapping_add_usize(p.points, 1),
        lines: std::num::wrapping_add_usize(p.lines, ends),
    }
}
