// UTF-8: the segment and the code point that stand first in a byte text.
#![tactic(auto)]

ghost use Rattle.std.specs.Prelude.{◌≡◌, ◌≤◌, ◌<◌, [], ◌∷◌, length, take};
ghost use Rattle.terms.specs.Told.{told_first, first_says};
ghost use Rattle.terms.specs.Form.{first_point};
ghost use Rattle.utf8.specs.Bytes.{bytes};
ghost use Rattle.utf8.specs.Scalar.{number, utf8, utf8_by};

use terms::{First, Point};

mod classes;
mod table;

pub use classes::segment_by;
pub use table::CLASSES;

// The segment that stands first in a text that is not empty.
fn standing(text: &[u8]) -> First
    ensures { told_first result ≡ first_says bytes text.now }
{
    segment_by(text, &CLASSES)
}

// The segment that stands first in a text. The table is not made for an empty one.
pub fn segment(text: &[u8]) -> First
    ensures { told_first result ≡ first_says bytes text.now }
{
    if text.len() == 0 {
        return First::Nothing;
    }
    standing(text)
}

fn wide(b: u8) -> u32
    ensures { result ≡ b }
{
    b as u32
}

// The number that a sequence of n bytes at the start of a text stands for.
#[inline]
fn number_of(text: &[u8], n: usize) -> u32
    requires n_nonzero { 0 < n }
    requires n_bound { n ≤ 4 }
    requires n_in_bounds { n ≤ length text.now }
    ensures { result ≡ number (take n text.now) }
{
    let a = wide(text[0]);
    if n == 1 {
        return a % 0x80;
    }
    let b = wide(text[1]) % 0x40;
    if n == 2 {
        return a % 0x20 * 0x40 + b;
    }
    let c = wide(text[2]) % 0x40;
    if n == 3 {
        return (a % 0x10 * 0x40 + b) * 0x40 + c;
    }
    let d = wide(text[3]) % 0x40;
    ((a % 0x08 * 0x40 + b) * 0x40 + c) * 0x40 + d
}

// The code point that stands first in a text, if there is one, by any table of classes. Where it is called, its answer goes through memory.
#[inline(always)]
pub fn point_by(text: &[u8], classes: &[u8; 256]) -> Option<Point>
    ensures { result ≡ first_point (utf8_by classes.now) text.now }
{
    match segment_by(text, classes) {
        First::Nothing => None,
        First::Whole(n) => Some(Point {
            number: number_of(text, n),
            size: n,
        }),
        First::Damage(n, _) => Some(Point {
            number: 0xFFFD,
            size: n,
        }),
        First::Begun(n) => Some(Point {
            number: 0xFFFD,
            size: n,
        }),
    }
}

// The code point that stands first in a text, if there is one.
pub fn point(text: &[u8]) -> Option<Point>
    ensures { result ≡ first_point utf8 text.now }
{
    point_by(text, &CLASSES)
}
