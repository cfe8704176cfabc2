// UTF-16: the segment and the code point that stand first in a text of units, and whether all of them stand by themselves.
#![tactic(auto)]

ghost use Rattle.std.specs.Prelude.{◌≡◌};
ghost use Rattle.terms.specs.Told.{told_first, first_says};
ghost use Rattle.terms.specs.Form.{first_point};
ghost use Rattle.utf16.specs.Units.{units};
ghost use Rattle.utf16.specs.Scalar.{utf16};
ghost use Rattle.utf16.specs.Alone.{alone, all_alone};

use terms::{Cause, First, Point};

// The segment that stands first in a text.
#[inline]
pub fn segment(text: &[u16]) -> First
    ensures { told_first result ≡ first_says units text.now }
{
    if text.len() == 0 {
        return First::Nothing;
    }
    let x = text[0];
    if x < 0xD800 {
        return First::Whole(1);
    }
    if 0xDFFF < x {
        return First::Whole(1);
    }
    if 0xDBFF < x {
        return First::Damage(1, Cause::STRAY);
    }
    if text.len() < 2 {
        return First::Begun(1);
    }
    let y = text[1];
    if y < 0xDC00 {
        return First::Damage(1, Cause::STOPPED);
    }
    if 0xDFFF < y {
        return First::Damage(1, Cause::STOPPED);
    }
    First::Whole(2)
}

// The code point that stands first in a text, if there is one.
#[inline]
pub fn point(text: &[u16]) -> Option<Point>
    ensures { result ≡ first_point utf16 text.now }
{
    match segment(text) {
        First::Nothing => None,
        First::Whole(n) => {
            let x = u32::from(text[0]);
            if n == 1 {
                return Some(Point { number: x, size: n });
            }
            let y = u32::from(text[1]);
            Some(Point {
                number: 0x10000 + (x - 0xD800) * 0x400 + (y - 0xDC00),
                size: n,
            })
        }
        First::Damage(n, _) => Some(Point {
            number: 0xFFFD,
            size: n,
        }),
        First::Begun(n) => Some(Point {
            number: 0xFFFD,
            size: n,
        }),
    }
}

fn is_alone(x: u16) -> bool
    ensures { result ≡ alone x }
{
    x < 0xD800 || 0xDFFF < x
}

// Does each unit of a text stand by itself, being no half of a pair? All are tested: a loop that ends at the first half is slower.
pub fn are_alone(text: &[u16]) -> bool
    ensures { result ≡ all_alone text.now }
{
    text.iter().fold(true, |alone, x| alone & is_alone(*x))
}
