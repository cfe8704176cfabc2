// Code points: the segment and the code point that stand first in a text of numbers, and the strict check.
#![tactic(auto)]

ghost use Rattle.std.specs.Prelude.{◌≡◌, [], ◌∷◌};
ghost use Rattle.terms.specs.Form.{is_scalar, first_point};
ghost use Rattle.terms.specs.Told.{told_first, first_says, told_checked};
ghost use Rattle.code_points.specs.Points.{points, code_points, points_say};

use terms::{Cause, Decoder, First, Point, Refusal};

// Is a number a scalar value?
fn is_scalar(c: u32) -> bool
    ensures { result ≡ is_scalar c }
{
    c < 0xD800 || 0xDFFF < c && c < 0x110000
}

// The segment that stands first in a text: a scalar value is whole, and any other number is damage.
pub fn segment(text: &[u32]) -> First
    ensures { told_first result ≡ first_says points text.now }
{
    if text.len() == 0 {
        return First::Nothing;
    }
    if is_scalar(text[0]) {
        return First::Whole(1);
    }
    First::Damage(1, Cause::FOREIGN)
}

// The code point that stands first in a text, if there is one.
pub fn point(text: &[u32]) -> Option<Point>
    ensures { result ≡ first_point code_points text.now }
{
    match segment(text) {
        First::Nothing => None,
        First::Whole(n) => Some(Point {
            number: text[0],
            size: n,
        }),
        First::Damage(n, _) => Some(Point {
            number: 0xFFFD,
            size: n,
        }),
        First::Begun(n) => Some(Point {
            number: 0xFFFD,
            size: n,
        }),
    }
}

// Is every number of a text a scalar value? If not, the position of the first that is none is told.
pub fn check(text: &[u32]) -> Result<(), Refusal>
    ensures { told_checked result ≡ points_say text.now }
{
    if Decoder::LIMIT < text.len() {
        return Err(Refusal::OverLimit);
    }
    let mut at: usize = 0;
    loop {
        match segment(&text[at..]) {
            First::Nothing => return Ok(()),
            First::Whole(n) => at += n,
            First::Damage(_, _) => return Err(Refusal::NoScalar { position: at }),
            First::Begun(_) => return Err(Refusal::NoScalar { position: at }),
        }
    }
}
