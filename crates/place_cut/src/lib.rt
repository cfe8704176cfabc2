// Cutting: the last place that counts at most so much, and the longest beginning of a text that ends there.
#![tactic(auto)]

ghost use Rattle.std.specs.Prelude.{◌≡◌};
ghost use Rattle.utf8.specs.Bytes.{bytes};
ghost use Rattle.utf8.specs.Classes.{by_classes};
ghost use Rattle.place.specs.Cutting.{beginning};
ghost use Rattle.place.specs.Lookup.{told_placed};
ghost use Rattle.place.specs.Walk.{number, measure, Roomy, reached, last_says};

use place::{Bytes, Offset, Place, Points, Units};
use terms::Refusal;

// The last place that counts at most so much, from a place on; the text is given from there. Put into each call, it counts in one measure.
#[inline(always)]
fn reach(text: &[u8], from: Place, most: Offset, classes: &[u8; 256]) -> Place
    requires roomy { Roomy from text.now }
    requires classes_value { by_classes classes.now ≡ bytes }
    ensures { result ≡ reached (measure most) (number most) from text.now }
{
    let mut p = from;
    let mut at: usize = 0;
    while at < text.len() {
        let q = place::step_by(p, &text[at..], classes, utf8_count::end_first(&text[at..]));
        if most.number() < most.count(q) {
            return p;
        }
        p = q;
        at = q.bytes - from.bytes;
    }
    p
}

// The last place that counts at most so much from any place on: refusal 2 and 8 before the walk.
pub fn last(text: &[u8], from: Place, most: Offset) -> Result<Place, Refusal>
    ensures { told_placed result ≡ last_says (measure most) (number most) from text.now }
{
    from.check(text)?;
    Ok(reach(text, from, most, &utf8::CLASSES))
}

// The longest beginning of a text that ends at a boundary and counts at most so much.
fn cut(text: &[u8], most: Offset) -> &[u8]
    ensures { result.now ≡ beginning (measure most) (number most) text.now }
{
    let end = reach(text, Place::start(), most, &utf8::CLASSES);
    &text[..end.bytes]
}

// The longest beginning that ends at a boundary and has at most so many bytes.
pub fn cut_bytes(text: &[u8], most: Bytes) -> &[u8]
    ensures { result.now ≡ beginning (λ p. p.bytes) most.0 text.now }
{
    cut(text, Offset::Byte(most))
}

// The longest beginning that ends at a boundary and has at most so many units.
pub fn cut_units(text: &[u8], most: Units) -> &[u8]
    ensures { result.now ≡ beginning (λ p. p.units) most.0 text.now }
{
    cut(text, Offset::Unit(most))
}

// The longest beginning that ends at a boundary and has at most so many code points.
pub fn cut_points(text: &[u8], most: Points) -> &[u8]
    ensures { result.now ≡ beginning (λ p. p.points) most.0 text.now }
{
    cut(text, Offset::Point(most))
}
