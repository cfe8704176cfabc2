// Plain lookup: the place that an offset counts, from the start of a text or from a place on.
#![tactic(auto)]

ghost use Rattle.std.specs.Prelude.{◌≡◌};
ghost use Rattle.utf8.specs.Bytes.{bytes};
ghost use Rattle.utf8.specs.Classes.{by_classes};
ghost use Rattle.place.specs.Lookup.{told_placed, lookup_says};
ghost use Rattle.place.specs.Walk.{number, measure, Roomy, walk_says, resume_says};

use place::{Bytes, Lines, Offset, Place, Points, Units};
use terms::{Decoder, Refusal};

// Plain lookup from a place on; the text is given from there.
fn walk(text: &[u8], from: Place, to: Offset, classes: &[u8; 256]) -> Result<Place, Refusal>
    requires roomy { Roomy from text.now }
    requires classes_value { by_classes classes.now ≡ bytes }
    ensures { told_placed result ≡ walk_says (measure to) (number to) from text.now }
{
    let offset = to.number();
    let mut p = from;
    let mut at: usize = 0;
    loop {
        let count = to.count(p);
        if count == offset {
            return Ok(p);
        }
        if offset < count {
            return Err(Refusal::Inside);
        }
        if at == text.len() {
            return Err(Refusal::PastEnd);
        }
        p = place::step_by(p, &text[at..], classes, utf8_count::end_first(&text[at..]));
        at = p.bytes - from.bytes;
    }
}

// Plain lookup: refusal 2, then the walk from the start.
fn from_start(text: &[u8], to: Offset) -> Result<Place, Refusal>
    ensures { told_placed result ≡ lookup_says (measure to) (number to) text.now }
{
    if Decoder::LIMIT < text.len() {
        return Err(Refusal::OverLimit);
    }
    walk(text, Place::start(), to, &utf8::CLASSES)
}

// Plain lookup from any place on, where the text is given from there: refusal 2 and 8 before the walk.
pub fn resume(text: &[u8], from: Place, to: Offset) -> Result<Place, Refusal>
    ensures { told_placed result ≡ resume_says (measure to) (number to) from text.now }
{
    from.check(text)?;
    walk(text, from, to, &utf8::CLASSES)
}

// The place that counts so many bytes: refusal 2, then 5 inside a segment or 4 past the end.
pub fn at_byte(text: &[u8], offset: Bytes) -> Result<Place, Refusal>
    ensures { told_placed result ≡ lookup_says (λ p. p.bytes) offset.0 text.now }
{
    from_start(text, Offset::Byte(offset))
}

// The place that counts so many units; 5 inside a pair.
pub fn at_unit(text: &[u8], offset: Units) -> Result<Place, Refusal>
    ensures { told_placed result ≡ lookup_says (λ p. p.units) offset.0 text.now }
{
    from_start(text, Offset::Unit(offset))
}

// The place that counts so many code points.
pub fn at_point(text: &[u8], offset: Points) -> Result<Place, Refusal>
    ensures { told_placed result ≡ lookup_says (λ p. p.points) offset.0 text.now }
{
    from_start(text, Offset::Point(offset))
}

// The first place of a line, which counts so many line ends.
pub fn at_line(text: &[u8], offset: Lines) -> Result<Place, Refusal>
    ensures { told_placed result ≡ lookup_says (λ p. p.lines) offset.0 text.now }
{
    from_start(text, Offset::Line(offset))
}
