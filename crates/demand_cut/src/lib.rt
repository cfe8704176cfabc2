// Cutting by the count of a place gives exactly the text before that place.
#![tactic(auto)]

ghost use Rattle.std.specs.Prelude.{◌≡◌, true};
ghost use Rattle.demand_cut.specs.Inside.Cuttings.{FoundIn};

use place::{Bytes, Lines, Place, Points, Units};
use terms::Refusal;

// Cut by the bytes, the units and the code points of the place that a lookup found, where there is one.
fn cuts_at(text: &[u8], found: Result<Place, Refusal>) -> bool
    requires { FoundIn text.now found }
    ensures { result ≡ true }
{
    let Ok(p) = found else {
        return true;
    };
    let before = &text[..p.bytes];
    (place_cut::cut_bytes(text, Bytes(p.bytes)) == before)
        & (place_cut::cut_units(text, Units(p.units)) == before)
        & (place_cut::cut_points(text, Points(p.points)) == before)
}

// A text is cut at the place that counts so many bytes.
pub fn cut_at_byte(text: &[u8], offset: Bytes) -> bool
    ensures { result ≡ true }
{
    cuts_at(text, place_lookup::at_byte(text, offset))
}

// A text is cut at the place that counts so many units.
pub fn cut_at_unit(text: &[u8], offset: Units) -> bool
    ensures { result ≡ true }
{
    cuts_at(text, place_lookup::at_unit(text, offset))
}

// A text is cut at the place that counts so many code points.
pub fn cut_at_point(text: &[u8], offset: Points) -> bool
    ensures { result ≡ true }
{
    cuts_at(text, place_lookup::at_point(text, offset))
}

// A text is cut at the first place of a line, by its bytes, its units and its code points.
pub fn cut_at_line(text: &[u8], offset: Lines) -> bool
    ensures { result ≡ true }
{
    cuts_at(text, place_lookup::at_line(text, offset))
}
