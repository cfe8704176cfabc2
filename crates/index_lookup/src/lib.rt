// The index of a byte text: lookup in it, whatever its numbers are.
#![tactic(auto)]

ghost use Rattle.std.specs.Prelude.{◌≡◌, [], ◌∷◌, leb, ltb};
ghost use Rattle.terms.specs.Told.{told_checked};
ghost use Rattle.place.specs.Lookup.{told_placed};
ghost use Rattle.place.specs.Walk.{number, measure};
ghost use Rattle.index_checkpoint.specs.Choosing.{less};
ghost use Rattle.index_lookup.specs.Looking.{byte_says, halving_says};
ghost use Rattle.index_lookup.specs.Inside.Resuming.{Among, from_says, room_says};

use index_checkpoint::SPACING;
use place::{Bytes, Lines, Offset, Place, Points, Units};
use terms::{Decoder, Refusal};

// Lookup from checkpoint j on: refusal 6 unless it is usable, then plain lookup in the text from its byte on.
fn look_from(text: &[u8], row: &[u32], j: usize, to: Offset) -> Result<Place, Refusal>
    requires { Among j text.now }
    ensures { told_placed result ≡ from_says to j text.now row.now }
{
    let q = index_checkpoint::checkpoint(row, j);
    if !index_checkpoint::usable(q, j, to) {
        return Err(Refusal::Unusable { checkpoint: j });
    }
    let at = q.bytes;
    place_lookup::resume(&text[at..], q, to)
}

// The refusals before a lookup, by the text's length: 2 over the limit, then 3 where the index has fewer numbers than the text's has.
fn check(long: usize, row: &[u32]) -> Result<(), Refusal>
    ensures { told_checked result ≡ room_says long row.now (0 ∷ []) }
{
    if Decoder::LIMIT < long {
        return Err(Refusal::OverLimit);
    }
    let needed = index_checkpoint::needed(long);
    if row.len() < needed {
        return Err(Refusal::NoRoom { needed });
    }
    Ok(())
}

// The place that counts so many bytes: refusals 2, 3 and 4, then from the checkpoint that division chooses.
pub fn at_byte(text: &[u8], row: &[u32], offset: Bytes) -> Result<Place, Refusal>
    ensures { told_placed result ≡ byte_says offset.0 text.now row.now }
{
    let long = text.len();
    check(long, row)?;
    if long < offset.0 {
        return Err(Refusal::PastEnd);
    }
    look_from(text, row, offset.0 / SPACING, Offset::Byte(offset))
}

// The place that counts so much: refusals 2 and 3, then from the checkpoint that halving chooses.
fn by_halving(text: &[u8], row: &[u32], to: Offset) -> Result<Place, Refusal>
    ensures { told_placed result ≡ halving_says (measure to) (less to) (number to) text.now row.now }
{
    check(text.len(), row)?;
    let n = index_checkpoint::marks(text.len());
    look_from(text, row, index_checkpoint::halve(row, n, to), to)
}

// The place that counts so many units: refusals 2 and 3, then from the checkpoint that halving chooses.
pub fn at_unit(text: &[u8], row: &[u32], offset: Units) -> Result<Place, Refusal>
    ensures { told_placed result ≡ halving_says (λ p. p.units) leb offset.0 text.now row.now }
{
    by_halving(text, row, Offset::Unit(offset))
}

// The place that counts so many code points, by the same way.
pub fn at_point(text: &[u8], row: &[u32], offset: Points) -> Result<Place, Refusal>
    ensures { told_placed result ≡ halving_says (λ p. p.points) leb offset.0 text.now row.now }
{
    by_halving(text, row, Offset::Point(offset))
}

// The first place of a line, by the same way.
pub fn at_line(text: &[u8], row: &[u32], offset: Lines) -> Result<Place, Refusal>
    ensures { told_placed result ≡ halving_says (λ p. p.lines) ltb offset.0 text.now row.now }
{
    by_halving(text, row, Offset::Line(offset))
}
