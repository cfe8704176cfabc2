// Places: cutting, plain lookup, lookup in an index, and its audit.
ghost use Rattle.std.specs.Prelude.{◌≡◌, ◌&&◌, length, leb, ltb};
ghost use Rattle.terms.specs.Told.{bit};
ghost use Rattle.place.specs.Cutting.{beginning};
ghost use Rattle.place.specs.Lookup.{lookup_says};
ghost use Rattle.place.specs.Walk.{resume_says, last_says};
ghost use Rattle.index_checkpoint.specs.Checkpoints.{place_of};
ghost use Rattle.index_lookup.specs.Looking.{byte_says, halving_says};
ghost use Rattle.index_audit.specs.Audits.{audit_says};
ghost use Rattle.bridge_numbers.specs.Telling.{roomy, Tells};
ghost use Rattle.bridge_numbers.specs.States.{asked, measure_of};

use moxandril::places::{Bytes, Lines, Points, Units};

// moxandril::places::cut_bytes: how many bytes the part has.
#[unsafe(no_mangle)]
pub extern "C" fn bridge_places_cut_bytes(text: &[u8], most: usize) -> usize
    ensures { result ≡ length (beginning (λ p. p.bytes) most text.now) }
{
    moxandril::places::cut_bytes(text, Bytes(most)).len()
}

// moxandril::places::cut_units: how many bytes the part has.
#[unsafe(no_mangle)]
pub extern "C" fn bridge_places_cut_units(text: &[u8], most: usize) -> usize
    ensures { result ≡ length (beginning (λ p. p.units) most text.now) }
{
    moxandril::places::cut_units(text, Units(most)).len()
}

// moxandril::places::cut_points: how many bytes the part has.
#[unsafe(no_mangle)]
pub extern "C" fn bridge_places_cut_points(text: &[u8], most: usize) -> usize
    ensures { result ≡ length (beginning (λ p. p.points) most text.now) }
{
    moxandril::places::cut_points(text, Points(most)).len()
}

// moxandril::places::at_byte: 0 and the four counts of the place, or the refusal.
#[unsafe(no_mangle)]
pub extern "C" fn bridge_places_at_byte(text: &[u8], offset: usize, says: &mut [usize]) -> usize
    ensures { Tells
        (roomy says.old)
        (lookup_says (λ p. p.bytes) offset text.now)
        says.old
        says.new
        result }
{
    bridge_numbers::telling::tell(
        bridge_numbers::answers::say_placed(moxandril::places::at_byte(text, Bytes(offset))),
        says,
    )
}

// moxandril::places::at_unit: 0 and the four counts of the place, or the refusal.
#[unsafe(no_mangle)]
pub extern "C" fn bridge_places_at_unit(text: &[u8], offset: usize, says: &mut [usize]) -> usize
    ensures { Tells
        (roomy says.old)
        (lookup_says (λ p. p.units) offset text.now)
        says.old
        says.new
        result }
{
    bridge_numbers::telling::tell(
        bridge_numbers::answers::say_placed(moxandril::places::at_unit(text, Units(offset))),
        says,
    )
}

// moxandril::places::at_point: 0 and the four counts of the place, or the refusal.
#[unsafe(no_mangle)]
pub extern "C" fn bridge_places_at_point(text: &[u8], offset: usize, says: &mut [usize]) -> usize
    ensures { Tells
        (roomy says.old)
        (lookup_says (λ p. p.points) offset text.now)
        says.old
        says.new
        result }
{
    bridge_numbers::telling::tell(
        bridge_numbers::answers::say_placed(moxandril::places::at_point(text, Points(offset))),
        says,
    )
}

// moxandril::places::at_line: 0 and the four counts of the place, or the refusal.
#[unsafe(no_mangle)]
pub extern "C" fn bridge_places_at_line(text: &[u8], offset: usize, says: &mut [usize]) -> usize
    ensures { Tells
        (roomy says.old)
        (lookup_says (λ p. p.lines) offset text.now)
        says.old
        says.new
        result }
{
    bridge_numbers::telling::tell(
        bridge_numbers::answers::say_placed(moxandril::places::at_line(text, Lines(offset))),
        says,
    )
}

// moxandril::index::at_byte: 0 and the four counts of the place, or the refusal.
#[unsafe(no_mangle)]
pub extern "C" fn bridge_index_at_byte(
    text: &[u8],
    row: &[u32],
    offset: usize,
    says: &mut [usize],
) -> usize
    ensures { Tells
        (roomy says.old)
        (byte_says offset text.now row.now)
        says.old
        says.new
        result }
{
    bridge_numbers::telling::tell(
        bridge_numbers::answers::say_placed(moxandril::index::at_byte(text, row, Bytes(offset))),
        says,
    )
}

// moxandril::index::at_unit: 0 and the four counts of the place, or the refusal.
#[unsafe(no_mangle)]
pub extern "C" fn bridge_index_at_unit(
    text: &[u8],
    row: &[u32],
    offset: usize,
    says: &mut [usize],
) -> usize
    ensures { Tells
        (roomy says.old)
        (halving_says (λ p. p.units) leb offset text.now row.now)
        says.old
        says.new
        result }
{
    bridge_numbers::telling::tell(
        bridge_numbers::answers::say_placed(moxandril::index::at_unit(text, row, Units(offset))),
        says,
    )
}

// moxandril::index::at_point: 0 and the four counts of the place, or the refusal.
#[unsafe(no_mangle)]
pub extern "C" fn bridge_index_at_point(
    text: &[u8],
    row: &[u32],
    offset: usize,
    says: &mut [usize],
) -> usize
    ensures { Tells
        (roomy says.old)
        (halving_says (λ p. p.points) leb offset text.now row.now)
        says.old
        says.new
        result }
{
    bridge_numbers::telling::tell(
        bridge_numbers::answers::say_placed(moxandril::index::at_point(text, row, Points(offset))),
        says,
    )
}

// moxandril::index::at_line: 0 and the four counts of the place, or the refusal.
#[unsafe(no_mangle)]
pub extern "C" fn bridge_index_at_line(
    text: &[u8],
    row: &[u32],
    offset: usize,
    says: &mut [usize],
) -> usize
    ensures { Tells
        (roomy says.old)
        (halving_says (λ p. p.lines) ltb offset text.now row.now)
        says.old
        says.new
        result }
{
    bridge_numbers::telling::tell(
        bridge_numbers::answers::say_placed(moxandril::index::at_line(text, row, Lines(offset))),
        says,
    )
}

// moxandril::index::audit: 1 for yes, 0 for no.
#[unsafe(no_mangle)]
pub extern "C" fn bridge_index_audit(text: &[u8], row: &[u32]) -> usize
    ensures { result ≡ bit (audit_says text.now row.now) }
{
    bridge_numbers::answers::number_of(moxandril::index::audit(text, row))
}

// moxandril::places::resume, of kind 0 bytes, 1 units, 2 code points or 3 lines: 0 and the four counts of the place, or the refusal.
#[unsafe(no_mangle)]
pub extern "C" fn bridge_places_resume(
    text: &[u8],
    from: &[usize],
    kind: usize,
    offset: usize,
    says: &mut [usize],
) -> usize
    ensures { Tells
        (asked from.now kind && roomy says.old)
        (resume_says (measure_of kind) offset (place_of from.now) text.now)
        says.old
        says.new
        result }
{
    if from.len() < 4 {
        return bridge_numbers::telling::NOT_CALLED;
    }
    if 4 <= kind {
        return bridge_numbers::telling::NOT_CALLED;
    }
    bridge_numbers::telling::tell(
        bridge_numbers::answers::say_placed(moxandril::places::resume(
            text,
            bridge_numbers::states::place_of(from),
            bridge_numbers::states::offset_of(kind, offset),
        )),
        says,
    )
}

// moxandril::places::last, of kind 0 bytes, 1 units, 2 code points or 3 lines: 0 and the four counts of the place, or the refusal.
#[unsafe(no_mangle)]
pub extern "C" fn bridge_places_last(
    text: &[u8],
    from: &[usize],
    kind: usize,
    offset: usize,
    says: &mut [usize],
) -> usize
    ensures { Tells
        (asked from.now kind && roomy says.old)
        (last_says (measure_of kind) offset (place_of from.now) text.now)
        says.old
        says.new
        result }
{
    if from.len() < 4 {
        return bridge_numbers::telling::NOT_CALLED;
    }
    if 4 <= kind {
        return bridge_numbers::telling::NOT_CALLED;
    }
    bridge_numbers::telling::tell(
        bridge_numbers::answers::say_placed(moxandril::places::last(
            text,
            bridge_numbers::states::place_of(from),
            bridge_numbers::states::offset_of(kind, offset),
        )),
        says,
    )
}
