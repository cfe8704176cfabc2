// The states and a place, read from numbers in a lent slice and kept there.
ghost use Rattle.std.specs.Prelude.{◌%◌, ◌≤◌, ◌≡◌, length, get_or};
ghost use Rattle.index_checkpoint.specs.Checkpoints.{place_of};
ghost use Rattle.bridge_numbers.specs.Telling.{put};
ghost use Rattle.bridge_numbers.specs.States.{is_state, held_of, decoder_of, decoder_numbers, is_unit_state, unit_decoder_of, unit_decoder_numbers, builder_of, builder_numbers, kept, offset_of, first_of};

use decoder_from_utf16::UnitDecoder;
use index_build::Builder;
use place::{Bytes, Lines, Offset, Place, Points, Units};
use terms::{Cause, Decoder, First};

// Are there so many numbers, and at least three, of which the first three are bytes?
pub fn is_state(numbers: &[usize], n: usize) -> bool
    ensures { result ≡ is_state n numbers.now }
{
    n <= numbers.len()
        && Decoder::PENDING <= numbers.len()
        && numbers[0] < 256
        && numbers[1] < 256
        && numbers[2] < 256
}

// The number at a place, 0 where there is none.
fn number_at(numbers: &[usize], i: usize) -> usize
    ensures { result ≡ get_or numbers.now i 0 }
{
    numbers.get(i).copied().unwrap_or(0)
}

// Its last eight bits.
fn byte_at(numbers: &[usize], i: usize) -> u8
    ensures { result ≡ get_or numbers.now i 0 % 256 }
{
    (number_at(numbers, i) % 256) as u8
}

// The three held bytes, each by its last eight bits.
pub fn held_of(numbers: &[usize]) -> [u8; Decoder::PENDING]
    ensures { result ≡ held_of numbers.now }
{
    [
        byte_at(numbers, 0),
        byte_at(numbers, 1),
        byte_at(numbers, 2),
    ]
}

// The decoder's state: held, pending, taken, whole, damaged, count, room.
pub fn decoder_of(numbers: &[usize]) -> Decoder
    ensures { result ≡ decoder_of numbers.now }
{
    let held = held_of(numbers);
    Decoder {
        held,
        pending: number_at(numbers, 3),
        taken: number_at(numbers, 4),
        whole: number_at(numbers, 5),
        damaged: number_at(numbers, 6),
        count: number_at(numbers, 7),
        room: number_at(numbers, 8),
    }
}

// Copies numbers to the start of a slice.
fn copy(numbers: &[usize], out: &mut [usize])
    requires { length numbers.now ≤ length out.old }
    ensures { out.new ≡ put numbers.now out.old }
{
    out[..numbers.len()].copy_from_slice(numbers);
}

// Keeps a decoder's state in a slice that has the places for it.
pub fn keep_decoder(d: Decoder, state: &mut [usize])
    ensures { state.new ≡ kept 9 (decoder_numbers d) state.old }
{
    if state.len() < 9 {
        return;
    }
    let held = d.held;
    let numbers = [
        held[0] as usize,
        held[1] as usize,
        held[2] as usize,
        d.pending,
        d.taken,
        d.whole,
        d.damaged,
        d.count,
        d.room,
    ];
    copy(&numbers, state);
}

// Are there seven numbers, of which the first is a unit?
pub fn is_unit_state(numbers: &[usize]) -> bool
    ensures { result ≡ is_unit_state numbers.now }
{
    7 <= numbers.len() && numbers[0] < 0x10000
}

// The state of the decoder of units: held, by its last sixteen bits, pending, taken, whole, damaged, count, room.
pub fn unit_decoder_of(numbers: &[usize]) -> UnitDecoder
    ensures { result ≡ unit_decoder_of numbers.now }
{
    UnitDecoder {
        held: [(number_at(numbers, 0) % 0x10000) as u16],
        pending: number_at(numbers, 1),
        taken: number_at(numbers, 2),
        whole: number_at(numbers, 3),
        damaged: number_at(numbers, 4),
        count: number_at(numbers, 5),
        room: number_at(numbers, 6),
    }
}

// Keeps the state of a decoder of units in a slice that has the places for it.
pub fn keep_unit_decoder(d: UnitDecoder, state: &mut [usize])
    ensures { state.new ≡ kept 7 (unit_decoder_numbers d) state.old }
{
    if state.len() < 7 {
        return;
    }
    let held = d.held;
    let numbers = [
        held[0] as usize,
        d.pending,
        d.taken,
        d.whole,
        d.damaged,
        d.count,
        d.room,
    ];
    copy(&numbers, state);
}

// The builder's state: held, pending, taken, units, points, lines.
pub fn builder_of(numbers: &[usize]) -> Builder
    ensures { result ≡ builder_of numbers.now }
{
    let held = held_of(numbers);
    Builder {
        held,
        pending: number_at(numbers, 3),
        taken: number_at(numbers, 4),
        units: number_at(numbers, 5),
        points: number_at(numbers, 6),
        lines: number_at(numbers, 7),
    }
}

// Keeps a builder's state in a slice that has the places for it.
pub fn keep_builder(b: Builder, state: &mut [usize])
    ensures { state.new ≡ kept 8 (builder_numbers b) state.old }
{
    if state.len() < 8 {
        return;
    }
    let held = b.held;
    let numbers = [
        held[0] as usize,
        held[1] as usize,
        held[2] as usize,
        b.pending,
        b.taken,
        b.units,
        b.points,
        b.lines,
    ];
    copy(&numbers, state);
}

// A place: bytes, units, code points, lines.
pub fn place_of(numbers: &[usize]) -> Place
    ensures { result ≡ place_of numbers.now }
{
    Place {
        bytes: number_at(numbers, 0),
        units: number_at(numbers, 1),
        points: number_at(numbers, 2),
        lines: number_at(numbers, 3),
    }
}

// So many in the measure of a kind: 0 bytes, 1 units, 2 code points, else lines.
pub fn offset_of(kind: usize, n: usize) -> Offset
    ensures { result ≡ offset_of kind n }
{
    match kind {
        0 => Offset::Byte(Bytes(n)),
        1 => Offset::Unit(Units(n)),
        2 => Offset::Point(Points(n)),
        _ => Offset::Line(Lines(n)),
    }
}

// What stands first, of a size: 0 nothing, 1 whole, 2 damage of a cause, else begun.
pub fn first_of(kind: usize, n: usize, cause: u32) -> First
    ensures { result ≡ first_of kind n cause }
{
    match kind {
        0 => First::Nothing,
        1 => First::Whole(n),
        2 => First::Damage(n, Cause(cause)),
        _ => First::Begun(n),
    }
}
