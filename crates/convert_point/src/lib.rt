// A code point in each form: how many places it takes, and its elements at the start of an output; the most places that a text can
// take; and a whole text of any form in any other.
#![tactic(auto)]

ghost use Rattle.std.specs.Prelude.{◌≡◌, ◌≤◌, length};
ghost use Rattle.utf8.specs.Scalar.{sequence, utf8};
ghost use Rattle.utf16.specs.Scalar.{pair, utf16};
ghost use Rattle.code_points.specs.Points.{code_points};
ghost use Rattle.convert_point.specs.Target.{form_of};
ghost use Rattle.convert_point.specs.Puts.{fitting, Puts};
ghost use Rattle.convert_point.specs.Room.{places_each, most_of};

use terms::Decoder;

mod element;
mod whole;

pub use element::Element;
pub use whole::repair;

// The form that a text has, or into which it is converted.
#[derive(Clone, Copy)]
pub enum Target {
    Bytes,
    Units,
    Points,
}

// How many bytes a code point takes.
pub fn bytes_of(c: u32) -> usize
    ensures { result ≡ length (sequence c) }
{
    if c < 0x80 {
        return 1;
    }
    if c < 0x800 {
        return 2;
    }
    if c < 0x10000 {
        return 3;
    }
    4
}

// How many units a code point takes.
fn units_of(c: u32) -> usize
    ensures { result ≡ length (pair c) }
{
    if c < 0x10000 {
        return 1;
    }
    2
}

// How many places a code point takes in a form.
pub fn places(target: Target, c: u32) -> usize
    ensures { result ≡ length ((form_of target).write c) }
{
    match target {
        Target::Bytes => bytes_of(c),
        Target::Units => units_of(c),
        Target::Points => 1,
    }
}

// The most places that one element of a form takes in another.
fn places_each(from: Target, to: Target) -> usize
    ensures { result ≡ places_each from to }
{
    match to {
        Target::Bytes => match from {
            Target::Bytes => 3,
            Target::Units => 3,
            Target::Points => 4,
        },
        Target::Units => match from {
            Target::Bytes => 1,
            Target::Units => 1,
            Target::Points => 2,
        },
        Target::Points => 1,
    }
}

// The most places that a text of so many elements can need, converted or repaired.
pub fn most(from: Target, to: Target, n: usize) -> usize
    ensures { result ≡ most_of from to n }
{
    let each = places_each(from, to);
    if Decoder::LIMIT < n {
        return each * Decoder::LIMIT;
    }
    each * n
}

// A code point as bytes, where there is room for it: without the test of the room, which a walk would make for each.
fn put_sequence(out: &mut [u8], c: u32) -> usize
    requires c_value { c ≤ 0x10FFFF }
    requires c_in_bounds { length (sequence c) ≤ length out.old }
    ensures { Puts (sequence c) out.old out.new result }
{
    if c < 0x80 {
        out[0] = c as u8;
        return 1;
    }
    if c < 0x800 {
        out[0] = (0xC0 + c / 0x40) as u8;
        out[1] = (0x80 + c % 0x40) as u8;
        return 2;
    }
    if c < 0x10000 {
        out[0] = (0xE0 + c / 0x1000) as u8;
        out[1] = (0x80 + c / 0x40 % 0x40) as u8;
        out[2] = (0x80 + c % 0x40) as u8;
        return 3;
    }
    out[0] = (0xF0 + c / 0x40000) as u8;
    out[1] = (0x80 + c / 0x1000 % 0x40) as u8;
    out[2] = (0x80 + c / 0x40 % 0x40) as u8;
    out[3] = (0x80 + c % 0x40) as u8;
    4
}

// The bytes of a code point at the start of an output, and their number; none without room for them, or above 0x10FFFF.
pub fn put_bytes(out: &mut [u8], c: u32) -> usize
    ensures { Puts (fitting utf8 (length out.old) c) out.old out.new result }
{
    if out.len() < bytes_of(c) || 0x10FFFF < c {
        return 0;
    }
    put_sequence(out, c)
}

// The units of a code point at the start of an output, and their number; none without room for them, or above 0x10FFFF.
pub fn put_units(out: &mut [u16], c: u32) -> usize
    ensures { Puts (fitting utf16 (length out.old) c) out.old out.new result }
{
    if c < 0x10000 {
        if out.len() < 1 {
            return 0;
        }
        out[0] = c as u16;
        return 1;
    }
    if 0x10FFFF < c {
        return 0;
    }
    if out.len() < 2 {
        return 0;
    }
    out[0] = (0xD800 + (c - 0x10000) / 0x400) as u16;
    out[1] = (0xDC00 + (c - 0x10000) % 0x400) as u16;
    2
}

// A code point at the start of an output, and 1; none without room for it, or above 0x10FFFF.
pub fn put_point(out: &mut [u32], c: u32) -> usize
    ensures { Puts (fitting code_points (length out.old) c) out.old out.new result }
{
    if 0x10FFFF < c {
        return 0;
    }
    if out.len() < 1 {
        return 0;
    }
    out[0] = c;
    1
}
