// A whole text of UTF-16 units in the other forms, strict and repairing, and its repair, into a lent output.
#![tactic(auto)]

ghost use Rattle.std.specs.Prelude.{◌≡◌, true, ◌≤◌, ◌<◌, length};
ghost use Rattle.terms.specs.Limits.{limit};
ghost use Rattle.terms.specs.Form.{is_scalar, repaired, converted};
ghost use Rattle.terms.specs.Strict.{damaged};
ghost use Rattle.terms.specs.Writing.{Writes, repair_says, convert_says};
ghost use Rattle.utf8.specs.Scalar.{sequence, utf8};
ghost use Rattle.utf16.specs.Scalar.{utf16};
ghost use Rattle.code_points.specs.Points.{code_points};
ghost use Rattle.convert_point.specs.Puts.{Puts};
ghost use Rattle.convert_point.specs.Inside.Passes.{Passes, PassesTo};

use convert_point::Target;
use convert_utf16_blocks::Part;
use terms::{Decoder, Refusal};

// How many bytes the code points take that begin in front of a place. The walk keeps an index, as it tells how far it came.
fn count_segments(text: &[u16], stop: usize) -> Part
    requires { (0 < stop) × (stop ≤ length text.now) × (length text.now ≤ limit) }
    ensures { Passes utf16 utf8 text.now result.read result.places }
{
    let mut at: usize = 0;
    let mut places: usize = 0;
    while at < stop {
        let p = utf16::point(&text[at..]).unwrap();
        places += convert_point::bytes_of(p.number);
        at += p.size;
    }
    Part { read: at, places }
}

// How many bytes the beginning of a text takes: a block of units that stand alone at once, or the code points that begin in its length. Where
// that is 128, the walk has a bound that the compiler knows: with the smaller of two as its bound damaged texts took a tenth more instructions.
fn count_part(text: &[u16]) -> Part
    requires { (0 < length text.now) × (length text.now ≤ limit) }
    ensures { Passes utf16 utf8 text.now result.read result.places }
{
    if let Some(p) = convert_utf16_blocks::count_block(text) {
        return p;
    }
    if text.len() < 128 {
        return count_segments(text, text.len());
    }
    count_segments(text, 128)
}

// How many bytes a text takes.
fn need_bytes(text: &[u16]) -> usize
    requires { length text.now ≤ limit }
    ensures { result ≡ length (converted utf16 utf8 text.now) }
{
    let mut rest = text;
    let mut total: usize = 0;
    while !rest.is_empty() {
        let p = count_part(rest);
        total += p.places;
        rest = &rest[p.read..];
    }
    total
}

// A code point as bytes, where there is room for it: without the test of the room, which a walk would make for each. A call that two crates
// share has that test, so convert_point has these stores too.
fn put_sequence(out: &mut [u8], c: u32) -> usize
    requires c_value { is_scalar c ≡ true }
    requires c_in_bounds { length (sequence c) ≤ length out.old }
    ensures { Puts (sequence c) out.old out.new result }
{
    if c < 0x80 {
        out[0] = c as u8;
        return 1;
    }
    if c < 0x800 {
        out[0] = (0xC0 + c / 0x40) as u8;
        out[1] = (0x80 + c % 0x40) as u8;
        return 2;
    }
    if c < 0x10000 {
        out[0] = (0xE0 + c / 0x1000) as u8;
        out[1] = (0x80 + c / 0x40 % 0x40) as u8;
        out[2] = (0x80 + c % 0x40) as u8;
        return 3;
    }
    out[0] = (0xF0 + c / 0x40000) as u8;
    out[1] = (0x80 + c / 0x1000 % 0x40) as u8;
    out[2] = (0x80 + c / 0x40 % 0x40) as u8;
    out[3] = (0x80 + c % 0x40) as u8;
    4
}

// The bytes of the code points that begin in front of a place. The walk keeps an index, as it tells how far it came.
fn write_segments(text: &[u16], stop: usize, out: &mut [u8]) -> Part
    requires { (0 < stop) × (stop ≤ length text.now) × (length (converted utf16 utf8 text.now) ≤ length out.old) }
    ensures { PassesTo utf16 utf8 text.now out.old out.new result.read result.places }
{
    let mut at: usize = 0;
    let mut done: usize = 0;
    while at < stop {
        let p = utf16::point(&text[at..]).unwrap();
        done += put_sequence(&mut out[done..], p.number);
        at += p.size;
    }
    Part {
        read: at,
        places: done,
    }
}

// The bytes of the beginning of a text: 16 units below 0x80 at once, or the code points that begin in a block's length.
fn write_sixteen(text: &[u16], out: &mut [u8]) -> Part
    requires { (0 < length text.now) × (length (converted utf16 utf8 text.now) ≤ length out.old) }
    ensures { PassesTo utf16 utf8 text.now out.old out.new result.read result.places }
{
    if let Some(p) = convert_utf16_blocks::put_sixteen(text, out) {
        return p;
    }
    if text.len() < 128 {
        return write_segments(text, text.len(), out);
    }
    write_segments(text, 128, out)
}

// The bytes of the beginning of a text: a block of units that stand alone at once, or less.
fn write_part(text: &[u16], out: &mut [u8]) -> Part
    requires { (0 < length text.now) × (length (converted utf16 utf8 text.now) ≤ length out.old) }
    ensures { PassesTo utf16 utf8 text.now out.old out.new result.read result.places }
{
    if let Some(p) = convert_utf16_blocks::put_block(text, out) {
        return p;
    }
    write_sixteen(text, out)
}

// The text as bytes, part by part.
fn write_bytes(text: &[u16], out: &mut [u8]) -> usize
    requires { length (converted utf16 utf8 text.now) ≤ length out.old }
    ensures { Puts (converted utf16 utf8 text.now) out.old out.new result }
{
    let mut rest = text;
    let mut done: usize = 0;
    while !rest.is_empty() {
        let p = write_part(rest, &mut out[done..]);
        done += p.places;
        rest = &rest[p.read..];
    }
    done
}

// The text as bytes, with U+FFFD for each damage.
pub fn repair_to_bytes(text: &[u16], out: &mut [u8]) -> Result<usize, Refusal>
    ensures { Writes
        (repair_says (length out.old) text.now (converted utf16 utf8 text.now))
        (converted utf16 utf8 text.now)
        out.old
        out.new
        result }
{
    if Decoder::LIMIT < text.len() {
        return Err(Refusal::OverLimit);
    }
    if convert_point::most(Target::Units, Target::Bytes, text.len()) <= out.len() {
        return Ok(write_bytes(text, out));
    }
    let bytes = need_bytes(text);
    if out.len() < bytes {
        return Err(Refusal::NoRoom { needed: bytes });
    }
    Ok(write_bytes(text, out))
}

// The repaired form of a text: whole segments as they are, U+FFFD for each damage.
pub fn repair(text: &[u16], out: &mut [u16]) -> Result<usize, Refusal>
    ensures { Writes
        (repair_says (length out.old) text.now (repaired utf16 text.now))
        (repaired utf16 text.now)
        out.old
        out.new
        result }
{
    convert_point::repair::<u16, u16>(text, out)
}

// The text as bytes; strict, so that damage is refused.
pub fn to_bytes(text: &[u16], out: &mut [u8]) -> Result<usize, Refusal>
    ensures { Writes
        (convert_says damaged utf16 utf8 (length out.old) text.now)
        (converted utf16 utf8 text.now)
        out.old
        out.new
        result }
{
    utf16_check::check(text)?;
    repair_to_bytes(text, out)
}

// The text as code points; strict, so that damage is refused.
pub fn to_points(text: &[u16], out: &mut [u32]) -> Result<usize, Refusal>
    ensures { Writes
        (convert_says damaged utf16 code_points (length out.old) text.now)
        (converted utf16 code_points text.now)
        out.old
        out.new
        result }
{
    utf16_check::check(text)?;
    convert_point::repair::<u16, u32>(text, out)
}
