// The code points of a byte text whose segments are known to be whole: a first byte alone says what stands there.
ghost use Rattle.std.specs.Prelude.{◌≡◌, [], ◌∷◌, ◌++◌, ◌+◌, ◌*◌, ◌%◌, ◌≤◌, ◌<◌, length, drop, ltb};
ghost use Rattle.std.specs.List.{prefix_len};
ghost use Rattle.ascii.specs.Ascii.{Ascii};
ghost use Rattle.terms.specs.Form.{converted, point_says};
ghost use Rattle.terms.specs.Strict.{damages};
ghost use Rattle.terms.specs.Writing.{Writes, roomed};
ghost use Rattle.utf8.specs.Bytes.{bytes};
ghost use Rattle.utf8.specs.Scalar.{utf8};
ghost use Rattle.code_points.specs.Points.{code_points};
ghost use Rattle.convert_point.specs.Puts.{Puts};
ghost use Rattle.convert_from_utf8.specs.Inside.Step.{Steps};

use crate::spelling::Reach;
use terms::{Point, Refusal};

// Six bits more, those of a later byte.
fn with_later(c: u32, b: u8) -> u32
    requires { c < 0x10000 }
    ensures { result ≡ c * 0x40 + b % 0x40 }
{
    c * 0x40 + (b as u32) % 0x40
}

// The code point that stands first.
pub(crate) fn first_point(text: &[u8]) -> Point
    requires { (0 < length text.now) × (damages bytes text.now ≡ []) }
    ensures { result.number ∷ result.size ∷ [] ≡ point_says utf8 text.now }
{
    let a = text[0];
    if a < 0x80 {
        return Point {
            number: (a as u32) % 0x80,
            size: 1,
        };
    }
    if a < 0xE0 {
        return Point {
            number: with_later((a as u32) % 0x20, text[1]),
            size: 2,
        };
    }
    if a < 0xF0 {
        return Point {
            number: with_later(with_later((a as u32) % 0x10, text[1]), text[2]),
            size: 3,
        };
    }
    Point {
        number: with_later(
            with_later(with_later((a as u32) % 0x08, text[1]), text[2]),
            text[3],
        ),
        size: 4,
    }
}

// So many bytes at the start are below 0x80.
fn leading(block: &[u8]) -> usize
    ensures { result ≡ prefix_len (λ b. ltb b 0x80) block.now }
{
    block.iter().take_while(|b| **b < 0x80).count()
}

// So many bytes at the start are below 0x80: at most sixteen, and none are looked for where there are fewer.
fn ascii_front(text: &[u8]) -> usize
    ensures { (result ≤ length text.now) × Ascii text.now result }
{
    if text.len() < 16 {
        return 0;
    }
    leading(&text[..16])
}

// Bytes as code points, at the start of the output.
fn widen(text: &[u8], out: &mut [u32])
    requires { length text.now ≤ length out.old }
    ensures { out.new ≡ text.now ++ drop (length text.now) out.old }
{
    for (i, &b) in text.iter().enumerate() {
        out[i] = b as u32;
    }
}

// Bytes below 0x80, as many as are found at the start, or one code point.
fn step(text: &[u8], out: &mut [u32]) -> Reach
    requires text_nonzero { (0 < length text.now) × (damages bytes text.now ≡ []) }
    requires text_in_bounds { length (converted utf8 code_points text.now) ≤ length out.old }
    ensures { Steps text.now out.old out.new result.passed result.put }
{
    let n = ascii_front(text);
    if 0 < n {
        widen(&text[..n], out);
        return Reach { passed: n, put: n };
    }
    let p = first_point(text);
    out[0] = p.number;
    Reach {
        passed: p.size,
        put: 1,
    }
}

// The code points of whole segments, at the start of an output that has room for them.
fn put(text: &[u8], out: &mut [u32]) -> usize
    requires text_value { damages bytes text.now ≡ [] }
    requires text_in_bounds { length (converted utf8 code_points text.now) ≤ length out.old }
    ensures { Puts (converted utf8 code_points text.now) out.old out.new result }
{
    let mut at: usize = 0;
    let mut done: usize = 0;
    while at < text.len() {
        let s = step(&text[at..], &mut out[done..]);
        at += s.passed;
        done += s.put;
    }
    done
}

// How many code points whole segments have: their bytes tell it, one by one.
pub(crate) fn need(text: &[u8]) -> usize
    requires { damages bytes text.now ≡ [] }
    ensures { result ≡ length (converted utf8 code_points text.now) }
{
    let s = utf8_count::count(text);
    s.starts
}

// The code points of whole segments, at the start of an output; refused where that has no room for them.
pub(crate) fn write(text: &[u8], out: &mut [u32]) -> Result<usize, Refusal>
    requires { damages bytes text.now ≡ [] }
    ensures { Writes
        (roomed (length out.old) (converted utf8 code_points text.now))
        (converted utf8 code_points text.now)
        out.old
        out.new
        result }
{
    if text.len() <= out.len() {
        return Ok(put(text, out));
    }
    let points = need(text);
    if out.len() < points {
        return Err(Refusal::NoRoom { needed: points });
    }
    Ok(put(text, out))
}
