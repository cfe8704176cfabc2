// The units of a byte text whose segments are known to be whole: a first byte alone says what stands there.
ghost use Rattle.std.specs.Prelude.{◌≡◌, true, [], ◌++◌, ◌≤◌, ◌<◌, min, length, drop, get_or};
ghost use Rattle.ascii.specs.Ascii.{Ascii};
ghost use Rattle.terms.specs.Form.{converted};
ghost use Rattle.terms.specs.Strict.{damages};
ghost use Rattle.terms.specs.Writing.{Writes, roomed};
ghost use Rattle.utf8.specs.Bytes.{bytes};
ghost use Rattle.utf8.specs.Scalar.{utf8};
ghost use Rattle.utf16.specs.Scalar.{utf16};
ghost use Rattle.convert_from_utf8.specs.Inside.Spell.{two, three, first_half, second_half, spelled};
ghost use Rattle.convert_from_utf8.specs.Inside.Stride.{Strides, Short};
ghost use Rattle.convert_point.specs.Puts.{Puts};

use terms::Refusal;

// How far a stride or a step went: so many bytes are passed over, and so many places written. convert_from_page has such a pair of
// its own: a crate for the two would be no plainer.
#[derive(Clone, Copy)]
pub(crate) struct Reach {
    pub passed: usize,
    pub put: usize,
}

// A sequence that spells one unit, and how many bytes it has.
#[derive(Clone, Copy)]
pub(crate) struct Sequence {
    pub unit: u16,
    pub size: usize,
}

// The unit of a sequence of two bytes.
fn of_two(a: u8, b: u8) -> u16
    ensures { result ≡ two a b }
{
    (a as u16) % 0x20 * 0x40 + (b as u16) % 0x40
}

// The unit of a sequence of three bytes.
fn of_three(a: u8, b: u8, c: u8) -> u16
    ensures { result ≡ three a b c }
{
    (a as u16) % 0x10 * 0x1000 + (b as u16) % 0x40 * 0x40 + (c as u16) % 0x40
}

// The first half of the pair of a sequence that begins with these three of its four bytes.
fn first_half(a: u8, b: u8, c: u8) -> u16
    ensures { result ≡ first_half a b c }
{
    0xD7C0 + (a as u16) % 0x08 * 0x100 + (b as u16) % 0x40 * 0x04 + (c as u16) % 0x40 / 0x10
}

// The second half of the pair of a sequence that ends with these two of its four bytes.
fn second_half(c: u8, d: u8) -> u16
    ensures { result ≡ second_half c d }
{
    0xDC00 + (c as u16) % 0x10 * 0x40 + (d as u16) % 0x40
}

// Sequences of one byte, at most 32 of them. This walk and the next three stop at a byte of another kind, in one pass, and write at a
// pace of their own, so they keep an index.
fn ones(text: &[u8], out: &mut [u16]) -> Reach
    requires text_nonzero { (0 < length text.now) × (get_or text.now 0 0 < 0x80) }
    requires text_in_bounds { length (spelled text.now) ≤ length out.old }
    ensures { Strides text.now out.old out.new result.passed result.put }
{
    let stop = text.len().min(32);
    let mut at: usize = 0;
    while at < stop {
        let a = text[at];
        let ended = 0x80 <= a;
        if ended {
            return Reach {
                passed: at,
                put: at,
            };
        }
        out[at] = a as u16;
        at += 1;
    }
    Reach {
        passed: at,
        put: at,
    }
}

// The sequence of one or two bytes that begins with a. Where two bytes below 0x80 follow one another none is taken: `ones` is quicker.
fn short_sequence(a: u8, b: u8) -> Option<Sequence>
    ensures { Short a b result }
{
    if a < 0x80 {
        if b < 0x80 {
            return None;
        }
        return Some(Sequence {
            unit: a as u16,
            size: 1,
        });
    }
    if a < 0xE0 {
        return Some(Sequence {
            unit: of_two(a, b),
            size: 2,
        });
    }
    None
}

// Sequences of two bytes, and single bytes below 0x80 between them.
fn twos(text: &[u8], out: &mut [u16]) -> Reach
    requires text_nonzero { (0 < length text.now) × (0x80 ≤ get_or text.now 0 0) × (get_or text.now 0 0 < 0xE0) }
    requires text_in_bounds { length (spelled text.now) ≤ length out.old }
    ensures { Strides text.now out.old out.new result.passed result.put }
{
    let mut at: usize = 0;
    let mut put: usize = 0;
    while 2 <= text.len() - at {
        let Some(s) = short_sequence(text[at], text[at + 1]) else {
            return Reach { passed: at, put };
        };
        out[put] = s.unit;
        put += 1;
        at += s.size;
    }
    Reach { passed: at, put }
}

// Sequences of three bytes.
fn threes(text: &[u8], out: &mut [u16]) -> Reach
    requires text_nonzero { (0 < length text.now) × (0xE0 ≤ get_or text.now 0 0) × (get_or text.now 0 0 < 0xF0) }
    requires text_in_bounds { length (spelled text.now) ≤ length out.old }
    ensures { Strides text.now out.old out.new result.passed result.put }
{
    let mut at: usize = 0;
    let mut put: usize = 0;
    while 3 <= text.len() - at {
        let a = text[at];
        if a < 0xE0 {
            return Reach { passed: at, put };
        }
        if 0xF0 <= a {
            return Reach { passed: at, put };
        }
        out[put] = of_three(a, text[at + 1], text[at + 2]);
        put += 1;
        at += 3;
    }
    Reach { passed: at, put }
}

// Sequences of four bytes.
fn fours(text: &[u8], out: &mut [u16]) -> Reach
    requires text_nonzero { (0 < length text.now) × (0xF0 ≤ get_or text.now 0 0) }
    requires text_in_bounds { length (spelled text.now) ≤ length out.old }
    ensures { Strides text.now out.old out.new result.passed result.put }
{
    let mut at: usize = 0;
    let mut put: usize = 0;
    while 4 <= text.len() - at {
        let a = text[at];
        if a < 0xF0 {
            return Reach { passed: at, put };
        }
        let c = text[at + 2];
        out[put] = first_half(a, text[at + 1], c);
        out[put + 1] = second_half(c, text[at + 3]);
        put += 2;
        at += 4;
    }
    Reach { passed: at, put }
}

// Bytes as units, at the start of the output. `points` has it for code points: one for both would need a trait whose laws say the number of
// each element, longer than the two.
fn widen(text: &[u8], out: &mut [u16])
    requires { length text.now ≤ length out.old }
    ensures { out.new ≡ text.now ++ drop (length text.now) out.old }
{
    for (i, &b) in text.iter().enumerate() {
        out[i] = b as u16;
    }
}

// Sequences of one length, as many as follow one another.
fn alike(text: &[u8], out: &mut [u16]) -> Reach
    requires text_nonzero { 0 < length text.now }
    requires text_in_bounds { length (spelled text.now) ≤ length out.old }
    ensures { Strides text.now out.old out.new result.passed result.put }
{
    let a = text[0];
    if a < 0x80 {
        return ones(text, out);
    }
    if a < 0xE0 {
        return twos(text, out);
    }
    if a < 0xF0 {
        return threes(text, out);
    }
    fours(text, out)
}

// So many bytes at the start are below 0x80, by whole blocks; none are looked for where they are not expected.
fn expected_run(text: &[u8], ascii: bool) -> usize
    ensures { (result ≤ length text.now) × Ascii text.now result }
{
    if ascii { ascii::run(text) } else { 0 }
}

// Sequences of one length, or a long run of bytes below 0x80 where one is expected.
fn stride(text: &[u8], ascii: bool, out: &mut [u16]) -> Reach
    requires text_nonzero { 0 < length text.now }
    requires text_in_bounds { length (spelled text.now) ≤ length out.old }
    ensures { Strides text.now out.old out.new result.passed result.put }
{
    let n = expected_run(text, ascii);
    if n == 0 {
        return alike(text, out);
    }
    widen(&text[..n], out);
    Reach { passed: n, put: n }
}

// What a text spells, at the start of an output that has room for it.
pub(crate) fn put(text: &[u8], out: &mut [u16]) -> usize
    requires { length (spelled text.now) ≤ length out.old }
    ensures { Puts (spelled text.now) out.old out.new result }
{
    let mut at: usize = 0;
    let mut done: usize = 0;
    let mut ascii = true;
    while at < text.len() {
        let s = stride(&text[at..], ascii, &mut out[done..]);
        done += s.put;
        at += s.passed;
        if s.passed == 0 {
            return done;
        }
        ascii = s.passed == 32;
    }
    done
}

// How many units whole segments have: their bytes tell it, one by one.
pub(crate) fn need(text: &[u8]) -> usize
    requires { damages bytes text.now ≡ [] }
    ensures { result ≡ length (converted utf8 utf16 text.now) }
{
    let s = utf8_count::count(text);
    s.starts + s.fours
}

// The units of whole segments, at the start of an output; refused where that has no room for them.
pub(crate) fn write(text: &[u8], out: &mut [u16]) -> Result<usize, Refusal>
    requires { damages bytes text.now ≡ [] }
    ensures { Writes
        (roomed (length out.old) (converted utf8 utf16 text.now))
        (converted utf8 utf16 text.now)
        out.old
        out.new
        result }
{
    if text.len() <= out.len() {
        return Ok(put(text, out));
    }
    let units = need(text);
    if out.len() < units {
        return Err(Refusal::NoRoom { needed: units });
    }
    Ok(put(text, out))
}
