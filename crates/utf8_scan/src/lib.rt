// How many bytes at the start of a text stand well, a block at a time: each byte is tested with the three before it, by plain
// arithmetic that a compiler turns into vector instructions.
#![tactic(auto)]

ghost use Rattle.std.specs.Prelude.{◌≡◌, true, ◌&&◌, ◌||◌, cond, ℕ, suc, ◌+◌, ◌<◌, ◌≤◌, length, drop, leb};
ghost use Rattle.utf8_scan.specs.Stands.{is_later, stands, standing};
ghost use Rattle.utf8_scan.specs.Inside.Blocks.{Sound, Stand, Below, Ascii, Good};

mod stands;

pub use stands::waiting;
use stands::{byte_before, stand};

// All bits, or none.
fn full(t: bool) -> u8
    ensures { result ≡ cond t 255 0 }
{
    if t { 255 } else { 0 }
}

// Below 0x80 only where b is a later byte exactly if must is 0x80 or more.
fn asked(must: u8, b: u8) -> u8
    ensures { result < 0x80 → is_later b ≡ leb 0x80 must }
{
    must ^ full((0x80..0xC0).contains(&b))
}

// Below 0x80 only where low is true if last is, and false if first is.
fn edge(first: bool, last: bool, low: bool) -> u8
    ensures { result < 0x80 → (first || last) && low ≡ last }
{
    ((full(first) | full(last)) & full(low)) ^ full(last)
}

// Below 0x80 only where b is neither 0xC0 nor 0xC1.
fn overlong(b: u8) -> u8
    ensures { result < 0x80 → 0xC0 ≤ b → 0xC2 ≤ b }
{
    full(matches!(b, 0xC0 | 0xC1))
}

// Below 0x80 only where b0 stands well behind b1, for bytes below 0xE0.
fn lane_two(b1: u8, b0: u8) -> u8
    ensures { result < 0x80 → b1 < 0xE0 → (b3 b2 : ℕ) → b2 < 0xE0 → b3 < 0xE0 → stands b3 b2 b1 b0 ≡ true }
{
    asked(b1.saturating_sub(64), b0) | overlong(b1)
}

// Below 0x80 only where b0 stands well behind b2 and b1, for bytes below 0xF0.
fn lane_three(b2: u8, b1: u8, b0: u8) -> u8
    ensures { result < 0x80 → b1 < 0xF0 → b2 < 0xF0 → (b3 : ℕ) → b3 < 0xF0 → stands b3 b2 b1 b0 ≡ true }
{
    asked(b1.saturating_sub(64) | b2.saturating_sub(96), b0)
        | overlong(b1)
        | edge(b1 == 0xE0, b1 == 0xED, (0x80..0xA0).contains(&b0))
}

// Below 0x80 only where b0 stands well behind b3, b2 and b1, for any bytes.
fn lane_four(b3: u8, b2: u8, b1: u8, b0: u8) -> u8
    ensures { result < 0x80 → stands b3 b2 b1 b0 ≡ true }
{
    asked(
        b1.saturating_sub(64) | b2.saturating_sub(96) | b3.saturating_sub(112),
        b0,
    ) | overlong(b1)
        | b1.saturating_sub(117)
        | edge(b1 == 0xE0, b1 == 0xED, (0x80..0xA0).contains(&b0))
        | edge(b1 == 0xF0, b1 == 0xF4, (0x80..0x90).contains(&b0))
}

// A byte that none of a block is above.
fn top(t: &[u8; 131]) -> u8
    ensures { Below t.now 131 (suc result) }
{
    t.iter().copied().max().unwrap_or(0)
}

// Does each of the 128 bytes behind the first three pass the test of a lane?
fn right_by<F: Fn(u8, u8, u8, u8) -> u8>(t: &[u8; 131], lane: F) -> bool
    requires callable { F.IsAlwaysCallable lane }
    requires sound { (k : ℕ) → k < 128 → Sound (F.post lane) (drop k t.now) }
    ensures { result ≡ true → Stand t.now 128 }
{
    let mut e: u8 = 0;
    for &[b3, b2, b1, b0] in t.array_windows::<4>() {
        e |= lane(b3, b2, b1, b0);
    }
    e < 0x80
}

// Does each of the 128 bytes behind the first three stand well? By the quickest test; not by the slowest where only low bytes
// are asked for.
fn right(t: &[u8; 131], low: bool) -> bool
    ensures { result ≡ true → Stand t.now 128 }
{
    match top(t) {
        0..0x80 => true,
        0x80..0xE0 => right_by(t, |_, _, b1, b0| lane_two(b1, b0)),
        0xE0..0xF0 => right_by(t, |_, b2, b1, b0| lane_three(b2, b1, b0)),
        0xF0.. => !low && right_by(t, lane_four),
    }
}

// A place where the test there is not below 0x80, and else one behind all places.
fn place(e: u8, k: u8) -> u8
    ensures { k < result → e < 0x80 }
{
    if e < 0x80 { u8::MAX } else { k }
}

// So many of the bytes behind the first three stand well. There may be more.
fn right_to(t: &[u8]) -> usize
    requires { (3 ≤ length t.now) × (length t.now < 259) }
    ensures { (result + 3 ≤ length t.now) × Stand t.now result }
{
    let mut m = (t.len() - 3) as u8;
    for (k, &[b3, b2, b1, b0]) in t.array_windows::<4>().enumerate() {
        m = m.min(place(lane_four(b3, b2, b1, b0), k as u8));
    }
    m as usize
}

// So many bytes of a text stand well, by blocks of 128 from a place up to which they do. There may be more. Counted by hand, here and in
// the slim ones: each block begins with the last three bytes of the one before, so `chunks_exact` does not give them.
fn wide_blocks(text: &[u8], from: usize, low: bool) -> usize
    requires { (3 ≤ from) × Good text.now from }
    ensures { (3 ≤ result) × Good text.now result }
{
    let mut at = from;
    while let Some(block) = text[at - 3..].first_chunk() {
        if !right(block, low) {
            return at;
        }
        at += 128;
    }
    at
}

// So many bytes of a text stand well, by one block of 128 at its end over what is left behind a place up to which they do, for low
// bytes. There may be more.
fn wide_last(text: &[u8], at: usize) -> usize
    requires { (3 ≤ at) × Good text.now at }
    ensures { (3 ≤ result) × Good text.now result }
{
    match text.last_chunk() {
        Some(block) if text.len() - at < 128 && right(block, true) => text.len(),
        _ => at,
    }
}

// So many bytes of a text stand well, by blocks of a size from a place up to which they do as far as a bound. There may be more.
fn slim_blocks(text: &[u8], from: usize, bound: usize, size: usize) -> usize
    requires { (0 < size) × (size < 256) × (3 ≤ from) × Good text.now from }
    ensures { Good text.now result }
{
    let mut at = from;
    while at < bound && size <= text.len() - at {
        let n = right_to(&text[at - 3..at + size]);
        if n < size {
            return at + n;
        }
        at += size;
    }
    at
}

// So many bytes of a text stand well, by one block of a size at its end over what is left behind a place up to which they do.
// There may be more.
fn slim_last(text: &[u8], at: usize, size: usize) -> usize
    requires { (size < 256) × (size + 3 ≤ length text.now) × Good text.now at }
    ensures { Good text.now result }
{
    let n = text.len();
    if at == n || size <= n - at {
        return at;
    }
    if right_to(&text[n - size - 3..]) == size {
        return n;
    }
    at
}

// So many bytes of a text stand well: by wide blocks, where the slow test waits for some slim ones, as damage may be near. There may be
// more.
fn wider(text: &[u8], from: usize) -> usize
    requires { (3 ≤ from) × Good text.now from }
    ensures { Good text.now result }
{
    let low = wide_last(text, wide_blocks(text, from, true));
    let near = slim_blocks(text, low, low + 256, 32);
    if near < low + 256 {
        return near;
    }
    let far = wide_blocks(text, near, false);
    slim_blocks(text, far, text.len(), 32)
}

// So many bytes of a text of 19 or more stand well, with a last block over what is left: smaller blocks where the text is short.
// There may be more.
fn by_length(text: &[u8], from: usize) -> usize
    requires { (3 ≤ from) × Good text.now from × (19 ≤ length text.now) }
    ensures { Good text.now result }
{
    if text.len() < 35 {
        let near = slim_blocks(text, from, text.len(), 16);
        return slim_last(text, near, 16);
    }
    let far = wider(text, from);
    slim_last(text, far, 32)
}

// Are they all below 0x80? Without a stop at the first that is not, as std's `is_ascii` has.
fn is_low(t: &[u8]) -> bool
    ensures { result ≡ true → Below t.now (length t.now) 0x80 }
{
    t.iter().fold(0, |all, &b| all | b) < 0x80
}

// So many bytes at the start of a text are below 0x80, by blocks of a size from a place up to which they are, and one at the end
// over what is left. There may be more.
fn ascii_blocks(text: &[u8], from: usize, size: usize) -> usize
    requires { (0 < size) × (size ≤ length text.now) × Ascii text.now from }
    ensures { Ascii text.now result }
{
    let n = text.len();
    let mut at = from;
    while let Some(block) = text.get(at..at + size) {
        if !is_low(block) {
            return at;
        }
        at += size;
    }
    if at < n && is_low(&text[n - size..]) {
        return n;
    }
    at
}

// So many bytes at the start of a text of 16 or more are below 0x80: by blocks of 16 where it has fewer than 64, else by blocks of
// 256 and 64, and none where the first 64 are not. There may be more.
fn ascii(text: &[u8]) -> usize
    requires { 16 ≤ length text.now }
    ensures { Ascii text.now result }
{
    let n = text.len();
    if n < 64 {
        return ascii_blocks(text, 0, 16);
    }
    if !is_low(&text[..64]) {
        return 0;
    }
    if n < 256 {
        return ascii_blocks(text, 64, 64);
    }
    let far = ascii_blocks(text, 64, 256);
    ascii_blocks(text, far, 64)
}

// Do the first three bytes of a text stand well?
fn right_first(text: &[u8]) -> bool
    ensures { result ≡ true → Good text.now 3 }
{
    let &[a, b, c, ..] = text else {
        return false;
    };
    stand(0, 0, 0, a) && stand(0, 0, a, b) && stand(0, a, b, c)
}

// So many bytes at the start of a text stand well. There may be more.
fn sure(text: &[u8]) -> usize
    ensures { Good text.now result }
{
    let n = text.len();
    if n < 19 {
        return 0;
    }
    let at = ascii(text);
    if at == n {
        return at;
    }
    if 3 <= at {
        return by_length(text, at);
    }
    if !right_first(text) {
        return 0;
    }
    by_length(text, 3)
}

// How many bytes at the start of a text stand well: byte by byte from a place up to which they do.
fn onward(text: &[u8], from: usize) -> usize
    requires { Good text.now from }
    ensures { result ≡ standing text.now }
{
    let mut b3 = byte_before(text, from, 3);
    let mut b2 = byte_before(text, from, 2);
    let mut b1 = byte_before(text, from, 1);
    for (i, &b0) in text[from..].iter().enumerate() {
        if !stand(b3, b2, b1, b0) {
            return from + i;
        }
        (b3, b2, b1) = (b2, b1, b0);
    }
    text.len()
}

// How many bytes at the start of a text stand well, each behind the three before it?
pub fn standing(text: &[u8]) -> usize
    ensures { result ≡ standing text.now }
{
    let from = sure(text);
    if from == text.len() {
        return from;
    }
    onward(text, from)
}
