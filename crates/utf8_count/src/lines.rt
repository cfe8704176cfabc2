// The line ends of a byte text: one, and those of a part.
ghost use Rattle.std.specs.Prelude.{◌≡◌, true, ℕ, ◌+◌, ◌≤◌, length, drop};
ghost use Rattle.utf8_count.specs.Counts.{end_of, end_first, ends_in};
ghost use Rattle.utf8_count.specs.Inside.Ends.{short_end, long_of, ZeroFrom};

// One where a line ends behind what begins with x, and y and z stand behind it. `&` and `|` and no branches, so that a
// loop over it is wide.
fn end_of(x: u8, y: u8, z: u8) -> u8
    ensures { result ≡ end_of x y z }
{
    let separator = (z == 0xA8) | (z == 0xA9);
    let three = (x == 0xE2) & (y == 0x80) & separator;
    let two = (x == 0xC2) & (y == 0x85);
    let lone = (x == 0x0D) & (y != 0x0A);
    u8::from((x == 0x0A) | lone | two | three)
}

// Does what begins with x end no line, whatever follows? Most bytes by one test: a `matches!` of all three ranges takes two.
fn ends_none(x: u8) -> bool
    ensures { result ≡ true → (y z : ℕ) → end_of x y z ≡ 0 }
{
    if 0x0D < x && x < 0xC2 {
        return true;
    }
    if 0xC2 < x && x < 0xE2 {
        return true;
    }
    0xE2 < x
}

// Whether a line ends behind what a text begins with.
pub fn end_first(text: &[u8]) -> usize
    ensures { result ≡ end_first text.now }
{
    let byte = |i: usize| text.get(i).copied().unwrap_or(0);
    let x = byte(0);
    if ends_none(x) {
        return 0;
    }
    usize::from(end_of(x, byte(1), byte(2)))
}

// One where x by itself ends a line, as 0A does and a 0D with no 0A behind it.
fn short_end(x: u8, y: u8) -> u8
    ensures { result ≡ short_end x y }
{
    u8::from((x == 0x0A) | (x == 0x0D) & (y != 0x0A))
}

// One where the byte may begin a line's end of more than one byte.
fn long_of(x: u8) -> u8
    ensures { result ≡ long_of x }
{
    u8::from((x == 0xC2) | (x == 0xE2))
}

// Those of the first 128 bytes of a row, by looking at the two behind each: so that a loop is wide, they are lent by
// themselves, and not by `windows`.
fn every(row: &[u8], next: &[u8], third: &[u8]) -> usize
    requires { (length row.now ≡ 130) × (next.now ≡ drop 1 row.now) × (third.now ≡ drop 2 row.now) }
    ensures { result ≡ ends_in 128 row.now }
{
    let mut ends: u8 = 0;
    for ((x, y), z) in row.iter().zip(next).zip(third) {
        ends += end_of(*x, *y, *z);
    }
    usize::from(ends)
}

// The same: most texts have only ends of one byte, for which one look behind each is enough.
fn short_first(row: &[u8], next: &[u8], third: &[u8]) -> usize
    requires { (length row.now ≡ 130) × (next.now ≡ drop 1 row.now) × (third.now ≡ drop 2 row.now) }
    ensures { result ≡ ends_in 128 row.now }
{
    let mut ends: u8 = 0;
    let mut long: u8 = 0;
    for ((x, y), _) in row.iter().zip(next).zip(third) {
        ends += short_end(*x, *y);
        long += long_of(*x);
    }
    if long == 0 {
        return usize::from(ends);
    }
    every(row, next, third)
}

// Those of the first 128 bytes, where two more stand behind them.
fn block_ends(row: &[u8; 130]) -> usize
    ensures { result ≡ ends_in 128 row.now }
{
    short_first(row, &row[1..], &row[2..])
}

// Byte by byte.
fn slow(text: &[u8], n: usize) -> usize
    ensures { result ≡ ends_in n text.now }
{
    let mut ends: usize = 0;
    for at in 0..n.min(text.len()) {
        ends += end_first(&text[at..]);
    }
    ends
}

// Of a row that has 0 from n + 2 on: the two behind the first n are counted with them, and taken off.
fn in_row(row: &[u8; 130], n: usize) -> usize
    requires { (n ≤ 126) × ZeroFrom (n + 2) row.now }
    ensures { result ≡ ends_in n row.now }
{
    block_ends(row) - slow(&row[n..], 2)
}

// Fewer than a block: they and the two behind them are counted in one that is filled up with 0, which ends no line.
fn filled(text: &[u8], n: usize) -> usize
    requires { n ≤ 126 }
    ensures { result ≡ ends_in n text.now }
{
    let mut row = [0u8; 130];
    let m = text.len().min(n + 2);
    row[..m].copy_from_slice(&text[..m]);
    in_row(&row, n)
}

// Fewer than a block, or near the end of the text.
fn few(text: &[u8], n: usize) -> usize
    ensures { result ≡ ends_in n text.now }
{
    let m = n.min(text.len()).min(126);
    if m < 16 {
        return slow(text, n);
    }
    filled(text, m) + slow(&text[m..], n - m)
}

// The line ends that begin in the first n bytes; those behind them are looked at and not counted.
pub fn line_ends(text: &[u8], n: usize) -> usize
    ensures { result ≡ ends_in n text.now }
{
    let mut ends: usize = 0;
    let mut at: usize = 0;
    while 128 <= n - at
        && let Some(row) = text[at..].first_chunk::<130>()
    {
        ends += block_ends(row);
        at += 128;
    }
    if at == n {
        return ends;
    }
    ends + few(&text[at..], n - at)
}
