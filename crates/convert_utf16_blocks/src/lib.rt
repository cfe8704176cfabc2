// Units that stand alone as UTF-8 bytes, a block of 128 at a time: how many bytes they take, and the bytes at the start of an output.
#![tactic(auto)]

ghost use Rattle.std.specs.Prelude.{◌≡◌, true, ◌++◌, ◌≤◌, length, drop};
ghost use Rattle.utf8.specs.Scalar.{later};
ghost use Rattle.convert_utf16_blocks.specs.Block.{low, block, roomy, bytes_of, CountsSome, PutsSome};
ghost use Rattle.convert_utf16_blocks.specs.Inside.Places.{size_of, first_byte, second_byte, Mapped, Squeezed};

mod sixteen;

pub use sixteen::put_sixteen;

// How many units were read, and how many places they take.
#[derive(Clone, Copy)]
pub struct Part {
    pub read: usize,
    pub places: usize,
}

// How many bytes a unit takes.
fn size_of(x: u16) -> u8
    ensures { result ≡ size_of x }
{
    if x < 0x80 {
        return 1;
    }
    if x < 0x800 {
        return 2;
    }
    3
}

// The first byte of a unit.
fn first_byte(x: u16) -> u8
    ensures { result ≡ first_byte x }
{
    if x < 0x80 {
        return x as u8;
    }
    if x < 0x800 {
        return (0xC0 + x / 0x40) as u8;
    }
    (0xE0 + x / 0x1000) as u8
}

// The second byte of a unit that takes two or three.
fn second_byte(x: u16) -> u8
    ensures { result ≡ second_byte x }
{
    if x < 0x800 {
        return (0x80 + x % 0x40) as u8;
    }
    (0x80 + x / 0x40 % 0x40) as u8
}

// The third byte of a unit that takes three.
fn third_byte(x: u16) -> u8
    ensures { result ≡ later x }
{
    (0x80 + x % 0x40) as u8
}

// What a function gives for each unit.
fn row<const N: usize, F: Fn(u16) -> u8>(units: &[u16; N], f: F) -> [u8; N]
    requires { F.IsAlwaysCallable f }
    ensures { Mapped (F.post f) units.now result }
{
    // an array's own `map` takes sixteen times as long
    let mut row = [0u8; N];
    for (k, x) in units.iter().enumerate() {
        row[k] = f(*x);
    }
    row
}

// Are units below 0x80?
fn are_low<const N: usize>(units: &[u16; N]) -> bool
    ensures { result ≡ low units.now }
{
    let bits = units.iter().fold(0, |bits, x| bits | *x);
    bits < 0x80
}

// The bytes of units below 0x80, which are themselves: from a row they are one store.
fn put_low<const N: usize>(units: &[u16; N], out: &mut [u8])
    requires under { low units.now ≡ true }
    requires in_bounds { N ≤ length out.old }
    ensures { out.new ≡ units.now ++ drop N out.old }
{
    let bytes = row(units, |x| (x % 0x100) as u8);
    out[..N].copy_from_slice(&bytes);
}

// How many bytes 128 units take.
fn count(units: &[u16; 128]) -> u16
    ensures { result ≡ length (bytes_of units.now) }
{
    let mut places: u16 = 0;
    for x in units {
        places += u16::from(size_of(*x));
    }
    places
}

// The bytes of all but the last two units: each is stored as three, and the next over those that it does not take.
fn squeeze(units: &[u16; 128], out: &mut [u8]) -> usize
    requires { 384 ≤ length out.old }
    ensures { Squeezed units.now 126 2 out.old out.new result }
{
    let first = row(units, first_byte);
    let second = row(units, second_byte);
    let third = row(units, third_byte);
    let size = row(units, size_of);
    let mut at: usize = 0;
    // by index: four rows are read at one
    for k in 0..126 {
        out[at] = first[k];
        out[at + 1] = second[k];
        out[at + 2] = third[k];
        at += usize::from(size[k]);
    }
    at
}

// The bytes of 128 units, and their number: the last two units are stored exactly.
fn put_mixed(units: &[u16; 128], out: &mut [u8]) -> usize
    requires { 384 ≤ length out.old }
    ensures { Squeezed units.now 128 0 out.old out.new result }
{
    let mut at = squeeze(units, out);
    at += convert_point::put_bytes(&mut out[at..], u32::from(units[126]));
    at += convert_point::put_bytes(&mut out[at..], u32::from(units[127]));
    at
}

// How many bytes the first block of a text takes, if its units stand alone.
pub fn count_block(text: &[u16]) -> Option<Part>
    ensures { CountsSome (block text.now) result }
{
    let units = text.first_chunk::<128>()?;
    if are_low(units) {
        return Some(Part {
            read: 128,
            places: 128,
        });
    }
    if !utf16::are_alone(units) {
        return None;
    }
    Some(Part {
        read: 128,
        places: usize::from(count(units)),
    })
}

// The bytes of the first block of a text, if its units stand alone and the output is long enough for any block.
pub fn put_block(text: &[u16], out: &mut [u8]) -> Option<Part>
    ensures { PutsSome (roomy (length out.old) text.now) out.old out.new result }
{
    if out.len() < 384 {
        return None;
    }
    let units = text.first_chunk::<128>()?;
    if are_low(units) {
        put_low(units, out);
        return Some(Part {
            read: 128,
            places: 128,
        });
    }
    if !utf16::are_alone(units) {
        return None;
    }
    Some(Part {
        read: 128,
        places: put_mixed(units, out),
    })
}
