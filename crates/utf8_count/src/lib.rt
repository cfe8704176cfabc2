// Counts over a byte text, a block of 128 at a time: bytes that are no later bytes, bytes of 0xF0 or more, and
// line ends.
#![tactic(auto)]

mod lines;

ghost use Rattle.std.specs.Prelude.{◌≡◌, ◌+◌, ◌^◌, ◌<◌, ◌≤◌, length};
ghost use Rattle.utf8_count.specs.Counts.{start_of, four_of, sums_of};

pub use lines::{end_first, line_ends};

// How many bytes are no later bytes, and how many are 0xF0 or more.
#[derive(Clone, Copy)]
pub struct Sums {
    pub starts: usize,
    pub fours: usize,
}

impl Sums {
    fn plus(self, more: Sums) -> Sums
        requires { (self.starts + more.starts < 2 ^ 64) × (self.fours + more.fours < 2 ^ 64) }
        ensures { result ≡ record { starts = self.starts + more.starts; fours = self.fours + more.fours } }
    {
        Sums {
            starts: self.starts + more.starts,
            fours: self.fours + more.fours,
        }
    }
}

// One for a byte that is no later byte.
fn start_of(b: u8) -> u8
    ensures { result ≡ start_of b }
{
    u8::from(!matches!(b, 0x80..=0xBF))
}

// One for a byte that begins a sequence of four.
fn four_of(b: u8) -> u8
    ensures { result ≡ four_of b }
{
    u8::from(0xF0 <= b)
}

// Those of a block. Each sum fits a byte, so that the loop is as wide as can be.
fn block(text: &[u8; 128]) -> Sums
    ensures { result ≡ sums_of text.now }
{
    let mut starts: u8 = 0;
    let mut fours: u8 = 0;
    for b in text {
        starts += start_of(*b);
        fours += four_of(*b);
    }
    Sums {
        starts: usize::from(starts),
        fours: usize::from(fours),
    }
}

// Fewer bytes than a block: they are counted in one that is filled up with later bytes, which count nothing.
fn rest(text: &[u8]) -> Sums
    requires { length text.now ≤ 128 }
    ensures { result ≡ sums_of text.now }
{
    let mut row = [0x80u8; 128];
    row[..text.len()].copy_from_slice(text);
    block(&row)
}

// The sums of a text.
pub fn count(text: &[u8]) -> Sums
    ensures { result ≡ sums_of text.now }
{
    let mut sums = Sums {
        starts: 0,
        fours: 0,
    };
    let mut left = text;
    while let Some((row, behind)) = left.split_first_chunk::<128>() {
        sums = sums.plus(block(row));
        left = behind;
    }
    if left.is_empty() {
        return sums;
    }
    sums.plus(rest(left))
}
