// Which bytes of a needle are seldom met, by rule of thumb.
ghost use Rattle.std.specs.Prelude.{ℕ, ◌<◌, length};
ghost use Rattle.find.specs.Inside.Compared.{Rare};

use crate::ahead::Ahead;

// How often a small letter is met, by rule of thumb: the ten commonest of the Latin ones, the eight rarest, the others.
fn letter(b: u8) -> u8 {
    match b {
        b'a' | b'e' | b'i' | b'l' | b'n' | b'o' | b'r' | b's' | b't' | b'u' => 220,
        b'j' | b'k' | b'q' | b'v' | b'w' | b'x' | b'y' | b'z' => 50,
        _ => 150,
    }
}

// How often a byte is met before another in log lines of several scripts, by rule of thumb: lead bytes and inner bytes of a script are
// common, the last bytes of its sequences are not.
fn commonness(b: u8, next: u8) -> u8 {
    match b {
        0..=0x1F => 40,
        0x20 => 255,
        0x21..=0x2F => 60,
        0x30..=0x39 => 120,
        0x3A..=0x60 => 70,
        0x61..=0x7F => letter(b),
        0x80..=0xBF if 0x80 <= next && next < 0xC0 => 120,
        0x80..=0xBF => 80,
        _ => 240,
    }
}

// The two rarest indices so far, and how common their bytes are.
#[derive(Clone, Copy)]
struct Ranked {
    first: usize,
    second: usize,
    least: u8,
    next: u8,
}

impl Ranked {
    // One index more; of bytes that are alike the last is kept.
    fn with_index(self, k: usize, common: u8) -> Ranked
        ensures { (n : ℕ) → self.first < n → self.second < n → k < n → (result.first < n) × (result.second < n) }
    {
        if common <= self.least {
            return Ranked {
                first: k,
                second: self.first,
                least: common,
                next: self.least,
            };
        }
        if common <= self.next {
            return Ranked {
                second: k,
                next: common,
                ..self
            };
        }
        self
    }
}

// How many bytes of a needle are ranked: in a long one two that are seldom met stand soon.
const SAMPLED: usize = 256;

// The two rarest bytes at the start of the needle are looked for first; one by itself twice.
pub(crate) fn rarest_two(needle: &[u8]) -> Ahead
    requires { 0 < length needle.now }
    ensures { Rare needle.now result.first result.second }
{
    let mut r = Ranked {
        first: 0,
        second: 0,
        least: 255,
        next: 255,
    };
    for k in 0..needle.len().min(SAMPLED) {
        let next = needle.get(k + 1).copied().unwrap_or(0);
        r = r.with_index(k, commonness(needle[k], next));
    }
    Ahead {
        first: r.first,
        second: r.second,
        poor: 0,
        wait: 0,
    }
}
