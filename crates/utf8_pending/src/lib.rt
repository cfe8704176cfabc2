// The pending bytes of a state that takes a byte text in pieces.
#![tactic(auto)]

ghost use Rattle.std.specs.Prelude.{◌≡◌, ◌++◌, min, ◌≤◌, get_or, take};
ghost use Rattle.terms.specs.Limits.{most_pending};
ghost use Rattle.utf8.specs.Bytes.{bytes};
ghost use Rattle.utf8.specs.Pending.{zeros, padded};
ghost use Rattle.utf8_pending.specs.Tail.{settled_size, is_tail, seam_of, seam_with};

use terms::{Decoder, First};

// The first four bytes of what is pending and a piece behind it, unused ones 0, and how many there are: fixed memory, and C is told both.
#[derive(Clone, Copy)]
pub struct Seam {
    pub bytes: [u8; 4],
    pub size: usize,
}

impl Seam {
    // The bytes that there are.
    pub fn as_slice(&self) -> &[u8]
        ensures { result.now ≡ take self.now.size self.now.bytes }
    {
        &self.bytes[..self.size.min(4)]
    }
}

// How many bytes of a text are settled by what stands first in it.
pub fn settled_size(seg: First) -> usize
    ensures { result ≡ settled_size seg }
{
    match seg {
        First::Nothing => 0,
        First::Whole(n) => n,
        First::Damage(n, _) => n,
        First::Begun(_) => 0,
    }
}

// Are they all 0?
fn is_zero(bytes: &[u8]) -> bool
    ensures { result ≡ zeros bytes.now }
{
    bytes.iter().all(|&b| b == 0)
}

// Are these at most 3 pending bytes, empty or a proper beginning of a well-formed sequence, and the unused ones 0? Mostly there are
// none, and nothing is read.
pub fn is_tail(held: [u8; Decoder::PENDING], n: usize) -> bool
    ensures { result ≡ is_tail bytes held n }
{
    if n == 0 {
        return is_zero(&held);
    }
    match held.split_at_checked(n) {
        Some((tail, unused)) => settled_size(utf8::segment(tail)) == 0 && is_zero(unused),
        None => false,
    }
}

// The byte at a place of a text, and 0 behind its end.
fn byte_at(text: &[u8], at: usize) -> u8
    ensures { result ≡ get_or text.now at 0 }
{
    text.get(at).copied().unwrap_or(0)
}

// The byte at a place of n pending bytes and a piece behind them, and 0 behind its end.
fn joined(held: [u8; Decoder::PENDING], n: usize, piece: &[u8], at: usize) -> u8
    requires { n ≤ most_pending }
    ensures { result ≡ get_or (take n held ++ piece.now) at 0 }
{
    if at < n {
        return held[at];
    }
    byte_at(piece, at - n)
}

// The seam of n pending bytes, or of all three where n is more, and a piece behind them. A test for each byte: a copy of so few
// would be a loop.
pub fn seam_of(held: [u8; Decoder::PENDING], n: usize, piece: &[u8]) -> Seam
    ensures { result ≡ seam_of held n piece.now }
{
    let k = n.min(Decoder::PENDING);
    Seam {
        bytes: [
            joined(held, k, piece, 0),
            joined(held, k, piece, 1),
            joined(held, k, piece, 2),
            joined(held, k, piece, 3),
        ],
        size: k + (4 - k).min(piece.len()),
    }
}

// The seam as it is read. Where nothing is pending it is empty, and the piece is read where it lies.
pub fn seam_with(held: [u8; Decoder::PENDING], n: usize, piece: &[u8]) -> Seam
    ensures { result ≡ seam_with held n piece.now }
{
    if n == 0 {
        return Seam {
            bytes: [0; 4],
            size: 0,
        };
    }
    seam_of(held, n, piece)
}

// The first three bytes of what is left, 0 for each one missing.
pub fn hold(left: &[u8]) -> [u8; Decoder::PENDING]
    ensures { result ≡ padded left.now }
{
    [byte_at(left, 0), byte_at(left, 1), byte_at(left, 2)]
}
