// Checkpoints of an index: reading and writing one, the choice among them by halving, and whether one is usable.
#![tactic(auto)]

ghost use Rattle.std.specs.Prelude.{◌≡◌, get_or};
ghost use Rattle.theory.specs.Index.{marks, usable};
ghost use Rattle.place.specs.Measures.{ruler, reader, longest};
ghost use Rattle.place.specs.Walk.{number, measure, fair};
ghost use Rattle.index_checkpoint.specs.Checkpoints.{spacing, needed, checkpoint};
ghost use Rattle.index_checkpoint.specs.Choosing.{passes, halved};

use place::{Offset, Place};

mod marking;

pub use marking::{mark, pass};

// A checkpoint stands at each multiple of so many bytes.
pub const SPACING: usize = 256;
// It is so many numbers of the index: its bytes, units, code points and lines.
const WIDTH: usize = 4;
// No segment has more bytes, so that a checkpoint lies fewer than these before its multiple.
const LONGEST: usize = 4;

// How many checkpoints a text of so many bytes has.
pub fn marks(long: usize) -> usize
    ensures { result ≡ marks spacing long }
{
    long / SPACING + 1
}

// How many numbers its index has.
pub fn needed(long: usize) -> usize
    ensures { result ≡ needed long }
{
    WIDTH * marks(long)
}

// A number of the index, 0 where it has not so many.
fn number_at(row: &[u32], at: usize) -> usize
    ensures { result ≡ get_or row.now at 0 }
{
    row.get(at).copied().unwrap_or(0) as usize
}

// Checkpoint k, as the index has it.
pub fn checkpoint(row: &[u32], k: usize) -> Place
    ensures { result ≡ checkpoint row.now k }
{
    if row.len() / WIDTH < k {
        return Place::start();
    }
    let at = WIDTH * k;
    Place {
        bytes: number_at(row, at),
        units: number_at(row, at + 1),
        points: number_at(row, at + 2),
        lines: number_at(row, at + 3),
    }
}

// A checkpoint passes: its count is at most the offset, for lines below it.
fn passes(to: Offset, p: Place) -> bool
    ensures { result ≡ passes to p }
{
    match to {
        Offset::Byte(n) => p.bytes <= n.0,
        Offset::Unit(n) => p.units <= n.0,
        Offset::Point(n) => p.points <= n.0,
        Offset::Line(n) => p.lines < n.0,
    }
}

// The choice by halving among n checkpoints: the middle one becomes low where it passes.
pub fn halve(row: &[u32], n: usize, to: Offset) -> usize
    ensures { result ≡ halved to row.now n }
{
    let mut low: usize = 0;
    let mut high = n;
    while 1 < high - low {
        let mid = low + (high - low) / 2;
        if passes(to, checkpoint(row, mid)) {
            low = mid;
        } else {
            high = mid;
        }
    }
    low
}

// Checkpoint j is near byte 256 × j, its other counts are in range, and it is not past the offset. The product could
// overflow: j is compared with the number of the first multiple at or behind its byte.
pub fn usable(q: Place, j: usize, to: Offset) -> bool
    ensures { result ≡ usable reader ruler longest spacing fair (measure to) (number to) j q }
{
    let over = q.bytes % SPACING;
    if q.bytes / SPACING + (over + SPACING - 1) / SPACING != j {
        return false;
    }
    if LONGEST <= (SPACING - over) % SPACING {
        return false;
    }
    q.fair() & (to.count(q) <= to.number())
}
