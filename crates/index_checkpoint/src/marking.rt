// Writing in the row of an index: one checkpoint, or the one between two places.
ghost use Rattle.std.specs.Prelude.{◌≡◌, ◌%◌, ◌^◌};
ghost use Rattle.index_checkpoint.specs.Marks.{marked_at, marked_once};

use crate::{SPACING, WIDTH};
use place::Place;

// A number of the index has 32 bits.
fn entry(n: usize) -> u32
    ensures { result ≡ n % 2 ^ 32 }
{
    (n % 4_294_967_296) as u32
}

// Checkpoint k: the four counts of a place, modulo 2^32. A row that has no room for it is left as it is.
pub fn mark(row: &mut [u32], k: usize, p: Place)
    ensures { row.new ≡ marked_at row.old k p }
{
    if row.len() / WIDTH <= k {
        return;
    }
    let at = WIDTH * k;
    row[at] = entry(p.bytes);
    row[at + 1] = entry(p.units);
    row[at + 2] = entry(p.points);
    row[at + 3] = entry(p.lines);
}

// The first checkpoint above p, if it is not above q: q where q lies at its byte, else p. Where q is one segment behind p there
// is no other.
pub fn pass(p: Place, q: Place, row: &mut [u32])
    ensures { row.new ≡ marked_once row.old p q }
{
    let k = p.bytes / SPACING + 1;
    if q.bytes / SPACING < k {
        return;
    }
    if q.bytes == SPACING * k {
        mark(row, k, q);
        return;
    }
    mark(row, k, p);
}
