// A run of whole segments: it is counted from one checkpoint to the next by the sums of its bytes, and each checkpoint is the
// boundary at or before its byte.
ghost use Rattle.std.specs.Prelude.{◌≡◌, ◌+◌, ◌<◌, false, length, get_or};
ghost use Rattle.utf8_scan.specs.Stands.{is_later};
ghost use Rattle.utf8_count.specs.Counts.{four_of};
ghost use Rattle.index_build.specs.Inside.Steps.{Walked};
ghost use Rattle.index_build.specs.Inside.Summed.{summed, Adds, boundary, Covers, back};
ghost use Rattle.index_build.specs.Inside.Runs.{Runs};

use index_checkpoint::SPACING;
use place::Place;

// The counts behind the next n bytes of a text.
fn add_sums(p: Place, text: &[u8], n: usize) -> Place
    requires { Adds p text.now n }
    ensures { result ≡ summed p text.now n }
{
    let s = utf8_count::count(&text[..n]);
    Place {
        bytes: p.bytes + n,
        units: p.units + s.starts + s.fours,
        points: p.points + s.starts,
        lines: p.lines + utf8_count::line_ends(text, n),
    }
}

// May this byte stand behind the first of a sequence?
fn is_later(byte: u8) -> bool
    ensures { result ≡ is_later byte }
{
    0x80 <= byte && byte < 0xC0
}

// The last byte at or before n that is no later byte.
fn boundary(text: &[u8], n: usize) -> usize
    requires { (n < length text.now) × (is_later (get_or text.now 0 0) ≡ false) }
    ensures { result ≡ boundary text.now n }
{
    let mut b = n;
    while is_later(text[b]) {
        b -= 1;
    }
    b
}

// The units of a segment that begins with this byte.
fn units_from(head: u8) -> usize
    ensures { result ≡ 1 + four_of head }
{
    if 0xF0 <= head { 2 } else { 1 }
}

// The place at the last boundary at or before byte n of a run, where q has the counts as far as that byte: what the segment that
// is begun there counts is taken off. The end of the run is a boundary.
fn step_back(text: &[u8], run: usize, n: usize, q: Place) -> Place
    requires { Covers q text.now run n }
    ensures { result ≡ back text.now run n q }
{
    if run <= n {
        return q;
    }
    let b = boundary(text, n);
    if b == n {
        return q;
    }
    let head = text[b];
    Place {
        bytes: q.bytes - (n - b),
        units: q.units - units_from(head),
        points: q.points - 1,
        lines: q.lines - utf8_count::end_first(&text[b..]),
    }
}

// The whole segments that a text begins with are walked over, from one checkpoint to the next. A run that is none is not counted.
pub(crate) fn pass_run(text: &[u8], run: usize, from: Place, row: &mut [u32]) -> Place
    requires { Runs from text.now run row.old }
    ensures { Walked text.now from row.old row.new result run }
{
    if run == 0 {
        return from;
    }
    let mut q = from;
    let mut at: usize = 0;
    loop {
        let end = at + (SPACING - q.bytes % SPACING);
        if run < end {
            return add_sums(q, &text[at..], run - at);
        }
        q = add_sums(q, &text[at..], end - at);
        index_checkpoint::mark(row, q.bytes / SPACING, step_back(text, run, end, q));
        at = end;
    }
}
