// The needle's critical cut: where the later of its two greatest suffixes starts, by the order of bytes and by that order turned round.
ghost use Rattle.std.specs.Prelude.{◌≡◌, ◌<◌, length};
ghost use Rattle.find.specs.Inside.Compared.{at};
ghost use Rattle.find.specs.Inside.Cuts.{rank_of, ranked, Greatest, Cut};

use crate::compare::agree;

// Where a suffix of the needle starts, and its least period.
#[derive(Clone, Copy)]
struct Suffix {
    start: usize,
    period: usize,
}

// A cut of the needle; how far the search goes on where the right part matches and the left does not; and how many bytes at the start
// of the needle are then known to match.
#[derive(Clone, Copy)]
pub(crate) struct Plan {
    pub(crate) cut: usize,
    pub(crate) shift: usize,
    pub(crate) keep: usize,
}

// A byte's rank in the order, or in the order turned round.
fn rank(turned: bool, b: u8) -> u8
    ensures { result ≡ rank_of turned b }
{
    if turned { 255 - b } else { b }
}

// The greatest suffix. Three indices move by turns, which no iterator does. As far as j + k the greatest starts at s and has the period p, and its last whole copy ends at j.
fn greatest(needle: &[u8], turned: bool) -> Suffix
    requires { 0 < length needle.now }
    ensures { Greatest (ranked turned (at needle.now)) (length needle.now) result.start result.period }
{
    let m = needle.len();
    let mut s = 0;
    let mut j = 1;
    let mut k = 0;
    let mut p = 1;
    while j + k < m {
        let a = rank(turned, needle[j + k]);
        let b = rank(turned, needle[s + k]);
        if a < b {
            j = j + k + 1;
            k = 0;
            p = j - s;
        } else if b < a {
            s = j;
            j += 1;
            k = 0;
            p = 1;
        } else if k + 1 == p {
            j += p;
            k = 0;
        } else {
            k += 1;
        }
    }
    Suffix {
        start: s,
        period: p,
    }
}

// The shift is the needle's period where that is short, and more than half of the needle where it is not.
pub(crate) fn cut_of(needle: &[u8]) -> Plan
    requires { 0 < length needle.now }
    ensures { Cut (at needle.now) (length needle.now) result.cut result.shift result.keep }
{
    let m = needle.len();
    let f = greatest(needle, false);
    let g = greatest(needle, true);
    let mut l = f.start;
    let mut p = f.period;
    if l < g.start {
        l = g.start;
        p = g.period;
    }
    if l <= p {
        if l <= agree(needle, needle, p, 0, l) {
            return Plan {
                cut: l,
                shift: p,
                keep: m - p,
            };
        }
    }
    if l < m - l {
        return Plan {
            cut: l,
            shift: m - l + 1,
            keep: 0,
        };
    }
    Plan {
        cut: l,
        shift: l + 1,
        keep: 0,
    }
}
