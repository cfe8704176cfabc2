// The two-way search of Crochemore and Perrin: to the right of the needle's critical cut first, then to its left.
ghost use Rattle.std.specs.Prelude.{◌≡◌, ◌<◌, length};
ghost use Rattle.find.specs.Match.{first_match};
ghost use Rattle.find.specs.Inside.Compared.{at, Rare, Passed};
ghost use Rattle.find.specs.Inside.Cuts.{Cut};

use crate::ahead::Ahead;
use crate::compare::agree;
use crate::critical::{Plan, cut_of};
use crate::rare::rarest_two;

// By a plan, from a place on. The first `seen` bytes of the needle are known to match; where none is, it looks ahead when that is due.
fn walk(entry: &[u8], needle: &[u8], from: usize, plan: Plan, rare: Ahead) -> Option<usize>
    requires cut { Cut (at needle.now) (length needle.now) plan.cut plan.shift plan.keep }
    requires rare { Rare needle.now rare.first rare.second × Passed entry.now needle.now 0 from }
    ensures { result ≡ first_match entry.now needle.now }
{
    let m = needle.len();
    let n = entry.len();
    let cut = plan.cut;
    let mut place = from;
    let mut seen = 0;
    let mut ahead = rare;
    while m <= n - place {
        let at = ahead.next(entry, needle, place, seen);
        if n - at < m {
            return None;
        }
        let i = agree(entry, needle, at, cut.max(seen), m);
        if i < m {
            ahead = ahead.behind_look(seen, at - place, i);
            place = at + (i - cut + 1);
            seen = 0;
            continue;
        }
        let j = agree(entry, needle, at, seen, cut);
        if cut <= j {
            return Some(at);
        }
        ahead = ahead.behind_look(seen, at - place, j);
        place = at + plan.shift;
        seen = plan.keep;
    }
    None
}

// Where looking ahead finds no place, or the needle stands at the first that it finds, no plan is made.
pub(crate) fn search(entry: &[u8], needle: &[u8]) -> Option<usize>
    requires { 0 < length needle.now }
    ensures { result ≡ first_match entry.now needle.now }
{
    let m = needle.len();
    let n = entry.len();
    if n < m {
        return None;
    }
    let rare = rarest_two(needle);
    let at = rare.onward(entry, needle, 0);
    if n - at < m {
        return None;
    }
    if m <= agree(entry, needle, at, 0, m) {
        return Some(at);
    }
    walk(entry, needle, at + 1, cut_of(needle), rare)
}
