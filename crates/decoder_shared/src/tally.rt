// What is settled of a text is tallied: its elements in whole segments and in damage, its damages, and their entries.
ghost use Rattle.std.specs.Prelude.{◌≡◌, ◌%◌, ◌^◌};
ghost use Rattle.terms.specs.Told.{number_of};
ghost use Rattle.decoder_shared.specs.Inside.Tallying.{passed_by, struck_by, listed_by, taken_by, told_list, totals_of};

use crate::{Totals, enter};
use terms::{Cause, First};

// What is kept of the segments so far: elements in whole segments and in damage, and damages.
#[derive(Clone, Copy, PartialEq, Eq)]
pub struct Tally {
    pub whole: usize,
    pub damaged: usize,
    pub count: usize,
}

// What the settled segments of a text made of a tally, and how many elements they have.
#[derive(Clone, Copy, PartialEq, Eq)]
pub struct Settled {
    pub tally: Tally,
    pub size: usize,
}

// A number of an entry has 32 bits.
#[inline]
fn entry(n: usize) -> u32
    ensures { result ≡ n % 2 ^ 32 }
{
    (n % 4_294_967_296) as u32
}

impl Tally {
    // So many elements more in whole segments. Sums are modulo 2^64.
    #[inline]
    pub fn pass(self, n: usize) -> Tally
        ensures { result ≡ passed_by self n }
    {
        Tally {
            whole: self.whole.wrapping_add(n),
            ..self
        }
    }

    // A damage of so many elements is entered with its cause, where the list has room for it, and counted. An entry's numbers are modulo 2^32.
    #[inline]
    pub fn strike(self, n: usize, cause: Cause, room: usize, list: &mut [u32]) -> Tally
        ensures { (result ≡ struck_by self n) × (list.new ≡ listed_by self n (number_of cause) room list.old) }
    {
        let start = self.whole.wrapping_add(self.damaged);
        enter(list, room, self.count, entry(start), entry(n), cause);
        Tally {
            damaged: self.damaged.wrapping_add(n),
            count: self.count.wrapping_add(1),
            ..self
        }
    }

    // The totals of a text that is tallied, of which finish wrote so many places.
    pub fn totals(self, written: usize) -> Totals
        ensures { result ≡ totals_of written self }
    {
        Totals {
            written,
            whole: self.whole,
            damaged: self.damaged,
            count: self.count,
        }
    }

    // The segment that stands first in a text is tallied, if it is settled.
    #[inline]
    pub fn take(self, seg: First, room: usize, list: &mut [u32]) -> Tally
        ensures { (result ≡ taken_by self seg) × (list.new ≡ told_list self seg room list.old) }
    {
        match seg {
            First::Nothing => self,
            First::Whole(n) => self.pass(n),
            First::Damage(n, cause) => self.strike(n, cause, room, list),
            First::Begun(_) => self,
        }
    }
}
