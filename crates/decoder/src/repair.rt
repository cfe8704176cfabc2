// What settled segments do: to a tally, to the output in repaired form, and to the list of damages.
ghost use Rattle.std.specs.Prelude.{◌≡◌, ℕ, ◌+◌, ◌≤◌, List, ◌++◌, length, drop};
ghost use Rattle.terms.specs.Form.{replacement};
ghost use Rattle.terms.specs.Limits.{limit};
ghost use Rattle.terms.specs.Told.{number_of};
ghost use Rattle.utf8.specs.Scalar.{utf8};
ghost use Rattle.utf8_pending.specs.Tail.{settled_size};
ghost use Rattle.decoder_shared.specs.Inside.Steps.{told_of};
ghost use Rattle.decoder.specs.Inside.Acting as acting;
ghost use Rattle.decoder.specs.Inside.Acting.{work, log_of, reached, Fits};

use decoder_shared::Tally;
use terms::{Cause, First};

// How many places U+FFFD takes.
pub(crate) const MARK: usize = 3;

// How many places a segment takes in repaired form.
pub(crate) fn places(seg: First) -> usize
    ensures { result ≡ acting.places seg }
{
    match seg {
        First::Nothing => 0,
        First::Whole(n) => n,
        First::Damage(_, _) => MARK,
        First::Begun(_) => 0,
    }
}

// U+FFFD at the start of an output.
fn put_mark(out: &mut [u8])
    requires { 3 ≤ length out.old }
    ensures { out.new ≡ utf8.write replacement ++ drop 3 out.old }
{
    out[0] = 0xEF;
    out[1] = 0xBF;
    out[2] = 0xBD;
}

// What is kept of the segments so far: their tally, and the places written in the output.
#[derive(Clone, Copy)]
pub(crate) struct Repair {
    pub tally: Tally,
    pub written: usize,
}

impl Repair {
    // Bytes in whole segments are written as they are. Where damage is dense most runs are none, and not worth the call.
    pub(crate) fn pass(self, run: &[u8], out: &mut [u8]) -> Repair
        requires { (self.written + length run.now ≤ length out.old) × (self.tally.whole + length run.now ≤ limit) }
        ensures { (list : List ℕ) → work result out.new list
            ≡ reached out.old (acting.passed run.now (log_of (work self out.old list))) }
    {
        if run.len() == 0 {
            return self;
        }
        let at = self.written;
        copy::copy(run, &mut out[at..]);
        Repair {
            tally: self.tally.pass(run.len()),
            written: at + run.len(),
        }
    }

    // U+FFFD is written for a damage of so many bytes, and it is entered with its cause and counted.
    pub(crate) fn mend(
        self,
        n: usize,
        cause: Cause,
        room: usize,
        out: &mut [u8],
        list: &mut [u32],
    ) -> Repair
        requires { Fits room 3 n (work self out.old list.old) }
        ensures { work result out.new list.new
            ≡ reached out.old (acting.mended room n (number_of cause) (log_of (work self out.old list.old))) }
    {
        let at = self.written;
        put_mark(&mut out[at..]);
        Repair {
            tally: self.tally.strike(n, cause, room, list),
            written: at + MARK,
        }
    }

    // The segment that stands first in a text acts, if it is settled.
    pub(crate) fn act(
        self,
        seg: First,
        text: &[u8],
        room: usize,
        out: &mut [u8],
        list: &mut [u32],
    ) -> Repair
        requires { acting.Stands seg text.now × Fits room (acting.places seg) (settled_size seg) (work self out.old list.old) }
        ensures { work result out.new list.new
            ≡ acting.acted room (told_of seg text.now) (work self out.old list.old) }
    {
        match seg {
            First::Nothing => self,
            First::Whole(n) => self.pass(&text[..n], out),
            First::Damage(n, cause) => self.mend(n, cause, room, out, list),
            First::Begun(_) => self,
        }
    }
}
