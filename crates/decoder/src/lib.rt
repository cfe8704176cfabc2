// Repair of a byte text that comes in pieces, with a list of its damages.
#![tactic(auto)]

ghost use Rattle.std.specs.Prelude.{◌≡◌, ◌+◌, [], ◌∷◌, length};
ghost use Rattle.terms.specs.Told.{told_first, first_says};
ghost use Rattle.utf8.specs.Bytes.{bytes};
ghost use Rattle.utf8_pending.specs.Tail.{seamed};
ghost use Rattle.decoder.specs.Checks.{admit_says};
ghost use Rattle.decoder.specs.State.{left, fed};
ghost use Rattle.decoder.specs.Feeding.{Starts, Feeds, Finishes};
ghost use Rattle.decoder.specs.Room.{most_fed};
ghost use Rattle.decoder.specs.Inside.Steps as steps;

use crate::repair::Repair;
use decoder_shared::Tally;
use terms::{Cause, Decoder, First, Refusal};

mod checks;
mod repair;
mod walk;

pub use checks::is_sound;

// What the calls give.
pub type Started = decoder_shared::Started<Decoder>;

pub type Fed = decoder_shared::Fed<Decoder>;

pub type Finished = decoder_shared::Finished<Decoder>;

pub use decoder_shared::Totals;

// ---- a piece behind what is pending

// The tally that a state begins with.
pub fn tally_of(state: Decoder) -> Tally
    ensures { result ≡ steps.tally_of state }
{
    Tally {
        whole: state.whole,
        damaged: state.damaged,
        count: state.count,
    }
}

// Nothing is written yet.
fn begin(state: Decoder) -> Repair
    ensures { result ≡ steps.beginning state }
{
    Repair {
        tally: tally_of(state),
        written: 0,
    }
}

// The state that keeps a tally and what is left.
pub fn keep(left: &[u8], tally: Tally, taken: usize, room: usize) -> Decoder
    ensures { result ≡ steps.keeping left.now tally taken room }
{
    let held = utf8_pending::hold(left);
    Decoder {
        held,
        pending: left.len(),
        taken,
        whole: tally.whole,
        damaged: tally.damaged,
        count: tally.count,
        room,
    }
}

// The settled segment of a seam, if it has one, and then a text, are fed to a state, which has then taken so many bytes.
fn feed_rest(
    seg: First,
    seam: &[u8],
    rest: &[u8],
    state: Decoder,
    taken: usize,
    out: &mut [u8],
    list: &mut [u32],
) -> Fed
    requires { steps.Rests state seg seam.now rest.now list.old }
    ensures { steps.Answers state taken (steps.behind state seam.now rest.now list.old)
        out.old list.old out.new list.new result }
{
    if let Some(needed) = crate::walk::lacking(seg, rest, out.len()) {
        return Fed {
            answer: Err(Refusal::NoRoom { needed }),
            state,
        };
    }
    let first = begin(state).act(seg, seam, state.room, out, list);
    let all = crate::walk::walk(rest, first, state.room, out, list);
    let repair = all.repair;
    let at = all.size;
    Fed {
        answer: Ok(repair.written),
        state: keep(&rest[at..], repair.tally, taken, state.room),
    }
}

// The segment that stands first in a seam. Mostly it is empty, and not worth the call.
pub fn first_of(seam: &[u8]) -> First
    ensures { told_first result ≡ first_says bytes seam.now }
{
    if seam.len() == 0 {
        return First::Nothing;
    }
    utf8::segment(seam)
}

// A piece is fed behind what is pending: their seam tells whether anything is settled yet. An empty one tells nothing, and the piece goes
// on from its start.
fn join(seam: &[u8], state: Decoder, piece: &[u8], out: &mut [u8], list: &mut [u32]) -> Fed
    requires { (admit_says state (length piece.now) (length list.old) ≡ 0 ∷ []) × (seam.now ≡ seamed (left state) piece.now) }
    ensures { steps.Answers state (state.taken + length piece.now) (fed state piece.now list.old)
        out.old list.old out.new list.new result }
{
    let taken = state.taken + piece.len();
    let seg = first_of(seam);
    let size = utf8_pending::settled_size(seg);
    if size < state.pending {
        return Fed {
            answer: Ok(0),
            state: keep(seam, tally_of(state), taken, state.room),
        };
    }
    let from = size - state.pending;
    feed_rest(seg, seam, &piece[from..], state, taken, out, list)
}

// A state that may take a piece takes it.
fn take(state: Decoder, piece: &[u8], out: &mut [u8], list: &mut [u32]) -> Fed
    requires { admit_says state (length piece.now) (length list.old) ≡ 0 ∷ [] }
    ensures { steps.Answers state (state.taken + length piece.now) (fed state piece.now list.old)
        out.old list.old out.new list.new result }
{
    let held = state.held;
    let seam = utf8_pending::seam_with(held, state.pending, piece);
    let bytes = seam.bytes;
    let n = seam.size;
    join(&bytes[..n], state, piece, out, list)
}

// ---- the end

// A state that may end the text ends it: pending bytes, if any, are one damage.
fn end(state: Decoder, out: &mut [u8], list: &mut [u32]) -> Finished
    requires { admit_says state 0 (length list.old) ≡ 0 ∷ [] }
    ensures { Finishes state out.old list.old out.new list.new result }
{
    if state.pending == 0 {
        return Finished {
            answer: Ok(tally_of(state).totals(0)),
            state: Decoder::fresh(state.room),
        };
    }
    let needed = crate::repair::MARK;
    if out.len() < needed {
        return Finished {
            answer: Err(Refusal::NoRoom { needed }),
            state,
        };
    }
    let all = begin(state).mend(state.pending, Cause::ENDED, state.room, out, list);
    Finished {
        answer: Ok(all.tally.totals(all.written)),
        state: Decoder::fresh(state.room),
    }
}

// ---- the calls

// The state of a start.
pub fn start(room: usize) -> Started
    ensures { Starts room result }
{
    if Decoder::ROOM < room {
        return Started {
            answer: Err(Refusal::ListRoom),
            state: Decoder::fresh(0),
        };
    }
    Started {
        answer: Ok(()),
        state: Decoder::fresh(room),
    }
}

// The most places that a feed of so many bytes can need, whatever is pending; finish needs no more than a feed of no bytes.
pub fn most(n: usize) -> usize
    ensures { result ≡ most_fed n }
{
    crate::repair::MARK * (n.min(Decoder::LIMIT) + 1)
}

// Feeds a piece: everything that is settled is written in repaired form, and the damages among it are entered in the list.
pub fn feed(state: Decoder, piece: &[u8], out: &mut [u8], list: &mut [u32]) -> Fed
    ensures { Feeds state piece.now out.old list.old out.new list.new result }
{
    match crate::checks::admit(state, piece.len(), list.len()) {
        Ok(()) => take(state, piece, out, list),
        Err(why) => Fed {
            answer: Err(why),
            state,
        },
    }
}

// Ends the text: pending bytes, if any, are one damage. The totals are given, and the state is fresh again.
pub fn finish(state: Decoder, out: &mut [u8], list: &mut [u32]) -> Finished
    ensures { Finishes state out.old list.old out.new list.new result }
{
    match crate::checks::admit(state, 0, list.len()) {
        Ok(()) => end(state, out, list),
        Err(why) => Finished {
            answer: Err(why),
            state,
        },
    }
}
