// Repair of a text of UTF-8 bytes that comes in pieces, written as UTF-16 units, with a list of its damages. The state is the byte decoder's.
#![tactic(auto)]

ghost use Rattle.std.specs.Prelude.{◌≡◌, ◌+◌, [], ◌∷◌, ◌++◌, length};
ghost use Rattle.theory.specs.Reader.{parts};
ghost use Rattle.terms.specs.Told.{size_of, told_checked, told_written};
ghost use Rattle.utf8.specs.Bytes.{bytes};
ghost use Rattle.utf16.specs.Scalar.{utf16};
ghost use Rattle.utf8_pending.specs.Tail.{seamed};
ghost use Rattle.decoder.specs.Tests.{left};
ghost use Rattle.decoder_shared.specs.Decoding.{fed};
ghost use Rattle.decoder_shared.specs.Checks.{admit_says};
ghost use Rattle.decoder_shared.specs.Room.{most_fed};
ghost use Rattle.decoder_shared.specs.Inside.Steps as steps;
ghost use Rattle.decoder_shared.specs.Inside.Tallying.{log_of};
ghost use Rattle.decoder.specs.Inside.Steps.{tally_of};
ghost use Rattle.decoder_to_utf16.specs.State.{to_units};
ghost use Rattle.decoder_to_utf16.specs.Feeding.{Feeds, Finishes};

use decoder::{first_of, keep, tally_of};
use decoder_shared::Settled;
use terms::{Cause, First, Refusal};

mod form;
mod tally;

// The state, its start, and what the calls answer are the byte decoder's.
pub use decoder::{Fed, Finished, Started, Totals, start};
pub use terms::Decoder;

// May a state take a call that brings so many bytes and lends a list of so many numbers?
fn admit(state: Decoder, more: usize, row: usize) -> Result<(), Refusal>
    ensures { told_checked result ≡ admit_says to_units state more row }
{
    decoder_shared::admit(decoder::is_sound(state), state.taken, state.room, more, row)
}

// ---- a piece behind what is pending: the other decoders go alike, over other elements and states. One function for them would take the
// reader and the conversion as closures, and its contract could not name the form that is written.

// A segment, and all that is settled of a text behind it, are tallied; so many of their damages have room in the list.
fn tally_both(seg: First, rest: &[u8], state: Decoder, room: usize, list: &mut [u32]) -> Settled
    requires { steps.Fits room (size_of seg) (log_of (tally_of state) list.old)
        × steps.Fits room (length rest.now) (steps.tallied_as room seg (log_of (tally_of state) list.old)) }
    ensures { steps.Settles bytes room rest.now (steps.tallied_as room seg (log_of (tally_of state) list.old))
        (log_of result.tally list.new) result.size }
{
    let first = tally_of(state).take(seg, room, list);
    crate::tally::walk(rest, first, room, list)
}

// Their damages are entered, of which so many are counted then. Where there are none, or the list is full, nothing is read again.
fn enter_both(seg: First, rest: &[u8], state: Decoder, count: usize, list: &mut [u32])
    requires { steps.Fits state.room (size_of seg) (log_of (tally_of state) list.old)
        × steps.Fits state.room (length rest.now) (steps.tallied_as state.room seg (log_of (tally_of state) list.old))
        × (count ≡ (steps.tallied 0 (steps.tallied_as 0 seg (log_of (tally_of state) list.old)) (parts bytes rest.now).done).count) }
    ensures { list.new
        ≡ (steps.tallied state.room (steps.tallied_as state.room seg (log_of (tally_of state) list.old)) (parts bytes rest.now).done).list }
{
    if count == state.count {
        return;
    }
    if state.room <= state.count {
        return;
    }
    tally_both(seg, rest, state, state.room, list);
}

// A text of one segment or none, and then a text, are fed to a state, which has then taken so many bytes. The entries are made last:
// only then the output is known to have room.
fn feed_rest(
    seg: First,
    head: &[u8],
    rest: &[u8],
    state: Decoder,
    taken: usize,
    out: &mut [u16],
    list: &mut [u32],
) -> Fed
    requires { steps.Rests to_units state seg head.now rest.now list.old }
    ensures { steps.Answers to_units state taken
        (steps.behind to_units state (steps.told_of seg head.now ++ (parts bytes rest.now).done) (parts bytes rest.now).left list.old)
        out.old list.old out.new list.new (told_written result.answer) result.state }
{
    let all = tally_both(seg, rest, state, 0, list);
    let tally = all.tally;
    let end = all.size;
    match crate::form::write_both(head, &rest[..end], out) {
        Ok(n) => {
            enter_both(seg, rest, state, tally.count, list);
            Fed {
                answer: Ok(n),
                state: keep(&rest[end..], tally, taken, state.room),
            }
        }
        Err(why) => Fed {
            answer: Err(why),
            state,
        },
    }
}

// A piece is fed behind what is pending: their seam tells whether anything is settled yet. An empty one tells nothing, and the piece goes
// on from its start.
fn join(seam: &[u8], state: Decoder, piece: &[u8], out: &mut [u16], list: &mut [u32]) -> Fed
    requires { (admit_says to_units state (length piece.now) (length list.old) ≡ 0 ∷ []) × (seam.now ≡ seamed (left state) piece.now) }
    ensures { steps.Answers to_units state (state.taken + length piece.now)
        (fed to_units state piece.now list.old)
        out.old list.old out.new list.new (told_written result.answer) result.state }
{
    let taken = state.taken + piece.len();
    let seg = first_of(seam);
    let size = utf8_pending::settled_size(seg);
    if size < state.pending {
        return Fed {
            answer: Ok(0),
            state: keep(seam, tally_of(state), taken, state.room),
        };
    }
    let from = size - state.pending;
    feed_rest(seg, &seam[..size], &piece[from..], state, taken, out, list)
}

// A state that may take a piece takes it.
fn take(state: Decoder, piece: &[u8], out: &mut [u16], list: &mut [u32]) -> Fed
    requires { admit_says to_units state (length piece.now) (length list.old) ≡ 0 ∷ [] }
    ensures { steps.Answers to_units state (state.taken + length piece.now)
        (fed to_units state piece.now list.old)
        out.old list.old out.new list.new (told_written result.answer) result.state }
{
    let held = state.held;
    let seam = utf8_pending::seam_with(held, state.pending, piece);
    let bytes = seam.bytes;
    let n = seam.size;
    join(&bytes[..n], state, piece, out, list)
}

// ---- the end

// A state that may end the text ends it.
fn end(state: Decoder, out: &mut [u16], list: &mut [u32]) -> Finished
    requires { admit_says to_units state 0 (length list.old) ≡ 0 ∷ [] }
    ensures { Finishes state out.old list.old out.new list.new result }
{
    if state.pending == 0 {
        return Finished {
            answer: Ok(tally_of(state).totals(0)),
            state: Decoder::fresh(state.room),
        };
    }
    let needed = crate::form::MARK;
    if out.len() < needed {
        return Finished {
            answer: Err(Refusal::NoRoom { needed }),
            state,
        };
    }
    convert_point::put_units(out, 0xFFFD);
    let all = tally_of(state).strike(state.pending, Cause::ENDED, state.room, list);
    Finished {
        answer: Ok(all.totals(needed)),
        state: Decoder::fresh(state.room),
    }
}

// ---- the calls

// The most places that a feed of so many bytes can need, whatever is pending; finish needs no more than a feed of no bytes.
pub fn most(n: usize) -> usize
    ensures { result ≡ most_fed utf16 n }
{
    crate::form::MARK * (n.min(Decoder::LIMIT) + 1)
}

// Feeds a piece: everything that is settled is written as units, and the damages among it are entered in the list.
pub fn feed(state: Decoder, piece: &[u8], out: &mut [u16], list: &mut [u32]) -> Fed
    ensures { Feeds state piece.now out.old list.old out.new list.new result }
{
    match admit(state, piece.len(), list.len()) {
        Ok(()) => take(state, piece, out, list),
        Err(why) => Fed {
            answer: Err(why),
            state,
        },
    }
}

// Ends the text: pending bytes, if any, are one damage. The totals are given, and the state is fresh again.
pub fn finish(state: Decoder, out: &mut [u16], list: &mut [u32]) -> Finished
    ensures { Finishes state out.old list.old out.new list.new result }
{
    match admit(state, 0, list.len()) {
        Ok(()) => end(state, out, list),
        Err(why) => Finished {
            answer: Err(why),
            state,
        },
    }
}
