// Repair of a text of UTF-16 units that comes in pieces, written as UTF-8 bytes, with a list of its damages.
#![tactic(auto)]

ghost use Rattle.std.specs.Prelude.{◌≡◌, ◌+◌, [], ◌∷◌, ◌++◌, length, take};
ghost use Rattle.theory.specs.Reader.{parts};
ghost use Rattle.terms.specs.Told.{size_of, told_checked, told_written};
ghost use Rattle.utf8.specs.Scalar.{utf8};
ghost use Rattle.utf16.specs.Units.{units};
ghost use Rattle.decoder_shared.specs.Decoding.{fresh, fed};
ghost use Rattle.decoder_shared.specs.Checks.{admit_says};
ghost use Rattle.decoder_shared.specs.Room.{most_fed};
ghost use Rattle.decoder_shared.specs.Inside.Steps as steps;
ghost use Rattle.decoder_shared.specs.Inside.Tallying.{log_of};
ghost use Rattle.decoder_from_utf16.specs.Tests.{is_tail, balanced, sound};
ghost use Rattle.decoder_from_utf16.specs.State.{unit_decoding};
ghost use Rattle.decoder_from_utf16.specs.Feeding.{Starts, Feeds, Finishes};
ghost use Rattle.decoder_from_utf16.specs.Inside.Tallying.{opening, keeping};

use decoder_shared::{Settled, Tally};
use terms::{Cause, Decoder, First, Refusal};

mod form;
mod tally;

// The decoder of units: what it keeps between two pieces. The limits belong to it.
#[derive(Clone, Copy)]
pub struct UnitDecoder {
    // the pending unit, a first half, 0 where there is none; and how many there are
    pub held: [u16; UnitDecoder::PENDING],
    pub pending: usize,
    // units taken, and of these the units in whole segments and in damage
    pub taken: usize,
    pub whole: usize,
    pub damaged: usize,
    // damages, and the most of them that the list has room for
    pub count: usize,
    pub room: usize,
}

impl UnitDecoder {
    // The most units that a text has.
    pub const LIMIT: usize = Decoder::LIMIT;
    // The most entries that a damage list has room for.
    pub const ROOM: usize = Decoder::ROOM;
    // The numbers that an entry takes in its list: start and length.
    pub const ENTRY: usize = Decoder::ENTRY;
    // The most units that are pending.
    pub const PENDING: usize = 1;
    // The most units of a damage.
    pub const DAMAGE: usize = 1;

    // The state before the first piece.
    pub fn fresh(room: usize) -> UnitDecoder
        ensures { result ≡ fresh unit_decoding room }
    {
        UnitDecoder {
            held: [0; UnitDecoder::PENDING],
            pending: 0,
            taken: 0,
            whole: 0,
            damaged: 0,
            count: 0,
            room,
        }
    }
}

// What the calls give.
pub type Started = decoder_shared::Started<UnitDecoder>;

pub type Fed = decoder_shared::Fed<UnitDecoder>;

pub type Finished = decoder_shared::Finished<UnitDecoder>;

pub use decoder_shared::Totals;

// ---- the tests of a state

// Is nothing pending, or one first half? The unused place is 0.
fn is_tail(held: [u16; UnitDecoder::PENDING], n: usize) -> bool
    ensures { result ≡ is_tail held n }
{
    let x = held[0];
    match n {
        0 => x == 0,
        1 => 0xD800 <= x && x <= 0xDBFF,
        _ => false,
    }
}

// Are the units those that were taken, and is every number within its bounds? No sum is made that could wrap.
fn is_balanced(state: UnitDecoder) -> bool
    ensures { result ≡ balanced state }
{
    if UnitDecoder::LIMIT < state.taken {
        return false;
    }
    if state.taken < state.whole {
        return false;
    }
    let rest = state.taken - state.whole;
    if rest < state.damaged {
        return false;
    }
    if rest - state.damaged != state.pending {
        return false;
    }
    if state.count != state.damaged {
        return false;
    }
    state.room <= UnitDecoder::ROOM
}

fn is_sound(state: UnitDecoder) -> bool
    ensures { result ≡ sound state }
{
    is_tail(state.held, state.pending) && is_balanced(state)
}

// May a state take a call that brings so many units and lends a list of so many numbers?
fn admit(state: UnitDecoder, more: usize, row: usize) -> Result<(), Refusal>
    ensures { told_checked result ≡ admit_says unit_decoding state more row }
{
    decoder_shared::admit(is_sound(state), state.taken, state.room, more, row)
}

// ---- a piece behind what is pending: the other decoders go alike, over other elements and states. One function for them would take the
// reader and the conversion as closures, and its contract could not name the form that is written.

// The tally that a state begins with.
fn tally_of(state: UnitDecoder) -> Tally
    ensures { result ≡ opening state }
{
    Tally {
        whole: state.whole,
        damaged: state.damaged,
        count: state.count,
    }
}

// The state that keeps a tally and what is left.
fn keep(left: &[u16], tally: Tally, taken: usize, room: usize) -> UnitDecoder
    ensures { result ≡ keeping left.now tally taken room }
{
    UnitDecoder {
        held: [left.first().copied().unwrap_or(0)],
        pending: left.len(),
        taken,
        whole: tally.whole,
        damaged: tally.damaged,
        count: tally.count,
        room,
    }
}

// A segment, and all that is settled of a text behind it, are tallied; so many of their damages have room in the list.
fn tally_both(
    seg: First,
    rest: &[u16],
    state: UnitDecoder,
    room: usize,
    list: &mut [u32],
) -> Settled
    requires { steps.Fits room (size_of seg) (log_of (opening state) list.old)
        × steps.Fits room (length rest.now) (steps.tallied_as room seg (log_of (opening state) list.old)) }
    ensures { steps.Settles units room rest.now (steps.tallied_as room seg (log_of (opening state) list.old))
        (log_of result.tally list.new) result.size }
{
    let first = tally_of(state).take(seg, room, list);
    crate::tally::walk(rest, first, room, list)
}

// Their damages are entered, of which so many are counted then. Where there are none, or the list is full, nothing is read again.
fn enter_both(seg: First, rest: &[u16], state: UnitDecoder, count: usize, list: &mut [u32])
    requires { steps.Fits state.room (size_of seg) (log_of (opening state) list.old)
        × steps.Fits state.room (length rest.now) (steps.tallied_as state.room seg (log_of (opening state) list.old))
        × (count ≡ (steps.tallied 0 (steps.tallied_as 0 seg (log_of (opening state) list.old)) (parts units rest.now).done).count) }
    ensures { list.new
        ≡ (steps.tallied state.room (steps.tallied_as state.room seg (log_of (opening state) list.old)) (parts units rest.now).done).list }
{
    if count == state.count {
        return;
    }
    if state.room <= state.count {
        return;
    }
    tally_both(seg, rest, state, state.room, list);
}

// A text of one segment or none, and then a text, are fed to a state, which has then taken so many units. The entries are made last:
// only then the output is known to have room.
fn feed_rest(
    seg: First,
    head: &[u16],
    rest: &[u16],
    state: UnitDecoder,
    taken: usize,
    out: &mut [u8],
    list: &mut [u32],
) -> Fed
    requires { steps.Rests unit_decoding state seg head.now rest.now list.old }
    ensures { steps.Answers unit_decoding state taken
        (steps.behind unit_decoding state (steps.told_of seg head.now ++ (parts units rest.now).done) (parts units rest.now).left list.old)
        out.old list.old out.new list.new (told_written result.answer) result.state }
{
    let all = tally_both(seg, rest, state, 0, list);
    let tally = all.tally;
    let end = all.size;
    match crate::form::write_both(head, &rest[..end], out) {
        Ok(n) => {
            enter_both(seg, rest, state, tally.count, list);
            Fed {
                answer: Ok(n),
                state: keep(&rest[end..], tally, taken, state.room),
            }
        }
        Err(why) => Fed {
            answer: Err(why),
            state,
        },
    }
}

// A state that may take a piece takes it. A pending half and the unit behind it are a pair, or the half is damage and that unit is
// read anew.
fn take(state: UnitDecoder, piece: &[u16], out: &mut [u8], list: &mut [u32]) -> Fed
    requires { admit_says unit_decoding state (length piece.now) (length list.old) ≡ 0 ∷ [] }
    ensures { steps.Answers unit_decoding state (state.taken + length piece.now)
        (fed unit_decoding state piece.now list.old)
        out.old list.old out.new list.new (told_written result.answer) result.state }
{
    let taken = state.taken + piece.len();
    let held = state.held;
    if state.pending == 0 {
        return feed_rest(First::Nothing, &held[..0], piece, state, taken, out, list);
    }
    if piece.len() == 0 {
        return Fed {
            answer: Ok(0),
            state,
        };
    }
    let seam = [held[0], piece[0]];
    let seg = utf16::segment(&seam);
    let size = seg.size();
    let from = size - 1;
    feed_rest(seg, &seam[..size], &piece[from..], state, taken, out, list)
}

// ---- the end

// A state that may end the text ends it.
fn end(state: UnitDecoder, out: &mut [u8], list: &mut [u32]) -> Finished
    requires { admit_says unit_decoding state 0 (length list.old) ≡ 0 ∷ [] }
    ensures { Finishes state out.old list.old out.new list.new result }
{
    if state.pending == 0 {
        return Finished {
            answer: Ok(tally_of(state).totals(0)),
            state: UnitDecoder::fresh(state.room),
        };
    }
    let needed = crate::form::MARK;
    if out.len() < needed {
        return Finished {
            answer: Err(Refusal::NoRoom { needed }),
            state,
        };
    }
    convert_point::put_bytes(out, 0xFFFD);
    let all = tally_of(state).strike(state.pending, Cause::ENDED, state.room, list);
    Finished {
        answer: Ok(all.totals(needed)),
        state: UnitDecoder::fresh(state.room),
    }
}

// ---- the calls

// The state of a start.
pub fn start(room: usize) -> Started
    ensures { Starts room result }
{
    if UnitDecoder::ROOM < room {
        return Started {
            answer: Err(Refusal::ListRoom),
            state: UnitDecoder::fresh(0),
        };
    }
    Started {
        answer: Ok(()),
        state: UnitDecoder::fresh(room),
    }
}

// The most places that a feed of so many units can need, whatever is pending; finish needs no more than a feed of no units.
pub fn most(n: usize) -> usize
    ensures { result ≡ most_fed utf8 n }
{
    crate::form::MARK * (n.min(UnitDecoder::LIMIT) + 1)
}

// Feeds a piece: everything that is settled is written as bytes, and the damages among it are entered in the list.
pub fn feed(state: UnitDecoder, piece: &[u16], out: &mut [u8], list: &mut [u32]) -> Fed
    ensures { Feeds state piece.now out.old list.old out.new list.new result }
{
    match admit(state, piece.len(), list.len()) {
        Ok(()) => take(state, piece, out, list),
        Err(why) => Fed {
            answer: Err(why),
            state,
        },
    }
}

// Ends the text: a pending half is one damage. The totals are given, and the state is fresh again.
pub fn finish(state: UnitDecoder, out: &mut [u8], list: &mut [u32]) -> Finished
    ensures { Finishes state out.old list.old out.new list.new result }
{
    match admit(state, 0, list.len()) {
        Ok(()) => end(state, out, list),
        Err(why) => Finished {
            answer: Err(why),
            state,
        },
    }
}
