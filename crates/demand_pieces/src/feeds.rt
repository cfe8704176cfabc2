// A text that is fed and finished, at once or in pieces: a refused feed is not counted, and its piece is tried again.
ghost use Rattle.std.specs.Prelude.{◌≡◌, ◌≤◌, ◌<◌, true, false, [], ◌∷◌, length};
ghost use Rattle.terms.specs.Limits.{most_room};
ghost use Rattle.decoder_shared.specs.Decoding.{fresh};
ghost use Rattle.decoder.specs.State.{sound, byte_decoding};
ghost use Rattle.demand_feeding.specs.Feeds as feeds;
ghost use Rattle.demand_feeding.specs.Inside.Feeding.{fed_one, fed_tries};
ghost use Rattle.demand_pieces.specs.Inside.Feeding.{held, Went};
ghost use Rattle.demand_pieces.specs.Inside.Trying as tries;

use demand_feeding::Found;
use terms::Decoder;

// So far: the decoder's state, where the next piece begins, and how many places are written.
#[derive(Clone, Copy)]
struct Gone {
    state: Decoder,
    from: usize,
    done: usize,
}

// A way through a text: what was found, and was every call refused that must be.
#[derive(Clone, Copy)]
pub(crate) struct Way {
    pub found: Found,
    pub refuses: bool,
}

// Feeds the piece that ends at a cut, into so many places of the rest of the output.
fn feed_piece(
    gone: Gone,
    text: &[u8],
    cut: usize,
    places: usize,
    out: &mut [u8],
    list: &mut [u32],
) -> Gone
    requires { (gone.from ≤ length text.now) × (gone.done ≤ length out.old) }
    ensures { held result out.new list.new
        ≡ fed_one byte_decoding text.now (held gone out.old list.old) (feeds.call cut places) }
{
    let from = gone.from;
    let done = gone.done;
    let to = demand_shared::bring(cut, from, text.len());
    let end = done + places.min(out.len() - done);
    let fed = decoder::feed(gone.state, &text[from..to], &mut out[done..end], list);
    let state = fed.state;
    match fed.answer {
        Ok(n) => Gone {
            state,
            from: to,
            done: done + n,
        },
        Err(_) => Gone { state, from, done },
    }
}

// The piece is fed into a few places only, and again into all the rest: where it was granted, the second feed is of no bytes.
fn feed_twice(
    gone: Gone,
    text: &[u8],
    cut: usize,
    scant: usize,
    out: &mut [u8],
    list: &mut [u32],
) -> Gone
    requires { (gone.from ≤ length text.now) × (gone.done ≤ length out.old) }
    ensures { held result out.new list.new
        ≡ fed_tries byte_decoding text.now (held gone out.old list.old) cut (scant ∷ []) }
{
    let all = out.len();
    let once = feed_piece(gone, text, cut, scant, out, list);
    feed_piece(once, text, cut, all, out, list)
}

// Finishes, where all of the text was taken.
fn end(gone: Gone, text: &[u8], out: &mut [u8], list: &mut [u32]) -> Found
    requires { gone.done ≤ length out.old }
    ensures { feeds.given result out.new list.new
        ≡ feeds.finished byte_decoding text.now (held gone out.old list.old) }
{
    if gone.from != text.len() {
        return demand_feeding::nothing();
    }
    let done = gone.done;
    match decoder::finish(gone.state, &mut out[done..], list).answer {
        Ok(totals) => Found {
            granted: true,
            written: done + totals.written,
            whole: totals.whole,
            damaged: totals.damaged,
            count: totals.count,
        },
        Err(_) => demand_feeding::nothing(),
    }
}

// ---- calls that must be refused

// Is a feed of so many bytes refused with this number? It is the number that the paper gives to the refusal.
fn is_refused(state: Decoder, size: usize, number: usize, out: &mut [u8], list: &mut [u32]) -> bool
    requires { (size ≤ length tries.bytes) × (tries.number_of state size out.old list.old ≡ number) × (0 < number) }
    ensures { tries.Refuses out.old list.old out.new list.new result }
{
    let bytes = [0x41u8; Decoder::PENDING + 1];
    match decoder::feed(state, &bytes[..size], out, list).answer {
        Ok(_) => false,
        Err(why) => why.number() == number,
    }
}

// Refusal 8: a copy of the state that has more pending bytes than there may be.
fn try_unsound(state: Decoder, out: &mut [u8], list: &mut [u32]) -> bool
    ensures { tries.Refuses out.old list.old out.new list.new result }
{
    let copy = Decoder {
        pending: Decoder::PENDING + 1,
        ..state
    };
    is_refused(copy, 0, 8, out, list)
}

// Refusal 2: a copy that has taken as many bytes as it may, is fed one more.
fn try_over(state: Decoder, out: &mut [u8], list: &mut [u32]) -> bool
    requires { sound state ≡ true }
    ensures { tries.Refuses out.old list.old out.new list.new result }
{
    let copy = Decoder {
        taken: Decoder::LIMIT,
        whole: state.whole + (Decoder::LIMIT - state.taken),
        ..state
    };
    is_refused(copy, 1, 2, out, list)
}

// Refusal 7: a copy with the most room, and no list.
fn try_list(state: Decoder, out: &mut [u8], list: &mut [u32]) -> bool
    requires { sound state ≡ true }
    ensures { tries.Refuses out.old list.old out.new list.new result }
{
    let copy = Decoder {
        room: Decoder::ROOM,
        ..state
    };
    is_refused(copy, 0, 7, out, &mut list[..0])
}

// The number that is due where bytes settle something and there is no output: 2, then 7, then 3.
fn due(state: Decoder, size: usize, row: usize) -> usize
    requires { sound state ≡ true }
    ensures { result ≡ tries.due_to state size row }
{
    if Decoder::LIMIT - state.taken < size {
        return 2;
    }
    if row < Decoder::ENTRY * state.room {
        return 7;
    }
    3
}

// Refusal 3, unless 2 or 7 is due: the state itself is fed, and no output is lent.
fn try_places(state: Decoder, out: &mut [u8], list: &mut [u32]) -> bool
    requires { sound state ≡ true }
    ensures { tries.Refuses out.old list.old out.new list.new result }
{
    let number = due(state, Decoder::PENDING + 1, list.len());
    is_refused(state, Decoder::PENDING + 1, number, &mut out[..0], list)
}

// Are they all refused, each with its number? Yes where they are not tried.
fn try_refused(trying: bool, state: Decoder, out: &mut [u8], list: &mut [u32]) -> bool
    requires { sound state ≡ true }
    ensures { tries.Refuses out.old list.old out.new list.new result }
{
    if !trying {
        return true;
    }
    if !try_unsound(state, out, list) {
        return false;
    }
    if !try_over(state, out, list) {
        return false;
    }
    if !try_list(state, out, list) {
        return false;
    }
    try_places(state, out, list)
}

// ---- the ways through a text

// One feed from the fresh state, and finish.
fn run_once(state: Decoder, text: &[u8], out: &mut [u8], list: &mut [u32]) -> Found
    requires { state ≡ fresh byte_decoding state.room }
    ensures { feeds.given result out.new list.new
        ≡ feeds.ran byte_decoding state.room text.now (feeds.pieces text.now [] [] out.old)
        out.old list.old }
{
    let gone = Gone {
        state,
        from: 0,
        done: 0,
    };
    let all = feed_piece(gone, text, text.len(), out.len(), out, list);
    end(all, text, out, list)
}

// What is told where a call was not refused that must be.
fn unrefused() -> Way
    ensures { result.refuses ≡ false }
{
    Way {
        found: demand_feeding::nothing(),
        refuses: false,
    }
}

// The feeds of the pieces from the fresh state, and finish; where asked, calls that must be refused stand between them.
fn run_pieces(
    state: Decoder,
    text: &[u8],
    cuts: &[usize],
    scant: usize,
    trying: bool,
    out: &mut [u8],
    list: &mut [u32],
) -> Way
    requires { (state ≡ fresh byte_decoding state.room) × (state.room ≤ most_room) }
    ensures { Went result out.new list.new
        (feeds.ran byte_decoding state.room text.now (feeds.pieces text.now cuts.now (scant ∷ []) out.old)
        out.old list.old) }
{
    let mut gone = Gone {
        state,
        from: 0,
        done: 0,
    };
    for &cut in cuts {
        if !try_refused(trying, gone.state, out, list) {
            return unrefused();
        }
        gone = feed_twice(gone, text, cut, scant, out, list);
    }
    let all = feed_twice(gone, text, text.len(), scant, out, list);
    if !try_refused(trying, all.state, out, list) {
        return unrefused();
    }
    Way {
        found: end(all, text, out, list),
        refuses: true,
    }
}

// One single feed, and finish.
pub(crate) fn feed_once(text: &[u8], room: usize, out: &mut [u8], list: &mut [u32]) -> Found
    ensures { feeds.given result out.new list.new
        ≡ feeds.through byte_decoding room text.now (feeds.pieces text.now [] [] out.old)
        out.old list.old }
{
    let started = decoder::start(room);
    match started.answer {
        Ok(()) => run_once(started.state, text, out, list),
        Err(_) => demand_feeding::nothing(),
    }
}

// The feeds of the pieces, each tried in a few places only and then in all the rest, and finish; where asked, calls that must be
// refused stand between them.
pub(crate) fn feed_pieces(
    text: &[u8],
    cuts: &[usize],
    scant: usize,
    trying: bool,
    room: usize,
    out: &mut [u8],
    list: &mut [u32],
) -> Way
    ensures { Went result out.new list.new
        (feeds.through byte_decoding room text.now (feeds.pieces text.now cuts.now (scant ∷ []) out.old)
        out.old list.old) }
{
    let started = decoder::start(room);
    match started.answer {
        Ok(()) => run_pieces(started.state, text, cuts, scant, trying, out, list),
        Err(_) => Way {
            found: demand_feeding::nothing(),
            refuses: true,
        },
    }
}
