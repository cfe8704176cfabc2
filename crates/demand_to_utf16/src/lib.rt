// Pieces into units: fed in any pieces and finished, a text of bytes gives what its whole repair writes as units, and the entries and totals
// of one feed.
// It repeats demand_from_utf16 for the other element type: the numbers in slices of either type would need a trait over the decoders.
#![tactic(auto)]

ghost use Rattle.std.specs.Prelude.{◌≡◌, ◌≤◌, true, [], length};
ghost use Rattle.terms.specs.Limits.{limit};
ghost use Rattle.decoder_shared.specs.Decoding.{fresh};
ghost use Rattle.decoder_to_utf16.specs.State.{to_units};
ghost use Rattle.demand_feeding.specs.Comparing.{Fair};
ghost use Rattle.demand_feeding.specs.Feeds as feeds;
ghost use Rattle.demand_feeding.specs.Pieces as specs;
ghost use Rattle.demand_feeding.specs.Inside.Feeding.{fed_one};
ghost use Rattle.demand_to_utf16.specs.Inside.Feeding.{held};

use demand_feeding::Found;
use terms::Decoder;

// So far: the decoder's state, where the next piece begins, and how many places are written.
#[derive(Clone, Copy)]
struct Gone {
    state: Decoder,
    from: usize,
    done: usize,
}

// ---- the way through a text

// Feeds the piece that ends at a cut, into all the rest of the output.
fn feed_piece(gone: Gone, text: &[u8], cut: usize, out: &mut [u16], list: &mut [u32]) -> Gone
    requires { (gone.from ≤ length text.now) × (gone.done ≤ length out.old) }
    ensures { held result out.new list.new
        ≡ fed_one to_units text.now (held gone out.old list.old) (feeds.call cut (length out.old)) }
{
    let from = gone.from;
    let done = gone.done;
    let to = demand_shared::bring(cut, from, text.len());
    let fed = decoder_to_utf16::feed(gone.state, &text[from..to], &mut out[done..], list);
    let state = fed.state;
    match fed.answer {
        Ok(n) => Gone {
            state,
            from: to,
            done: done + n,
        },
        Err(_) => Gone { state, from, done },
    }
}

// Finishes, where all of the text was taken.
fn end(gone: Gone, text: &[u8], out: &mut [u16], list: &mut [u32]) -> Found
    requires { gone.done ≤ length out.old }
    ensures { feeds.given result out.new list.new
        ≡ feeds.finished to_units text.now (held gone out.old list.old) }
{
    if gone.from != text.len() {
        return demand_feeding::nothing();
    }
    let done = gone.done;
    match decoder_to_utf16::finish(gone.state, &mut out[done..], list).answer {
        Ok(totals) => Found {
            granted: true,
            written: done + totals.written,
            whole: totals.whole,
            damaged: totals.damaged,
            count: totals.count,
        },
        Err(_) => demand_feeding::nothing(),
    }
}

// The feeds of the pieces from the fresh state, and finish.
fn run(state: Decoder, text: &[u8], cuts: &[usize], out: &mut [u16], list: &mut [u32]) -> Found
    requires { state ≡ fresh to_units state.room }
    ensures { feeds.given result out.new list.new
        ≡ feeds.ran to_units state.room text.now (feeds.pieces text.now cuts.now [] out.old)
        out.old list.old }
{
    let mut gone = Gone {
        state,
        from: 0,
        done: 0,
    };
    for &cut in cuts {
        gone = feed_piece(gone, text, cut, out, list);
    }
    let all = feed_piece(gone, text, text.len(), out, list);
    end(all, text, out, list)
}

// Start, the feeds of the pieces, and finish; with no cuts it is one single feed.
fn feed_pieces(text: &[u8], cuts: &[usize], room: usize, out: &mut [u16], list: &mut [u32]) -> Found
    ensures { feeds.given result out.new list.new
        ≡ feeds.through to_units room text.now (feeds.pieces text.now cuts.now [] out.old)
        out.old list.old }
{
    let started = decoder_to_utf16::start(room);
    match started.answer {
        Ok(()) => run(started.state, text, cuts, out, list),
        Err(_) => demand_feeding::nothing(),
    }
}

// ---- what was found

// Have both ways found the same, and written what the whole repair has written?
fn compare(
    room: usize,
    whole: &[u16],
    a: Found,
    once: &[u16],
    once_list: &[u32],
    b: Found,
    parts: &[u16],
    parts_list: &[u32],
) -> bool
    requires { Fair room whole.now a once.now once_list.now b parts.now parts_list.now }
    ensures { result ≡ true }
{
    if !demand_feeding::are_alike(
        room,
        whole.len(),
        a,
        once.len(),
        once_list,
        b,
        parts.len(),
        parts_list,
    ) {
        return false;
    }
    if !a.granted || !b.granted {
        return true;
    }
    let i = a.written;
    let j = b.written;
    &once[..i] == whole && &parts[..j] == whole
}

// Both ways, into buffers of their own: is the same found, and what the whole repair has written?
fn fed_alike(
    text: &[u8],
    cuts: &[usize],
    room: usize,
    whole: &[u16],
    once: &mut [u16],
    once_list: &mut [u32],
    parts: &mut [u16],
    parts_list: &mut [u32],
) -> bool
    requires { (whole.now ≡ specs.form_of to_units text.now) × (length text.now ≤ limit) }
    ensures { specs.Yes
        (specs.lent whole.now once.new once_list.new parts.new parts_list.new)
        (specs.both_fed to_units room text.now cuts.now []
        (specs.lent whole.now once.old once_list.old parts.old parts_list.old))
        result }
{
    let a = feed_pieces(text, &cuts[..0], room, once, once_list);
    let b = feed_pieces(text, cuts, room, parts, parts_list);
    compare(room, whole, a, once, once_list, b, parts, parts_list)
}

// Is a text of bytes that is fed in pieces, cut anywhere, and finished what its whole repair writes as units, with the totals and the stored
// entries of one single feed and finish? A refusal must be due.
pub fn pieces_to_units(
    text: &[u8],
    cuts: &[usize],
    room: usize,
    whole: &mut [u16],
    once: &mut [u16],
    once_list: &mut [u32],
    parts: &mut [u16],
    parts_list: &mut [u32],
) -> bool
    ensures { specs.Yes
        (specs.lent whole.new once.new once_list.new parts.new parts_list.new)
        (specs.leaves to_units room text.now cuts.now []
        (specs.lent whole.old once.old once_list.old parts.old parts_list.old))
        result }
{
    match convert_from_utf8::repair_to_units(text, whole) {
        Ok(n) => fed_alike(
            text,
            cuts,
            room,
            &whole[..n],
            once,
            once_list,
            parts,
            parts_list,
        ),
        Err(why) => demand_feeding::is_due(why, text.len(), whole.len()),
    }
}
