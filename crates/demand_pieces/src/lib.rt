// Pieces: fed in any pieces and finished, a text gives what its whole repair writes, and the entries and totals of one feed.
#![tactic(auto)]

ghost use Rattle.std.specs.Prelude.{◌≡◌, ◌≤◌, true, [], ◌∷◌, length};
ghost use Rattle.terms.specs.Limits.{limit};
ghost use Rattle.decoder.specs.State.{byte_decoding};
ghost use Rattle.demand_feeding.specs.Comparing.{Fair};
ghost use Rattle.demand_feeding.specs.Pieces as specs;

use demand_feeding::Found;

mod feeds;

// Have both ways found the same, and written what the whole repair has written?
fn compare(
    room: usize,
    whole: &[u8],
    a: Found,
    once: &[u8],
    once_list: &[u32],
    b: Found,
    parts: &[u8],
    parts_list: &[u32],
) -> bool
    requires { Fair room whole.now a once.now once_list.now b parts.now parts_list.now }
    ensures { result ≡ true }
{
    if !demand_feeding::are_alike(
        room,
        whole.len(),
        a,
        once.len(),
        once_list,
        b,
        parts.len(),
        parts_list,
    ) {
        return false;
    }
    if !a.granted || !b.granted {
        return true;
    }
    let i = a.written;
    let j = b.written;
    &once[..i] == whole && &parts[..j] == whole
}

// Both ways, into buffers of their own: is every call refused that must be, and is the same found, and what the whole repair has written?
fn fed_alike(
    text: &[u8],
    cuts: &[usize],
    scant: usize,
    trying: bool,
    room: usize,
    whole: &[u8],
    once: &mut [u8],
    once_list: &mut [u32],
    parts: &mut [u8],
    parts_list: &mut [u32],
) -> bool
    requires { (whole.now ≡ specs.form_of byte_decoding text.now) × (length text.now ≤ limit) }
    ensures { specs.Yes
        (specs.lent whole.now once.new once_list.new parts.new parts_list.new)
        (specs.both_fed byte_decoding room text.now cuts.now (scant ∷ [])
        (specs.lent whole.now once.old once_list.old parts.old parts_list.old))
        result }
{
    let a = crate::feeds::feed_once(text, room, once, once_list);
    let way = crate::feeds::feed_pieces(text, cuts, scant, trying, room, parts, parts_list);
    if !way.refuses {
        return false;
    }
    let b = way.found;
    compare(room, whole, a, once, once_list, b, parts, parts_list)
}

// The whole repair, and then both ways.
fn alike(
    text: &[u8],
    cuts: &[usize],
    scant: usize,
    trying: bool,
    room: usize,
    whole: &mut [u8],
    once: &mut [u8],
    once_list: &mut [u32],
    parts: &mut [u8],
    parts_list: &mut [u32],
) -> bool
    ensures { specs.Yes
        (specs.lent whole.new once.new once_list.new parts.new parts_list.new)
        (specs.leaves byte_decoding room text.now cuts.now (scant ∷ [])
        (specs.lent whole.old once.old once_list.old parts.old parts_list.old))
        result }
{
    match utf8_repair::repair(text, whole) {
        Ok(n) => fed_alike(
            text,
            cuts,
            scant,
            trying,
            room,
            &whole[..n],
            once,
            once_list,
            parts,
            parts_list,
        ),
        Err(why) => demand_feeding::is_due(why, text.len(), whole.len()),
    }
}

// Is a text that is fed in pieces, cut anywhere, each tried in a few places only and then in all the rest, and finished what its
// whole repair writes, with the totals and the stored entries of one single feed and finish? A refusal must be due.
pub fn pieces(
    text: &[u8],
    cuts: &[usize],
    scant: usize,
    room: usize,
    whole: &mut [u8],
    once: &mut [u8],
    once_list: &mut [u32],
    parts: &mut [u8],
    parts_list: &mut [u32],
) -> bool
    ensures { specs.Yes
        (specs.lent whole.new once.new once_list.new parts.new parts_list.new)
        (specs.leaves byte_decoding room text.now cuts.now (scant ∷ [])
        (specs.lent whole.old once.old once_list.old parts.old parts_list.old))
        result }
{
    alike(
        text, cuts, scant, false, room, whole, once, once_list, parts, parts_list,
    )
}

// The same where between the pieces calls are tried that must be refused with 8, 2, 7 and 3: each is, with its number.
pub fn between(
    text: &[u8],
    cuts: &[usize],
    scant: usize,
    room: usize,
    whole: &mut [u8],
    once: &mut [u8],
    once_list: &mut [u32],
    parts: &mut [u8],
    parts_list: &mut [u32],
) -> bool
    ensures { specs.Yes
        (specs.lent whole.new once.new once_list.new parts.new parts_list.new)
        (specs.leaves byte_decoding room text.now cuts.now (scant ∷ [])
        (specs.lent whole.old once.old once_list.old parts.old parts_list.old))
        result }
{
    alike(
        text, cuts, scant, true, room, whole, once, once_list, parts, parts_list,
    )
}
