// Feeding: the way of a text through any decoder, at once or in pieces. What was found is compared, and a refusal must be due.
#![tactic(auto)]

ghost use Rattle.std.specs.Prelude.{◌≡◌};
ghost use Rattle.terms.specs.Told.{told_refusal};
ghost use Rattle.demand_feeding.specs.Comparing.{due, enough, same_totals, found_alike};
ghost use Rattle.demand_feeding.specs.Feeds as specs;

use terms::{Decoder, Refusal};

// At the end of a way: was all of the text granted, and then how many places are written, and the totals.
#[derive(Clone, Copy)]
pub struct Found {
    pub granted: bool,
    pub written: usize,
    pub whole: usize,
    pub damaged: usize,
    pub count: usize,
}

// What is found where the text was not granted.
pub fn nothing() -> Found
    ensures { result ≡ specs.nothing }
{
    Found {
        granted: false,
        written: 0,
        whole: 0,
        damaged: 0,
        count: 0,
    }
}

// Was the whole repair's refusal due: is the text over the limit, or are there fewer places than it says are needed?
pub fn is_due(why: Refusal, size: usize, places: usize) -> bool
    ensures { result ≡ due (told_refusal why) size places }
{
    match why {
        Refusal::OverLimit => Decoder::LIMIT < size,
        Refusal::NoRoom { needed } => places < needed,
        _ => false,
    }
}

// Is there room for a start, for the entries in the list, and for the form in the output?
fn is_enough(room: usize, row: usize, form: usize, places: usize) -> bool
    ensures { result ≡ enough room row form places }
{
    room <= Decoder::ROOM && Decoder::ENTRY * room <= row && form <= places
}

fn same_totals(a: Found, b: Found) -> bool
    ensures { result ≡ same_totals a b }
{
    a.whole == b.whole && a.damaged == b.damaged && a.count == b.count
}

// One feed and the feeds of pieces, beside a form of so many places: is each granted exactly where it has room, and are the totals and
// the stored entries the same?
pub fn are_alike(
    room: usize,
    form: usize,
    a: Found,
    once: usize,
    once_list: &[u32],
    b: Found,
    parts: usize,
    parts_list: &[u32],
) -> bool
    ensures { result ≡ found_alike room form a once once_list.now b parts parts_list.now }
{
    if a.granted != is_enough(room, once_list.len(), form, once) {
        return false;
    }
    if b.granted != is_enough(room, parts_list.len(), form, parts) {
        return false;
    }
    if !a.granted || !b.granted {
        return true;
    }
    if !same_totals(a, b) {
        return false;
    }
    let n = Decoder::ENTRY * room.min(a.count);
    parts_list[..n] == once_list[..n]
}
