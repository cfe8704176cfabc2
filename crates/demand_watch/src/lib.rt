// The watch: byte by byte from the fresh state, it comes to the state and the count of one feed of the whole.
#![tactic(auto)]

ghost use Rattle.std.specs.Prelude.{◌≡◌};
ghost use Rattle.terms.specs.Limits.{fresh_of};
ghost use Rattle.decoder_watch.specs.Watching.{counting};
ghost use Rattle.demand_watch.specs.Watching.{watches, Watches};
ghost use Rattle.demand_watch.specs.Inside.Comparing.{same_state, is_due};

use decoder_watch::Watched;
use terms::{Decoder, Refusal};

// The last state and reply of the step by value, which the lent form of the watch does in place.
fn watch_all(text: &[u8], room: usize) -> Watched
    ensures { result ≡ watches (counting (fresh_of room)) text.now }
{
    let mut last = Watched {
        state: Decoder::fresh(room),
        reply: 0,
    };
    for &b in text {
        last = decoder_watch::step(last.state, b);
    }
    last
}

// Are two states the same in every field?
fn same_state(one: Decoder, other: Decoder) -> bool
    ensures { result ≡ same_state one other }
{
    one == other
}

// Was this refusal due, where a text of this length was fed to the fresh state of this room? No product is made that could wrap.
fn is_due(why: Refusal, long: usize, room: usize, places: usize, row: usize) -> bool
    ensures { result ≡ is_due why long room places row }
{
    match why {
        Refusal::OverLimit => Decoder::LIMIT < long,
        Refusal::NoRoom { needed } => places < needed,
        Refusal::ListRoom => row / Decoder::ENTRY < room,
        Refusal::BadState => Decoder::ROOM < room,
        _ => false,
    }
}

// Are the last reply and the last state those of one feed, or was its refusal due?
pub fn watched(text: &[u8], room: usize, out: &mut [u8], list: &mut [u32]) -> bool
    ensures { Watches room text.now out.old list.old out.new list.new result }
{
    let last = watch_all(text, room);
    let fed = decoder::feed(Decoder::fresh(room), text, out, list);
    match fed.answer {
        Ok(_) => last.reply as usize == fed.state.count && same_state(last.state, fed.state),
        Err(why) => is_due(why, text.len(), room, out.len(), list.len()),
    }
}
