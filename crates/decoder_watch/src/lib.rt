// The recorder's watch: it takes one byte at a time, changes the lent state in place, and writes no text and no list.
#![tactic(auto)]

ghost use Rattle.std.specs.Prelude.{◌≡◌};
ghost use Rattle.decoder_watch.specs.Watching.{refusing, watching};

use terms::Decoder;

// The state after a byte, and the reply: the C interface has one number for both, the count or 4,294,967,295 for refusals 8 and 2.
#[derive(Clone, Copy)]
pub struct Watched {
    pub state: Decoder,
    pub reply: u32,
}

// A refusal: the state as it was, and the reply that stands for 8 and 2.
fn refuse(state: Decoder) -> Watched
    ensures { result ≡ refusing state }
{
    Watched {
        state,
        reply: 4_294_967_295,
    }
}

// The step by value. The byte is fed with no room for entries, into the most places that a feed of one byte can need; then the
// state gets its room back.
pub fn step(state: Decoder, b: u8) -> Watched
    ensures { result ≡ watching state b }
{
    if Decoder::ROOM < state.room {
        return refuse(state);
    }
    let bare = Decoder { room: 0, ..state };
    let mut out = [0u8; 6];
    let mut list = [0u32; 1];
    let fed = decoder::feed(bare, &[b], &mut out, &mut list);
    match fed.answer {
        Ok(_) => {
            let next = Decoder {
                room: state.room,
                ..fed.state
            };
            Watched {
                state: next,
                reply: next.count as u32,
            }
        }
        Err(_) => refuse(state),
    }
}

// The watch: the state is taken out of its place, and the next one is put there.
pub fn watch(state: &mut Decoder, b: u8) -> u32
    ensures { (state.new ≡ (watching state.old b).state) × (result ≡ (watching state.old b).reply) }
{
    let next = step(*state, b);
    *state = next.state;
    next.reply
}
