// The watch over a lent state: the struct itself crosses, in C's layout, and whoever calls declares it again.
ghost use Rattle.std.specs.Prelude.{◌≡◌};
ghost use Rattle.decoder_watch.specs.Watching.{watching};

use moxandril::pieces::Decoder;

// moxandril::pieces::watch: its reply is replied.
#[unsafe(no_mangle)]
pub extern "C" fn bridge_pieces_watch(state: &mut Decoder, b: u8) -> u32
    ensures { (state.new ≡ (watching state.old b).state) × (result ≡ (watching state.old b).reply) }
{
    moxandril::pieces::watch(state, b)
}
