// The builder of an index: a state is eight numbers, and the next one is put where it stood; and how many numbers an index needs.
ghost use Rattle.std.specs.Prelude.{◌≡◌, length, leb};
ghost use Rattle.index_checkpoint.specs.Checkpoints.{needed};
ghost use Rattle.bridge_numbers.specs.States.{ready, builder_of};
ghost use Rattle.bridge_places.specs.Keeping.{Freshens, Builds, Ends};

use moxandril::index::Builder;

// moxandril::index::Builder::fresh: 0 where it is put.
#[unsafe(no_mangle)]
pub extern "C" fn bridge_index_fresh(state: &mut [usize]) -> usize
    ensures { Freshens (leb 8 (length state.old)) state.old state.new result }
{
    if state.len() < 8 {
        return bridge_numbers::telling::NOT_CALLED;
    }
    bridge_numbers::states::keep_builder(Builder::fresh(), state);
    0
}

// moxandril::index::feed: 0, or the refusal.
#[unsafe(no_mangle)]
pub extern "C" fn bridge_index_feed(
    state: &mut [usize],
    piece: &[u8],
    row: &mut [u32],
    says: &mut [usize],
) -> usize
    ensures { Builds (ready 8 state.old says.old) (builder_of state.old)
        piece.now row.old row.new
        state.old state.new says.old says.new result }
{
    if !bridge_numbers::states::is_state(state, 8) {
        return bridge_numbers::telling::NOT_CALLED;
    }
    if says.len() < bridge_numbers::telling::ROOM {
        return bridge_numbers::telling::NOT_CALLED;
    }
    let built = moxandril::index::feed(bridge_numbers::states::builder_of(state), piece, row);
    let answer = built.answer;
    let next = built.state;
    bridge_numbers::states::keep_builder(next, state);
    bridge_numbers::telling::tell(bridge_numbers::answers::say_checked(answer), says)
}

// moxandril::index::finish: 0, or the refusal.
#[unsafe(no_mangle)]
pub extern "C" fn bridge_index_finish(
    state: &mut [usize],
    row: &mut [u32],
    says: &mut [usize],
) -> usize
    ensures { Ends (ready 8 state.old says.old) (builder_of state.old)
        row.old row.new
        state.old state.new says.old says.new result }
{
    if !bridge_numbers::states::is_state(state, 8) {
        return bridge_numbers::telling::NOT_CALLED;
    }
    if says.len() < bridge_numbers::telling::ROOM {
        return bridge_numbers::telling::NOT_CALLED;
    }
    let built = moxandril::index::finish(bridge_numbers::states::builder_of(state), row);
    let answer = built.answer;
    let next = built.state;
    bridge_numbers::states::keep_builder(next, state);
    bridge_numbers::telling::tell(bridge_numbers::answers::say_checked(answer), says)
}

// moxandril::index::needed of a text of so many bytes.
#[unsafe(no_mangle)]
pub extern "C" fn bridge_index_needed(long: usize) -> usize
    ensures { result ≡ needed long }
{
    moxandril::index::needed(long)
}
