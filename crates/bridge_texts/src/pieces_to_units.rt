// Repair of a byte text that comes in pieces, written as units: a state is nine numbers, and the next one is put where it stood.
ghost use Rattle.decoder.specs.State.{byte_decoding};
ghost use Rattle.decoder_to_utf16.specs.State.{to_units};
ghost use Rattle.bridge_numbers.specs.States.{ready, decoder_of, decoder_numbers};
ghost use Rattle.bridge_numbers.specs.Keeping.{writable};
ghost use Rattle.bridge_texts.specs.Keeping.{Starts, Feeds, Finishes};

// moxandril::pieces_to_units::start: 0, or the refusal; the fresh state is put whichever it is.
#[unsafe(no_mangle)]
pub extern "C" fn bridge_pieces_to_units_start(
    room: usize,
    state: &mut [usize],
    says: &mut [usize],
) -> usize
    ensures { Starts byte_decoding decoder_numbers (writable 9 state.old says.old) room
        state.old state.new says.old says.new result }
{
    if state.len() < 9 {
        return bridge_numbers::telling::NOT_CALLED;
    }
    if says.len() < bridge_numbers::telling::ROOM {
        return bridge_numbers::telling::NOT_CALLED;
    }
    let started = moxandril::pieces_to_units::start(room);
    let answer = started.answer;
    let next = started.state;
    bridge_numbers::states::keep_decoder(next, state);
    bridge_numbers::telling::tell(bridge_numbers::answers::say_checked(answer), says)
}

// moxandril::pieces_to_units::feed: 0 and how many units were written, or the refusal.
#[unsafe(no_mangle)]
pub extern "C" fn bridge_pieces_to_units_feed(
    state: &mut [usize],
    piece: &[u8],
    out: &mut [u16],
    list: &mut [u32],
    says: &mut [usize],
) -> usize
    ensures { Feeds to_units decoder_numbers (ready 9 state.old says.old) (decoder_of state.old)
        piece.now out.old list.old out.new list.new
        state.old state.new says.old says.new result }
{
    if !bridge_numbers::states::is_state(state, 9) {
        return bridge_numbers::telling::NOT_CALLED;
    }
    if says.len() < bridge_numbers::telling::ROOM {
        return bridge_numbers::telling::NOT_CALLED;
    }
    let fed = moxandril::pieces_to_units::feed(
        bridge_numbers::states::decoder_of(state),
        piece,
        out,
        list,
    );
    let answer = fed.answer;
    let next = fed.state;
    bridge_numbers::states::keep_decoder(next, state);
    bridge_numbers::telling::tell(bridge_numbers::answers::say_written(answer), says)
}

// moxandril::pieces_to_units::finish: 0, how many units were written, and the totals whole, damaged and count; or the refusal.
#[unsafe(no_mangle)]
pub extern "C" fn bridge_pieces_to_units_finish(
    state: &mut [usize],
    out: &mut [u16],
    list: &mut [u32],
    says: &mut [usize],
) -> usize
    ensures { Finishes to_units decoder_numbers (ready 9 state.old says.old) (decoder_of state.old)
        out.old list.old out.new list.new
        state.old state.new says.old says.new result }
{
    if !bridge_numbers::states::is_state(state, 9) {
        return bridge_numbers::telling::NOT_CALLED;
    }
    if says.len() < bridge_numbers::telling::ROOM {
        return bridge_numbers::telling::NOT_CALLED;
    }
    let finished = moxandril::pieces_to_units::finish(
        bridge_numbers::states::decoder_of(state),
        out,
        list,
    );
    let answer = finished.answer;
    let next = finished.state;
    bridge_numbers::states::keep_decoder(next, state);
    bridge_numbers::telling::tell(bridge_numbers::answers::say_total(answer), says)
}
