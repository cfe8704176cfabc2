// Repair of a text of units that comes in pieces, written as bytes: a state is seven numbers, and the next one is put where it stood.
ghost use Rattle.decoder_from_utf16.specs.State.{unit_decoding};
ghost use Rattle.bridge_numbers.specs.States.{unit_ready, unit_decoder_of, unit_decoder_numbers};
ghost use Rattle.bridge_numbers.specs.Keeping.{writable};
ghost use Rattle.bridge_texts.specs.Keeping.{Starts, Feeds, Finishes};

// moxandril::unit_pieces::start: 0, or the refusal; the fresh state is put whichever it is.
#[unsafe(no_mangle)]
pub extern "C" fn bridge_unit_pieces_start(
    room: usize,
    state: &mut [usize],
    says: &mut [usize],
) -> usize
    ensures { Starts unit_decoding unit_decoder_numbers (writable 7 state.old says.old) room
        state.old state.new says.old says.new result }
{
    if state.len() < 7 {
        return bridge_numbers::telling::NOT_CALLED;
    }
    if says.len() < bridge_numbers::telling::ROOM {
        return bridge_numbers::telling::NOT_CALLED;
    }
    let started = moxandril::unit_pieces::start(room);
    let answer = started.answer;
    let next = started.state;
    bridge_numbers::states::keep_unit_decoder(next, state);
    bridge_numbers::telling::tell(bridge_numbers::answers::say_checked(answer), says)
}

// moxandril::unit_pieces::feed: 0 and how many bytes were written, or the refusal.
#[unsafe(no_mangle)]
pub extern "C" fn bridge_unit_pieces_feed(
    state: &mut [usize],
    piece: &[u16],
    out: &mut [u8],
    list: &mut [u32],
    says: &mut [usize],
) -> usize
    ensures { Feeds unit_decoding unit_decoder_numbers (unit_ready state.old says.old) (unit_decoder_of state.old)
        piece.now out.old list.old out.new list.new
        state.old state.new says.old says.new result }
{
    if !bridge_numbers::states::is_unit_state(state) {
        return bridge_numbers::telling::NOT_CALLED;
    }
    if says.len() < bridge_numbers::telling::ROOM {
        return bridge_numbers::telling::NOT_CALLED;
    }
    let fed = moxandril::unit_pieces::feed(
        bridge_numbers::states::unit_decoder_of(state),
        piece,
        out,
        list,
    );
    let answer = fed.answer;
    let next = fed.state;
    bridge_numbers::states::keep_unit_decoder(next, state);
    bridge_numbers::telling::tell(bridge_numbers::answers::say_written(answer), says)
}

// moxandril::unit_pieces::finish: 0, how many bytes were written, and the totals whole, damaged and count; or the refusal.
#[unsafe(no_mangle)]
pub extern "C" fn bridge_unit_pieces_finish(
    state: &mut [usize],
    out: &mut [u8],
    list: &mut [u32],
    says: &mut [usize],
) -> usize
    ensures { Finishes unit_decoding unit_decoder_numbers (unit_ready state.old says.old) (unit_decoder_of state.old)
        out.old list.old out.new list.new
        state.old state.new says.old says.new result }
{
    if !bridge_numbers::states::is_unit_state(state) {
        return bridge_numbers::telling::NOT_CALLED;
    }
    if says.len() < bridge_numbers::telling::ROOM {
        return bridge_numbers::telling::NOT_CALLED;
    }
    let finished = moxandril::unit_pieces::finish(
        bridge_numbers::states::unit_decoder_of(state),
        out,
        list,
    );
    let answer = finished.answer;
    let next = finished.state;
    bridge_numbers::states::keep_unit_decoder(next, state);
    bridge_numbers::telling::tell(bridge_numbers::answers::say_total(answer), says)
}
