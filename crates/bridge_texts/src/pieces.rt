// Repair of a text that comes in pieces, and the watch by value: a state is nine numbers, and the next one is put where it stood.
ghost use Rattle.decoder.specs.State.{byte_decoding};
ghost use Rattle.bridge_numbers.specs.States.{is_state, ready, decoder_of, decoder_numbers};
ghost use Rattle.bridge_numbers.specs.Keeping.{writable};
ghost use Rattle.bridge_texts.specs.Keeping.{Starts, Feeds, Finishes, Watches};

// moxandril::pieces::start: 0, or the refusal; the fresh state is put whichever it is.
#[unsafe(no_mangle)]
pub extern "C" fn bridge_pieces_start(room: usize, state: &mut [usize], says: &mut [usize]) -> usize
    ensures { Starts byte_decoding decoder_numbers (writable 9 state.old says.old) room
        state.old state.new says.old says.new result }
{
    if state.len() < 9 {
        return bridge_numbers::telling::NOT_CALLED;
    }
    if says.len() < bridge_numbers::telling::ROOM {
        return bridge_numbers::telling::NOT_CALLED;
    }
    let started = moxandril::pieces::start(room);
    let answer = started.answer;
    let next = started.state;
    bridge_numbers::states::keep_decoder(next, state);
    bridge_numbers::telling::tell(bridge_numbers::answers::say_checked(answer), says)
}

// moxandril::pieces::feed: 0 and how many bytes were written, or the refusal.
#[unsafe(no_mangle)]
pub extern "C" fn bridge_pieces_feed(
    state: &mut [usize],
    piece: &[u8],
    out: &mut [u8],
    list: &mut [u32],
    says: &mut [usize],
) -> usize
    ensures { Feeds byte_decoding decoder_numbers (ready 9 state.old says.old) (decoder_of state.old)
        piece.now out.old list.old out.new list.new
        state.old state.new says.old says.new result }
{
    if !bridge_numbers::states::is_state(state, 9) {
        return bridge_numbers::telling::NOT_CALLED;
    }
    if says.len() < bridge_numbers::telling::ROOM {
        return bridge_numbers::telling::NOT_CALLED;
    }
    let fed = moxandril::pieces::feed(bridge_numbers::states::decoder_of(state), piece, out, list);
    let answer = fed.answer;
    let next = fed.state;
    bridge_numbers::states::keep_decoder(next, state);
    bridge_numbers::telling::tell(bridge_numbers::answers::say_written(answer), says)
}

// moxandril::pieces::finish: 0, how many bytes were written, and the totals whole, damaged and count; or the refusal.
#[unsafe(no_mangle)]
pub extern "C" fn bridge_pieces_finish(
    state: &mut [usize],
    out: &mut [u8],
    list: &mut [u32],
    says: &mut [usize],
) -> usize
    ensures { Finishes byte_decoding decoder_numbers (ready 9 state.old says.old) (decoder_of state.old)
        out.old list.old out.new list.new
        state.old state.new says.old says.new result }
{
    if !bridge_numbers::states::is_state(state, 9) {
        return bridge_numbers::telling::NOT_CALLED;
    }
    if says.len() < bridge_numbers::telling::ROOM {
        return bridge_numbers::telling::NOT_CALLED;
    }
    let finished = moxandril::pieces::finish(bridge_numbers::states::decoder_of(state), out, list);
    let answer = finished.answer;
    let next = finished.state;
    bridge_numbers::states::keep_decoder(next, state);
    bridge_numbers::telling::tell(bridge_numbers::answers::say_total(answer), says)
}

// moxandril::pieces::step: its reply is replied.
#[unsafe(no_mangle)]
pub extern "C" fn bridge_pieces_step(state: &mut [usize], b: u8) -> usize
    ensures { Watches (is_state 9 state.old) (decoder_of state.old) b state.old state.new result }
{
    if !bridge_numbers::states::is_state(state, 9) {
        return bridge_numbers::telling::NOT_CALLED;
    }
    let watched = moxandril::pieces::step(bridge_numbers::states::decoder_of(state), b);
    let next = watched.state;
    bridge_numbers::states::keep_decoder(next, state);
    watched.reply as usize
}
