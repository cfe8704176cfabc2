// Pending bytes: the steps that the decoder and the index builder share, which are no user's calls.
ghost use Rattle.std.specs.Prelude.{◌≡◌, cond, ltb};
ghost use Rattle.terms.specs.Told.{bit};
ghost use Rattle.utf8.specs.Bytes.{bytes};
ghost use Rattle.utf8.specs.Pending.{padded};
ghost use Rattle.utf8_pending.specs.Tail.{settled_size, is_tail, seam_of};
ghost use Rattle.bridge_numbers.specs.Telling.{roomy, not_called, Tells};
ghost use Rattle.bridge_numbers.specs.States.{is_state, ready, held_of, first_of};
ghost use Rattle.bridge_numbers.specs.Answers.{three, seam_numbers};

// utf8_pending::is_tail: 1 for yes, 0 for no.
#[unsafe(no_mangle)]
pub extern "C" fn bridge_pending_is_tail(held: &[usize], n: usize) -> usize
    ensures { result ≡ cond (is_state 3 held.now) (bit (is_tail bytes (held_of held.now) n)) not_called }
{
    if !bridge_numbers::states::is_state(held, 3) {
        return bridge_numbers::telling::NOT_CALLED;
    }
    bridge_numbers::answers::number_of(utf8_pending::is_tail(
        bridge_numbers::states::held_of(held),
        n,
    ))
}

// utf8_pending::seam_of: the seam's size and its four bytes.
#[unsafe(no_mangle)]
pub extern "C" fn bridge_pending_seam_of(
    held: &[usize],
    n: usize,
    piece: &[u8],
    says: &mut [usize],
) -> usize
    ensures { Tells
        (ready 3 held.now says.old)
        (seam_numbers (seam_of (held_of held.now) n piece.now))
        says.old
        says.new
        result }
{
    if !bridge_numbers::states::is_state(held, 3) {
        return bridge_numbers::telling::NOT_CALLED;
    }
    bridge_numbers::telling::tell(
        bridge_numbers::answers::say_seam(utf8_pending::seam_of(
            bridge_numbers::states::held_of(held),
            n,
            piece,
        )),
        says,
    )
}

// utf8_pending::hold: the three held bytes.
#[unsafe(no_mangle)]
pub extern "C" fn bridge_pending_hold(left: &[u8], says: &mut [usize]) -> usize
    ensures { Tells
        (roomy says.old)
        (three (padded left.now))
        says.old
        says.new
        result }
{
    bridge_numbers::telling::tell(
        bridge_numbers::answers::say_held(utf8_pending::hold(left)),
        says,
    )
}

// utf8_pending::settled_size of what stands first: 0 nothing, 1 whole, 2 damage or 3 begun, its size, and the cause of damage.
#[unsafe(no_mangle)]
pub extern "C" fn bridge_pending_settled_size(kind: usize, n: usize, cause: u32) -> usize
    ensures { result ≡ cond (ltb kind 4) (settled_size (first_of kind n cause)) not_called }
{
    if 4 <= kind {
        return bridge_numbers::telling::NOT_CALLED;
    }
    utf8_pending::settled_size(bridge_numbers::states::first_of(kind, n, cause))
}
